//! An edit of a design.
ghost use Rattle.std.specs.Prelude.{◌≡◌, ◌+◌, ◌^◌, ◌≤◌, ◌<◌, Contains, IfOk, IfSome, MatchOption, length, map};
ghost use Rattle.stick_text.specs.{declared.design.Design.Design as SomeDesign, Writable.IsWritable};
ghost use Rattle.stick_print.specs.ReadBack.{without_line};
ghost use Rattle.design_sizes.specs.Sizes.{lines_in};
ghost use Rattle.edit_lines.specs.Scripts.{cell_in, HasText};
ghost use Rattle.limit_edits.specs.Edits.{number_named, HasLinesAfter, IsEdited};

use crate::limits::changed_lines;
use design_edits::{is_unused, with_lines};
use edit_lines::EditLine;
use std::alloc::{AllocError, Global};
use stick_text::{CellText, Design};

// The number of the cell with this name.
fn number_named(cells: &[CellText], name: &[u8]) -> Option<usize>
    ensures { result ≡ number_named cells.now name.now }
{
    cells.iter().position(|cell| name == cell.name.bytes())
}

/// The design after an edit; None exactly where the cell is no master, is used by a cell, or has no limit with the
/// number that is to be taken away. Whether a limit that is added has a fault is not asked. The only refusal is want
/// of memory.
///
/// It costs time linear in the text of the design.
pub fn edited(
    alloc: Global,
    design: &Design,
    masters: &[u32],
    edit: &EditLine,
) -> Result<Option<Design>, AllocError>
    requires writable { IsWritable design.now }
    requires written { HasText edit.now }
    requires few { lines_in design.now ≤ 2 ^ 30 }
    ensures edited { IfOk result (λ done. MatchOption done
        ((new : SomeDesign) → IsEdited design.now masters.now edit.now new → ⊥)
        (IsEdited design.now masters.now edit.now)) }
    ensures writable { IfOk result (λ done. IfSome done IsWritable) }
    ensures version { IfOk result (λ done. IfSome done (λ new. new.version ≡ design.now.version)) }
    ensures grids { IfOk result
        (λ done. IfSome done (λ new. map without_line new.grids ≡ map without_line design.now.grids)) }
    ensures lines { IfOk result (λ done. IfSome done (HasLinesAfter edit.now design.now)) }
{
    let cells = design.cells.as_slice();
    let Some(cell) = number_named(cells, edit.cell()) else {
        return Ok(None);
    };
    if !masters.contains(&(cell as u32)) || !is_unused(edit.cell(), cells) {
        return Ok(None);
    }
    let text = &cells[cell];
    let Some(lines) = changed_lines(alloc, text.lines.as_slice(), edit)? else {
        return Ok(None);
    };
    let new = with_lines(alloc, design, cell, &lines)?;
    Ok(Some(new))
}
