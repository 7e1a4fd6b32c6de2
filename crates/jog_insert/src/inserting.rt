//! A jog in a wire of a design.
ghost use Rattle.std.specs.Prelude.{◌≡◌, ◌+◌, ◌^◌, ◌<◌, ◌≤◌, All, IfOk, IfSome, List, MatchBool, MatchOption, length};
ghost use Rattle.std.specs.{Prelude.map, List.AllByRecursion};
ghost use Rattle.rule_table.specs.declared.technology.Tech.{Tech};
ghost use Rattle.stick_text.specs.declared.design.{Design.Design as SomeDesign, Line.Line};
ghost use Rattle.stick_text.specs.Writable.{IsCell, IsLine, IsPath, IsWritable};
ghost use Rattle.stick_print.specs.ReadBack.{without_line};
ghost use Rattle.cell_model.specs.{Nets.HasEnds, Sound.IsSound};
ghost use Rattle.checked_cells.specs.{Counts.weight_of, CheckedCell.{cell_of, known_at}, Tables.{known_of, IsResolved}};
ghost use Rattle.jog_insert.specs.{Jogs.{IsBent, IsCopy, IsJogged, IsNearForm}, Building.{StandsAlone, IsBentCell}};
ghost use Rattle.design_sizes.specs.Sizes.{lines_in};

use crate::bending::Place;
use crate::joints::{Joints, are_near, bent_lines, wire_line};
use crate::naming::free_number;
use crate::runs::run_of;
use cell_model::Cell;
use checked_cells::Cells;
use design_edits::{is_short, is_unused, with_lines};
use std::alloc::{AllocError, Global};
use stick_text::{CellText, Design, Form, Line as TextLine};

fn is_copy(form: &Form) -> bool
    ensures { MatchBool result (IsCopy form.now) (IsCopy form.now → ⊥) }
{
    matches!(form, Form::Inst { .. })
}

// Whether none of the lines is a use.
fn is_whole(lines: &[TextLine]) -> bool
    ensures { MatchBool result (All (λ line. IsCopy line.form → ⊥) lines.now)
        (All (λ line. IsCopy line.form → ⊥) lines.now → ⊥) }
{
    lines.iter().all(|line| !is_copy(&line.form))
}

// Whether the cell is a master that has no uses and is used by no cell.
fn stands_alone(design: &Design, masters: &[u32], cell: u32) -> bool
    requires { cell < length design.now.cells }
    ensures { MatchBool result (StandsAlone design.now masters.now cell) (StandsAlone design.now masters.now cell → ⊥) }
{
    let cells = design.cells.as_slice();
    let text = &cells[cell as usize];
    masters.contains(&cell)
        && is_whole(text.lines.as_slice())
        && is_unused(text.name.bytes(), cells)
}

// The lines of the cell with a jog in its wire `k`, where that can be bent and nothing comes to lie too far out.
fn bent_cell(
    alloc: Global,
    text: &CellText,
    content: &Cell,
    k: u32,
    r: u32,
    left: bool,
) -> Result<Option<Vec<TextLine>>, AllocError>
    requires written { IsCell text.now }
    requires few { length text.now.lines < 2 ^ 31 }
    requires sound { (tech : Tech) × IsSound tech content.now }
    requires ends { AllByRecursion (HasEnds content.now) content.now.wires }
    requires named { AllByRecursion (λ node. IsPath node.name) content.now.nodes }
    ensures bent { IfOk result (λ done. MatchOption done
        ((lines : List Line) → IsBent text.now content.now k r left lines → All (λ line. IsNearForm line.form) lines
        → ⊥)
        (λ new. IsBentCell text.now content.now k r left new.items)) }
    ensures written { IfOk result (λ done. IfSome done (λ new. AllByRecursion IsLine new.items)) }
    ensures lines { IfOk result (λ done. IfSome done (λ new. length new.items ≡ length text.now.lines + 4)) }
{
    let old = text.lines.as_slice();
    let Some(run) = run_of(content, k, r) else {
        return Ok(None);
    };
    let Some((at, layer)) = wire_line(old, k) else {
        return Ok(None);
    };
    let number = free_number(alloc, old)?;
    let nodes = content.nodes.as_slice();
    let joints = Joints {
        place: Place {
            col: run.col,
            row: r,
            left,
        },
        number,
        layer,
        width: run.width,
        low: nodes[run.low as usize].name.bytes(),
        high: nodes[run.high as usize].name.bytes(),
    };
    let lines = bent_lines(alloc, joints, old, at)?;
    if !are_near(&lines) {
        return Ok(None);
    }
    Ok(Some(lines))
}

/// The design with a jog in wire `k` (from 0) of a cell, above row `r`, to the left or else to the right; None exactly
/// where no jog can be put there. The only refusal is want of memory: so is a design refused that has more than 2^30
/// lines.
///
/// It costs time linear in the text of the design and in the cell. The new design has four more lines.
pub fn insert(
    alloc: Global,
    design: &Design,
    cells: &Cells,
    masters: &[u32],
    cell: u32,
    k: u32,
    r: u32,
    left: bool,
) -> Result<Option<Design>, AllocError>
    requires resolved { IsResolved cells.now }
    requires of { cells.now.design.now ≡ design.now }
    requires within { cell < length (known_of cells.now) }
    requires light { All (λ m. weight_of (known_at (known_of cells.now) m) ≤ 65536) masters.now }
    ensures jogged { IfOk result (λ done. MatchOption done
        ((new : SomeDesign) → IsJogged design.now (cell_of (known_at (known_of cells.now) cell)) masters.now cell k r
        left new → ⊥)
        (IsJogged design.now (cell_of (known_at (known_of cells.now) cell)) masters.now cell k r left)) }
    ensures writable { IfOk result (λ done. IfSome done IsWritable) }
    ensures version { IfOk result (λ done. IfSome done (λ new. new.version ≡ design.now.version)) }
    ensures grids { IfOk result
        (λ done. IfSome done (λ new. map without_line new.grids ≡ map without_line design.now.grids)) }
    ensures lines { IfOk result (λ done. IfSome done (λ new. lines_in new ≡ lines_in design.now + 4)) }
{
    if !stands_alone(design, masters, cell) {
        return Ok(None);
    }
    if !is_short(design) {
        return Err(AllocError);
    }
    let text = &design.cells.as_slice()[cell as usize];
    let content = cells.inline(alloc, cell)?;
    let Some(bent) = bent_cell(alloc, text, &content, k, r, left)? else {
        return Ok(None);
    };
    let new = with_lines(alloc, design, cell as usize, &bent)?;
    Ok(Some(new))
}
