//! Whether a cell is used.
ghost use Rattle.std.specs.Prelude.{All, MatchBool};
ghost use Rattle.design_edits.specs.Cells.{AreWithoutUse, Uses};

use stick_text::{CellText, Form, Line};

fn is_use_of(name: &[u8], form: &Form) -> bool
    ensures { MatchBool result (Uses name.now form.now) (Uses name.now form.now → ⊥) }
{
    match form {
        Form::Inst { cell, .. } => cell.bytes() == name,
        _ => false,
    }
}

// Whether none of the lines is a use of the cell with this name.
fn is_unused_in(name: &[u8], lines: &[Line]) -> bool
    ensures { MatchBool result (All (λ line. Uses name.now line.form → ⊥) lines.now)
        (All (λ line. Uses name.now line.form → ⊥) lines.now → ⊥) }
{
    lines.iter().all(|line| !is_use_of(name, &line.form))
}

/// Whether none of the cells uses the cell with this name.
pub fn is_unused(name: &[u8], cells: &[CellText]) -> bool
    ensures { MatchBool result (AreWithoutUse name.now cells.now) (AreWithoutUse name.now cells.now → ⊥) }
{
    cells
        .iter()
        .all(|cell| is_unused_in(name, cell.lines.as_slice()))
}
