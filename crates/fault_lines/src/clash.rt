//! The line of a clash.

ghost use Rattle.std.specs.Prelude.{◌≡◌, ◌++◌, OnOk, IfOk};
ghost use Rattle.fault_lines.specs.Clash.{part_text, clash_text};

use cell_model::Cell;
use std::alloc::{AllocError, Global};
use stick_lex::{Text, push_decimal};

// A part of a cell: a node by the path to it, a wire by its number.
fn push_part(out: &mut Vec<u8>, cell: &Cell, part: u32) -> Result<(), AllocError>
    ensures { OnOk result (out.new.items ≡ out.old.items ++ part_text cell.now part) }
{
    let nodes = cell.nodes.as_slice();
    match nodes.get(part as usize) {
        Some(node) => out.extend_from_slice(node.name.bytes()),
        None => {
            out.push(b'#')?;
            push_decimal(out, u64::from(part - nodes.len() as u32))
        }
    }
}

/// The line that says which two parts of a cell clash.
pub fn clash_line(alloc: Global, cell: &Cell, a: u32, b: u32) -> Result<Text, AllocError>
    ensures { IfOk result (λ line. line ≡ clash_text cell.now a b) }
{
    let mut out = Vec::from_slice(alloc, b"sticks: clash in ")?;
    out.extend_from_slice(cell.name.bytes())?;
    out.extend_from_slice(b" between ")?;
    push_part(&mut out, cell, a)?;
    out.extend_from_slice(b" and ")?;
    push_part(&mut out, cell, b)?;
    out.push(b'\n')?;
    Text::new(alloc, &out)
}
