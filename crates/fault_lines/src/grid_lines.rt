//! The line that says what is wrong with a grid.

ghost use Rattle.std.specs.Prelude.{◌≡◌, ◌++◌, decimal, option_map, OnOk, IfOk};
ghost use Rattle.fault_lines.specs.GridLines.{border_word, place_words, grid_words, name_words, grid_line};

use std::alloc::{AllocError, Global};
use stick_lex::{Text, push_decimal};
use stick_text::GridFault;

/// Adds words and the number after them.
pub fn push_count(out: &mut Vec<u8>, words: &[u8], count: usize) -> Result<(), AllocError>
    ensures { OnOk result (out.new.items ≡ out.old.items ++ (words.now ++ decimal count)) }
{
    out.extend_from_slice(words)?;
    push_decimal(out, count as u64)
}

// Adds words and the place of an instance after them.
fn push_place(out: &mut Vec<u8>, words: &[u8], row: u32, col: u32) -> Result<(), AllocError>
    ensures { OnOk result (out.new.items ≡ out.old.items ++ place_words words.now row col) }
{
    push_count(out, words, row as usize)?;
    push_count(out, b" ", col as usize)
}

fn border_word(top: bool) -> &'static [u8]
    ensures { result.now ≡ border_word top }
{
    if top { b" top " } else { b" right " }
}

fn push_fault(out: &mut Vec<u8>, fault: GridFault) -> Result<(), AllocError>
    ensures { OnOk result (out.new.items ≡ out.old.items ++ grid_words fault) }
{
    match fault {
        GridFault::Empty => out.extend_from_slice(b"Empty"),
        GridFault::UnknownCell { row, col } => push_place(out, b"UnknownCell ", row, col),
        GridFault::RaggedRow { row } => push_count(out, b"RaggedRow ", row as usize),
        GridFault::PortMismatch {
            row,
            col,
            top,
            index,
        } => {
            push_place(out, b"PortMismatch ", row, col)?;
            push_count(out, border_word(top), index as usize)
        }
    }
}

fn push_name(out: &mut Vec<u8>, name: Option<&[u8]>) -> Result<(), AllocError>
    ensures { OnOk result (out.new.items ≡ out.old.items ++ name_words (option_map (λ bytes. bytes.now) name.entry)) }
{
    match name {
        None => Ok(()),
        Some(name) => {
            out.push(b' ')?;
            out.extend_from_slice(name)
        }
    }
}

/// The line that says what is wrong with a grid, which may have a name.
pub fn grid_line(alloc: Global, name: Option<&[u8]>, fault: GridFault) -> Result<Text, AllocError>
    ensures { IfOk result (λ line. line ≡ grid_line (option_map (λ bytes. bytes.now) name.entry) fault) }
{
    let mut out = Vec::from_slice(alloc, b"sticks: grid")?;
    push_name(&mut out, name)?;
    out.extend_from_slice(b": ")?;
    push_fault(&mut out, fault)?;
    out.push(b'\n')?;
    Text::new(alloc, &out)
}
