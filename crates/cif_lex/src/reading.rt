//! From bytes to commands.
ghost use Rattle.std.specs.Prelude.{◌≡◌, ◌^◌, ◌<◌, ◌≤◌, length};
ghost use Rattle.cif_lex.specs.Commands.{IsNext, IsTail};

use crate::command::{Next, Tail};
use crate::forms::read_form;
use crate::gaps::{begins_with, gap_length, is_cut};

/// What comes next after the first `read` bytes. Linear in what it passes over. It takes no memory.
pub fn next(bytes: &[u8], read: usize) -> Next
    requires within { read ≤ length bytes.now }
    requires few { length bytes.now ≤ 2 ^ 26 }
    ensures { IsNext bytes.now read result }
{
    let begin = read + gap_length(&bytes[read..]);
    let text = &bytes[begin..];
    if is_cut(text) {
        return Next::Missing;
    }
    if begins_with(text, b'E') {
        return Next::End { begin };
    }
    let Some(form) = read_form(text) else {
        return Next::Bad { begin };
    };
    let rest = &text[form.length..];
    if is_cut(rest) {
        Next::Cut {
            begin,
            command: form.command,
        }
    } else if begins_with(rest, b';') {
        Next::Whole {
            begin,
            command: form.command,
            after: begin + form.length + 1,
        }
    } else {
        Next::Bad { begin }
    }
}

/// What stands after the end, of which `read` is the place. It takes no memory.
pub fn tail(bytes: &[u8], read: usize) -> Tail
    requires within { read ≤ length bytes.now }
    ensures { IsTail bytes.now read result }
{
    let begin = read + gap_length(&bytes[read..]);
    let text = &bytes[begin..];
    if text.is_empty() {
        Tail::Clean
    } else if is_cut(text) {
        Tail::Unclosed
    } else {
        Tail::Filled { begin }
    }
}
