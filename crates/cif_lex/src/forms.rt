//! The forms of commands.
ghost use Rattle.std.specs.Prelude.{◌≡◌, ◌+◌, ◌<◌, ◌≤◌, ◌^◌, ◌≢◌, IsTrue, All, take, drop, length, slice_index};
ghost use Rattle.cif_lex.specs.{Blanks.{semicolon, IsFilled}, Words.{is_name_byte, StopsAt, letter}};
ghost use Rattle.cif_lex.specs.{Commands.layer_named, Reading.IsRead, Forms.{IsLedBy, IsFormAnswer, IsBodyAnswer}};

use crate::calls::call;
use crate::command::Command;
use crate::gaps::{begins_with, gap_length};
use crate::numbers::{read_number, read_pair};
use lam_geom::MaskLayer;

/// The most bytes of a layer's name.
const LONGEST_NAME: usize = 4;

/// A command that was read, and how many bytes its words and the gaps after them take.
#[derive(Clone, Copy)]
pub(crate) struct Form {
    pub(crate) command: Command,
    pub(crate) length: usize,
}

// How many bytes the letter takes that a text begins with, and the gap after it.
pub(crate) fn letter_length(text: &[u8]) -> usize
    requires { 0 < length text.now }
    ensures within { result ≤ length text.now }
    ensures some { 0 < result }
    ensures read { IsRead (letter (slice_index text.now 0)) text.now (drop result text.now) }
{
    1 + gap_length(&text[1..])
}

// `B l w x y`
fn area(text: &[u8]) -> Option<Form>
    requires { IsLedBy 66 text.now }
    ensures { IsFormAnswer text.now result }
{
    let begin = letter_length(text);
    let size = read_pair(&text[begin..])?;
    let middle = begin + size.length;
    let centre = read_pair(&text[middle..])?;
    Some(Form {
        command: Command::Area {
            l: size.first,
            w: size.second,
            x: centre.first,
            y: centre.second,
        },
        length: middle + centre.length,
    })
}

// `S n a b` or `S n`, after the letter D, which takes so many bytes
fn definition(text: &[u8], begin: usize) -> Option<Form>
    requires within { begin ≤ length text.now }
    requires read { IsRead (letter 68) text.now (drop begin text.now) }
    requires led { IsLedBy 83 (drop begin text.now) }
    ensures { IsFormAnswer text.now result }
{
    let begin = begin + letter_length(&text[begin..]);
    let symbol = read_number(&text[begin..])?;
    let end = begin + symbol.length;
    Some(match read_pair(&text[end..]) {
        Some(scale) => Form {
            command: Command::Define {
                number: symbol.value,
                above: scale.first,
                below: scale.second,
            },
            length: end + scale.length,
        },
        None => Form {
            command: Command::Define {
                number: symbol.value,
                above: 1,
                below: 1,
            },
            length: end,
        },
    })
}

// `DS n a b`, `DS n` or `DF`
fn bracket(text: &[u8]) -> Option<Form>
    requires { IsLedBy 68 text.now }
    ensures { IsFormAnswer text.now result }
{
    let begin = letter_length(text);
    if begins_with(&text[begin..], b'S') {
        definition(text, begin)
    } else if begins_with(&text[begin..], b'F') {
        let length = begin + letter_length(&text[begin..]);
        Some(Form {
            command: Command::Finish,
            length,
        })
    } else {
        None
    }
}

fn is_name_byte(b: u8) -> bool
    ensures { result ≡ is_name_byte b }
{
    b.is_ascii_uppercase() || b.is_ascii_digit()
}

// How many bytes a text begins with that may stand in a name.
fn name_length(text: &[u8]) -> usize
    ensures within { result ≤ length text.now }
    ensures name { All (λ b. IsTrue (is_name_byte b)) (take result text.now) }
    ensures longest { StopsAt is_name_byte (drop result text.now) }
{
    for (i, b) in text.iter().enumerate() {
        if !is_name_byte(*b) {
            return i;
        }
    }
    text.len()
}

// The layer of the name; none where it is not kept. The names are an N and a letter.
fn layer_named(name: &[u8]) -> Option<MaskLayer>
    ensures { result ≡ layer_named name.now }
{
    let [b'N', letter] = name else {
        return None;
    };
    match *letter {
        b'D' => Some(MaskLayer::ND),
        b'P' => Some(MaskLayer::NP),
        b'C' => Some(MaskLayer::NC),
        b'M' => Some(MaskLayer::NM),
        b'I' => Some(MaskLayer::NI),
        b'B' => Some(MaskLayer::NB),
        _ => None,
    }
}

// `L name`
fn layer(text: &[u8]) -> Option<Form>
    requires { IsLedBy 76 text.now }
    ensures { IsFormAnswer text.now result }
{
    let begin = letter_length(text);
    let length = name_length(&text[begin..]);
    if length == 0 || length > LONGEST_NAME {
        return None;
    }
    let end = begin + length;
    let layer = layer_named(&text[begin..end]);
    Some(Form {
        command: Command::Layer(layer),
        length: end + gap_length(&text[end..]),
    })
}

// How many bytes stand in front of the first semicolon, or in front of the end.
fn extension_length(text: &[u8]) -> usize
    ensures within { result ≤ length text.now }
    ensures inside { All (λ b. b ≢ semicolon) (take result text.now) }
    ensures longest { result < length text.now → IsLedBy semicolon (drop result text.now) }
{
    for (i, b) in text.iter().enumerate() {
        if *b == b';' {
            return i;
        }
    }
    text.len()
}

/// The command that a text begins with, up to what stands after its words and gaps.
pub(crate) fn read_form(text: &[u8]) -> Option<Form>
    requires filled { IsFilled text.now }
    requires few { length text.now ≤ 2 ^ 26 }
    ensures { IsBodyAnswer text.now result }
{
    let first = text[0];
    if first.is_ascii_digit() {
        return Some(Form {
            command: Command::Extension,
            length: extension_length(text),
        });
    }
    match first {
        b';' => Some(Form {
            command: Command::Nothing,
            length: 0,
        }),
        b'B' => area(text),
        b'C' => call(text),
        b'D' => bracket(text),
        b'L' => layer(text),
        _ => None,
    }
}
