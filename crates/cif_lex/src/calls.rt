//! Calls, and their transformations.
ghost use Rattle.std.specs.Prelude.{◌≡◌, ◌<◌, ◌≤◌, ◌^◌, ◌||◌, pos, length, drop};
ghost use Rattle.cif_lex.specs.{Words.letter, Shifts.{is_odd, is_odd_shift, IsOddWhere}, Commands.{is_far, is_no_axis}};
ghost use Rattle.cif_lex.specs.{Commands.{is_bad, is_turn}, Reading.{HasSmallNumbers, IsRead, IsTransformationAnswer}};
ghost use Rattle.cif_lex.specs.Forms.{IsLedBy, IsFormAnswer};

use crate::command::Command;
use crate::forms::{Form, letter_length};
use crate::gaps::begins_with;
use crate::numbers::{LARGEST, read_number, read_pair};
use crate::placement::{Placement, Transformation};

/// A transformation that was read, and how many bytes its words and the gaps after them take.
#[derive(Clone, Copy)]
pub(crate) struct Transformed {
    pub(crate) transformation: Transformation,
    pub(crate) length: usize,
}

fn is_far(number: i64) -> bool
    ensures { result ≡ is_far number }
{
    number > LARGEST || number < -LARGEST
}

// Whether both or neither of the numbers of a turn is 0.
fn is_no_axis(a: i64, b: i64) -> bool
    ensures { result ≡ is_no_axis a b }
{
    if a == 0 { b == 0 } else { b != 0 }
}

// Whether a number is past the limit, or a turn is along no axis.
fn is_bad(transformation: Transformation) -> bool
    ensures { result ≡ is_bad transformation }
{
    match transformation {
        Transformation::Shift { x, y } => is_far(x) || is_far(y),
        Transformation::MirrorX | Transformation::MirrorY => false,
        Transformation::Turn { a, b } => is_far(a) || is_far(b) || is_no_axis(a, b),
    }
}

// Whether it is no shift.
fn is_turn(transformation: Transformation) -> bool
    ensures { result ≡ is_turn transformation }
{
    match transformation {
        Transformation::Shift { .. } => false,
        Transformation::MirrorX | Transformation::MirrorY | Transformation::Turn { .. } => true,
    }
}

// The greatest common divisor: what divides a multiple of both numbers divides that multiple of it, and the other way
// round.
fn common_divisor(a: u32, b: u32) -> u32
    ensures { IsOddWhere (λ above below. is_odd above below (pos a) || is_odd above below (pos b)) result }
{
    let mut divisor = a;
    let mut rest = b;
    while rest > 0 {
        let next = divisor % rest;
        divisor = rest;
        rest = next;
    }
    divisor
}

// The same for this number and those of one transformation more, if it is a shift.
fn divisor_with(divisor: u32, transformation: Transformation) -> u32
    requires { HasSmallNumbers transformation }
    ensures { IsOddWhere (λ above below. is_odd above below (pos divisor) || is_odd_shift above below transformation)
        result }
{
    match transformation {
        Transformation::Shift { x, y } => {
            let with_x = common_divisor(divisor, x.unsigned_abs() as u32);
            common_divisor(with_x, y.unsigned_abs() as u32)
        }
        Transformation::MirrorX | Transformation::MirrorY | Transformation::Turn { .. } => divisor,
    }
}

// `T x y`
fn read_shift(text: &[u8]) -> Option<Transformed>
    requires { IsLedBy 84 text.now }
    ensures { IsTransformationAnswer text.now result }
{
    let begin = letter_length(text);
    let shift = read_pair(&text[begin..])?;
    Some(Transformed {
        transformation: Transformation::Shift {
            x: shift.first,
            y: shift.second,
        },
        length: begin + shift.length,
    })
}

// `R a b`
fn read_turn(text: &[u8]) -> Option<Transformed>
    requires { IsLedBy 82 text.now }
    ensures { IsTransformationAnswer text.now result }
{
    let begin = letter_length(text);
    let axis = read_pair(&text[begin..])?;
    Some(Transformed {
        transformation: Transformation::Turn {
            a: axis.first,
            b: axis.second,
        },
        length: begin + axis.length,
    })
}

// `M X` or `M Y`
fn read_mirror(text: &[u8]) -> Option<Transformed>
    requires { IsLedBy 77 text.now }
    ensures { IsTransformationAnswer text.now result }
{
    let begin = letter_length(text);
    if begins_with(&text[begin..], b'X') {
        let length = begin + letter_length(&text[begin..]);
        Some(Transformed {
            transformation: Transformation::MirrorX,
            length,
        })
    } else if begins_with(&text[begin..], b'Y') {
        let length = begin + letter_length(&text[begin..]);
        Some(Transformed {
            transformation: Transformation::MirrorY,
            length,
        })
    } else {
        None
    }
}

// The transformation that a text begins with.
fn read_transformation(text: &[u8]) -> Option<Transformed>
    ensures { IsTransformationAnswer text.now result }
{
    if begins_with(text, b'T') {
        read_shift(text)
    } else if begins_with(text, b'M') {
        read_mirror(text)
    } else if begins_with(text, b'R') {
        read_turn(text)
    } else {
        None
    }
}

/// `C n` and any number of transformations.
pub(crate) fn call(text: &[u8]) -> Option<Form>
    requires led { IsLedBy 67 text.now }
    requires few { length text.now ≤ 2 ^ 26 }
    ensures { IsFormAnswer text.now result }
{
    let begin = letter_length(text);
    let symbol = read_number(&text[begin..])?;
    let mut at = begin + symbol.length;
    let mut place = Placement::still();
    let mut bad = false;
    let mut turned = false;
    let mut divisor = 0;
    while let Some(read) = read_transformation(&text[at..]) {
        at += read.length;
        place = read.transformation.placement().after(place);
        bad = bad | is_bad(read.transformation);
        turned = turned | is_turn(read.transformation);
        divisor = divisor_with(divisor, read.transformation);
    }
    Some(Form {
        command: Command::Call {
            number: symbol.value,
            place,
            bad,
            turned,
            divisor,
        },
        length: at,
    })
}
