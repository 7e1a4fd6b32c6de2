//! Numbers.
ghost use Rattle.std.specs.{Prelude.{◌≡◌, ◌+◌, ◌<◌, ◌≤◌, IsTrue, All, take, drop, length}, Char.is_ascii_digit};
ghost use Rattle.cif_lex.specs.{Words.{capped, StopsAt}, Reading.{IsNumberAnswer, IsPairAnswer}};

use crate::gaps::{begins_with, gap_length};

/// The greatest distance of a number of a CIF text from 0.
pub const LARGEST: i64 = 1_073_741_824;

// One past it.
const PAST_LARGEST: u64 = LARGEST as u64 + 1;

/// A number that was read: what it is, and how many bytes it and the gap after it take.
#[derive(Clone, Copy)]
pub(crate) struct Number {
    pub(crate) value: i64,
    pub(crate) length: usize,
}

/// Two numbers that were read, and how many bytes they and the gaps after them take.
#[derive(Clone, Copy)]
pub(crate) struct Pair {
    pub(crate) first: i64,
    pub(crate) second: i64,
    pub(crate) length: usize,
}

// The digits that a text begins with: how many they are, and how far the number is from 0 that they stand for. All that
// are past the limit count as one past it.
#[derive(Clone, Copy)]
struct Digits {
    length: usize,
    distance: u64,
}

// How many digits a text begins with.
fn digits_length(text: &[u8]) -> usize
    ensures within { result ≤ length text.now }
    ensures digits { All (λ b. IsTrue (is_ascii_digit b)) (take result text.now) }
    ensures longest { StopsAt is_ascii_digit (drop result text.now) }
{
    for (i, b) in text.iter().enumerate() {
        if !b.is_ascii_digit() {
            return i;
        }
    }
    text.len()
}

// The digits that a text begins with, as many as there are.
fn read_digits(text: &[u8]) -> Digits
    ensures within { result.length ≤ length text.now }
    ensures digits { All (λ b. IsTrue (is_ascii_digit b)) (take result.length text.now) }
    ensures longest { StopsAt is_ascii_digit (drop result.length text.now) }
    ensures value { result.distance ≡ capped (take result.length text.now) }
    ensures small { result.distance ≤ 1073741825 }
{
    let mut distance = 0;
    for (i, b) in text.iter().enumerate() {
        if !b.is_ascii_digit() {
            return Digits {
                length: i,
                distance,
            };
        }
        distance = distance * 10 + u64::from(*b - b'0');
        if distance >= PAST_LARGEST {
            // With more digits it is past the limit as well.
            return Digits {
                length: i + 1 + digits_length(&text[i + 1..]),
                distance: PAST_LARGEST,
            };
        }
    }
    Digits {
        length: text.len(),
        distance,
    }
}

/// The number that a text begins with, and the gap after it.
pub(crate) fn read_number(text: &[u8]) -> Option<Number>
    ensures { IsNumberAnswer text.now result }
{
    let negative = begins_with(text, b'-');
    let begin = usize::from(negative);
    let digits = read_digits(&text[begin..]);
    if digits.length == 0 {
        return None;
    }
    let end = begin + digits.length;
    let distance = digits.distance as i64;
    Some(Number {
        value: if negative { -distance } else { distance },
        length: end + gap_length(&text[end..]),
    })
}

/// The two numbers that a text begins with, and the gaps after them.
pub(crate) fn read_pair(text: &[u8]) -> Option<Pair>
    ensures { IsPairAnswer text.now result }
{
    let first = read_number(text)?;
    let second = read_number(&text[first.length..])?;
    Some(Pair {
        first: first.value,
        second: second.value,
        length: first.length + second.length,
    })
}
