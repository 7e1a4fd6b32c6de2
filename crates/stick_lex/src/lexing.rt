//! From the bytes of a line to its tokens.
ghost use Rattle.std.specs.{Prelude.{◌≡◌, ◌+◌, ◌^◌, ◌<◌, ◌≤◌, true, length, min, IfOk}, List.AllByRecursion};
ghost use Rattle.std.specs.Str.Parse.{digits_value};
ghost use Rattle.stick_lex.specs.Runs.{Run, is_blank, without_comment};
ghost use Rattle.stick_lex.specs.Tokens.{Gives, is_name, is_name_byte, is_path, is_numeral, is_number};
ghost use Rattle.stick_lex.specs.Tokens.{digits_of_number, number_token, token_of, tokens_of, IsTokenOf};

use crate::token::{LexFault, Token, TokenKind};
use std::alloc::Global;

/// The greatest distance of a number of a stick text from 0.
pub const LARGEST: u32 = 1_000_000;

/// The most bytes of a name.
pub const LONGEST_NAME: usize = 32;

// Few lines have more tokens.
const USUAL_TOKENS: usize = 8;

fn is_blank(b: u8) -> bool
    ensures { result ≡ is_blank b }
{
    b == b' ' || b == b'\t'
}

fn without_comment(line: &[u8]) -> &[u8]
    ensures { result.now ≡ without_comment line.now }
{
    let at = line.iter().position(|b| *b == b'#').unwrap_or(line.len());
    &line[..at]
}

/// Whether the text is one name: a letter, then at most 31 letters, digits or underscores. It takes no memory.
pub fn is_name(text: &[u8]) -> bool
    ensures { result ≡ is_name text.now }
{
    match text {
        [] => false,
        [first, rest @ ..] => {
            first.is_ascii_alphabetic()
                && rest.len() < LONGEST_NAME
                && rest.iter().all(|b| b.is_ascii_alphanumeric() || *b == b'_')
        }
    }
}

fn is_path(text: &[u8]) -> bool
    ensures { result ≡ is_path text.now }
{
    text.split(|b| *b == b'.').all(is_name)
}

fn digits_of_number(text: &[u8]) -> &[u8]
    ensures { result.now ≡ digits_of_number text.now }
{
    match text {
        [b'-', digits @ ..] => digits,
        _ => text,
    }
}

fn is_numeral(digits: &[u8]) -> bool
    ensures { result ≡ is_numeral digits.now }
{
    !digits.is_empty() && digits.iter().all(|b| b.is_ascii_digit())
}

/// The number that the digits stand for, or one past the largest where it is larger.
fn capped_value(digits: &[u8]) -> u32
    requires { is_numeral digits.now ≡ true }
    ensures { result ≡ min (digits_value 10 digits.now) 1000001 }
{
    let mut value = 0;
    for digit in digits {
        value = (value * 10 + u32::from(*digit - b'0')).min(LARGEST + 1);
    }
    value
}

fn number_token(lo: u32, text: &[u8]) -> Result<Token, LexFault>
    requires number { is_number text.now ≡ true }
    requires fits { lo + length text.now < 2 ^ 32 }
    ensures { Gives (λ t. t) result (number_token (record { lo = lo; text = text.now })) }
{
    let distance = capped_value(digits_of_number(text));
    if distance > LARGEST {
        return Err(LexFault::NumberTooLarge(lo));
    }
    let hi = lo + text.len() as u32;
    let distance = i64::from(distance);
    let value = match text {
        [b'-', ..] => -distance,
        _ => distance,
    };
    Ok(Token {
        kind: TokenKind::Number,
        lo,
        hi,
        value,
    })
}

#[tactic(auto, unfolding(crate::specs::Tokens::token_of))]
fn token_of(lo: u32, text: &[u8]) -> Result<Token, LexFault>
    requires { lo + length text.now < 2 ^ 32 }
    ensures { Gives (λ t. t) result (token_of (record { lo = lo; text = text.now })) }
{
    let kind = if is_path(text) {
        TokenKind::Path
    } else if is_numeral(digits_of_number(text)) {
        return number_token(lo, text);
    } else if text == b"<=".as_slice() {
        TokenKind::AtMost
    } else if text == b">=".as_slice() {
        TokenKind::AtLeast
    } else {
        return Err(LexFault::BadByte(lo));
    };
    let hi = lo + text.len() as u32;
    Ok(Token {
        kind,
        lo,
        hi,
        value: 0,
    })
}

/// The tokens of one line, given without its line end, in order. What stands after a `#` is no part of them.
///
/// The first run that is no token is refused at the place of its first byte. It costs time linear in the line.
pub fn lex_line(alloc: Global, line: &[u8]) -> Result<Vec<Token>, LexFault>
    requires { length line.now ≤ 2 ^ 20 }
    ensures tokens { Gives (λ v. v.items) result (tokens_of line.now) }
    ensures slices { IfOk result (λ v. AllByRecursion (IsTokenOf line.now) v.items) }
{
    let mut tokens = Vec::with_capacity(alloc, USUAL_TOKENS)?;
    let mut lo = 0;
    for run in without_comment(line).split(|b| is_blank(*b)) {
        if !run.is_empty() {
            tokens.push(token_of(lo as u32, run)?)?;
        }
        lo += run.len() + 1;
    }
    Ok(tokens)
}
