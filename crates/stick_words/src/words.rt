//! The words of a line, and what stands in front of them.
ghost use Rattle.std.specs.{Prelude.{◌≡◌, length, map, IfOk, bytes_eq}, List.AllByRecursion};
ghost use Rattle.stick_lex.specs.Tokens.{IsTokenOf};
ghost use Rattle.stick_text.specs.{Reading.GivesLine, Words.{word_of, path_at, name_at, number_at, count_of, count_at}};
ghost use Rattle.stick_text.specs.Words.{optional_count_at, at_most_at, layer_named, layer_at, lower_named, lower_at};
ghost use Rattle.stick_text.specs.Words.{side_named, side_at, second_of, either_at, ended};
ghost use Rattle.stick_words.specs.WordViews.{view, views};

use lam_geom::Side;
use std::alloc::{AllocError, Global};
use stick_lex::{LARGEST, Token, TokenKind, is_name};
use stick_text::{Layer, LineFault, StickKind};

/// A word of a line.
#[derive(Clone, Copy)]
pub enum Word<'a> {
    Path(&'a [u8]),
    Number(i64),
    AtMost,
    AtLeast,
}

const BAD_LINE: LineFault = LineFault::Kind(StickKind::BadLine);

fn word_of<'a>(line: &'a [u8], token: Token) -> Word<'a>
    requires { IsTokenOf line.now token }
    ensures { view result ≡ word_of line.now token }
{
    match token.kind {
        TokenKind::Path => Word::Path(&line[token.lo as usize..token.hi as usize]),
        TokenKind::Number => Word::Number(token.value),
        TokenKind::AtMost => Word::AtMost,
        TokenKind::AtLeast => Word::AtLeast,
    }
}

/// What the tokens of a line say.
pub fn words_of<'a>(
    alloc: Global,
    line: &'a [u8],
    tokens: &[Token],
) -> Result<Vec<Word<'a>>, AllocError>
    requires { AllByRecursion (IsTokenOf line.now) tokens.now }
    ensures { IfOk result (λ v. views v.items ≡ map (word_of line.now) tokens.now) }
{
    let mut words = Vec::with_capacity(alloc, tokens.len())?;
    for token in tokens {
        words.push(word_of(line, *token))?;
    }
    Ok(words)
}

/// A value, and the words after it; or that the line is bad.
pub type Prefix<'w, 'a, T> = Result<(T, &'w [Word<'a>]), LineFault>;

#[tactic(auto, unfolding(stick_text::specs::Words::path_at))]
pub fn path_at<'w, 'a>(words: &'w [Word<'a>]) -> Prefix<'w, 'a, &'a [u8]>
    ensures { GivesLine (λ x. (x.0.now, views x.1.now)) result (path_at (views words.now)) }
{
    match words {
        [Word::Path(path), rest @ ..] => Ok((*path, rest)),
        _ => Err(BAD_LINE),
    }
}

#[tactic(auto, unfolding(stick_text::specs::Words::name_at))]
pub fn name_at<'w, 'a>(words: &'w [Word<'a>]) -> Prefix<'w, 'a, &'a [u8]>
    ensures { GivesLine (λ x. (x.0.now, views x.1.now)) result (name_at (views words.now)) }
{
    let (path, rest) = path_at(words)?;
    if is_name(path) {
        Ok((path, rest))
    } else {
        Err(BAD_LINE)
    }
}

#[tactic(auto, unfolding(stick_text::specs::Words::number_at))]
pub fn number_at<'w, 'a>(words: &'w [Word<'a>]) -> Prefix<'w, 'a, i64>
    ensures { GivesLine (λ x. (x.0, views x.1.now)) result (number_at (views words.now)) }
{
    match words {
        [Word::Number(number), rest @ ..] => Ok((*number, rest)),
        _ => Err(BAD_LINE),
    }
}

#[tactic(auto, unfolding(stick_text::specs::Words::count_at))]
pub fn count_at<'w, 'a>(words: &'w [Word<'a>]) -> Prefix<'w, 'a, u32>
    ensures { GivesLine (λ x. (x.0, views x.1.now)) result (count_at (views words.now)) }
{
    let (number, rest) = number_at(words)?;
    if number >= 0 && number <= i64::from(LARGEST) {
        Ok((number as u32, rest))
    } else {
        Err(BAD_LINE)
    }
}

#[tactic(auto, unfolding(stick_text::specs::Words::optional_count_at))]
pub fn optional_count_at<'w, 'a>(words: &'w [Word<'a>]) -> Prefix<'w, 'a, Option<u32>>
    ensures { GivesLine (λ x. (x.0, views x.1.now)) result (optional_count_at (views words.now)) }
{
    if words.is_empty() {
        return Ok((None, words));
    }
    let (count, rest) = count_at(words)?;
    Ok((Some(count), rest))
}

#[tactic(auto, unfolding(stick_text::specs::Words::at_most_at))]
pub fn at_most_at<'w, 'a>(words: &'w [Word<'a>]) -> Prefix<'w, 'a, bool>
    ensures { GivesLine (λ x. (x.0, views x.1.now)) result (at_most_at (views words.now)) }
{
    match words {
        [Word::AtMost, rest @ ..] => Ok((true, rest)),
        [Word::AtLeast, rest @ ..] => Ok((false, rest)),
        _ => Err(BAD_LINE),
    }
}

/// Whether two texts are the same.
pub fn equals(a: &[u8], b: &[u8]) -> bool
    ensures { result ≡ bytes_eq a.now b.now }
{
    a == b
}

fn layer_named(text: &[u8]) -> Result<Layer, LineFault>
    ensures { GivesLine (λ x. x) result (layer_named text.now) }
{
    if equals(text, b"diff") {
        Ok(Layer::Diffusion)
    } else if equals(text, b"poly") {
        Ok(Layer::Poly)
    } else if equals(text, b"metal") {
        Ok(Layer::Metal)
    } else {
        Err(BAD_LINE)
    }
}

#[tactic(auto, unfolding(stick_text::specs::Words::layer_at))]
pub fn layer_at<'w, 'a>(words: &'w [Word<'a>]) -> Prefix<'w, 'a, Layer>
    ensures { GivesLine (λ x. (x.0, views x.1.now)) result (layer_at (views words.now)) }
{
    let (path, rest) = path_at(words)?;
    let layer = layer_named(path)?;
    Ok((layer, rest))
}

fn lower_named(text: &[u8]) -> Result<Layer, LineFault>
    ensures { GivesLine (λ x. x) result (lower_named text.now) }
{
    if equals(text, b"diff") {
        Ok(Layer::Diffusion)
    } else if equals(text, b"poly") {
        Ok(Layer::Poly)
    } else {
        Err(BAD_LINE)
    }
}

#[tactic(auto, unfolding(stick_text::specs::Words::lower_at))]
pub fn lower_at<'w, 'a>(words: &'w [Word<'a>]) -> Prefix<'w, 'a, Layer>
    ensures { GivesLine (λ x. (x.0, views x.1.now)) result (lower_at (views words.now)) }
{
    let (path, rest) = path_at(words)?;
    let layer = lower_named(path)?;
    Ok((layer, rest))
}

fn side_named(text: &[u8]) -> Result<Side, LineFault>
    ensures { GivesLine (λ x. x) result (side_named text.now) }
{
    if equals(text, b"left") {
        Ok(Side::Left)
    } else if equals(text, b"right") {
        Ok(Side::Right)
    } else if equals(text, b"bottom") {
        Ok(Side::Bottom)
    } else if equals(text, b"top") {
        Ok(Side::Top)
    } else {
        Err(BAD_LINE)
    }
}

#[tactic(auto, unfolding(stick_text::specs::Words::side_at))]
pub fn side_at<'w, 'a>(words: &'w [Word<'a>]) -> Prefix<'w, 'a, Side>
    ensures { GivesLine (λ x. (x.0, views x.1.now)) result (side_at (views words.now)) }
{
    let (path, rest) = path_at(words)?;
    let side = side_named(path)?;
    Ok((side, rest))
}

fn second_of(first: &[u8], second: &[u8], text: &[u8]) -> Result<bool, LineFault>
    ensures { GivesLine (λ x. x) result (second_of first.now second.now text.now) }
{
    if text == first {
        Ok(false)
    } else if text == second {
        Ok(true)
    } else {
        Err(BAD_LINE)
    }
}

/// Whether the word in front is the second of two.
#[tactic(auto, unfolding(stick_text::specs::Words::either_at))]
pub fn either_at<'w, 'a>(first: &[u8], second: &[u8], words: &'w [Word<'a>]) -> Prefix<'w, 'a, bool>
    ensures { GivesLine (λ x. (x.0, views x.1.now)) result (either_at first.now second.now (views words.now)) }
{
    let (path, rest) = path_at(words)?;
    let choice = second_of(first, second, path)?;
    Ok((choice, rest))
}

#[tactic(auto, unfolding(stick_text::specs::Words::ended))]
pub fn ended(words: &[Word]) -> Result<(), LineFault>
    ensures { GivesLine (λ x. x) result (ended (views words.now)) }
{
    if words.is_empty() {
        Ok(())
    } else {
        Err(BAD_LINE)
    }
}
