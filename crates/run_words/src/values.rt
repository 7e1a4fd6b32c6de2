//! What may stand in the words: lists of passes, and numbers.

ghost use Rattle.std.specs.Prelude.{◌≡◌, true, IfOk, IfSome, ◌≤◌};
ghost use Rattle.run_words.specs.Values.{axes_in, count_in, is_number, is_pass_list, most_in, number_in};

use lam_geom::Axis;
use std::alloc::{AllocError, Global};

// The most passes of a list.
const MOST_PASSES: usize = 16;

// The greatest number of shares, and of a made design.
const MOST_COUNT: u32 = 64;

// The most breaks that are listed.
const MOST_BREAKS: u32 = 65_536;

// Whether a word is a list of passes: one to sixteen letters x and y, with both of them.
pub(crate) fn is_pass_list(word: &str) -> bool
    ensures { result ≡ is_pass_list word.now }
{
    let letters = word.as_bytes();
    letters.len() <= MOST_PASSES
        && (letters.iter().all(|b| *b == b'x' || *b == b'y')
            && (letters.iter().any(|b| *b == b'x') && letters.iter().any(|b| *b == b'y')))
}

// The axes of the letters of a list of passes. The only refusal is want of memory.
pub(crate) fn axes(alloc: Global, passes: &str) -> Result<Vec<Axis>, AllocError>
    ensures { IfOk result (λ axes. axes.items ≡ axes_in passes.now) }
{
    let mut axes = Vec::new(alloc);
    for b in passes.as_bytes() {
        axes.push(if *b == b'x' { Axis::X } else { Axis::Y })?;
    }
    Ok(axes)
}

// Whether a word is a number: one to so many decimal digits.
fn is_number(word: &str, most_digits: usize) -> bool
    ensures { result ≡ is_number most_digits word.now }
{
    let digits = word.as_bytes();
    1 <= digits.len() && (digits.len() <= most_digits && digits.iter().all(|b| b.is_ascii_digit()))
}

// The number that a word with at most so many digits is, where it is 1 to `most`.
fn number(word: &str, most_digits: usize, most: u32) -> Option<u32>
    requires { most_digits ≤ 9 }
    ensures value { result ≡ number_in most_digits most word.now }
    ensures limits { IfSome result (λ n. (1 ≤ n) × (n ≤ most)) }
{
    if !is_number(word, most_digits) {
        return None;
    }
    match word.parse::<u32>() {
        Ok(n) => { if 1 <= n && n <= most { Some(n) } else { None } }
        Err(_) => None,
    }
}

// The number of shares, or of a made design, that a word is: one to three digits, 1 to 64.
pub(crate) fn count(word: &str) -> Option<u32>
    ensures value { result ≡ count_in word.now }
    ensures limits { IfSome result (λ n. (1 ≤ n) × (n ≤ 64)) }
{
    number(word, 3, MOST_COUNT)
}

// The most breaks that are listed, which a word is: one to five digits, 1 to 65,536.
pub(crate) fn most_breaks(word: &str) -> Option<u32>
    ensures value { result ≡ most_in word.now }
    ensures limits { IfSome result (λ n. (1 ≤ n) × (n ≤ 65536)) }
{
    number(word, 5, MOST_BREAKS)
}
