//! What a table's texts stand for, and the values of names in it.

use crate::cases::COMMON;
use std::alloc::Global;
use std::test::Fail;

// A text between dollar signs, which is said for each number from the first one to the one before the last: with the
// number for `@`, and the next one for `^`.
fn repeated(alloc: Global, part: &str) -> Result<String, Fail> {
    let (numbers, text) = part.split_once(' ').ok_or("no numbers")?;
    let (first, last) = numbers.split_once('-').ok_or("no last number")?;
    let first: u32 = first.parse()?;
    let last: u32 = last.parse()?;
    if text.len() == 1 {
        return Ok(text.repeat(alloc, last.saturating_sub(first) as usize)?);
    }
    let mut made = String::new(alloc);
    for k in first..last {
        let own = format!(in alloc; "{k}")?;
        let next = format!(in alloc; "{}", k + 1)?;
        let said = text.replace(alloc, '@', &own)?;
        made.push_str(&said.replace(alloc, '^', &next)?)?;
    }
    Ok(made)
}

/// The text for which a text of a table stands, in which a stroke is the end of a line.
pub fn unfolded(alloc: Global, text: &str) -> Result<String, Fail> {
    let mut made = String::new(alloc);
    let mut is_plain = true;
    for part in text.split('$') {
        if is_plain {
            made.push_str(part)?;
        } else {
            made.push_str(&repeated(alloc, part)?)?;
        }
        is_plain = !is_plain;
    }
    Ok(made.replace(alloc, '/', "\n")?)
}

/// The value of a name in a paragraph, or else in what the paragraph differs from.
pub fn value_of<'a>(paragraph: &'a str, other: &'a str, name: &str) -> &'a str {
    for lines in [paragraph, other, COMMON] {
        for line in lines.lines() {
            if let Some((own, value)) = line.split_once(':') {
                if own == name {
                    return value.trim_start();
                }
            }
        }
    }
    ""
}
