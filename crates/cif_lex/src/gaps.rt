//! Gaps: the blanks and the comments between words.
ghost use Rattle.std.specs.Prelude.{◌≡◌, ◌<◌, ◌≤◌, take, drop, length, IsSome, MatchOption, MatchBool};
ghost use Rattle.cif_lex.specs.{Blanks.{opening, is_blank, IsComment, IsUnclosed, IsCutOff, IsFilled}, Reading.IsStop};
ghost use Rattle.cif_lex.specs.{Reading.IsAfterGap, Forms.IsLedBy};

fn is_blank(b: u8) -> bool
    ensures { result ≡ is_blank b }
{
    // All bytes below a parenthesis are blanks, spaces and ends of lines among them: mostly one test does.
    b < b'('
        || !(b.is_ascii_digit()
            || b == b';'
            || b.is_ascii_uppercase()
            || b == b'-'
            || b == b'('
            || b == b')')
}

/// Whether the text begins with the byte.
pub(crate) fn begins_with(text: &[u8], byte: u8) -> bool
    ensures { MatchBool result (IsLedBy byte text.now) (IsLedBy byte text.now → ⊥) }
{
    match text.first() {
        Some(first) => *first == byte,
        None => false,
    }
}

/// Whether a text after a gap is at its end, or at a comment that has no end.
pub(crate) fn is_cut(text: &[u8]) -> bool
    requires { IsStop text.now }
    ensures { MatchBool result (IsCutOff text.now) (IsFilled text.now) }
{
    text.is_empty() || text[0] == b'('
}

/// How many bytes the comment takes that a text begins with; none if it has no end.
fn comment_length(text: &[u8]) -> Option<usize>
    requires { IsLedBy opening text.now }
    ensures comment { MatchOption result (IsUnclosed text.now) (λ n. IsComment (take n text.now)) }
    ensures within { MatchOption result Unit (λ n. n ≤ length text.now) }
    ensures some { MatchOption result Unit (λ n. 0 < n) }
{
    let mut depth: usize = 0;
    for (i, b) in text.iter().enumerate() {
        if *b == b'(' {
            depth += 1;
        } else if *b == b')' {
            depth -= 1;
        }
        if depth == 0 {
            return Some(i + 1);
        }
    }
    None
}

/// How many bytes the gap takes that a text begins with. A comment that has no end is no part of it.
pub(crate) fn gap_length(text: &[u8]) -> usize
    ensures within { result ≤ length text.now }
    ensures gap { IsAfterGap text.now (drop result text.now) }
{
    let mut at = 0;
    while at < text.len() {
        if is_blank(text[at]) {
            at += 1;
        } else if text[at] == b'(' {
            match comment_length(&text[at..]) {
                Some(length) => at += length,
                None => return at,
            }
        } else {
            return at;
        }
    }
    at
}
