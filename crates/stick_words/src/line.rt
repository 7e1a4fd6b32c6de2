//! The first line of a text.
ghost use Rattle.std.specs.{Prelude.{◌≡◌, ◌<◌, ◌≤◌, ◌∷◌, length}, Str.Lines.{lines, strip_carriage_return}};

/// The first line of a text that is not empty, without its end, and what stands after it. It costs time linear in the
/// line.
pub fn first_line(text: &[u8]) -> (&[u8], &[u8])
    requires { 0 < length text.now }
    ensures first { lines text.now ≡ result.0.now ∷ lines result.1.now }
    ensures shorter { length result.1.now < length text.now }
    ensures within { length result.0.now ≤ length text.now }
{
    match text.iter().position(|b| *b == b'\n') {
        None => (text, &text[text.len()..]),
        Some(at) => (without_carriage_return(&text[..at]), &text[at + 1..]),
    }
}

fn without_carriage_return(line: &[u8]) -> &[u8]
    ensures line { result.now ≡ strip_carriage_return line.now }
    ensures within { length result.now ≤ length line.now }
{
    match line {
        [prefix @ .., b'\r'] => prefix,
        _ => line,
    }
}
