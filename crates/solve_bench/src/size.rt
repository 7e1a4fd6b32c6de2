ghost use Rattle.std.specs.Prelude.{◌<◌, ◌≤◌, ◌+◌};

/// How large a graph is made: how many variables, edges, and backward ones among these.
#[derive(Clone, Copy)]
pub struct Size {
    pub vars: u32,
    pub edges: u32,
    pub back: u32,
    ghost two: { 2 ≤ vars },
    // no edge between two variables is backward, as none leads into the origin
    ghost three: { 0 < back → 3 ≤ vars },
    ghost few_vars: { vars ≤ 65536 },
    ghost room: { vars + back ≤ edges + 1 },
    ghost few_edges: { edges ≤ 4194304 },
}

// One word as a number.
fn number(word: &str) -> Option<u32> {
    match word.parse::<u32>() {
        Ok(n) => Some(n),
        Err(_) => None,
    }
}

/// The size that three words give, if they are numbers within the limits.
pub fn size_of(words: &[String]) -> Option<Size> {
    if words.len() != 3 {
        return None;
    }
    let vars = number(&words[0])?;
    let edges = number(&words[1])?;
    let back = number(&words[2])?;
    if vars < 2 || vars > 65536 || edges > 4_194_304 || edges < vars - 1 {
        return None;
    }
    if back > edges - (vars - 1) || vars == 2 && back > 0 {
        return None;
    }
    Some(Size { vars, edges, back })
}
