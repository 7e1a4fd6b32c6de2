//! Which main bars may still be seen behind some that screen others.

ghost use Rattle.std.specs.Prelude.{◌≡◌, ◌⊎◌, MatchOption, Some};
ghost use Rattle.bar_rows.specs.declared.bars.Bar.{Bar};
ghost use Rattle.bar_sight.specs.Looks.{IsLeft, IsOf, IsPair};

/// The main bars that are left: all, those of a key or of an owner, or those of a key and an owner, of which there are
/// two pairs.
#[derive(Clone, Copy)]
pub(crate) enum Left {
    All,
    Of(u32, Option<u32>),
    Pairs(Option<(u32, u32)>, Option<(u32, u32)>),
}

impl Left {
    /// What is left behind a bar that hides all others than those of its key and of its owner, where an owner is given;
    /// nothing where no bar is.
    pub(crate) fn behind(self, key: u32, owner: Option<u32>) -> Option<Left>
        ensures { (b : Bar) → IsLeft self b → IsOf key owner b → MatchOption result ⊥ (λ left. IsLeft left b) }
    {
        match self {
            Left::All => Some(Left::Of(key, owner)),
            Left::Of(first, of_first) => {
                if first == key {
                    return Some(Left::Of(key, if of_first == owner { owner } else { None }));
                }
                if of_first.is_some() && of_first == owner {
                    return Some(self);
                }
                pairs(pair(first, owner), pair(key, of_first))
            }
            Left::Pairs(one, other) => pairs(kept(one, key, owner), kept(other, key, owner)),
        }
    }
}

// Those of two pairs; nothing where there is none.
fn pairs(one: Option<(u32, u32)>, other: Option<(u32, u32)>) -> Option<Left>
    ensures { (b : Bar) → IsPair one b ⊎ IsPair other b → MatchOption result ⊥ (λ left. IsLeft left b) }
{
    if one.is_none() && other.is_none() {
        return None;
    }
    Some(Left::Pairs(one, other))
}

// A key with an owner, if there is one.
fn pair(key: u32, owner: Option<u32>) -> Option<(u32, u32)>
    ensures { (b : Bar) → b.key ≡ key → owner ≡ Some b.owner → IsPair result b }
{
    match owner {
        Some(owner) => Some((key, owner)),
        None => None,
    }
}

// A pair of a key and an owner, if it is of a key or of an owner.
fn kept(pair: Option<(u32, u32)>, key: u32, owner: Option<u32>) -> Option<(u32, u32)>
    ensures { (b : Bar) → IsPair pair b → IsOf key owner b → IsPair result b }
{
    match pair {
        Some((its_key, its_owner)) if its_key == key || owner == Some(its_owner) => pair,
        _ => None,
    }
}
