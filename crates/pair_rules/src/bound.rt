//! Bound pairs.

ghost use Rattle.std.specs.Prelude.{◌≡◌, ◌↔◌, ℤ, pos, ◌≤ℤ◌, IfSome, Some};
ghost use Rattle.pair_rules.specs.Bound.{IsBound, is_poly_on_diffusion, is_joined, bound_spacing};

use rule_table::{Class, Tech};
use sym_items::Item;

// Whether one is poly, and the other diffusion of the mask.
fn is_poly_on_diffusion(a: Class, b: Class) -> bool
    ensures { result ≡ is_poly_on_diffusion a b }
{
    matches!((a, b), (Class::P, Class::Dm) | (Class::Dm, Class::P))
}

/// Whether they are poly and diffusion of the mask that one buried contact joins: such items need keep no spacing.
pub fn is_joined(a: &Item, b: &Item) -> bool
    ensures { result ≡ is_joined a.now b.now }
{
    is_poly_on_diffusion(a.class, b.class) && a.stands_with(b)
}

/// The spacing, in u, that two items have to keep, or `None` where they are not bound. The order of the items does not
/// matter. It takes no memory.
#[tactic(auto, unfolding(crate::specs::Bound::bound_spacing))]
pub fn is_bound(tech: &Tech, a: &Item, b: &Item) -> Option<i64>
    ensures value { result ≡ bound_spacing tech.now a.now b.now }
    ensures meaning { (s : ℤ) → (result ≡ Some s) ↔ IsBound tech.now a.now b.now s }
    ensures either_order { result ≡ bound_spacing tech.now b.now a.now }
    ensures bounds { IfSome result (λ s. (pos 1 ≤ℤ s) × (s ≤ℤ pos 4096)) }
{
    if a.owner == b.owner || is_joined(a, b) {
        return None;
    }
    let rule = tech.spacing(a.class, b.class)?;
    if rule.net_exempt && a.net == b.net {
        return None;
    }
    Some(rule.s)
}
