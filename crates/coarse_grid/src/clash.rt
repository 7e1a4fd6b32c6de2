//! The first pair of items that are too near one another in a layout.

ghost use Rattle.std.specs.Prelude.{◌≡◌, ◌<◌, ◌^◌, ℕ, true, false, None, length, All, IfNone, IfSome};
ghost use Rattle.sym_items.specs.Boxes.{HasBox};
ghost use Rattle.pair_rules.specs.Clean.{IsClean};
ghost use Rattle.coarse_grid.specs.Clash.{is_near, is_near_at, IsFirstClash};

use lam_geom::gap_box;
use pair_rules::is_bound;
use rule_table::Tech;
use sym_items::{Coords, Item, box_of};

// Whether two items are bound and their gap is below their spacing.
pub(crate) fn is_near(tech: &Tech, coords: &Coords, a: &Item, b: &Item) -> bool
    requires first { HasBox coords.now a.now }
    requires second { HasBox coords.now b.now }
    ensures { result ≡ is_near tech.now coords.now a.now b.now }
{
    let Some(spacing) = is_bound(tech, a, b) else {
        return false;
    };
    gap_box(&box_of(a, coords), &box_of(b, coords)) < spacing
}

// The first item after item `i` that is too near to it.
pub(crate) fn first_near(tech: &Tech, items: &[Item], coords: &Coords, i: u32) -> Option<u32>
    requires few { length items.now < 2 ^ 32 }
    requires boxes { All (HasBox coords.now) items.now }
    requires among { i < length items.now }
    ensures none { IfNone result ((j : ℕ) → i < j → j < length items.now
        → is_near_at tech.now coords.now items.now i j ≡ false) }
    ensures some { IfSome result (λ j. (i < j) × (j < length items.now)
        × (is_near_at tech.now coords.now items.now i j ≡ true)) }
    ensures least { IfSome result (λ j. (l : ℕ) → i < l → l < j
        → is_near_at tech.now coords.now items.now i l ≡ false) }
{
    for j in i + 1..items.len() as u32 {
        if is_near(tech, coords, &items[i as usize], &items[j as usize]) {
            return Some(j);
        }
    }
    None
}

/// The least pair `i < j` of items, by `i` and then by `j`, that are bound and have a gap below their spacing; none
/// exactly where the layout is clean. It takes no memory. It looks at each pair of items, so its time grows with the
/// square of their number.
pub fn find_clash(tech: &Tech, items: &[Item], coords: &Coords) -> Option<(u32, u32)>
    requires few { length items.now < 2 ^ 32 }
    requires boxes { All (HasBox coords.now) items.now }
    ensures none { IfNone result (IsClean tech.now coords.now items.now) }
    ensures clean { IsClean tech.now coords.now items.now → result ≡ None }
    ensures clash { IfSome result (λ p. IsFirstClash tech.now coords.now items.now p.0 p.1) }
{
    for i in 0..items.len() as u32 {
        if let Some(j) = first_near(tech, items, coords, i) {
            return Some((i, j));
        }
    }
    None
}
