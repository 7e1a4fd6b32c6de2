//! Items that face each other along an axis.

ghost use Rattle.std.specs.Prelude.{◌≡◌, ◌↔◌, ◌<◌, ◌^◌, ℤ, pos, ◌+ℤ◌, ◌≤ℤ◌, int_lt, int_le, length, All, Some, IsTrue};
ghost use Rattle.lam_geom.specs.Places.{IsPlacedSpan};
ghost use Rattle.sym_items.specs.{Sides.gap_on_y, Boxes.{HasBox, HasSpan}, Values.value_at};
ghost use Rattle.pair_rules.specs.Bound.{item_at};
ghost use Rattle.pair_rules.specs.Candidates.{IsCandidate, sides_at, is_before, facing_spacing, is_facing};

use crate::bound::is_bound;
use lam_geom::{Axis, Span, gap};
use rule_table::Tech;
use sym_items::{Coords, End, Item, at};

// The span from one end to another.
fn span(low: End, high: End, values: &[i64]) -> Span
    requires { HasSpan values.now low high }
    ensures ends { (result.lo ≡ value_at low values.now) × (result.hi ≡ value_at high values.now) }
    ensures placed { IsPlacedSpan result }
{
    Span {
        lo: at(low, values),
        hi: at(high, values),
    }
}

// Whether two items are nearer to each other across the axis than the spacing.
fn is_near_across(axis: Axis, coords: &Coords, a: &Item, b: &Item, spacing: i64) -> bool
    requires first { HasBox coords.now a.now }
    requires second { HasBox coords.now b.now }
    ensures { result ≡ int_lt (gap_on_y (sides_at axis coords.now a.now) (sides_at axis coords.now b.now)) spacing }
{
    let gap = match axis {
        Axis::X => gap(
            span(a.yl, a.yh, coords.y.as_slice()),
            span(b.yl, b.yh, coords.y.as_slice()),
        ),
        Axis::Y => gap(
            span(a.xl, a.xh, coords.x.as_slice()),
            span(b.xl, b.xh, coords.x.as_slice()),
        ),
    };
    gap < spacing
}

// Whether an item ends at least the spacing before another begins.
fn ends_before(axis: Axis, coords: &Coords, a: &Item, b: &Item, spacing: i64) -> bool
    requires first { HasBox coords.now a.now }
    requires second { HasBox coords.now b.now }
    requires not_negative { pos 0 ≤ℤ spacing }
    requires within_limit { spacing ≤ℤ pos (2 ^ 30) }
    ensures { result ≡ int_le ((sides_at axis coords.now a.now).right +ℤ spacing)
        (sides_at axis coords.now b.now).left }
{
    match axis {
        Axis::X => {
            is_at_most(
                at(a.xh, coords.x.as_slice()) + spacing,
                at(b.xl, coords.x.as_slice()),
            )
        }
        Axis::Y => {
            is_at_most(
                at(a.yh, coords.y.as_slice()) + spacing,
                at(b.yl, coords.y.as_slice()),
            )
        }
    }
}

// Both.
fn is_before(axis: Axis, coords: &Coords, a: &Item, b: &Item, spacing: i64) -> bool
    requires first { HasBox coords.now a.now }
    requires second { HasBox coords.now b.now }
    requires not_negative { pos 0 ≤ℤ spacing }
    requires within_limit { spacing ≤ℤ pos (2 ^ 30) }
    ensures { result ≡ is_before spacing (sides_at axis coords.now a.now) (sides_at axis coords.now b.now) }
{
    is_near_across(axis, coords, a, b, spacing) && ends_before(axis, coords, a, b, spacing)
}

// One comparison of signed numbers, with its exact meaning.
fn is_at_most(a: i64, b: i64) -> bool
    ensures { result ≡ int_le a b }
{
    a <= b
}

/// The spacing, in u, by which one item faces another along an axis, or `None` where it does not. They face where
/// they are bound, their gap across the axis is below their spacing, and the first ends at least the spacing before
/// the second begins.
pub fn facing_spacing(axis: Axis, tech: &Tech, coords: &Coords, a: &Item, b: &Item) -> Option<i64>
    requires first { HasBox coords.now a.now }
    requires second { HasBox coords.now b.now }
    ensures value { result ≡ facing_spacing axis tech.now coords.now a.now b.now }
    ensures candidate { (s : ℤ) → (result ≡ Some s) ↔ IsCandidate axis tech.now coords.now a.now b.now s }
{
    let spacing = is_bound(tech, a, b)?;
    is_before(axis, coords, a, b, spacing).then_some(spacing)
}

/// Whether the items number `i` and `j` are a candidate of an axis: `i` and `j` are bound, their gap across the axis is
/// below their spacing, and `i` ends at least the spacing before `j` begins. It takes no memory.
pub fn facing(axis: Axis, tech: &Tech, items: &[Item], coords: &Coords, i: u32, j: u32) -> bool
    requires boxes { All (HasBox coords.now) items.now }
    requires i_among { i < length items.now }
    requires j_among { j < length items.now }
    ensures value { result ≡ is_facing axis tech.now coords.now items.now i j }
    ensures candidate { IsTrue result
        ↔ ((s : ℤ) × IsCandidate axis tech.now coords.now (item_at items.now i) (item_at items.now j) s) }
{
    facing_spacing(axis, tech, coords, &items[i as usize], &items[j as usize]).is_some()
}
