//! Whether items lie clean, found when the test runs.

ghost use Rattle.std.specs.Prelude.{◌≤◌, ◌^◌, length, pos, neg_ℤ, ◌≤ℤ◌, IsTrue, IfOk, All};
ghost use Rattle.sym_items.specs.Boxes.{IsPlacedEnd, HasSpan, HasBox};
ghost use Rattle.pair_rules.specs.Clean.{IsClean};

use coarse_grid::first_clash;
use lam_geom::Axis;
use rule_table::Tech;
use std::alloc::{AllocError, Global};
use sym_items::{Coords, End, Item, at};

// No value lies farther from the origin than this, in u, and no end farther from its value.
const FAR: i64 = 1_000_000;

fn is_near(z: i64) -> bool
    ensures low { IsTrue result → neg_ℤ (pos 1000000) ≤ℤ z }
    ensures high { IsTrue result → z ≤ℤ pos 1000000 }
{
    -FAR <= z && z <= FAR
}

fn is_placed(values: &[i64], end: End) -> bool
    ensures { IsTrue result → IsPlacedEnd values.now end }
{
    match values.get(end.var as usize) {
        Some(value) => is_near(*value) && is_near(end.off),
        None => false,
    }
}

fn has_span(values: &[i64], low: End, high: End) -> bool
    ensures { IsTrue result → HasSpan values.now low high }
{
    is_placed(values, low) && is_placed(values, high) && at(low, values) <= at(high, values)
}

fn has_box(coords: &Coords, item: &Item) -> bool
    ensures { IsTrue result → HasBox coords.now item.now }
{
    has_span(coords.values(Axis::X), item.xl, item.xh)
        && has_span(coords.values(Axis::Y), item.yl, item.yh)
}

// Whether there are few enough items for a layout, and each has a box.
pub fn have_boxes(items: &[Item], coords: &Coords) -> bool
    ensures few { IsTrue result → length items.now ≤ 2 ^ 20 }
    ensures boxes { IsTrue result → All (HasBox coords.now) items.now }
{
    for item in items {
        if !has_box(coords, item) {
            return false;
        }
    }
    items.len() <= 1 << 20
}

// The same, and whether the layout is clean.
pub fn lie_clean(
    alloc: Global,
    tech: &Tech,
    items: &[Item],
    coords: &Coords,
) -> Result<bool, AllocError>
    ensures few { IfOk result (λ laid. IsTrue laid → length items.now ≤ 2 ^ 20) }
    ensures boxes { IfOk result (λ laid. IsTrue laid → All (HasBox coords.now) items.now) }
    ensures clean { IfOk result (λ laid. IsTrue laid → IsClean tech.now coords.now items.now) }
{
    if !have_boxes(items, coords) {
        return Ok(false);
    }
    match first_clash(alloc, tech, items, coords)? {
        None => Ok(true),
        Some(_) => Ok(false),
    }
}
