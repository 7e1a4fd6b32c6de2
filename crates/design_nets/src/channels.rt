//! Where channels lie in grains.
ghost use Rattle.std.specs.Prelude.{◌≡◌, ◌^◌, pos, neg_ℤ, ◌+ℤ◌, ◌≤ℤ◌};
ghost use Rattle.lam_geom.specs.Places.{IsPlace, IsPlacedSpan, IsPlacedBox};
ghost use Rattle.sym_items.specs.{Boxes.HasBox, Sides.{sides_of, sides_in}};
ghost use Rattle.instance_laws.specs.{Rules.shifted_sides, Shapes.sides_in_grains};
ghost use Rattle.crossing_model.specs.Boxes.{grains};
ghost use Rattle.design_nets.specs.Transistors.{LiesNear};

use lam_geom::{BoxXY, Span};
use mask_out::Call;
use rule_table::Tech;
use sym_items::{Coords, Item, box_of};

/// The box of an item in grains, shifted as a call says.
pub fn channel_at(tech: &Tech, item: &Item, layout: &Coords, call: Call) -> BoxXY
    requires has_box { HasBox layout.now item.now }
    requires near { LiesNear (sides_in layout.now item.now) }
    requires x { (pos 0 ≤ℤ call.x) × (call.x ≤ℤ pos (2 ^ 41)) }
    requires y { (pos 0 ≤ℤ call.y) × (call.y ≤ℤ pos (2 ^ 41)) }
    ensures sides { sides_of result ≡ sides_in_grains tech.now
        (shifted_sides call.x call.y (sides_in layout.now item.now)) }
    ensures placed { IsPlacedBox result }
{
    let area = box_of(item, layout);
    BoxXY {
        x: span_in_grains(tech, area.x, call.x),
        y: span_in_grains(tech, area.y, call.y),
    }
}

// A span in grains, shifted by so much.
fn span_in_grains(tech: &Tech, span: Span, by: i64) -> Span
    requires low { neg_ℤ (pos (2 ^ 40)) ≤ℤ span.lo }
    requires high { span.hi ≤ℤ pos (2 ^ 40) }
    requires by { (pos 0 ≤ℤ by) × (by ≤ℤ pos (2 ^ 41)) }
    ensures low { result.lo ≡ grains tech.now (by +ℤ span.lo) }
    ensures high { result.hi ≡ grains tech.now (by +ℤ span.hi) }
    ensures placed { IsPlacedSpan result }
{
    let lo = in_grains(tech, by + span.lo);
    let hi = in_grains(tech, by + span.hi);
    Span { lo, hi }
}

// A coordinate in grains.
fn in_grains(tech: &Tech, place: i64) -> i64
    requires low { neg_ℤ (pos (2 ^ 40)) ≤ℤ place }
    requires high { place ≤ℤ pos (2 ^ 42) }
    ensures value { result ≡ grains tech.now place }
    ensures placed { IsPlace result }
{
    place * (2 * tech.numbers().unit)
}
