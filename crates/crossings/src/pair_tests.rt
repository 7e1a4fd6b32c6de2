//! Tests of poly and diffusion by their areas alone. Lengths are in grains, half hundredths of a micron.
ghost use Rattle.std.specs.Prelude.{◌≡◌, ◌↔◌, ◌^◌, pos, ◌≤ℤ◌, ◌<ℤ◌, IsTrue, MatchOption};
ghost use Rattle.lam_geom.specs.declared.boxes.Axis.{Axis};
ghost use Rattle.lam_geom.specs.{Gaps.{gap_of, Overlaps, EnclosesSpan}, Places.{IsPlacedSpan, IsPlacedBox}};
ghost use Rattle.crossing_model.specs.{Boxes.{other, IsCommon, IsCommonSpan}, Crossings.CrossAlong};

use crate::lengths::in_grains;
use lam_geom::{Axis, BoxXY, Span, span_of};
use rule_table::Tech;

/// What two boxes that overlap have in common.
pub fn common_box(a: &BoxXY, b: &BoxXY) -> BoxXY
    requires overlap { Overlaps a.now b.now }
    requires first { IsPlacedBox a.now }
    requires second { IsPlacedBox b.now }
    ensures common { IsCommon a.now b.now result }
    ensures placed { IsPlacedBox result }
{
    BoxXY {
        x: common_span(a.x, b.x),
        y: common_span(a.y, b.y),
    }
}

fn common_span(a: Span, b: Span) -> Span
    requires overlap { gap_of a b <ℤ pos 0 }
    requires first { IsPlacedSpan a }
    requires second { IsPlacedSpan b }
    ensures common { IsCommonSpan a b result }
    ensures placed { IsPlacedSpan result }
{
    Span {
        lo: a.lo.max(b.lo),
        hi: a.hi.min(b.hi),
    }
}

/// The axis along which poly goes past diffusion, if they cross: each goes past the other by its extension.
pub fn crossing_axis(tech: &Tech, poly: &BoxXY, diffusion: &BoxXY) -> Option<Axis>
    requires poly { IsPlacedBox poly.now }
    requires diffusion { IsPlacedBox diffusion.now }
    ensures { MatchOption result ((axis : Axis) → CrossAlong tech.now axis poly.now diffusion.now → ⊥)
        (λ axis. CrossAlong tech.now axis poly.now diffusion.now) }
{
    if cross_along(tech, Axis::X, poly, diffusion) {
        Some(Axis::X)
    } else if cross_along(tech, Axis::Y, poly, diffusion) {
        Some(Axis::Y)
    } else {
        None
    }
}

fn cross_along(tech: &Tech, axis: Axis, poly: &BoxXY, diffusion: &BoxXY) -> bool
    requires poly { IsPlacedBox poly.now }
    requires diffusion { IsPlacedBox diffusion.now }
    ensures { IsTrue result ↔ CrossAlong tech.now axis poly.now diffusion.now }
{
    let across = across(axis);
    let numbers = tech.numbers();
    let gate = in_grains(tech, numbers.extension_poly);
    let channel = in_grains(tech, numbers.extension_diffusion);
    goes_past(span_of(poly, axis), span_of(diffusion, axis), gate)
        && goes_past(span_of(diffusion, across), span_of(poly, across), channel)
}

fn across(axis: Axis) -> Axis
    ensures { result ≡ other axis }
{
    match axis {
        Axis::X => Axis::Y,
        Axis::Y => Axis::X,
    }
}

// Whether a span goes past another by a margin at both ends.
fn goes_past(outer: Span, inner: Span, margin: i64) -> bool
    requires outer { IsPlacedSpan outer }
    requires inner { IsPlacedSpan inner }
    requires not_negative { pos 0 ≤ℤ margin }
    requires within { margin ≤ℤ pos (2 ^ 30) }
    ensures { IsTrue result ↔ EnclosesSpan outer inner margin }
{
    is_at_most(outer.lo + margin, inner.lo) && is_at_most(inner.hi + margin, outer.hi)
}

// One comparison of signed numbers, with its exact meaning.
fn is_at_most(a: i64, b: i64) -> bool
    ensures { IsTrue result ↔ (a ≤ℤ b) }
{
    a <= b
}
