ghost use Rattle.std.specs.Prelude.{◌≡◌, ◌↔◌, ◌^◌, pos, ◌≤ℤ◌, IsTrue};
ghost use Rattle.lam_geom.specs.{Places.{IsPlacedSpan, IsPlacedBox}, Gaps.{gap_of, gap_of_boxes, Touches, Overlaps}};
ghost use Rattle.lam_geom.specs.Gaps.{Encloses, EnclosesSpan, transposed, span_along};

use crate::boxes::{Axis, BoxXY, Span};

/// How far two spans lie apart; 0 where they share an end, below 0 where they overlap.
pub fn gap(a: Span, b: Span) -> i64
    requires first { IsPlacedSpan a }
    requires second { IsPlacedSpan b }
    ensures { result ≡ gap_of a b }
{
    (b.lo - a.hi).max(a.lo - b.hi)
}

/// The Chebyshev distance of two boxes: the greater of their gaps on x and on y.
pub fn gap_box(a: &BoxXY, b: &BoxXY) -> i64
    requires first { IsPlacedBox a.now }
    requires second { IsPlacedBox b.now }
    ensures { result ≡ gap_of_boxes a.now b.now }
{
    gap(a.x, b.x).max(gap(a.y, b.y))
}

/// Whether two boxes share an edge, a corner or more.
pub fn touches(a: &BoxXY, b: &BoxXY) -> bool
    requires first { IsPlacedBox a.now }
    requires second { IsPlacedBox b.now }
    ensures { IsTrue result ↔ Touches a.now b.now }
{
    gap_box(a, b) <= 0
}

/// Whether two boxes share more than their border.
pub fn overlaps(a: &BoxXY, b: &BoxXY) -> bool
    requires first { IsPlacedBox a.now }
    requires second { IsPlacedBox b.now }
    ensures { IsTrue result ↔ Overlaps a.now b.now }
{
    gap_box(a, b) < 0
}

/// Whether each side of `inner` lies at least `margin` inside the same side of `outer`.
pub fn contains_by(outer: &BoxXY, inner: &BoxXY, margin: i64) -> bool
    requires outer_placed { IsPlacedBox outer.now }
    requires inner_placed { IsPlacedBox inner.now }
    requires not_negative { pos 0 ≤ℤ margin }
    requires within_limit { margin ≤ℤ pos (2 ^ 30) }
    ensures { IsTrue result ↔ Encloses outer.now inner.now margin }
{
    encloses_span(outer.x, inner.x, margin) && encloses_span(outer.y, inner.y, margin)
}

/// The box with x and y exchanged.
pub fn transpose(b: &BoxXY) -> BoxXY
    requires { IsPlacedBox b.now }
    ensures { result ≡ transposed b.now }
{
    BoxXY { x: b.y, y: b.x }
}

/// The box's span on an axis.
pub fn span_of(b: &BoxXY, axis: Axis) -> Span
    requires { IsPlacedBox b.now }
    ensures { result ≡ span_along b.now axis }
{
    match axis {
        Axis::X => b.x,
        Axis::Y => b.y,
    }
}

// Whether each end of `inner` lies at least `margin` inside the same end of `outer`.
fn encloses_span(outer: Span, inner: Span, margin: i64) -> bool
    requires outer_placed { IsPlacedSpan outer }
    requires inner_placed { IsPlacedSpan inner }
    requires not_negative { pos 0 ≤ℤ margin }
    requires within_limit { margin ≤ℤ pos (2 ^ 30) }
    ensures { IsTrue result ↔ EnclosesSpan outer inner margin }
{
    is_at_most(outer.lo + margin, inner.lo) && is_at_most(inner.hi + margin, outer.hi)
}

// One comparison of signed numbers, with its exact meaning.
fn is_at_most(a: i64, b: i64) -> bool
    ensures { IsTrue result ↔ (a ≤ℤ b) }
{
    a <= b
}
