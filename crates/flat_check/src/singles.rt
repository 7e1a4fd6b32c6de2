//! Rules on single boxes.
ghost use Rattle.std.specs.Prelude.{◌≡◌, ◌↔◌, ◌<◌, ◌-ℤ◌, ◌<ℤ◌, IsTrue, IfSome, length};
ghost use Rattle.lam_geom.specs.{declared.boxes.Axis.Axis, Places.{IsPlacedBox, IsPlacedSpan}};
ghost use Rattle.rule_table.specs.Bounds.{IsLength};
ghost use Rattle.crossing_model.specs.Boxes.{AreSearchable, extent};
ghost use Rattle.rule_breaks.specs.Breaks.{IsNarrow, IsOddCut, IsSquare, width_on};

use crossings::in_grains;
use lam_geom::{BoxXY, MaskBox, MaskLayer, Span};
use rule_table::Tech;

/// Whether a box is diffusion, poly or metal that is too narrow on an axis.
pub fn is_narrow(tech: &Tech, boxes: &[MaskBox], a: u32) -> bool
    requires searchable { AreSearchable boxes.now }
    requires among { a < length boxes.now }
    ensures { IsTrue result ↔ IsNarrow tech.now boxes.now a }
{
    let own = &boxes[a as usize];
    match width(tech, own.layer) {
        Some(width) => is_narrower(&own.area, in_grains(tech, width)),
        None => false,
    }
}

/// How wide a conductor on this layer is at least, in u.
pub fn width(tech: &Tech, layer: MaskLayer) -> Option<i64>
    ensures value { result ≡ width_on tech.now layer }
    ensures length { IfSome result IsLength }
{
    let numbers = tech.numbers();
    match layer {
        MaskLayer::ND => Some(numbers.width_diffusion),
        MaskLayer::NP => Some(numbers.width_poly),
        MaskLayer::NM => Some(numbers.width_metal),
        MaskLayer::NC | MaskLayer::NI | MaskLayer::NB => None,
    }
}

/// Whether a box is a cut that is no square of the cut's size.
pub fn is_odd_cut(tech: &Tech, boxes: &[MaskBox], a: u32) -> bool
    requires searchable { AreSearchable boxes.now }
    requires among { a < length boxes.now }
    ensures { IsTrue result ↔ IsOddCut tech.now boxes.now a }
{
    let own = &boxes[a as usize];
    if own.layer != MaskLayer::NC {
        return false;
    }
    let side = in_grains(tech, tech.numbers().cut_size);
    !is_square(&own.area, side)
}

fn is_narrower(area: &BoxXY, width: i64) -> bool
    requires { IsPlacedBox area.now }
    ensures { IsTrue result ↔ ((axis : Axis) × (extent axis area.now <ℤ width)) }
{
    length_of(area.x) < width || length_of(area.y) < width
}

fn is_square(area: &BoxXY, side: i64) -> bool
    requires { IsPlacedBox area.now }
    ensures { IsTrue result ↔ IsSquare side area.now }
{
    length_of(area.x) == side && length_of(area.y) == side
}

fn length_of(span: Span) -> i64
    requires { IsPlacedSpan span }
    ensures { result ≡ span.hi -ℤ span.lo }
{
    span.hi - span.lo
}
