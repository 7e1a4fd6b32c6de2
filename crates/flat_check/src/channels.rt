//! Channels, which go by their diffusion.
ghost use Rattle.std.specs.Prelude.{◌<◌, IfSome, MatchOption, length};
ghost use Rattle.lam_geom.specs.{Places.IsPlacedBox, declared.boxes.BoxXY.BoxXY};
ghost use Rattle.rule_breaks.specs.Breaks.{IsChannel};
ghost use Rattle.flat_check.specs.FlatLayouts.{IsFlatLayout};

use crate::flat_layout::FlatLayout;
use crate::nearness::numbered;
use lam_geom::{BoxXY, MaskLayer};

/// The channel of a box, if it is diffusion that has one. Of boxes on other layers the layer alone is read.
pub fn channel_at(flat: &FlatLayout, number: u32) -> Option<BoxXY>
    requires flat { IsFlatLayout flat.now }
    requires among { number < length flat.now.boxes.now }
    ensures channel { MatchOption result
        ((channel : BoxXY) → IsChannel flat.now.tech.now flat.now.boxes.now number channel → ⊥)
        (IsChannel flat.now.tech.now flat.now.boxes.now number) }
    ensures placed { IfSome result IsPlacedBox }
{
    match numbered(flat.boxes, number).layer {
        MaskLayer::ND => channel_of(flat, number),
        _ => None,
    }
}

// The channel of a diffusion box, if it has one.
fn channel_of(flat: &FlatLayout, diffusion: u32) -> Option<BoxXY>
    requires { IsFlatLayout flat.now }
    ensures channel { MatchOption result
        ((channel : BoxXY) → IsChannel flat.now.tech.now flat.now.boxes.now diffusion channel → ⊥)
        (IsChannel flat.now.tech.now flat.now.boxes.now diffusion) }
    ensures placed { IfSome result IsPlacedBox }
{
    let crossings = flat.pieces.crossings.as_slice();
    match crossings.binary_search_by_key(&diffusion, |c| c.diffusion) {
        Ok(at) => Some(crossings[at].channel),
        Err(_) => None,
    }
}
