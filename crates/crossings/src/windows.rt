//! Windows over what poly and diffusion have in common.
ghost use Rattle.std.specs.Prelude.{◌≡◌, ◌↔◌, ℕ, ◌^◌, ◌<◌, pos, ◌≤ℤ◌, All, Contains, IsTrue, IfOk, MatchBool};
ghost use Rattle.std.specs.Prelude.{MatchOption, IfSome, length};
ghost use Rattle.lam_geom.specs.{declared.boxes.MaskLayer.TheVariants.NB, Gaps.Encloses, Places.IsPlacedBox};
ghost use Rattle.rule_table.specs.Technology.{numbers_of};
ghost use Rattle.box_tree.specs.Queries.{IsMargin};
ghost use Rattle.crossing_model.specs.{Boxes.{AreSearchable, area_at, grains, IsCovered}, Crossings.IsBuriedPair};
ghost use Rattle.crossings.specs.{Pairs.IsShared, Entries.AreBoxesOn};

use crate::entries::is_covered;
use crate::lengths::in_grains;
use crate::pair_tests::common_box;
use box_tree::BoxTree;
use lam_geom::{BoxXY, MaskBox, MaskLayer, overlaps};
use rule_table::Tech;

/// Whether poly and diffusion with these numbers are a buried pair, by a tree of the windows. Takes no memory.
pub fn is_buried(
    tech: &Tech,
    boxes: &[MaskBox],
    windows: &BoxTree,
    poly: u32,
    diffusion: u32,
) -> bool
    requires searchable { AreSearchable boxes.now }
    requires windows { AreBoxesOn boxes.now NB windows.now }
    requires poly { poly < length boxes.now }
    requires diffusion { diffusion < length boxes.now }
    ensures { IsTrue result ↔ IsBuriedPair tech.now boxes.now poly diffusion }
{
    match shared_area(tech, boxes, poly, diffusion) {
        Some(shared) => is_covered(windows, &shared, window_margin(tech)),
        None => false,
    }
}

// What poly and diffusion have in common, where a window over it makes them a buried pair.
fn shared_area(tech: &Tech, boxes: &[MaskBox], poly: u32, diffusion: u32) -> Option<BoxXY>
    requires searchable { AreSearchable boxes.now }
    requires poly { poly < length boxes.now }
    requires diffusion { diffusion < length boxes.now }
    ensures shared { MatchOption result
        (IsBuriedPair tech.now boxes.now poly diffusion → ⊥)
        (IsShared tech.now boxes.now poly diffusion) }
    ensures placed { IfSome result IsPlacedBox }
{
    let upper = boxes[poly as usize];
    let lower = boxes[diffusion as usize];
    if !tech.has_buried() || upper.layer != MaskLayer::NP || lower.layer != MaskLayer::ND {
        return None;
    }
    if !overlaps(&upper.area, &lower.area) {
        return None;
    }
    Some(common_box(&upper.area, &lower.area))
}

/// How far a window goes past what a buried pair has in common, in grains.
pub fn window_margin(tech: &Tech) -> i64
    ensures value { result ≡ grains tech.now (numbers_of tech.now).extension_buried }
    ensures margin { IsMargin result }
{
    in_grains(tech, tech.numbers().extension_buried)
}
