//! Boxes that cover a cut.
ghost use Rattle.std.specs.Prelude.{◌↔◌, ◌<◌, IsTrue, length};
ghost use Rattle.lam_geom.specs.{Places.IsPlacedBox, declared.boxes.MaskLayer.MaskLayer};
ghost use Rattle.box_tree.specs.Queries.{IsMargin};
ghost use Rattle.crossing_model.specs.Boxes.{IsCovered};
ghost use Rattle.flat_check.specs.{declared.flat_layout.FlatLayout.FlatLayout, FlatLayouts.IsFlatLayout};
ghost use Rattle.flat_check.specs.Trees.{ArePiecesOn, AreRuleTreesOf, IsUncut};
ghost use Rattle.rule_breaks.specs.Breaks.{IsUncovered};

use crate::flat_layout::FlatLayout;
use crate::nearness::numbered;
use crate::trees::Trees;
use box_tree::{BoxTree, Query, Question};
use crossings::{in_grains, is_covered};
use lam_geom::{BoxXY, MaskLayer};

/// Whether a box is a cut that does not lie inside metal, or inside neither poly nor diffusion, by the enclosure.
pub fn is_uncovered(flat: &FlatLayout, trees: &Trees, a: u32) -> bool
    requires flat { IsFlatLayout flat.now }
    requires trees { AreRuleTreesOf flat.now trees.now }
    requires among { a < length flat.now.boxes.now }
    ensures { IsTrue result ↔ IsUncovered flat.now.tech.now flat.now.boxes.now a }
{
    let own = numbered(flat.boxes, a);
    if own.layer != MaskLayer::NC {
        return false;
    }
    let margin = in_grains(flat.tech, flat.tech.numbers().cut_enclosure);
    if !is_covered_whole(&trees.metal, &own.area, margin) {
        return true;
    }
    if is_covered_whole(&trees.poly, &own.area, margin) {
        return false;
    }
    !is_covered(&trees.boxes.diffusion, &own.area, margin)
}

// Whether a box of poly or metal, whose pieces the tree has, goes past an area by a margin on all sides.
fn is_covered_whole(tree: &BoxTree, area: &BoxXY, margin: i64) -> bool
    requires area { IsPlacedBox area.now }
    requires margin { IsMargin margin }
    ensures { (flat : FlatLayout) (layer : MaskLayer) → IsFlatLayout flat → IsUncut layer
        → ArePiecesOn flat layer tree.now
        → IsTrue result ↔ IsCovered flat.boxes.now layer area.now margin }
{
    tree.any(&Query {
        area: *area,
        question: Question::Covers { margin },
    })
}
