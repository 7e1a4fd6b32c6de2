//! Poly and diffusion, in either order.
ghost use Rattle.std.specs.Prelude.{◌↔◌, ◌<◌, IsTrue, length};
ghost use Rattle.lam_geom.specs.declared.boxes.MaskLayer.TheVariants.{NB};
ghost use Rattle.crossing_model.specs.{Boxes.AreSearchable, Crossings.IsOverlap};
ghost use Rattle.crossings.specs.{Pairs.{AreFacing, DoOverlap, IsPairOf, Meets}, Entries.AreBoxesOn};

use crate::windows::is_buried;
use box_tree::BoxTree;
use lam_geom::{MaskBox, MaskLayer, overlaps};
use rule_table::Tech;

/// Poly and diffusion, by the numbers of their boxes.
#[derive(Clone, Copy)]
pub struct Pair {
    pub poly: u32,
    pub diffusion: u32,
}

/// Which of two boxes is poly, and which diffusion.
pub fn pair_of(boxes: &[MaskBox], a: u32, b: u32) -> Pair
    requires { DoOverlap boxes.now a b }
    ensures pair { IsPairOf a b result.poly result.diffusion }
    ensures overlap { IsOverlap boxes.now result.poly result.diffusion }
{
    if boxes[a as usize].layer == MaskLayer::NP {
        Pair {
            poly: a,
            diffusion: b,
        }
    } else {
        Pair {
            poly: b,
            diffusion: a,
        }
    }
}

/// Whether two boxes, one of poly and one of diffusion, overlap and are no buried pair.
pub fn meets(tech: &Tech, boxes: &[MaskBox], windows: &BoxTree, a: u32, b: u32) -> bool
    requires searchable { AreSearchable boxes.now }
    requires windows { AreBoxesOn boxes.now NB windows.now }
    requires facing { AreFacing boxes.now a b }
    ensures { IsTrue result ↔ Meets tech.now boxes.now a b }
{
    if !overlaps(&boxes[a as usize].area, &boxes[b as usize].area) {
        return false;
    }
    let pair = pair_of(boxes, a, b);
    !is_buried(tech, boxes, windows, pair.poly, pair.diffusion)
}
