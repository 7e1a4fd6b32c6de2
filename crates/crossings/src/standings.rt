//! How a box of poly or diffusion stands to those that it overlaps.
ghost use Rattle.std.specs.Prelude.{◌≡◌, ◌<◌, IfOk, length};
ghost use Rattle.crossing_model.specs.Boxes.{AreSearchable};
ghost use Rattle.crossings.specs.{Pairs.{DoOverlap, HowMany, StandsAs}, Entries.AreTreesOf};
ghost use Rattle.crossings.specs.declared.partners.Partners.TheVariants.{One};

use crate::entries::{Trees, facing_tree};
use crate::pair_tests::crossing_axis;
use crate::pairs::{Pair, pair_of};
use crate::partners::{Partners, partners_of};
use crate::unburied::{least_unburied, meets_some};
use crate::windows::is_buried;
use lam_geom::{Axis, MaskBox};
use rule_table::Tech;

/// How a box stands to those of the other's layer that it overlaps.
#[derive(Clone, Copy)]
pub enum Standing {
    /// It overlaps none, or is a buried pair with each.
    Clear,
    /// It crosses the only one properly, and poly goes past diffusion along this axis.
    Crosses(Pair, Axis),
    /// It neither crosses this one properly nor is a buried pair with it, and there is none of a lower number.
    Bad(u32),
}

/// How a box stands: clear where its layer is crossed by none, with no look at the trees. Takes no memory.
pub fn standing_of(tech: &Tech, boxes: &[MaskBox], trees: &Trees, number: u32) -> Standing
    requires searchable { AreSearchable boxes.now }
    requires trees { AreTreesOf boxes.now trees.now }
    requires among { number < length boxes.now }
    ensures { StandsAs tech.now boxes.now number result }
{
    if facing_tree(boxes, trees, number).is_none() {
        return Standing::Clear;
    }
    match partners_of(boxes, trees, number) {
        Partners::Nothing => Standing::Clear,
        Partners::One(partner) => standing_with(tech, boxes, trees, number, partner),
        Partners::Several => {
            if !meets_some(tech, boxes, trees, number) {
                return Standing::Clear;
            }
            match least_unburied(tech, boxes, trees, number) {
                Some(least) => Standing::Bad(least),
                None => Standing::Clear,
            }
        }
    }
}

/// How a box stands that overlaps only one of the other's layer. Takes no memory.
pub fn standing_with(
    tech: &Tech,
    boxes: &[MaskBox],
    trees: &Trees,
    number: u32,
    partner: u32,
) -> Standing
    requires searchable { AreSearchable boxes.now }
    requires trees { AreTreesOf boxes.now trees.now }
    requires only { HowMany (DoOverlap boxes.now number) (One partner) }
    ensures { StandsAs tech.now boxes.now number result }
{
    let pair = pair_of(boxes, number, partner);
    if is_buried(tech, boxes, &trees.windows, pair.poly, pair.diffusion) {
        return Standing::Clear;
    }
    if let Partners::Several = partners_of(boxes, trees, partner) {
        return Standing::Bad(partner);
    }
    let poly = &boxes[pair.poly as usize].area;
    let diffusion = &boxes[pair.diffusion as usize].area;
    match crossing_axis(tech, poly, diffusion) {
        Some(axis) => Standing::Crosses(pair, axis),
        None => Standing::Bad(partner),
    }
}
