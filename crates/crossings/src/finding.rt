//! The search for crossings.
ghost use Rattle.std.specs.Prelude.{◌≡◌, OnOk, IfOk, IfErr};
ghost use Rattle.crossing_model.specs.Boxes.{AreSearchable, area_at};
ghost use Rattle.crossing_model.specs.Crossings.{AreProper, AreCrossings, CrossAlong, IsMeeting};
ghost use Rattle.crossings.specs.{Pairs.{AddsCrossing, EndsSearch}, Entries.{AreBoxesOn, AreTreesOf}};
ghost use Rattle.lam_geom.specs.declared.boxes.MaskLayer.TheVariants.{NI};

use crate::entries::{Trees, is_covered};
use crate::lengths::in_grains;
use crate::pair_tests::common_box;
use crate::pairs::Pair;
use crate::standings::{Standing, standing_of};
use box_tree::BoxTree;
use crossing_model::{Crossing, CrossingFault};
use lam_geom::{Axis, MaskBox};
use rule_table::Tech;
use std::alloc::{AllocError, Global};

/// All crossings of some boxes, in order of their diffusion, or the first pair of poly and diffusion that does not cross
/// properly, by the trees: a box of which nothing is known asks them a few times, whether one or many lie on it. Only for
/// the pair that is named all boxes of a layer are walked through. Memory is wanted only for a crossing that stands
/// before each such pair.
pub fn crossings_by(
    alloc: Global,
    tech: &Tech,
    boxes: &[MaskBox],
    trees: &Trees,
) -> Result<Vec<Crossing>, CrossingFault>
    requires searchable { AreSearchable boxes.now }
    requires trees { AreTreesOf boxes.now trees.now }
    ensures proper { IfOk result (λ _. AreProper tech.now boxes.now) }
    ensures crossings { IfOk result (λ found. AreCrossings tech.now boxes.now found.items) }
    ensures fault { IfErr result (EndsSearch tech.now boxes.now) }
{
    let mut crossings = Vec::new(alloc);
    for number in 0..boxes.len() as u32 {
        match standing_of(tech, boxes, trees, number) {
            Standing::Bad(other) => return Err(CrossingFault::NotProper(number, other)),
            Standing::Crosses(pair, axis) => {
                if pair.diffusion == number {
                    add_crossing(tech, boxes, &trees.implants, pair, axis, &mut crossings)?;
                }
            }
            Standing::Clear => {}
        }
    }
    Ok(crossings)
}

// Adds the crossing of poly and diffusion.
fn add_crossing(
    tech: &Tech,
    boxes: &[MaskBox],
    implants: &BoxTree,
    pair: Pair,
    axis: Axis,
    crossings: &mut Vec<Crossing>,
) -> Result<(), AllocError>
    requires searchable { AreSearchable boxes.now }
    requires implants { AreBoxesOn boxes.now NI implants.now }
    requires meeting { IsMeeting tech.now boxes.now pair.poly pair.diffusion }
    requires along { CrossAlong tech.now axis (area_at boxes.now pair.poly) (area_at boxes.now pair.diffusion) }
    ensures { OnOk result (AddsCrossing tech.now boxes.now pair crossings.old.items crossings.new.items) }
{
    let poly = &boxes[pair.poly as usize].area;
    let diffusion = &boxes[pair.diffusion as usize].area;
    let channel = common_box(poly, diffusion);
    let margin = in_grains(tech, tech.numbers().extension_implant);
    let depletion = is_covered(implants, &channel, margin);
    crossings.push(Crossing {
        poly: pair.poly,
        diffusion: pair.diffusion,
        axis,
        channel,
        depletion,
    })?;
    Ok(())
}
