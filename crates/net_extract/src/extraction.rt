//! From boxes to nets and devices.
ghost use Rattle.std.specs.Prelude.{IfOk, IfErr};
ghost use Rattle.lam_geom.specs.declared.boxes.MaskLayer.TheVariants.{NB};
ghost use Rattle.crossing_model.specs.{Boxes.AreSearchable, Crossings.{AreCrossings, AreProper}};
ghost use Rattle.crossing_model.specs.Crossings.{IsCauseOf as IsCrossingFault};
ghost use Rattle.crossings.specs.Entries.{AreBoxesOn};
ghost use Rattle.net_model.specs.Extraction.{IsExtracted, IsCauseOf};

use crate::metal::metal_tree;
use crate::nets::nets_of;
use box_pieces::pieces_of;
use box_tree::BoxTree;
use crossing_model::{Crossing, CrossingFault};
use crossings::{crossings_by, trees_of};
use lam_geom::MaskBox;
use lam_list::Seq;
use net_model::{ExtractFault, Netlist, devices_of, netted};
use rule_table::Tech;
use std::alloc::Global;
use std::thread::Threads;

/// The nets and devices of some boxes, or the first pair of poly and diffusion that does not cross properly.
pub fn extract<H: Threads + Sync>(
    rt: &H,
    alloc: Global,
    tech: &Tech,
    boxes: &[MaskBox],
) -> Result<Netlist, ExtractFault>
    requires { AreSearchable boxes.now }
    ensures extracted { IfOk result (IsExtracted tech.now boxes.now) }
    ensures fault { IfErr result (IsCauseOf tech.now boxes.now) }
{
    let (found, windows) = crossings_of(rt, alloc, tech, boxes)?;
    let split = pieces_of(alloc, boxes, found)?;
    let metal = metal_tree(rt, alloc, boxes, 1)?;
    let (nets, count, _, _) = nets_of(rt, alloc, tech, boxes, &windows, metal, &split, 1)?;
    let pieces = netted(alloc, split.placed.as_slice(), nets.as_slice())?;
    let devices = devices_of(
        alloc,
        pieces.as_slice(),
        split.starts.as_slice(),
        split.crossings.as_slice(),
    )?;
    Ok(Netlist {
        pieces: Seq::from_vec(pieces),
        nets: count,
        devices: Seq::from_vec(devices),
    })
}

// All crossings of some boxes, in order of their diffusion, or the first pair that does not cross properly, and the
// tree of the windows by which they were found. The other trees, of some 60 bytes a box, are let go.
fn crossings_of<H: Threads + Sync>(
    rt: &H,
    alloc: Global,
    tech: &Tech,
    boxes: &[MaskBox],
) -> Result<(Vec<Crossing>, BoxTree), CrossingFault>
    requires { AreSearchable boxes.now }
    ensures proper { IfOk result (λ _. AreProper tech.now boxes.now) }
    ensures crossings { IfOk result (λ found. AreCrossings tech.now boxes.now found.0.items) }
    ensures windows { IfOk result (λ found. AreBoxesOn boxes.now NB found.1) }
    ensures fault { IfErr result (IsCrossingFault tech.now boxes.now) }
{
    let trees = trees_of(rt, alloc, boxes, 1)?;
    let found = crossings_by(alloc, tech, boxes, &trees)?;
    Ok((found, trees.windows))
}
