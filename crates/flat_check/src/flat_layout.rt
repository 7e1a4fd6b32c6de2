//! Boxes with what is known of them.
ghost use Rattle.std.specs.Prelude.{◌≤◌, IfOk};
ghost use Rattle.crossing_model.specs.{Boxes.AreSearchable, Crossings.{AreCrossings, AreProper}};
ghost use Rattle.crossings.specs.Entries.{AreTreesOf};
ghost use Rattle.net_extract.specs.{Entries.AreMetalBoxes};
ghost use Rattle.flat_check.specs.{FlatLayouts.{AreCrossed, HaveChannels}, Trees.ArePerhapsProper};

use box_pieces::{Pieces, pieces_of};
use box_tree::BoxTree;
use crossing_model::{Crossing, CrossingFault};
use crossings::{Trees, crossings_by, trees_of};
use lam_geom::MaskBox;
use net_extract::metal_tree;
use rule_table::Tech;
use std::alloc::{AllocError, Global};
use std::thread::{Threads, join};

/// Boxes under a technology, their pieces and the net of each piece.
#[derive(Drop)]
pub struct FlatLayout<'a> {
    pub tech: &'a Tech,
    pub boxes: &'a [MaskBox],
    pub pieces: Pieces,
    pub nets: Vec<u32>,
}

/// What is found of boxes by their crossings: the trees by which these were found, the pieces, and whether all
/// crossings are proper.
#[derive(Drop)]
pub struct Crossed {
    pub trees: Trees,
    pub pieces: Pieces,
    pub proper: bool,
}

/// A tree of the boxes of metal, and what is found by crossings, each in so many shares. With one share the tree is
/// made after the rest, so that less memory is held at once, and with several beside it. The only refusal is want of
/// memory.
pub fn metal_and_crossed<H: Threads + Sync>(
    rt: &H,
    alloc: Global,
    tech: &Tech,
    boxes: &[MaskBox],
    shares: u32,
) -> (Result<BoxTree, AllocError>, Result<Crossed, AllocError>)
    requires searchable { AreSearchable boxes.now }
    requires shares { (1 ≤ shares) × (shares ≤ 64) }
    ensures metal { IfOk result.0 (AreMetalBoxes boxes.now) }
    ensures crossed { IfOk result.1 (AreCrossed tech.now boxes.now) }
{
    if shares == 1 {
        let crossed = crossed_in(rt, alloc, tech, boxes, 1);
        return (metal_tree(rt, alloc, boxes, 1), crossed);
    }
    let metal = || -> Result<BoxTree, AllocError>
        requires { AreSearchable boxes.now × (1 ≤ shares) × (shares ≤ 64) }
        ensures { IfOk result (AreMetalBoxes boxes.entry.now) }
    { metal_tree(rt, alloc, boxes, shares) };
    let crossed = || -> Result<Crossed, AllocError>
        requires { AreSearchable boxes.now × (1 ≤ shares) × (shares ≤ 64) }
        ensures { IfOk result (AreCrossed tech.entry.now boxes.entry.now) }
    { crossed_in(rt, alloc, tech, boxes, shares) };
    join(rt, metal, crossed)
}

// What is found of boxes by their crossings, in so many shares. Where poly and diffusion do not cross properly
// somewhere, all are pieces as a whole.
fn crossed_in<H: Threads + Sync>(
    rt: &H,
    alloc: Global,
    tech: &Tech,
    boxes: &[MaskBox],
    shares: u32,
) -> Result<Crossed, AllocError>
    requires searchable { AreSearchable boxes.now }
    requires shares { (1 ≤ shares) × (shares ≤ 64) }
    ensures { IfOk result (AreCrossed tech.now boxes.now) }
{
    let trees = trees_of(rt, alloc, boxes, shares)?;
    let (found, proper) = known_crossings(alloc, tech, boxes, &trees)?;
    let pieces = pieces_of(alloc, boxes, found)?;
    Ok(Crossed {
        trees,
        pieces,
        proper,
    })
}

// The crossings, and whether all are proper; where some are not there is none.
fn known_crossings(
    alloc: Global,
    tech: &Tech,
    boxes: &[MaskBox],
    trees: &Trees,
) -> Result<(Vec<Crossing>, bool), AllocError>
    requires searchable { AreSearchable boxes.now }
    requires trees { AreTreesOf boxes.now trees.now }
    ensures channels { IfOk result (λ known. HaveChannels tech.now boxes.now known.0.items) }
    ensures crossings { IfOk result (λ known.
        AreProper tech.now boxes.now → AreCrossings tech.now boxes.now known.0.items) }
    ensures proper { IfOk result (λ known. ArePerhapsProper tech.now boxes.now known.1) }
{
    match crossings_by(alloc, tech, boxes, trees) {
        Ok(found) => Ok((found, true)),
        Err(CrossingFault::NotProper(_, _)) => Ok((Vec::new(alloc), false)),
        Err(CrossingFault::OutOfMemory) => Err(AllocError),
    }
}
