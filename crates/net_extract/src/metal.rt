//! The tree of metal: it is made of the boxes, before it is known into which pieces all boxes fall.
ghost use Rattle.std.specs.Prelude.{◌≤◌, IfOk};
ghost use Rattle.lam_geom.specs.declared.boxes.MaskLayer.TheVariants.{NM};
ghost use Rattle.crossing_model.specs.Boxes.{AreSearchable};
ghost use Rattle.net_extract.specs.{Entries.AreMetalBoxes, CutLists.IsNewPieceTree, Grounds.{IsGround, placed_on}};

use crate::entries::metal_entries;
use crate::ground::Ground;
use box_tree::{BoxTree, UnvisitedTree, new_unvisited_tree};
use lam_geom::MaskBox;
use std::alloc::{AllocError, Global};
use std::thread::Threads;

/// A tree of the boxes of metal, each under its number, made in so many shares. The only refusal is want of memory.
pub fn metal_tree<H: Threads + Sync>(
    rt: &H,
    alloc: Global,
    boxes: &[MaskBox],
    shares: u32,
) -> Result<BoxTree, AllocError>
    requires searchable { AreSearchable boxes.now }
    requires shares { (1 ≤ shares) × (shares ≤ 64) }
    ensures { IfOk result (AreMetalBoxes boxes.now) }
{
    let entries = metal_entries(alloc, boxes)?;
    BoxTree::in_shares(rt, alloc, entries, shares)
}

/// The unvisited tree of the pieces of metal, by the tree of its boxes: each is one piece, the first of its box. The
/// only refusal is want of memory.
pub fn metal_pieces(
    alloc: Global,
    ground: &Ground,
    metal: BoxTree,
) -> Result<UnvisitedTree, AllocError>
    requires ground { IsGround ground.now }
    requires metal { AreMetalBoxes ground.now.boxes.now metal }
    ensures { IfOk result (IsNewPieceTree ground.now.boxes.now (placed_on ground.now) NM) }
{
    let firsts = ground.pieces.starts.as_slice();
    let tree = BoxTree::with_tags(alloc, metal.into_parts(), firsts)?;
    new_unvisited_tree(alloc, tree)
}
