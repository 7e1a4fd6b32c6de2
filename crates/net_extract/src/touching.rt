//! The pieces that touch a piece on its layer, in lists.
ghost use Rattle.std.specs.Prelude.{◌≤◌, IfOk, OnOk, length};
ghost use Rattle.net_extract.specs.{CutLists.ArePieceTrees, Grounds.{IsGround, placed_on}, Linking.IsTouch};
ghost use Rattle.net_extract.specs.{Lists.AreLists, Nearby.IsPieceParts};

use crate::ground::Ground;
use crate::listing::{Sides, put_lists};
use crate::lists::{Kind, Lists, no_lists};
use crate::over::PieceTrees;
use box_tree::{OwnedParts, Parts};
use std::alloc::{AllocError, Global};
use std::thread::Threads;

/// The lists of the pieces beside which not too many others lie, by one walk through a tree for each of its lowest
/// groups, in so many shares. The only refusal is want of memory.
pub fn touch_lists<H: Threads + Sync>(
    rt: &H,
    alloc: Global,
    ground: &Ground,
    trees: &PieceTrees,
    shares: u32,
) -> Result<Lists, AllocError>
    requires ground { IsGround ground.now }
    requires trees { ArePieceTrees ground.now.boxes.now (placed_on ground.now) trees.now }
    requires shares { (1 ≤ shares) × (shares ≤ 64) }
    ensures { let placed = placed_on ground.now in
        IfOk result (AreLists (IsTouch ground.now.boxes.now placed) (length placed)) }
{
    let mut lists = no_lists(alloc, ground.pieces.placed.len())?;
    put_touching(
        rt,
        alloc,
        ground,
        &trees.diffusion.parts,
        shares,
        &mut lists,
    )?;
    put_touching(rt, alloc, ground, &trees.poly.parts, shares, &mut lists)?;
    put_touching(rt, alloc, ground, &trees.metal.parts, shares, &mut lists)?;
    Ok(lists)
}

// Puts in the lists of the pieces on a layer.
fn put_touching<H: Threads + Sync>(
    rt: &H,
    alloc: Global,
    ground: &Ground,
    parts: &OwnedParts,
    shares: u32,
    lists: &mut Lists,
) -> Result<(), AllocError>
    requires ground { IsGround ground.now }
    requires parts { IsPieceParts ground.now.boxes.now (placed_on ground.now) parts.now }
    requires shares { (1 ≤ shares) × (shares ≤ 64) }
    requires lists { let placed = placed_on ground.now in
        AreLists (IsTouch ground.now.boxes.now placed) (length placed) lists.old }
    ensures { let placed = placed_on ground.now in
        OnOk result (AreLists (IsTouch ground.now.boxes.now placed) (length placed) lists.new) }
{
    let facing = [parts];
    let sides = Sides {
        ground: *ground,
        kind: Kind::Touching,
        own: Parts {
            entries: &parts.entries,
            groups: &parts.groups,
        },
        facing: &facing,
    };
    put_lists(rt, alloc, &sides, shares, lists)
}
