//! One step of a search: the nodes without a mark that some entries show are given a net.
ghost use Rattle.std.specs.Prelude.{◌<◌, ◌↔◌, All, IsTrue, OnOk, length};
ghost use Rattle.box_tree.specs.{Queries.{Holds, IsQuery}, UnvisitedTrees.{AreTagsWithin, IsUnvisitedTree, IsOf}};
ghost use Rattle.box_tree.specs.Found.{AreGathered};
ghost use Rattle.net_extract.specs.{Linking.IsPairWith, Spreading.{IsUnvisitedTreeReached, IsBuriedOf, IsOfPair}};
ghost use Rattle.net_extract.specs.Grounds.{IsGround, placed_on};

use crate::ground::Ground;
use box_tree::{Query, UnvisitedTree};
use crossings::is_buried;
use graph_search::visit;
use std::alloc::AllocError;

/// How far a search has come: the net of each node that has one, and the nodes that this search has reached, in
/// order. The others are buffers.
#[derive(Drop)]
pub struct Frontier {
    pub marks: Vec<Option<u32>>,
    pub queue: Vec<u32>,
    pub found: Vec<u32>,
    pub kept: Vec<u32>,
}

/// Gives a net to the nodes without one whose entries hold a query; where the tree has no entries, to none at once. The
/// only refusal is want of memory.
pub fn reach(
    unvisited_tree: &mut UnvisitedTree,
    query: &Query,
    net: u32,
    frontier: &mut Frontier,
) -> Result<(), AllocError>
    requires unvisited_tree { IsUnvisitedTree frontier.old.marks.items unvisited_tree.old }
    requires query { IsQuery query.now }
    ensures { OnOk result
        (IsUnvisitedTreeReached (IsOf unvisited_tree.old.parts.entries.items (Holds query.now)) net unvisited_tree.old
        unvisited_tree.new frontier.old frontier.new) }
{
    if unvisited_tree.parts.groups.is_empty() {
        return Ok(());
    }
    let marks = frontier.marks.as_slice();
    unvisited_tree.unvisited(marks, query, &mut frontier.found)?;
    visit(
        frontier.found.as_slice(),
        net,
        &mut frontier.marks,
        &mut frontier.queue,
    )?;
    Ok(())
}

/// The same of those of which the boxes are buried pairs with a box. The only refusal is want of memory.
pub fn reach_buried(
    ground: &Ground,
    box_no: u32,
    unvisited_tree: &mut UnvisitedTree,
    query: &Query,
    net: u32,
    frontier: &mut Frontier,
) -> Result<(), AllocError>
    requires ground { IsGround ground.now }
    requires box_no { box_no < length ground.now.boxes.now }
    requires unvisited_tree { IsUnvisitedTree frontier.old.marks.items unvisited_tree.old }
    requires tags { AreTagsWithin (length (placed_on ground.now)) unvisited_tree.old.parts.entries.items }
    requires query { IsQuery query.now }
    ensures { let entries = unvisited_tree.old.parts.entries.items in
        let Is = IsBuriedOf ground.now.tech.now ground.now.boxes.now (placed_on ground.now) box_no entries query.now in
        OnOk result (IsUnvisitedTreeReached Is net unvisited_tree.old unvisited_tree.new frontier.old frontier.new) }
{
    if unvisited_tree.parts.groups.is_empty() {
        return Ok(());
    }
    let marks = frontier.marks.as_slice();
    unvisited_tree.unvisited(marks, query, &mut frontier.found)?;
    frontier.kept.clear();
    keep_buried(
        ground,
        box_no,
        frontier.found.as_slice(),
        &mut frontier.kept,
    )?;
    visit(
        frontier.kept.as_slice(),
        net,
        &mut frontier.marks,
        &mut frontier.queue,
    )?;
    Ok(())
}

// Puts those of some pieces of which the boxes are buried pairs with a box after those in `kept`.
fn keep_buried(
    ground: &Ground,
    box_no: u32,
    numbers: &[u32],
    kept: &mut Vec<u32>,
) -> Result<(), AllocError>
    requires ground { IsGround ground.now }
    requires box_no { box_no < length ground.now.boxes.now }
    requires numbers { All (λ y. y < length (placed_on ground.now)) numbers.now }
    ensures { let Is = IsOfPair ground.now.tech.now ground.now.boxes.now (placed_on ground.now) box_no numbers.now in
        OnOk result (AreGathered Is kept.old.items kept.new.items) }
{
    for &y in numbers {
        let other = ground.pieces.placed[y as usize].box_no;
        if is_pair_with(ground, box_no, other) {
            kept.push(y)?;
        }
    }
    Ok(())
}

// Whether two boxes, in either order, are a buried pair.
fn is_pair_with(ground: &Ground, a: u32, b: u32) -> bool
    requires ground { IsGround ground.now }
    requires first { a < length ground.now.boxes.now }
    requires second { b < length ground.now.boxes.now }
    ensures { IsTrue result ↔ IsPairWith ground.now.tech.now ground.now.boxes.now a b }
{
    let Ground {
        tech,
        boxes,
        windows,
        ..
    } = *ground;
    is_buried(tech, boxes, windows, a, b) || is_buried(tech, boxes, windows, b, a)
}
