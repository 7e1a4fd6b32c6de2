//! Trees of entries from which what has been visited is left out: as a search goes on, ever fewer groups are walked
//! through.
ghost use Rattle.std.specs.Prelude.{◌≡◌, ◌+◌, ◌<◌, ◌≤◌, [], IfOk, IsTrue, OnOk, length};
ghost use Rattle.lam_geom.specs.Places.{IsPlacedBox};
ghost use Rattle.box_tree.specs.{declared.entries.Group.Group, Found.AreGathered, UnvisitedTrees.group_at};
ghost use Rattle.box_tree.specs.UnvisitedTrees.{entry_in, AreTreeParts, AreExhausted, AreTagsWithin, IsUnvisitedTree};
ghost use Rattle.box_tree.specs.UnvisitedTrees.{IsUnvisited, IsUnvisitedWithin, IsRead, IsRunExhausted, IsRunVisited};
ghost use Rattle.box_tree.specs.{UnvisitedTrees.IsNewUnvisitedTree, Queries.IsQuery};

use crate::entries::{Entry, Group};
use crate::query::{Query, is_far, reach_of};
use crate::tree::{BoxTree, OwnedParts};
use std::alloc::{AllocError, Global};

/// A tree of entries, and of each group whether it is known that all its entries have been visited. Which have been
/// is told by marks: an entry has been visited if its tag has a mark.
#[derive(Drop)]
pub struct UnvisitedTree {
    pub parts: OwnedParts,
    pub exhausted: Vec<bool>,
}

/// An unvisited tree, of which nothing has been visited. Nothing of the tree is copied. The only refusal is want of
/// memory.
pub fn new_unvisited_tree(alloc: Global, tree: BoxTree) -> Result<UnvisitedTree, AllocError>
    ensures { IfOk result (IsNewUnvisitedTree tree) }
{
    let parts = tree.into_parts();
    let exhausted = vec![in alloc; false; parts.groups.len()]?;
    Ok(UnvisitedTree { parts, exhausted })
}

impl UnvisitedTree {
    /// The tags without a mark of entries that hold a query, in place of what was in `found`. Groups of which all
    /// entries have been visited are left out. The only refusal is want of memory.
    pub fn unvisited(
        &mut self,
        marks: &[Option<u32>],
        query: &Query,
        found: &mut Vec<u32>,
    ) -> Result<(), AllocError>
        requires unvisited_tree { IsUnvisitedTree marks.now self.old }
        requires query { IsQuery query.now }
        ensures parts { self.new.parts ≡ self.old.parts }
        ensures unvisited_tree { OnOk result (IsUnvisitedTree marks.now self.new) }
        ensures found { OnOk result
            (AreGathered (IsUnvisited self.old.parts.entries.items query.now marks.now) [] found.new.items) }
    {
        walk(&self.parts, &mut self.exhausted, marks, query, found)
    }
}

// The same, of the parts of a tree.
fn walk(
    parts: &OwnedParts,
    exhausted: &mut Vec<bool>,
    marks: &[Option<u32>],
    query: &Query,
    found: &mut Vec<u32>,
) -> Result<(), AllocError>
    requires parts { AreTreeParts parts.now }
    requires tags { AreTagsWithin (length marks.now) parts.now.entries.items }
    requires exhausted { AreExhausted parts.now marks.now exhausted.old.items }
    requires query { IsQuery query.now }
    ensures found { OnOk result
        (AreGathered (IsUnvisited parts.now.entries.items query.now marks.now) [] found.new.items) }
    ensures exhausted { OnOk result (AreExhausted parts.now marks.now exhausted.new.items) }
{
    found.clear();
    let area = query.area;
    let reach = reach_of(query.question);
    let mut at = 0;
    while at < parts.groups.len() {
        let group = group_of(parts, at);
        if exhausted[at] || is_far(&area, &group.outer, reach) {
            at += 1 + group.inside as usize;
        } else if group.inside == 0 {
            let end = group.start + group.count;
            exhausted[at] = look_through(parts, group.start, end, marks, query, found)?;
            at += 1;
        } else {
            exhausted[at] = is_exhausted_inside(parts, exhausted.as_slice(), at);
            at += 1;
        }
    }
    Ok(())
}

/// The group at a place, of which it is said where its run begins and ends, and what lies in it.
pub fn group_of(parts: &OwnedParts, at: usize) -> &Group
    requires parts { AreTreeParts parts.now }
    requires among { at < length parts.now.groups.items }
    ensures { IsRead parts.now at result.now }
{
    &parts.groups[at]
}

/// The entry at a place of the tree's order.
pub fn entry_in(parts: &OwnedParts, place: usize) -> &Entry
    requires parts { AreTreeParts parts.now }
    requires among { place < length parts.now.entries.items }
    ensures value { result.now ≡ entry_in parts.now place }
    ensures placed { IsPlacedBox result.now.area }
{
    &parts.entries[place]
}

// Puts the tags without a mark of entries at some places that hold a query after those in `found`. Whether all have
// one.
fn look_through(
    parts: &OwnedParts,
    first: u32,
    end: u32,
    marks: &[Option<u32>],
    query: &Query,
    found: &mut Vec<u32>,
) -> Result<bool, AllocError>
    requires parts { AreTreeParts parts.now }
    requires tags { AreTagsWithin (length marks.now) parts.now.entries.items }
    requires query { IsQuery query.now }
    requires within { end ≤ length parts.now.entries.items }
    ensures found { OnOk result
        (AreGathered (IsUnvisitedWithin parts.now query.now marks.now first end) found.old.items found.new.items) }
    ensures all { IfOk result (λ all. IsTrue all → IsRunVisited parts.now marks.now first end) }
{
    let mut all = true;
    for place in first..end {
        let entry = entry_in(parts, place as usize);
        if marks[entry.tag as usize].is_none() {
            all = false;
            if query.holds(entry) {
                found.push(entry.tag)?;
            }
        }
    }
    Ok(all)
}

// Whether it is known of all groups inside a group that all their entries have been visited.
fn is_exhausted_inside(parts: &OwnedParts, exhausted: &[bool], at: usize) -> bool
    requires parts { AreTreeParts parts.now }
    requires among { at < length parts.now.groups.items }
    requires some { 0 < (group_at parts.now.groups.items at).inside }
    requires counted { length exhausted.now ≡ length parts.now.groups.items }
    ensures { IsTrue result → IsRunExhausted parts.now.groups.items exhausted.now at }
{
    let end = at + 1 + group_of(parts, at).inside as usize;
    let mut next = at + 1;
    while next < end && exhausted[next] {
        next += 1 + group_of(parts, next).inside as usize;
    }
    next == end
}
