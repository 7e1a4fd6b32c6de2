//! The making of the groups.
ghost use Rattle.std.specs.Prelude.{◌≡◌, ℕ, ◌+◌, ◌^◌, ◌<◌, ◌≤◌, All, IfOk, List, [], ◌∷◌, ◌++◌, length};
ghost use Rattle.std.specs.Thread.{IsSync};
ghost use Rattle.lam_geom.specs.Places.{IsPlacedBox};
ghost use Rattle.box_tree.specs.{declared.entries.{Entry.Entry, Group.Group}, Grown.{CanGrow, IsGrown, IsSubtree}};
ghost use Rattle.box_tree.specs.Tree.{IsBounded, IsPlacedGroup, IsTreeOf, entry_of};

use crate::bounds::{joined, of_entry};
use crate::entries::{Entry, Group};
use std::alloc::{AllocError, Global};
use std::thread::{Threads, join};

// As many entries at most stand in a group that is not divided further.
const RUN: u32 = 8;

/// Fewer entries are not worth a thread.
pub const LONG: u32 = 1 << 15;

// Entries in the order in which a tree has them, and their keys.
#[derive(Clone, Copy)]
struct Sorted<'a> {
    entries: &'a [Entry],
    keys: &'a [u64],
}

// How a list of groups is begun: so many places stay free for groups that are put round the others later, and there is
// room for so many in all.
#[derive(Clone, Copy)]
struct Space {
    free: usize,
    room: usize,
}

// The groups of a run, which were made apart from the others, and that of them which has the whole run.
#[derive(Drop)]
struct Subtree {
    top: Group,
    groups: Vec<Group>,
}

/// The groups of a tree of all entries, which stand in the order of their keys.
pub fn grown(alloc: Global, entries: &[Entry], keys: &[u64]) -> Result<Vec<Group>, AllocError>
    requires few { length entries.now ≤ 2 ^ 21 }
    requires placed { All (λ (entry : Entry). IsPlacedBox entry.area) entries.now }
    ensures { IfOk result (λ groups. IsTreeOf entries.now groups.items) }
{
    if entries.is_empty() {
        return Ok(Vec::new(alloc));
    }
    let sorted = Sorted { entries, keys };
    let mut groups = Vec::with_capacity(alloc, entries.len() / 2)?;
    add_tree(&mut groups, &sorted, 0, entries.len() as u32)?;
    Ok(groups)
}

/// The same, made in so many shares.
pub fn grown_in_shares<H: Threads + Sync>(
    rt: &H,
    alloc: Global,
    entries: &[Entry],
    keys: &[u64],
    shares: u32,
) -> Result<Vec<Group>, AllocError>
    requires few { length entries.now ≤ 2 ^ 21 }
    requires placed { All (λ (entry : Entry). IsPlacedBox entry.area) entries.now }
    ensures { IfOk result (λ groups. IsTreeOf entries.now groups.items) }
{
    if entries.is_empty() {
        return Ok(Vec::new(alloc));
    }
    let sorted = Sorted { entries, keys };
    let count = entries.len() as u32;
    Ok(make_subtree(rt, alloc, space_for(count), &sorted, 0, count, shares)?.groups)
}

// The groups of the run from one place to another, made in so many shares: those of either side of its middle in a
// thread of their own. Those on the left are made where those of the whole run are to stand.
#[cycle(halves)]
fn make_subtree<H: Threads + Sync>(
    rt: &H,
    alloc: Global,
    space: Space,
    sorted: &Sorted,
    start: u32,
    end: u32,
    shares: u32,
) -> Result<Subtree, AllocError>
    requires some { start < end }
    requires within { end ≤ length sorted.now.entries.now }
    requires sorted { CanGrow sorted.now }
    requires free { space.free + shares < 2 ^ 33 }
    ensures { IfOk result (IsSubtree sorted.now.entries.now start end space.free) }
{
    if shares < 2 || end - start < LONG {
        return make_in_one(alloc, space, sorted, start, end);
    }
    let middle = middle_of(sorted.keys, start, end);
    let on_left = Space {
        free: space.free + 1,
        ..space
    };
    let apart = space_for(end - middle);
    let left = || -> Result<Subtree, AllocError>
        requires { IsSync H.row × (2 ≤ shares) × (start < middle) × (middle ≤ length sorted.now.entries.now)
            × CanGrow sorted.now × (on_left.free + shares ≤ 2 ^ 33) }
        ensures { IfOk result (IsSubtree sorted.entry.now.entries.now start middle on_left.free) }
    { make_subtree(rt, alloc, on_left, sorted, start, middle, shares / 2) };
    let right = || -> Result<Subtree, AllocError>
        requires { IsSync H.row × (2 ≤ shares) × (middle < end) × (end ≤ length sorted.now.entries.now)
            × CanGrow sorted.now × (apart.free ≡ 0) }
        ensures { IfOk result (IsSubtree sorted.entry.now.entries.now middle end apart.free) }
    { make_subtree(rt, alloc, apart, sorted, middle, end, shares - shares / 2) };
    let (left, right) = join(rt, left, right);
    put_together(space.free, left?, right?)
}

// The same in one share.
fn make_in_one(
    alloc: Global,
    space: Space,
    sorted: &Sorted,
    start: u32,
    end: u32,
) -> Result<Subtree, AllocError>
    requires some { start < end }
    requires within { end ≤ length sorted.now.entries.now }
    requires sorted { CanGrow sorted.now }
    ensures { IfOk result (IsSubtree sorted.now.entries.now start end space.free) }
{
    let mut groups = Vec::with_capacity(alloc, space.room)?;
    groups.resize(space.free, of_entry(&sorted.entries[start as usize], start))?;
    let top = add_tree(&mut groups, sorted, start, end)?;
    Ok(Subtree { top, groups })
}

// That of a list of its own for the groups of so many entries.
fn space_for(count: u32) -> Space
    ensures { result.free ≡ 0 }
{
    Space {
        free: 0,
        room: count as usize / 2,
    }
}

// Puts the groups of a run after those of the run before it, and a group round both in the last place that is free.
fn put_together(at: usize, left: Subtree, mut right: Subtree) -> Result<Subtree, AllocError>
    requires there { at < length left.groups.items }
    requires inside { length left.groups.items + length right.groups.items ≤ at + 2 ^ 32 }
    requires left { IsPlacedGroup left.top }
    requires right { IsPlacedGroup right.top }
    requires few { left.top.count + right.top.count ≤ 2 ^ 21 }
    ensures { IfOk result (λ both. (entries : List Entry) (start middle end : ℕ)
        → IsSubtree entries start middle (at + 1) left → IsSubtree entries middle end 0 right
        → IsSubtree entries start end at both) }
{
    let Subtree {
        top: left,
        mut groups,
    } = left;
    groups.append(&mut right.groups)?;
    let top = put_round(&mut groups, at, &left, &right.top);
    Ok(Subtree { top, groups })
}

// Adds a group of the run from one place to another, with those inside it, and gives that group.
fn add_tree(
    groups: &mut Vec<Group>,
    sorted: &Sorted,
    start: u32,
    end: u32,
) -> Result<Group, AllocError>
    requires some { start < end }
    requires within { end ≤ length sorted.now.entries.now }
    requires sorted { CanGrow sorted.now }
    ensures { IfOk result (IsGrown sorted.now.entries.now start end groups.old.items groups.new.items) }
{
    if end - start <= RUN {
        let leaf = leaf_of(sorted, start, end);
        groups.push(leaf)?;
        return Ok(leaf);
    }
    let at = groups.len();
    groups.push(of_entry(&sorted.entries[start as usize], start))?;
    let middle = middle_of(sorted.keys, start, end);
    let left = add_tree(groups, sorted, start, middle)?;
    let right = add_tree(groups, sorted, middle, end)?;
    Ok(put_round(groups, at, &left, &right))
}

// Puts a group round two, of which the second stands after the first, in the place that was left for it.
fn put_round(groups: &mut Vec<Group>, at: usize, left: &Group, right: &Group) -> Group
    requires there { at < length groups.old.items }
    requires inside { length groups.old.items ≤ at + 2 ^ 32 }
    requires left { IsPlacedGroup left.now }
    requires right { IsPlacedGroup right.now }
    requires few { left.now.count + right.now.count ≤ 2 ^ 21 }
    ensures { (entries : List Entry) (start middle end : ℕ) (before mid : List Group)
        (empty : Group) → at ≡ length before → IsGrown entries start middle (before ++ empty ∷ []) mid left.now
        → IsGrown entries middle end mid groups.old.items right.now
        → IsGrown entries start end before groups.new.items result }
{
    let group = Group {
        inside: (groups.len() - 1 - at) as u32,
        ..joined(left, right)
    };
    groups[at] = group;
    group
}

// Where a run is divided: near its middle, where the highest bit changes that does so there, so that the areas on
// either side lie in other cells.
fn middle_of(keys: &[u64], start: u32, end: u32) -> u32
    requires { start + 1 < end }
    ensures after { start < result }
    ensures before { result < end }
{
    let middle = start + (end - start) / 2;
    let slack = (end - start) / 8;
    let low = (middle - slack) as usize;
    let Some(near) = keys.get(low..(middle + slack) as usize) else {
        return middle;
    };
    let (Some(first), Some(last)) = (near.first(), near.last()) else {
        return middle;
    };
    let change = first ^ last;
    if change == 0 {
        return middle;
    }
    let top = 1u64.rotate_right(change.leading_zeros() + 1);
    let divided = middle - slack + near.partition_point(|key| key & top == 0) as u32;
    if start < divided && divided < end {
        divided
    } else {
        middle
    }
}

// The group of the run from one place to another, with none inside.
fn leaf_of(sorted: &Sorted, start: u32, end: u32) -> Group
    requires some { start < end }
    requires within { end ≤ length sorted.now.entries.now }
    requires sorted { CanGrow sorted.now }
    ensures placed { IsPlacedGroup result }
    ensures starts { result.start ≡ start }
    ensures ends { start + result.count ≡ end }
    ensures inside { result.inside ≡ 0 }
    ensures within { (p : ℕ) → start ≤ p → p < end
        → IsBounded result (entry_of sorted.now.entries.now p) }
{
    let entries = sorted.entries;
    let mut leaf = of_entry(&entries[start as usize], start);
    for place in start + 1..end {
        leaf = joined(&leaf, &of_entry(&entries[place as usize], place));
    }
    leaf
}
