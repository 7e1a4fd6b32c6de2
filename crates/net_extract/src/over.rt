//! What lies near an entry or over a cut, in trees of pieces.
ghost use Rattle.std.specs.Prelude.{◌≡◌, ◌≤◌, ◌↔◌, [], true, All, Contains, IfOk, IsTrue, OnOk, length};
ghost use Rattle.box_tree.specs.{declared.query.Question.TheVariants.NearOfOther, Queries.{Holds, IsQuery}};
ghost use Rattle.box_tree.specs.{UnvisitedTrees.{AreTreeParts, IsUnvisitedWithin}, Found.AreGathered};
ghost use Rattle.lam_geom.specs.Places.{IsPlacedBox};
ghost use Rattle.net_extract.specs.{Nearby.{AreFound, AreFrom, AreOfTwo, IsInSome, query_of}, Lists.tags_of};

use box_tree::{Entry, OwnedParts, Query, Question, UnvisitedTree, entry_in, group_of};
use lam_geom::{BoxXY, gap_box};
use std::alloc::AllocError;

/// The pieces on each layer that conducts.
#[derive(Drop)]
pub struct PieceTrees {
    pub diffusion: UnvisitedTree,
    pub poly: UnvisitedTree,
    pub metal: UnvisitedTree,
}

/// An area, and how far from it entries of another box than its owner may lie.
#[derive(Clone, Copy)]
pub struct Vicinity {
    pub area: BoxXY,
    pub reach: i64,
    pub owner: u32,
}

/// What lies no farther than so much from an area, and is of another box.
pub fn near(area: &BoxXY, reach: i64, owner: u32) -> Query
    requires { IsPlacedBox area.now }
    ensures is { result ≡ record { area = area.now; question = NearOfOther reach owner } }
    ensures query { IsQuery result }
{
    Query {
        area: *area,
        question: Question::NearOfOther { reach, owner },
    }
}

// Whether an entry is one of those.
fn is_near(near: &Vicinity, other: &Entry) -> bool
    requires near { IsPlacedBox near.now.area }
    requires other { IsPlacedBox other.now.area }
    ensures { IsTrue result ↔ Holds (query_of near.now) other.now }
{
    gap_box(&near.area, &other.area) <= near.reach && other.owner != near.owner
}

/// Puts the entries of some trees that are near an area after those in `found`, until they are more than `most` and of
/// two boxes. Whether these are all. The only refusal is want of memory.
pub fn find_near(
    trees: &[&OwnedParts],
    near: &Vicinity,
    most: usize,
    found: &mut Vec<Entry>,
) -> Result<bool, AllocError>
    requires trees { All (λ tree. AreTreeParts tree.now) trees.now }
    requires near { IsPlacedBox near.now.area }
    ensures { IfOk result
        (λ all. AreFound (IsInSome trees.now) (query_of near.now) all found.old.items found.new.items) }
{
    for parts in trees {
        if !find_on(parts, near, most, found)? {
            return Ok(false);
        }
    }
    Ok(true)
}

// The same of one tree.
fn find_on(
    parts: &OwnedParts,
    near: &Vicinity,
    most: usize,
    found: &mut Vec<Entry>,
) -> Result<bool, AllocError>
    requires parts { AreTreeParts parts.now }
    requires near { IsPlacedBox near.now.area }
    ensures { IfOk result (λ all. AreFound (Contains parts.now.entries.items) (query_of near.now) all
        found.old.items found.new.items) }
{
    let mut at = 0;
    while at < parts.groups.len() {
        let group = group_of(parts, at);
        if gap_box(&near.area, &group.outer) > near.reach {
            at += 1 + group.inside as usize;
        } else if group.inside == 0 {
            let end = group.start + group.count;
            find_within(parts, group.start, end, near, found)?;
            // A box has two pieces at most, so that many are always of two boxes.
            if found.len() > most && is_of_two(found.as_slice()) {
                return Ok(false);
            }
            at += 1;
        } else {
            at += 1;
        }
    }
    Ok(true)
}

// Puts those at some places after those in `found`.
fn find_within(
    parts: &OwnedParts,
    first: u32,
    end: u32,
    near: &Vicinity,
    found: &mut Vec<Entry>,
) -> Result<(), AllocError>
    requires parts { AreTreeParts parts.now }
    requires near { IsPlacedBox near.now.area }
    requires within { end ≤ length parts.now.entries.items }
    ensures tags { OnOk result (AreGathered (IsUnvisitedWithin parts.now (query_of near.now) [] first end)
        (tags_of found.old.items) (tags_of found.new.items)) }
    ensures entries { OnOk result
        (AreFrom (Contains parts.now.entries.items) (query_of near.now) found.old.items found.new.items) }
{
    for place in first..end {
        let other = entry_in(parts, place as usize);
        if is_near(near, other) {
            found.push(*other)?;
        }
    }
    Ok(())
}

/// Puts those of some entries that are near an area after those in `found`. The only refusal is want of memory.
pub fn push_near(
    near: &Vicinity,
    nearby: &[Entry],
    found: &mut Vec<Entry>,
) -> Result<(), AllocError>
    requires near { IsPlacedBox near.now.area }
    requires nearby { All (λ entry. IsPlacedBox entry.area) nearby.now }
    ensures { OnOk result
        (AreFound (Contains nearby.now) (query_of near.now) true found.old.items found.new.items) }
{
    for other in nearby {
        if is_near(near, other) {
            found.push(*other)?;
        }
    }
    Ok(())
}

/// Whether some entries are of two boxes at least.
pub fn is_of_two(entries: &[Entry]) -> bool
    ensures { IsTrue result ↔ AreOfTwo entries.now }
{
    let Some(first) = entries.first() else {
        return false;
    };
    let owner = first.owner;
    for entry in entries {
        if entry.owner != owner {
            return true;
        }
    }
    false
}
