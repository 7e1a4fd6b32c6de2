//! The search for an entry that holds a query, or for all of them if they are not too many.
ghost use Rattle.std.specs.Prelude.{◌≡◌, ℕ, ◌+◌, ◌^◌, ◌<◌, ◌≤◌, [], All, IfOk, IsFalse, IsTrue, MatchOption, OnOk, length};
ghost use Rattle.lam_geom.specs.Places.{IsPlacedBox};
ghost use Rattle.box_tree.specs.{declared.entries.Entry.Entry, Found.{AreHolding, AreSomeHolding, IsTaken}};
ghost use Rattle.box_tree.specs.{Queries.{Holds, HoldsAt, IsQuery}, Tree.{IsTreeOf, entry_of}};

use crate::entries::{Entry, Group};
use crate::query::Query;
use std::alloc::AllocError;

/// The number of some entry of a tree that holds a query, or None where no entry does.
pub fn search(entries: &[Entry], groups: &[Group], query: &Query) -> Option<u32>
    requires tree { IsTreeOf entries.now groups.now }
    requires query { IsQuery query.now }
    ensures { MatchOption result
        ((k : ℕ) → HoldsAt entries.now query.now k → ⊥)
        (HoldsAt entries.now query.now) }
{
    let mut at = 0;
    while at < groups.len() {
        let group = &groups[at];
        at += 1;
        if !group.may_hold(query) {
            at += group.inside as usize;
        } else if group.inside == 0 {
            if let Some(found) = search_run(entries, group.start, group.count, query) {
                return Some(found);
            }
        }
    }
    None
}

// The number of some entry of a run that holds a query, or None where no entry does.
fn search_run(entries: &[Entry], start: u32, count: u32, query: &Query) -> Option<u32>
    requires few { length entries.now ≤ 2 ^ 21 }
    requires placed { All (λ (entry : Entry). IsPlacedBox entry.area) entries.now }
    requires within { start + count ≤ length entries.now }
    requires query { IsQuery query.now }
    ensures { MatchOption result
        ((p : ℕ) → start ≤ p → p < start + count → Holds query.now (entry_of entries.now p) → ⊥)
        (HoldsAt entries.now query.now) }
{
    for place in start..start + count {
        if query.holds(&entries[place as usize]) {
            return Some(place);
        }
    }
    None
}

/// Whether at most so many entries of a tree hold a query: puts their numbers into an empty list, until there are more.
/// The only refusal is want of memory.
pub fn search_few(
    entries: &[Entry],
    groups: &[Group],
    query: &Query,
    most: usize,
    found: &mut Vec<u32>,
) -> Result<bool, AllocError>
    requires tree { IsTreeOf entries.now groups.now }
    requires query { IsQuery query.now }
    requires empty { found.old.items ≡ [] }
    ensures all { IfOk result
        (λ few. IsTrue few → AreHolding entries.now query.now found.new.items × (length found.new.items ≤ most)) }
    ensures more { IfOk result
        (λ few. IsFalse few → AreSomeHolding entries.now query.now found.new.items × (most < length found.new.items)) }
{
    let mut next = 0;
    while next < groups.len() {
        let group = &groups[next];
        next += 1;
        if !group.may_hold(query) {
            next += group.inside as usize;
        } else if group.inside == 0 {
            take_run(entries, group.start, group.count, query, found)?;
            if found.len() > most {
                return Ok(false);
            }
        }
    }
    Ok(true)
}

// Puts the numbers of the entries of a run that hold a query after those of the entries before it.
fn take_run(
    entries: &[Entry],
    start: u32,
    count: u32,
    query: &Query,
    found: &mut Vec<u32>,
) -> Result<(), AllocError>
    requires few { length entries.now ≤ 2 ^ 21 }
    requires placed { All (λ (entry : Entry). IsPlacedBox entry.area) entries.now }
    requires within { start + count ≤ length entries.now }
    requires query { IsQuery query.now }
    requires taken { IsTaken entries.now (Holds query.now) start found.old.items }
    ensures { OnOk result (IsTaken entries.now (Holds query.now) (start + count) found.new.items) }
{
    for place in start..start + count {
        if query.holds(&entries[place as usize]) {
            found.push(place)?;
        }
    }
    Ok(())
}
