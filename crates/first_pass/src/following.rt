//! A session that follows the limits of some masters.
//!
//! Nothing is said of which limits it has: what comes of it is tested when its values are used.

ghost use Rattle.std.specs.Prelude.{◌≡◌, ◌≤◌, length, All, OnOk, IfOk, Err};
ghost use Rattle.cons_graph.specs.Constraints.{IsEdgeAmong};
ghost use Rattle.first_pass.specs.Following.{Stays};

use cons_graph::Edge;
use edit_session::{Session, SessionFault};
use std::alloc::AllocError;

// How many inequalities at the front two lists share.
fn common_prefix(a: &[Edge], b: &[Edge]) -> usize
    ensures a { result ≤ length a.now }
    ensures b { result ≤ length b.now }
{
    for k in 0..a.len() {
        if k >= b.len() || a[k] != b[k] {
            return k;
        }
    }
    if a.len() < b.len() { a.len() } else { b.len() }
}

// How many at the back.
fn common_back(a: &[Edge], b: &[Edge]) -> usize
    ensures a { result ≤ length a.now }
    ensures b { result ≤ length b.now }
{
    for k in 0..a.len() {
        if k >= b.len() || a[a.len() - 1 - k] != b[b.len() - 1 - k] {
            return k;
        }
    }
    if a.len() < b.len() { a.len() } else { b.len() }
}

// Takes the inequality at a place after those that stay; gives false where there is none.
fn take_one(session: &mut Session, listed: u32, place: u32) -> Result<bool, AllocError>
    requires within { listed ≤ length session.old.edges }
    requires after { listed ≤ place }
    ensures { OnOk result (Stays listed session.old session.new) }
{
    let edges = session.edges();
    if place as usize >= edges.len() || edges[place as usize].from == 0 {
        return Ok(false);
    }
    session.take(place)?;
    Ok(true)
}

// Takes the inequalities of the limits from one place to another; gives false where one cannot be taken.
fn take_limits(
    session: &mut Session,
    listed: u32,
    places: &mut Vec<usize>,
    from: usize,
    to: usize,
) -> Result<bool, AllocError>
    requires within { listed ≤ length session.old.edges }
    ensures { OnOk result (Stays listed session.old session.new) }
{
    let end = session.edges().len() as u32;
    for at in (listed..end).rev() {
        let k = (at - listed) as usize;
        let Some(place) = places.get(k) else {
            return Ok(false);
        };
        if from <= *place && *place < to {
            if !take_one(session, listed, at)? {
                return Ok(false);
            }
            places.remove(k);
        }
    }
    Ok(true)
}

// The numbers of the limits after a place move with it.
fn move_places(places: &mut Vec<usize>, from: usize, to: usize) {
    for k in 0..places.len() {
        if places[k] >= from {
            places[k] = places[k].wrapping_sub(from).wrapping_add(to);
        }
    }
}

// Adds the inequalities of limits from a place on; gives false where the session has no room.
fn add_limits(
    session: &mut Session,
    listed: u32,
    places: &mut Vec<usize>,
    limits: &[Edge],
    from: usize,
) -> Result<bool, AllocError>
    requires within { listed ≤ length session.old.edges }
    requires among { All (IsEdgeAmong session.old.vars) limits.now }
    ensures { OnOk result (Stays listed session.old session.new) }
{
    let mut place = from;
    for edge in limits {
        match session.add(*edge) {
            Ok(()) => {}
            Err(SessionFault::TooManyEdges) => return Ok(false),
            Err(SessionFault::OutOfMemory) => return Err(AllocError),
        }
        places.push(place)?;
        place = place.wrapping_add(1);
    }
    Ok(true)
}

/// Brings a session to other limits: `listed` inequalities stay, and for each one after them `places` has its number
/// among the limits. Those between the limits that both lists begin with and those that both end with are taken and
/// added. Gives false where that does not go, as where the session has no room. The only refusal is want of memory.
pub fn follow(
    session: &mut Session,
    listed: u32,
    places: &mut Vec<usize>,
    old: &[Edge],
    new: &[Edge],
) -> Result<bool, AllocError>
    requires within { listed ≤ length session.old.edges }
    requires among { All (IsEdgeAmong session.old.vars) new.now }
    ensures { OnOk result (Stays listed session.old session.new) }
{
    let prefix = common_prefix(old, new);
    let back = common_back(&old[prefix..], &new[prefix..]);
    let old_end = old.len() - back;
    let new_end = new.len() - back;
    if !take_limits(session, listed, places, prefix, old_end)? {
        return Ok(false);
    }
    move_places(places, old_end, new_end);
    add_limits(session, listed, places, &new[prefix..new_end], prefix)
}
