//! Breadth-first search over the lists of neighbours of parts: a number for each part, the same for all that it
//! reaches. Linear in the parts and the lengths of the lists.
ghost use Rattle.std.specs.Prelude.{◌≡◌, ℕ, ◌+◌, ◌^◌, ◌<◌, ◌≤◌, max, All, None, Some, IfOk, OnOk, length};
ghost use Rattle.std.specs.Prelude.{slice_index_or, List};
ghost use Rattle.graph_search.specs.{Netting.{next_net, IsNetting}, Search.{AreMutual, AreNeighbours, IsBeside}};
ghost use Rattle.graph_search.specs.Search.{mark_of, AreKept, AreVisited, IsSpread, AreWhole, AreNumbers};

use smallvec::SmallVec;
use std::alloc::{AllocError, Global};

/// A number for each part, and how many numbers there are: parts have the same where neighbours lead from one to the
/// other. They are numbered in order of their first parts. The only refusal is want of memory.
pub fn numbers(
    alloc: Global,
    neighbours: &[SmallVec<u32, 4>],
) -> Result<(Vec<u32>, u32), AllocError>
    requires both_ways { AreMutual neighbours.now }
    requires few { length neighbours.now < 2 ^ 31 }
    ensures numbers { IfOk result (λ found. AreNumbers neighbours.now found.0.items) }
    // where the lists are those of some links, the numbers are their netting
    ensures netting { IfOk result (λ found. (links : List (ℕ × ℕ))
        → AreNeighbours (length neighbours.now) links neighbours.now
        → IsNetting (length neighbours.now) links found.0.items) }
    ensures count { IfOk result (λ found. found.1 ≡ next_net found.0.items) }
{
    let mut marks = vec![in alloc; None; neighbours.len()]?;
    let mut nets = Vec::with_capacity(alloc, neighbours.len())?;
    let mut count = 0;
    for part in 0..neighbours.len() {
        let net = net_of(alloc, neighbours, &mut marks, part as u32, count)?;
        nets.push(net)?;
        count = count.max(net + 1);
    }
    Ok((nets, count))
}

// The net of a part: the one that it has, or else the next one, which then spreads over all that it reaches.
fn net_of(
    alloc: Global,
    neighbours: &[SmallVec<u32, 4>],
    marks: &mut Vec<Option<u32>>,
    part: u32,
    next: u32,
) -> Result<u32, AllocError>
    requires both_ways { AreMutual neighbours.now }
    requires counted { length marks.old.items ≡ length neighbours.now }
    requires whole { AreWhole (IsBeside neighbours.now) next marks.old.items }
    requires in_range { part < length neighbours.now }
    ensures counted { OnOk result (length marks.new.items ≡ length marks.old.items) }
    ensures kept { OnOk result (AreKept marks.old.items marks.new.items) }
    ensures net { IfOk result (λ net. mark_of marks.new.items part ≡ Some net) }
    ensures whole { IfOk result (λ net. AreWhole (IsBeside neighbours.now) (max next (net + 1)) marks.new.items) }
    ensures below { IfOk result (λ net. net ≤ next) }
{
    if let Some(net) = marks[part as usize] {
        return Ok(net);
    }
    spread(alloc, neighbours, marks, part, next)?;
    Ok(next)
}

// Gives a net to a part that has none and to all parts that it reaches.
fn spread(
    alloc: Global,
    neighbours: &[SmallVec<u32, 4>],
    marks: &mut Vec<Option<u32>>,
    start: u32,
    net: u32,
) -> Result<(), AllocError>
    requires both_ways { AreMutual neighbours.now }
    requires counted { length marks.old.items ≡ length neighbours.now }
    requires in_range { start < length neighbours.now }
    requires unmarked { mark_of marks.old.items start ≡ None }
    ensures { OnOk result (IsSpread (IsBeside neighbours.now) start net marks.old.items marks.new.items) }
{
    let mut reached = Vec::new(alloc);
    reached.push(start)?;
    marks[start as usize] = Some(net);
    let mut passed = 0;
    while passed < reached.len() {
        let part = reached[passed];
        visit(
            neighbours[part as usize].as_slice(),
            net,
            marks,
            &mut reached,
        )?;
        passed += 1;
    }
    Ok(())
}

/// Gives a net to those of some parts that have none, and puts them at the end of the queue: a step of a search over
/// neighbours of one's own. In time of the parts. The only refusal is want of memory.
pub fn visit(
    parts: &[u32],
    net: u32,
    marks: &mut Vec<Option<u32>>,
    queue: &mut Vec<u32>,
) -> Result<(), AllocError>
    requires { All (λ k. k < length marks.old.items) parts.now }
    ensures { OnOk result (AreVisited parts.now net marks.old.items marks.new.items queue.old.items queue.new.items) }
{
    for &part in parts {
        if marks[part as usize].is_none() {
            queue.push(part)?;
            marks[part as usize] = Some(net);
        }
    }
    Ok(())
}
