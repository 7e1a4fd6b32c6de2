//! From links to lists of neighbours.
ghost use Rattle.std.specs.Prelude.{◌≡◌, ◌<◌, [], All, List, length, OnOk, IfOk, ◌++◌, ◌∷◌, ℕ};
ghost use Rattle.cell_nets.specs.Attaching.{IsAdded};
ghost use Rattle.graph_search.specs.Search.{AreNeighbours};

use smallvec::SmallVec;
use std::alloc::{AllocError, Global};

/// A list of neighbours for each of so many numbers, between which these are the links. The only refusal is want of
/// memory.
pub fn neighbours(
    alloc: Global,
    count: usize,
    links: &[(u32, u32)],
) -> Result<Vec<SmallVec<u32, 4>>, AllocError>
    requires { All (λ link. (link.0 < count) × (link.1 < count)) links.now }
    ensures { IfOk result (λ lists. AreNeighbours count links.now lists.items) }
{
    let mut lists = empty_lists(alloc, count)?;
    for &(a, b) in links {
        add(&mut lists, a, b)?;
        add(&mut lists, b, a)?;
    }
    Ok(lists)
}

// So many lists, with nothing in them.
fn empty_lists(alloc: Global, count: usize) -> Result<Vec<SmallVec<u32, 4>>, AllocError>
    ensures { IfOk result (λ lists. AreNeighbours count [] lists.items) }
{
    let mut lists = Vec::with_capacity(alloc, count)?;
    for _ in 0..count {
        lists.push(SmallVec::new(alloc))?;
    }
    Ok(lists)
}

// Puts a number at the end of another's list.
fn add(lists: &mut Vec<SmallVec<u32, 4>>, to: u32, number: u32) -> Result<(), AllocError>
    requires { to < length lists.old.items }
    ensures { OnOk result (IsAdded to number lists.old.items lists.new.items) }
{
    let list = &mut lists[to as usize];
    list.push(number)?;
    Ok(())
}
