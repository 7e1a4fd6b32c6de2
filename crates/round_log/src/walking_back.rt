ghost use Rattle.std.specs.Prelude.{◌≡◌, [], ◌≤◌, length, map, reverse, drop, IfOk};
ghost use Rattle.round_log.specs.{Looks.chain, WalksBack.loop_back, Entries.AreEntries, Logs.raises_of};

use crate::log::Entry;
use std::alloc::{AllocError, Global};

// Goes back along the chain of an entry to the first variable that is met a second time, and gives the edges between,
// in the order of the walk.
pub fn loop_from(
    alloc: Global,
    vars: u32,
    entries: &[Entry],
    entry: u64,
) -> Result<Vec<u32>, AllocError>
    requires entries_are { AreEntries vars entries.now }
    requires in_log { entry ≤ length (raises_of entries.now) }
    ensures { IfOk result
        (λ w. w.items ≡ map (λ r. r.edge) (loop_back [] (chain (raises_of entries.now) entry))) }
{
    let mut path = Vec::new(alloc);
    let mut met = vec![in alloc; 0usize; vars as usize]?;
    let mut n = entry as usize;
    while n > 0 {
        let raise = entries[n];
        let place = met[raise.var as usize];
        if place > 0 {
            return edges_back(alloc, &path, place - 1);
        }
        path.push(raise)?;
        met[raise.var as usize] = path.len();
        n = raise.prev as usize;
    }
    Ok(Vec::new(alloc))
}

// The edges of these raises from a place on, from the last one back.
fn edges_back(alloc: Global, raises: &[Entry], place: usize) -> Result<Vec<u32>, AllocError>
    requires { place ≤ length raises.now }
    ensures { IfOk result (λ w. w.items ≡ map (λ r. r.edge) (reverse (drop place raises.now))) }
{
    let after = &raises[place..];
    after.iter().rev().map(|raise| raise.edge).collect(alloc)
}
