ghost use Rattle.std.specs.Prelude.{◌≡◌, ◌≤◌, length, IfOk};
ghost use Rattle.round_log.specs.Logs.{IsLogOfLooks, raises_in, up_to_entry, NewestComesBack};
ghost use Rattle.cons_graph.specs.SimpleWalks.{IsSimplePositiveCycle};
ghost use Rattle.round_log.specs.WalksBack as back;

use crate::log::Log;
use crate::turning::turned;
use crate::walking_back::loop_from;
use cons_graph::Graph;
use std::alloc::{AllocError, Global};

/// The cycle that an entry closes whose variable stands earlier in its chain: going back along the chain, the first
/// variable that is met a second time closes it. It begins at its variable of least number.
///
/// The only refusal is want of memory.
pub fn cycle_of(alloc: Global, g: &Graph, log: &Log, entry: u64) -> Result<Vec<u32>, AllocError>
    requires log { IsLogOfLooks g.now log.now }
    requires in_log { entry ≤ length (raises_in log.now) }
    requires comes_back { NewestComesBack (up_to_entry (raises_in log.now) entry) }
    ensures value { IfOk result
        (λ c. c.items ≡ back.cycle_of g.now.edges (up_to_entry (raises_in log.now) entry)) }
    ensures cycle { IfOk result (λ c. IsSimplePositiveCycle g.now.edges c.items) }
{
    let walk = loop_from(alloc, g.vars(), log.entries.as_slice(), entry)?;
    turned(alloc, g.edges(), &walk)
}
