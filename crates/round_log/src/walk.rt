ghost use Rattle.std.specs.Prelude.{◌≡◌, ◌<◌, ◌≤◌, ◌∷◌, length, All, IfOk, Some};
ghost use Rattle.round_log.specs.{Looks.label, Logs.{raises_in, IsEndedLog}, WalksBack.walk_of};
ghost use Rattle.cons_graph.specs.{SimpleWalks.{heads_of, length_of, HasNoRepeat, WalksFromTo}, Lines.lines_of};

use crate::log::Log;
use cons_graph::{Graph, Names, edge_lines};
use std::alloc::{AllocError, Global};
use stick_lex::Text;

/// The walk from the origin to a variable that the log tells: the edges of the entries from the variable's latest one
/// back along `prev`, in reverse. Its length is the variable's label, in u. The only refusal is want of memory.
pub fn walk_to(alloc: Global, g: &Graph, log: &Log, var: u32) -> Result<Vec<u32>, AllocError>
    requires ended { IsEndedLog g.now log.now }
    requires in_range { var < g.now.vars }
    ensures value { IfOk result (λ walk. walk.items ≡ walk_of (raises_in log.now) var) }
    ensures passes { IfOk result (λ walk. WalksFromTo g.now.edges 0 walk.items var) }
    ensures simple { IfOk result (λ walk. HasNoRepeat (0 ∷ heads_of g.now.edges walk.items)) }
    ensures as_long { IfOk result
        (λ walk. label (raises_in log.now) var ≡ Some (length_of g.now.edges walk.items)) }
{
    prove!(var < g.vars());
    let entries = log.entries.as_slice();
    let mut walk = Vec::new(alloc);
    let mut n = log.last.as_slice()[var as usize] as usize;
    while n > 0 {
        let entry = &entries[n];
        walk.push(entry.edge)?;
        n = entry.prev as usize;
    }
    walk.reverse();
    Ok(walk)
}

/// The lines of a walk's edges, in its order: `FROM -> TO LEN WHY` and a line end each. The only refusal is want of
/// memory.
pub fn walk_lines(alloc: Global, g: &Graph, names: &Names, walk: &[u32]) -> Result<Text, AllocError>
    requires in_range { All (λ k. k < length g.now.edges) walk.now }
    requires named { g.now.vars ≤ length names.now }
    ensures { IfOk result (λ text. text ≡ lines_of g.now.edges names.now walk.now) }
{
    edge_lines(alloc, g, names, walk)
}
