ghost use Rattle.std.specs.Prelude.{◌≡◌, ◌≤◌, length, IfOk};
ghost use Rattle.cons_graph.specs.{SimpleWalks.IsSimplePositiveCycle, Lines.lines_of};

use cons_graph::{Graph, Names, edge_lines};
use std::alloc::{AllocError, Global};
use stick_lex::Text;

/// The lines of a cycle's edges, in its order: `FROM -> TO LEN WHY` and a line end each, lengths in u. The only refusal
/// is want of memory.
pub fn cycle_lines(
    alloc: Global,
    g: &Graph,
    names: &Names,
    cycle: &[u32],
) -> Result<Text, AllocError>
    requires passes { IsSimplePositiveCycle g.now.edges cycle.now }
    requires named { g.now.vars ≤ length names.now }
    ensures { IfOk result (λ text. text ≡ lines_of g.now.edges names.now cycle.now) }
{
    edge_lines(alloc, g, names, cycle)
}
