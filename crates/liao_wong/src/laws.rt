ghost use Rattle.std.specs.Prelude.{length};
ghost use Rattle.cons_graph.specs.{Solutions.value_of, Constraints.IsConstraintGraph};
ghost use Rattle.round_log.specs.Orders.{NamesEachOnce};
ghost use Rattle.liao_wong.specs.{Answers.{HasOneAnswer, HasOneCycle, WholeLogTells}, Sorted.HasOneOrder};

use cons_graph::Edge;

/// A law, with nothing to run: values for the variables put them in one order by (value, number).
pub fn one_order(x: &[i64])
    ensures { HasOneOrder (length x.now) (value_of x.now) }
{}

/// A law, with nothing to run: the rounds over a list of edges and an order stop at one cycle, if they stop.
pub fn one_cycle(edges: &[Edge], order: &[u32])
    ensures { HasOneCycle edges.now order.now }
{}

/// A law, with nothing to run: what `solve` and `solve_reached` answer over a graph and an order is the same. The
/// values and the number of rounds are, and of each variable the logs tell the same walk, edge by edge and value by
/// value; or the cycle is. The log of `solve` is one of those that `solve_reached` speaks of.
pub fn one_answer(vars: u32, edges: &[Edge], order: &[u32])
    requires shape { IsConstraintGraph (record { vars = vars; edges = edges.now }) }
    requires names { NamesEachOnce vars order.now }
    ensures one { HasOneAnswer (record { vars = vars; edges = edges.now }) order.now }
    ensures whole { WholeLogTells (record { vars = vars; edges = edges.now }) order.now }
{}
