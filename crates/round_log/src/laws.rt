ghost use Rattle.cons_graph.specs.Constraints.{IsConstraintGraph};
ghost use Rattle.round_log.specs.{Implied.HaveCyclesAlike, Orders.NamesEachOnce, Outcomes.{EndInOneWay, StopInOneWay}};
ghost use Rattle.round_log.specs.{Outcomes.DoNotEndAndStop, Rounds.schedule_of};

use cons_graph::Edge;

/// A law, with nothing to run: the rounds over a list of edges and an order have one end, or one stop.
pub fn rounds_come_out_one_way(edges: &[Edge], order: &[u32])
    ensures one_end { EndInOneWay (schedule_of edges.now order.now) }
    ensures one_stop { StopInOneWay (schedule_of edges.now order.now) }
{}

/// A law, with nothing to run: the rounds over a constraint graph do not both end and stop.
pub fn rounds_do_not_end_and_stop(vars: u32, edges: &[Edge], order: &[u32])
    requires shape { IsConstraintGraph (record { vars = vars; edges = edges.now }) }
    requires names { NamesEachOnce vars order.now }
    ensures { DoNotEndAndStop (schedule_of edges.now order.now) }
{}

/// A law, with nothing to run: edges that the others imply may be left out, and no positive cycle comes or goes.
pub fn implied_edges_change_no_cycle(some: &[Edge], all: &[Edge])
    ensures { HaveCyclesAlike some.now all.now }
{}
