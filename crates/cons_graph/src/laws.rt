ghost use Rattle.cons_graph.specs.Solutions.{HasOneLeast};

use crate::edges::Edge;

/// A law, with nothing to run: a list of inequalities has one least solution, if it has one.
pub fn one_least_solution(vars: u32, edges: &[Edge])
    ensures { HasOneLeast vars edges.now }
{}
