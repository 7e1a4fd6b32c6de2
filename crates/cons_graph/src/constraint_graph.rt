ghost use Rattle.std.specs.Prelude.{◌≡◌, ◌↔◌, ℕ, ◌^◌, ◌<◌, ◌≤◌, ℤ, pos, neg_ℤ, ◌≤ℤ◌, length, All, IsTrue, IfOk};
ghost use Rattle.std.specs.Prelude.{vec_len};
ghost use Rattle.cons_graph.specs.{Constraints.{Constraints, IsConstraintGraph, IsEdgeAmong}, Solutions.Meets};
ghost use Rattle.cons_graph.specs.{Solutions.value_of, SimpleWalks.{length_of, WalksFromTo, IsSimplePositiveCycle}};

use crate::edges::Edge;
use crate::walks::{leads, length_of_edges, no_tail_below, no_tail_twice};
use std::marker::Model;
use thiserror::Error;

/// The most edges that a graph may have.
pub const MAX_EDGES: usize = 4_194_304;

/// Why no graph was made of a list of edges.
#[derive(Debug, Drop, PartialEq, Eq, Error)]
pub enum GraphFault {
    /// There are more than 4,194,304 edges.
    #[error("too many edges")]
    TooManyEdges,
}

/// A constraint graph: variables 0, the origin, to `vars - 1`, and a list of edges among them.
#[derive(Drop)]
pub struct Graph {
    vars: u32,
    edges: Vec<Edge>,
}

impl Model for Graph {
    ghost use Rattle.cons_graph.specs.Constraints.{Constraints, IsSmallGraph};

    ghost Value = { Constraints };

    ghost view = { λ g. record { vars = g.vars; edges = g.edges.items } };

    ghost invariant = { λ g. IsSmallGraph (record { vars = g.vars; edges = g.edges.items }) };
}

impl Graph {
    /// Makes a graph of a list of edges, which it keeps as it is. Takes no memory.
    ///
    /// `TooManyEdges` comes exactly where there are more than 4,194,304 edges.
    pub fn new(vars: u32, edges: Vec<Edge>) -> Result<Graph, GraphFault>
        requires { IsConstraintGraph (record { vars = vars; edges = edges.items }) }
        ensures too_many { (result ≡ Err GraphFault.TooManyEdges) ↔ (4194304 < vec_len edges) }
        ensures ok { IfOk result (λ g. g ≡ record { vars = vars; edges = edges.items }) }
    {
        if edges.len() > MAX_EDGES {
            return Err(GraphFault::TooManyEdges);
        }
        Ok(Graph { vars, edges })
    }

    /// The list of edges, as it was given. Takes no memory.
    pub fn edges(&self) -> &[Edge]
        ensures value { result.now ≡ self.now.edges }
        ensures shape { IsConstraintGraph self.now }
        ensures few { length self.now.edges ≤ 4194304 }
    {
        &self.edges
    }

    /// How many variables there are. Takes no memory.
    pub fn vars(&self) -> u32
        ensures value { result ≡ self.now.vars }
        ensures shape { IsConstraintGraph self.now }
    {
        self.vars
    }

    /// Whether the values, one for each variable, make every edge's inequality true. Takes no memory.
    pub fn holds(&self, x: &[i64]) -> bool
        requires one_each { length x.now ≡ self.now.vars }
        requires low { All (λ v. neg_ℤ (pos (2 ^ 60)) ≤ℤ v) x.now }
        requires high { All (λ v. v ≤ℤ pos (2 ^ 60)) x.now }
        ensures { IsTrue result ↔ All (Meets (value_of x.now)) self.now.edges }
    {
        for edge in &self.edges {
            if !meets(edge, x) {
                return false;
            }
        }
        true
    }

    /// The sum of the lengths of the edges with these numbers. Takes no memory.
    pub fn walk_len(&self, walk: &[u32]) -> i64
        requires in_range { All (λ k. k < length self.now.edges) walk.now }
        requires few { length walk.now ≤ 2 ^ 36 }
        ensures { result ≡ length_of self.now.edges walk.now }
    {
        length_of_edges(&self.edges, walk)
    }

    /// Whether the numbers are in range, and the edges follow each other from the origin to a variable; an empty walk
    /// ends at the origin. Takes no memory.
    pub fn check_walk(&self, walk: &[u32], to: u32) -> bool
        ensures { IsTrue result ↔ WalksFromTo self.now.edges 0 walk.now to }
    {
        leads(&self.edges, 0, walk, to)
    }

    /// Whether the numbers are in range, and the edges follow each other back to their first variable, meet no variable
    /// twice, begin at their variable of least number and have a positive sum. Takes no memory; the time goes with the
    /// square of the cycle's length.
    pub fn check_cycle(&self, cycle: &[u32]) -> bool
        ensures { IsTrue result ↔ IsSimplePositiveCycle self.now.edges cycle.now }
    {
        let Some(first) = cycle.first() else {
            return false;
        };
        let first = *first as usize;
        if first >= self.edges.len() {
            return false;
        }
        let start = self.edges[first].from;
        if !leads(&self.edges, start, cycle, start) {
            return false;
        }
        if !no_tail_below(&self.edges, cycle, start) {
            return false;
        }
        if !no_tail_twice(&self.edges, cycle) {
            return false;
        }
        length_of_edges(&self.edges, cycle) > 0
    }
}

// Whether the values make one edge's inequality true.
fn meets(edge: &Edge, x: &[i64]) -> bool
    requires among { IsEdgeAmong (length x.now) edge.now }
    requires low { All (λ v. neg_ℤ (pos (2 ^ 60)) ≤ℤ v) x.now }
    requires high { All (λ v. v ≤ℤ pos (2 ^ 60)) x.now }
    ensures { IsTrue result ↔ Meets (value_of x.now) edge.now }
{
    is_at_most(edge.len, x[edge.to as usize] - x[edge.from as usize])
}

// One comparison of signed numbers, with its exact meaning.
fn is_at_most(a: i64, b: i64) -> bool
    ensures { IsTrue result ↔ (a ≤ℤ b) }
{
    a <= b
}
