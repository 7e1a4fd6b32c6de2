ghost use Rattle.std.specs.Prelude.{◌≡◌, ◌≢◌, ◌↔◌, ℕ, ◌<◌, ◌≤◌, [], ◌∷◌, ◌++◌, length, All, None, Err, IfOk, OnOk};
ghost use Rattle.std.specs.{Prelude.{OnErr, IfSome}, List.remove};
ghost use Rattle.cons_graph.specs.{Constraints.{IsConstraintGraph, IsEdgeAmong}, EdgeNumbers.edge_at};
ghost use Rattle.cons_graph.specs.{Solutions.{IsLeastSolution, value_of}, Walks.HasPositiveCycle};
ghost use Rattle.liao_wong.specs.Answers.{IsWithinLimit};

use crate::links::Links;
use crate::raising::raise_last;
use crate::solving::solve_near;
use crate::waiting::Waiting;
use cons_graph::{Edge, Graph, MAX_EDGES};
use std::alloc::{AllocError, Global};
use std::marker::Model;
use thiserror::Error;

/// Why an edge was not added.
#[derive(Debug, Drop, PartialEq, Eq, Error)]
pub enum SessionFault {
    /// The session has 4,194,304 edges.
    #[error("too many edges")]
    TooManyEdges,
    #[error("out of memory")]
    OutOfMemory,
}

/// A constraint system whose edges come and go, with its least solution.
#[derive(Drop)]
pub struct Session {
    alloc: Global,
    vars: u32,
    edges: Vec<Edge>,
    links: Links,
    // the least solution, where no cycle is positive
    x: Vec<i64>,
    cyclic: bool,
    waiting: Waiting,
}

impl Model for Session {
    ghost use Rattle.cons_graph.specs.Constraints.{Constraints};
    ghost use Rattle.edit_session.specs.Kept.{IsKept};

    ghost Value = { Constraints };

    ghost view = { λ s. record { vars = s.vars; edges = s.edges.items } };

    ghost invariant = { λ s. IsKept (record { vars = s.vars; edges = s.edges.items })
        s.links.latest.items s.links.before.items s.x.items s.cyclic s.waiting.marks };
}

impl Session {
    /// A session with the edges of a graph, in their order. Solves it once. The only refusal is want of memory.
    pub fn new(alloc: Global, g: Graph) -> Result<Session, AllocError>
        ensures { IfOk result (λ s. s ≡ g) }
    {
        let vars = g.vars();
        let edges = Vec::from_slice(alloc, g.edges())?;
        let mut links = Links::new(alloc, vars, edges.len())?;
        links.link(&edges);
        let waiting = Waiting::new(alloc, vars)?;
        let start = vec![in alloc; 0i64; vars as usize]?;
        let (x, cyclic) = match solve_near(alloc, &g, &start)? {
            Some(x) => (x, false),
            None => (start, true),
        };
        Ok(Session {
            alloc,
            vars,
            edges,
            links,
            x,
            cyclic,
            waiting,
        })
    }

    /// Appends an edge. The time goes with how far the values rise, not with the number of edges: only the edges that
    /// leave variables whose values rise are looked at.
    ///
    /// `TooManyEdges` comes exactly where the session has 4,194,304 edges. After a refusal the session is as before.
    pub fn add(&mut self, e: Edge) -> Result<(), SessionFault>
        requires { IsEdgeAmong self.old.vars e }
        ensures ok { OnOk result
            (self.new ≡ record { vars = self.old.vars; edges = self.old.edges ++ e ∷ [] }) }
        ensures err { OnErr result (self.new ≡ self.old) }
        ensures too_many { (result ≡ Err SessionFault.TooManyEdges) ↔ (4194304 ≤ length self.old.edges) }
    {
        if self.edges.len() >= MAX_EDGES {
            return Err(SessionFault::TooManyEdges);
        }
        let Ok(()) = self.links.add(e.from) else {
            return Err(SessionFault::OutOfMemory);
        };
        let Ok(()) = self.edges.push(e) else {
            self.links.shorten(&self.edges);
            return Err(SessionFault::OutOfMemory);
        };
        if !self.cyclic {
            self.cyclic = !raise_last(&mut self.x, &mut self.waiting, &self.edges, &self.links);
        }
        Ok(())
    }

    /// Removes the edge at a place; the later ones move one place down. Solves the edges that are left anew, in the
    /// order of the values so far. The only refusal is want of memory, which leaves the session as it was.
    pub fn take(&mut self, place: u32) -> Result<(), AllocError>
        requires in_range { place < length self.old.edges }
        requires not_from_origin { (edge_at self.old.edges place).from ≢ 0 }
        ensures ok { OnOk result
            (self.new ≡ record { vars = self.old.vars; edges = remove self.old.edges place }) }
        ensures err { OnErr result (self.new ≡ self.old) }
    {
        let place = place as usize;
        let mut left = Vec::from_slice(self.alloc, &self.edges)?;
        left.remove(place);
        let Ok(g) = Graph::new(self.vars, left) else {
            unreachable!()
        };
        match solve_near(self.alloc, &g, &self.x)? {
            Some(x) => {
                self.x = x;
                self.cyclic = false;
            }
            None => self.cyclic = true,
        }
        self.edges.remove(place);
        self.links.shorten(&self.edges);
        Ok(())
    }

    /// The edges, in order. Takes no memory.
    pub fn edges(&self) -> &[Edge]
        ensures value { result.now ≡ self.now.edges }
        ensures shape { IsConstraintGraph self.now }
        ensures few { length self.now.edges ≤ 4194304 }
    {
        &self.edges
    }

    /// The least solution, a value in u for each variable; None exactly where the edges have a positive cycle. Takes
    /// no memory.
    pub fn least(&self) -> Option<&[i64]>
        ensures least { IfSome result (λ x. IsLeastSolution self.now.vars self.now.edges (value_of x.now)) }
        ensures one_each { IfSome result (λ x. length x.now ≡ self.now.vars) }
        ensures small { IfSome result (λ x. All IsWithinLimit x.now) }
        ensures cyclic { (result ≡ None) ↔ HasPositiveCycle self.now.edges }
    {
        if self.cyclic {
            return None;
        }
        Some(&self.x)
    }
}
