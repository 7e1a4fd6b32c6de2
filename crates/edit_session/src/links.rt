ghost use Rattle.std.specs.Prelude.{◌≡◌, ℕ, ◌+◌, ◌^◌, ◌<◌, List, [], ◌∷◌, ◌++◌, length, All, IfOk, OnOk, OnErr};
ghost use Rattle.cons_graph.specs.declared.edges.Edge.{Edge};
ghost use Rattle.edit_session.specs.Links.{AreLinks};

use cons_graph::Edge;
use std::alloc::{AllocError, Global};

// Which edges leave each variable, from the newest to the oldest: numbers of edges plus 1, or 0 for none. `latest`
// has for each variable the newest edge that leaves it, `before` for each edge the next older one of the same tail.
#[derive(Drop)]
pub struct Links {
    pub latest: Vec<u32>,
    pub before: Vec<u32>,
}

impl Links {
    // Room for the links of so many variables and edges.
    pub fn new(alloc: Global, vars: u32, edges: usize) -> Result<Links, AllocError>
        ensures vars { IfOk result (λ l. length l.latest.items ≡ vars) }
        ensures edges { IfOk result (λ l. length l.before.items ≡ edges) }
    {
        let latest = vec![in alloc; 0u32; vars as usize]?;
        let before = vec![in alloc; 0u32; edges]?;
        Ok(Links { latest, before })
    }

    // Makes the links of a list of edges anew. Takes no memory.
    pub fn link(&mut self, edges: &[Edge])
        requires tails_in_range { All (λ e. e.from < length self.old.latest.items) edges.now }
        requires one_each { length self.old.before.items ≡ length edges.now }
        requires few { length edges.now < 2 ^ 32 }
        ensures { AreLinks (length self.old.latest.items) edges.now
            self.new.latest.items self.new.before.items }
    {
        for v in 0..self.latest.len() {
            self.latest[v] = 0;
        }
        for k in 0..edges.len() {
            let tail = edges[k].from as usize;
            self.before[k] = self.latest[tail];
            self.latest[tail] = k as u32 + 1;
        }
    }

    // The links of one edge more, which leaves `tail`. After a refusal they are as before.
    pub fn add(&mut self, tail: u32) -> Result<(), AllocError>
        requires in_range { tail < length self.old.latest.items }
        requires few { length self.old.before.items < 2 ^ 31 }
        ensures ok { OnOk result ((edges : List Edge) (e : Edge) → e.from ≡ tail
            → AreLinks (length self.old.latest.items) edges self.old.latest.items self.old.before.items
            → AreLinks (length self.old.latest.items) (edges ++ e ∷ []) self.new.latest.items self.new.before.items) }
        ensures count { OnOk result (length self.new.before.items ≡ length self.old.before.items + 1) }
        ensures one_each { OnOk result (length self.new.latest.items ≡ length self.old.latest.items) }
        ensures latest_stays { OnErr result (self.new.latest.items ≡ self.old.latest.items) }
        ensures before_stays { OnErr result (self.new.before.items ≡ self.old.before.items) }
    {
        let older = self.latest[tail as usize];
        self.before.push(older)?;
        self.latest[tail as usize] = self.before.len() as u32;
        Ok(())
    }

    // The links of the edges that are left, one fewer than there were. Takes no memory.
    pub fn shorten(&mut self, edges: &[Edge])
        requires tails_in_range { All (λ e. e.from < length self.old.latest.items) edges.now }
        requires one_each { length self.old.before.items ≡ length edges.now + 1 }
        requires few { length edges.now < 2 ^ 32 }
        ensures { AreLinks (length self.old.latest.items) edges.now
            self.new.latest.items self.new.before.items }
    {
        self.before.pop();
        self.link(edges);
    }
}
