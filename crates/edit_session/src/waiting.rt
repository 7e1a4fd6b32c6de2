ghost use Rattle.std.specs.Prelude.{◌≡◌, ◌≢◌, ℕ, ◌+◌, ◌<◌, ◌≤◌, false, true, length, IfOk, IfSome, IfNone};
ghost use Rattle.std.specs.Prelude.{slice_index_or};

use std::alloc::{AllocError, Global};
use std::collections::VecDeque;
use std::marker::Model;

// Variables that wait until the edges that leave them are looked at: each at most once, the one that came first in
// front.
#[derive(Drop)]
pub struct Waiting {
    queue: VecDeque<u32>,
    waits: Vec<bool>,
}

impl Model for Waiting {
    ghost use Rattle.std.specs.Prelude.{length};
    ghost use Rattle.std.specs.VecDeque.{deque_capacity};
    ghost use Rattle.edit_session.specs.Queues.{Waits, IsQueueOf};

    ghost Value = { Waits };

    ghost view = { λ w. record { count = length w.queue.items; marks = w.waits.items } };

    ghost invariant = { λ w. IsQueueOf w.queue.items w.waits.items (deque_capacity w.queue) };
}

impl Waiting {
    // None waits yet. Takes memory for as many as may ever wait.
    pub fn new(alloc: Global, vars: u32) -> Result<Waiting, AllocError>
        ensures { IfOk result (λ w. length w.marks ≡ vars) }
    {
        let queue = VecDeque::with_capacity(alloc, vars as usize)?;
        let waits = vec![in alloc; false; vars as usize]?;
        Ok(Waiting { queue, waits })
    }

    // Lets a variable wait, if it does not already. Takes no memory.
    pub fn push(&mut self, v: u32)
        requires { v < length self.old.marks }
        ensures waits { slice_index_or self.new.marks v false ≡ true }
        ensures still { (u : ℕ) → slice_index_or self.old.marks u false ≡ true
            → slice_index_or self.new.marks u false ≡ true }
        ensures one_each { length self.new.marks ≡ length self.old.marks }
        ensures count { self.new.count ≤ self.old.count + 1 }
    {
        if self.waits[v as usize] {
            return;
        }
        self.queue.push_back_reserved(v);
        self.waits[v as usize] = true;
    }

    // Takes the first one that waits.
    pub fn pop(&mut self) -> Option<u32>
        ensures in_range { IfSome result (λ v. v < length self.old.marks) }
        ensures still { IfSome result (λ v. (u : ℕ) → u ≢ v → slice_index_or self.old.marks u false ≡ true
            → slice_index_or self.new.marks u false ≡ true) }
        ensures one_each { length self.new.marks ≡ length self.old.marks }
        ensures count { IfSome result (λ _. self.new.count + 1 ≡ self.old.count) }
        ensures none { IfNone result ((u : ℕ) → slice_index_or self.old.marks u false ≡ true → ⊥) }
    {
        let v = self.queue.pop_front()?;
        self.waits[v as usize] = false;
        Some(v)
    }
}
