ghost use Rattle.std.specs.Prelude.{◌≡◌, ℕ, ◌^◌, ◌<◌, ◌≤◌, true, false, length, slice_set, All, IfOk};
ghost use Rattle.cons_graph.specs.Constraints.{IsConstraintGraph};
ghost use Rattle.round_log.specs.{Looks.place_in, Orders.NamesEachOnce};
ghost use Rattle.liao_wong.specs.{Held.ArePlaces, Leaving.LeaveFrom, Marked.is_marked};
ghost use Rattle.liao_wong.specs.Worklist.{WaitToo, BackwardOnesWait};

use crate::looks::{edge_from, goes_up};
use crate::marks::Marks;
use cons_graph::Edge;
use edge_index::Head;
use std::alloc::{AllocError, Global};

// An order of the variables, and the place of each in it.
#[derive(Drop)]
pub struct Order<'a> {
    pub variables: &'a [u32],
    pub places: Vec<u32>,
}

// What the rounds have to look at: the places of the variables that were raised since their forward edges were looked
// at, and the numbers of the backward edges that wait for a look.
#[derive(Drop)]
pub struct Worklist {
    pub ready: Marks,
    pub waiting: Marks,
}

impl Order<'_> {
    // The place of a variable.
    pub fn place(&self, v: u32) -> usize
        requires in_range { v < length self.now.places.items }
        requires names { NamesEachOnce (length self.now.places.items) self.now.variables.now }
        requires places { ArePlaces self.now.variables.now (length self.now.places.items)
            self.now.places.items }
        ensures place { result ≡ place_in self.now.variables.now v }
        ensures in_order { result < length self.now.variables.now }
    {
        self.places[v as usize] as usize
    }
}

// Marks those of the edges out of a variable that do not go up in the order.
fn mark_backward(
    waiting: &mut Marks,
    edges: &[Edge],
    tail: u32,
    numbers: &[u32],
    heads: &[Head],
    order: &Order,
)
    requires room { length waiting.old ≡ length edges.now }
    requires leave { LeaveFrom edges.now tail numbers.now heads.now }
    requires places { ArePlaces order.now.variables.now (length order.now.places.items)
        order.now.places.items }
    requires ends { All (λ e. (e.from < length order.now.places.items)
        × (e.to < length order.now.places.items)) edges.now }
    ensures grows { WaitToo edges.now order.now.variables.now waiting.old waiting.new }
    ensures all { BackwardOnesWait edges.now order.now.variables.now numbers.now waiting.new }
{
    for (i, k) in numbers.iter().enumerate() {
        if !goes_up(&edge_from(tail, heads[i]), &order.places) {
            waiting.set(*k as usize);
        }
    }
}

impl Worklist {
    // All variables are ready, and no edge waits.
    pub fn new(alloc: Global, variables: usize, edges: usize) -> Result<Worklist, AllocError>
        requires variables { variables ≤ 2 ^ 32 }
        requires edges { edges ≤ 2 ^ 32 }
        ensures one_ready_each { IfOk result (λ work. length work.ready ≡ variables) }
        ensures one_waiting_each { IfOk result (λ work. length work.waiting ≡ edges) }
        ensures ready { IfOk result (λ work. (n : ℕ) → n < variables → is_marked work.ready n ≡ true) }
        ensures waiting { IfOk result (λ work. (n : ℕ) → n < edges → is_marked work.waiting n ≡ false) }
    {
        let ready = Marks::new(alloc, variables, true)?;
        let waiting = Marks::new(alloc, edges, false)?;
        Ok(Worklist { ready, waiting })
    }

    // Marks what a raise of a variable makes worth a look: its forward edges, and the backward ones of those that leave
    // it. While it is ready they wait already, but for those that the backward part has passed, and these are marked
    // when the next forward part comes to the variable.
    pub fn mark_raised(
        &mut self,
        edges: &[Edge],
        numbers: &[u32],
        heads: &[Head],
        order: &Order,
        v: u32,
    )
        requires in_range { v < length order.now.places.items }
        requires names { NamesEachOnce (length order.now.places.items) order.now.variables.now }
        requires places { ArePlaces order.now.variables.now (length order.now.places.items)
            order.now.places.items }
        requires ends { All (λ e. (e.from < length order.now.places.items)
            × (e.to < length order.now.places.items)) edges.now }
        requires leave { LeaveFrom edges.now v numbers.now heads.now }
        requires ready { length self.old.ready ≡ length order.now.variables.now }
        requires waiting { length self.old.waiting ≡ length edges.now }
        ensures ready { self.new.ready ≡ slice_set self.old.ready (place_in order.now.variables.now v) true }
        ensures grows { WaitToo edges.now order.now.variables.now self.old.waiting self.new.waiting }
        ensures all { is_marked self.old.ready (place_in order.now.variables.now v) ≡ false
            → BackwardOnesWait edges.now order.now.variables.now numbers.now self.new.waiting }
    {
        let place = order.place(v);
        if !self.ready.has(place) {
            mark_backward(&mut self.waiting, edges, v, numbers, heads, order);
        }
        self.ready.set(place);
    }
}
