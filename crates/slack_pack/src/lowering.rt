ghost use Rattle.std.specs.Prelude.{◌≡◌, ℕ, ◌^◌, ◌<◌, ◌≤◌, false, ◌⊎◌, ℤ, pos, neg_ℤ, ◌≤ℤ◌, length, All, slice_index};
ghost use Rattle.cons_graph.specs.{Constraints.IsEdgeAmong, Solutions.{Meets, value_of}};
ghost use Rattle.edge_index.specs.Runs.{IsIndexOf};
ghost use Rattle.round_log.specs.Orders.{NamesEachOnce};
ghost use Rattle.slack_pack.specs.Slacks.{none_yet, IsPlaced, room_of, Allows, Grants, IsLeastAllowed, IsLowered};
ghost use Rattle.slack_pack.specs.Slacks.{IsQuietAt};

use cons_graph::{Edge, Graph};
use edge_index::EdgeIndex;

// Above each slack: what a variable has while no walk to a far one is known.
pub const NONE_YET: u64 = 1 << 63;

// One round over the variables, from the last of the order back: lowers the slack of each to the least that its edges
// allow. Gives whether one fell.
pub fn lower_all(
    slacks: &mut Vec<u64>,
    g: &Graph,
    index: &EdgeIndex,
    order: &[u32],
    x: &[i64],
) -> bool
    requires placed { IsPlaced g.now x.now }
    requires index { IsIndexOf g.now index.now }
    requires names { NamesEachOnce g.now.vars order.now }
    requires counted { length slacks.old.items ≡ g.now.vars }
    requires capped { All (λ s. s ≤ none_yet) slacks.old.items }
    ensures lowered { IsLowered g.now (value_of x.now) slacks.old.items slacks.new.items result }
    ensures quiet { result ≡ false → (v : ℕ) → v < g.now.vars
        → IsQuietAt g.now.edges (value_of x.now) slacks.new.items v }
{
    let mut fell = false;
    let mut k = order.len();
    while k > 0 {
        k -= 1;
        if lower_at(slacks, g, index, x, order[k]) {
            fell = true;
        }
    }
    fell
}

// Lowers the slack of one variable to the least that its edges allow. Gives whether it fell.
fn lower_at(slacks: &mut Vec<u64>, g: &Graph, index: &EdgeIndex, x: &[i64], v: u32) -> bool
    requires placed { IsPlaced g.now x.now }
    requires index { IsIndexOf g.now index.now }
    requires in_range { v < g.now.vars }
    requires counted { length slacks.old.items ≡ g.now.vars }
    requires capped { All (λ s. s ≤ none_yet) slacks.old.items }
    ensures lowered { IsLowered g.now (value_of x.now) slacks.old.items slacks.new.items result }
    ensures quiet { result ≡ false
        → IsQuietAt g.now.edges (value_of x.now) slacks.new.items v }
{
    let start = slacks[v as usize];
    let least = least_allowed(slacks, g.edges(), index.out_of(v), x, start);
    if least >= start {
        return false;
    }
    slacks[v as usize] = least;
    true
}

// The least of a number and of what the edges with these numbers allow.
fn least_allowed(slacks: &[u64], edges: &[Edge], numbers: &[u32], x: &[i64], start: u64) -> u64
    requires one_each { length slacks.now ≡ length x.now }
    requires capped { All (λ s. s ≤ none_yet) slacks.now }
    requires start { start ≤ none_yet }
    requires among { All (IsEdgeAmong (length x.now)) edges.now }
    requires meets { All (Meets (value_of x.now)) edges.now }
    requires low { All (λ a. neg_ℤ (pos (2 ^ 60)) ≤ℤ a) x.now }
    requires high { All (λ a. a ≤ℤ pos (2 ^ 60)) x.now }
    requires in_range { All (λ k. k < length edges.now) numbers.now }
    ensures { IsLeastAllowed edges.now (value_of x.now) slacks.now numbers.now
        (length numbers.now) start result }
{
    let mut least = start;
    for k in numbers {
        least = least.min(allowance(slacks, &edges[*k as usize], x));
    }
    least
}

// How far an edge lets its tail move: the slack of its head and the room of the edge, if the head has a slack.
fn allowance(slacks: &[u64], edge: &Edge, x: &[i64]) -> u64
    requires one_each { length slacks.now ≡ length x.now }
    requires capped { All (λ s. s ≤ none_yet) slacks.now }
    requires among { IsEdgeAmong (length x.now) edge.now }
    requires meets { Meets (value_of x.now) edge.now }
    requires low { All (λ a. neg_ℤ (pos (2 ^ 60)) ≤ℤ a) x.now }
    requires high { All (λ a. a ≤ℤ pos (2 ^ 60)) x.now }
    ensures allows { Allows slacks.now (value_of x.now) edge.now result }
    ensures grants { (result ≡ none_yet) ⊎ Grants slacks.now (value_of x.now) edge.now result }
{
    let head = slacks[edge.to as usize];
    if head >= NONE_YET {
        return NONE_YET;
    }
    head + room(edge, x) as u64
}

// By how much an edge could be longer and still hold.
fn room(edge: &Edge, x: &[i64]) -> i64
    requires among { IsEdgeAmong (length x.now) edge.now }
    requires meets { Meets (value_of x.now) edge.now }
    requires low { All (λ a. neg_ℤ (pos (2 ^ 60)) ≤ℤ a) x.now }
    requires high { All (λ a. a ≤ℤ pos (2 ^ 60)) x.now }
    ensures value { result ≡ room_of (value_of x.now) edge.now }
    ensures low { pos 0 ≤ℤ result }
    ensures high { result ≤ℤ pos (2 ^ 62) }
{
    x[edge.to as usize] - x[edge.from as usize] - edge.len
}
