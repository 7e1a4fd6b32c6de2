ghost use Rattle.std.specs.Prelude.{◌≡◌, ℕ, ◌+◌, ◌*◌, ◌^◌, ◌<◌, ◌≤◌, false, true, ℤ, pos, neg_ℤ, ◌+ℤ◌, ◌≤ℤ◌, ◌<ℤ◌};
ghost use Rattle.std.specs.Prelude.{length, IfSome, IfNone};
ghost use Rattle.cons_graph.specs.{Constraints.IsEdgeAmong, Solutions.{Meets, IsLeastSolution, value_of}};
ghost use Rattle.cons_graph.specs.{Walks.HasPositiveCycle, EdgeNumbers.edge_at};
ghost use Rattle.edit_session.specs.{Links.AreLinks, Raised.{IsRaised, IsAppended, room_left}};

use crate::links::Links;
use crate::waiting::Waiting;
use cons_graph::Edge;

// Makes of the least solution without the last edge the one with it, from the old values on: raises what the edge
// asks for, and what edges that leave raised variables ask for. Gives false where the edge closes a positive cycle;
// the values then say nothing.
//
// Each value rises by at most as much as the head of the last edge, since the old values meet all other edges. Those
// that wait are taken in the order in which they came (Bellman, Ford and Moore).
pub fn raise_last(x: &mut Vec<i64>, waiting: &mut Waiting, edges: &[Edge], links: &Links) -> bool
    requires appended { IsAppended edges.now x.old.items waiting.old.marks }
    requires links { AreLinks (length x.old.items) edges.now links.now.latest.items links.now.before.items }
    ensures one_each { length x.new.items ≡ length x.old.items }
    ensures one_mark_each { length waiting.new.marks ≡ length x.old.items }
    ensures least { result ≡ true → IsLeastSolution (length x.old.items) edges.now (value_of x.new.items) }
    ensures cycle { result ≡ false → HasPositiveCycle edges.now }
{
    let last = edges[edges.len() - 1];
    let Some(value) = asked(x, &last) else {
        return true;
    };
    x[last.to as usize] = value;
    waiting.push(last.to);
    while let Some(v) = waiting.pop() {
        if !look_from(x, waiting, edges, links, v, last.from) {
            return false;
        }
    }
    true
}

// Looks at all edges that leave a variable. Gives false where one asks for a higher value of `tail`.
fn look_from(
    x: &mut Vec<i64>,
    waiting: &mut Waiting,
    edges: &[Edge],
    links: &Links,
    v: u32,
    tail: u32,
) -> bool
    requires links { AreLinks (length x.old.items) edges.now links.now.latest.items links.now.before.items }
    requires in_range { v < length x.old.items }
    requires raised { IsRaised (length x.old.items) tail edges.now x.old.items waiting.old.marks v (length edges.now) }
    ensures raised { result ≡ true
        → IsRaised (length x.old.items) tail edges.now x.new.items waiting.new.marks v 0 }
    ensures one_each { length x.new.items ≡ length x.old.items }
    ensures one_mark_each { length waiting.new.marks ≡ length x.old.items }
    ensures less { result ≡ true → 2 * room_left x.new.items + waiting.new.count
        ≤ 2 * room_left x.old.items + waiting.old.count }
    ensures cycle { result ≡ false → HasPositiveCycle edges.now }
{
    let mut older = links.latest[v as usize];
    while older > 0 {
        let k = older as usize - 1;
        if !look(x, waiting, edges, k, tail) {
            return false;
        }
        older = links.before[k];
    }
    true
}

// Raises the head of an edge to what the edge asks for and lets it wait, unless the edge is met. Gives false where
// the head is `tail`.
fn look(x: &mut Vec<i64>, waiting: &mut Waiting, edges: &[Edge], k: usize, tail: u32) -> bool
    requires in_range { k < length edges.now }
    requires raised { IsRaised (length x.old.items) tail edges.now x.old.items waiting.old.marks
        (edge_at edges.now k).from (k + 1) }
    ensures raised { result ≡ true → IsRaised (length x.old.items) tail edges.now x.new.items waiting.new.marks
        (edge_at edges.now k).from k }
    ensures one_each { length x.new.items ≡ length x.old.items }
    ensures one_mark_each { length waiting.new.marks ≡ length x.old.items }
    ensures less { result ≡ true → 2 * room_left x.new.items + waiting.new.count
        ≤ 2 * room_left x.old.items + waiting.old.count }
    ensures cycle { result ≡ false → HasPositiveCycle edges.now }
{
    let edge = edges[k];
    let Some(value) = asked(x, &edge) else {
        return true;
    };
    if edge.to == tail {
        return false;
    }
    x[edge.to as usize] = value;
    waiting.push(edge.to);
    true
}

// The value that an edge asks of its head, where the head has a lower one.
fn asked(x: &[i64], edge: &Edge) -> Option<i64>
    requires among { IsEdgeAmong (length x.now) edge.now }
    requires low { neg_ℤ (pos (2 ^ 60)) ≤ℤ value_of x.now edge.now.from }
    requires high { value_of x.now edge.now.from ≤ℤ pos (2 ^ 60) }
    ensures met { IfNone result (Meets (value_of x.now) edge.now) }
    ensures value { IfSome result (λ a. a ≡ value_of x.now edge.now.from +ℤ edge.now.len) }
    ensures higher { IfSome result (λ a. value_of x.now edge.now.to <ℤ a) }
{
    let value = x[edge.from as usize] + edge.len;
    if x[edge.to as usize] >= value {
        return None;
    }
    Some(value)
}
