ghost use Rattle.std.specs.Prelude.{◌≡◌, ℕ, ◌^◌, ◌<◌, ◌≤◌, ℤ, pos, neg_ℤ, ◌≤ℤ◌, length, All, IfSome, List};
ghost use Rattle.cons_graph.specs.{Constraints.IsEdgeAmong, EdgeNumbers.edge_at};
ghost use Rattle.round_log.specs.Looks.{label, raise_by, raise_of, is_forward};
ghost use Rattle.liao_wong.specs.{Held.{HasSmallLabels, IsPushable, ArePlaces}, Leaving.edge_of};

use crate::raises::Raises;
use cons_graph::{Edge, Why};
use edge_index::Head;
use round_log::Entry;

// The raise that a look at an edge makes, if it makes one.
pub fn raise_at(raises: &Raises, edges: &[Edge], number: u32) -> Option<Entry>
    requires in_range { number < length edges.now }
    requires among { All (IsEdgeAmong raises.now.vars) edges.now }
    requires small { HasSmallLabels raises.now }
    ensures value { result ≡ raise_of (edge_at edges.now) raises.now.raises number }
    ensures pushable { IfSome result (IsPushable raises.now) }
{
    raise_along(raises, &edges[number as usize], number)
}

// The same of an edge that has been read, and its number.
pub fn raise_along(raises: &Raises, edge: &Edge, number: u32) -> Option<Entry>
    requires among { IsEdgeAmong raises.now.vars edge.now }
    requires small { HasSmallLabels raises.now }
    ensures value { result ≡ raise_of (λ _. edge.now) raises.now.raises number }
    ensures pushable { IfSome result (IsPushable raises.now) }
{
    let tail = raises.label(edge.from)?;
    raise_from(raises, edge, number, raises.latest(edge.from), tail)
}

// The raise that an edge makes whose tail has this label.
fn raise_from(raises: &Raises, edge: &Edge, number: u32, prev: u64, tail: i64) -> Option<Entry>
    requires in_range { edge.now.to < raises.now.vars }
    requires tail_low { neg_ℤ (pos (2 ^ 55)) ≤ℤ tail }
    requires tail_high { tail ≤ℤ pos (2 ^ 55) }
    requires length_low { neg_ℤ (pos (2 ^ 21)) ≤ℤ edge.now.len }
    requires length_high { edge.now.len ≤ℤ pos (2 ^ 21) }
    ensures value { result ≡ raise_by edge.now number prev (Some tail) (label raises.now.raises edge.now.to) }
    ensures head { IfSome result (λ r. r.var ≡ edge.now.to) }
    ensures prev { IfSome result (λ r. r.prev ≡ prev) }
{
    let value = tail + edge.len;
    if !raises.is_below(edge.to, value) {
        return None;
    }
    Some(Entry {
        var: edge.to,
        value,
        edge: number,
        prev,
    })
}

// The edge from a variable that has this head, but for why it is there, of which no look asks.
pub fn edge_from(tail: u32, head: Head) -> Edge
    ensures { result ≡ edge_of tail head }
{
    Edge {
        from: tail,
        to: head.to,
        len: i64::from(head.len),
        why: Why::Size,
    }
}

// Whether an edge goes up in the order whose places these are.
pub fn goes_up(edge: &Edge, places: &[u32]) -> bool
    requires from_in_range { edge.now.from < length places.now }
    requires to_in_range { edge.now.to < length places.now }
    ensures { (order : List ℕ) → ArePlaces order (length places.now) places.now
        → result ≡ is_forward order edge.now }
{
    places[edge.from as usize] < places[edge.to as usize]
}
