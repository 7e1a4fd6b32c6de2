ghost use Rattle.std.specs.Prelude.{◌≡◌, ◌↔◌, ℕ, ◌^◌, ◌<◌, ◌≤◌, [], ◌∷◌, ℤ, pos, neg_ℤ, ◌≤ℤ◌, length, map, All};
ghost use Rattle.std.specs.Prelude.{Contains, IsTrue, slice_index};
ghost use Rattle.cons_graph.specs.{Constraints.IsShort, SimpleWalks.{length_of, tails_of, HasNoRepeat, WalksFromTo}};

use crate::edges::Edge;

// The sum of the lengths of the edges with these numbers.
pub fn length_of_edges(edges: &[Edge], walk: &[u32]) -> i64
    requires in_range { All (λ k. k < length edges.now) walk.now }
    requires short { All IsShort edges.now }
    requires few { length walk.now ≤ 2 ^ 36 }
    ensures { result ≡ length_of edges.now walk.now }
{
    let mut sum = 0i64;
    for k in walk {
        sum += edges[*k as usize].len;
    }
    sum
}

// Whether the edges with these numbers are in range and lead from one variable to another, each beginning where the
// last one ended.
pub fn leads(edges: &[Edge], start: u32, walk: &[u32], end: u32) -> bool
    ensures { IsTrue result ↔ WalksFromTo edges.now start walk.now end }
{
    let mut at = start;
    for k in walk {
        let k = *k as usize;
        if k >= edges.len() || edges[k].from != at {
            return false;
        }
        at = edges[k].to;
    }
    at == end
}

// Whether one of the edges begins at a variable.
fn leaves(edges: &[Edge], walk: &[u32], v: u32) -> bool
    requires { All (λ k. k < length edges.now) walk.now }
    ensures { IsTrue result ↔ Contains (tails_of edges.now walk.now) v }
{
    for k in walk {
        if edges[*k as usize].from == v {
            return true;
        }
    }
    false
}

// Whether no two of the edges begin at one variable. Looks at each pair, up to the first variable that comes twice.
pub fn no_tail_twice(edges: &[Edge], walk: &[u32]) -> bool
    requires { All (λ k. k < length edges.now) walk.now }
    ensures { IsTrue result ↔ HasNoRepeat (tails_of edges.now walk.now) }
{
    for i in 0..walk.len() {
        if leaves(edges, &walk[..i], edges[walk[i] as usize].from) {
            return false;
        }
    }
    true
}

// Whether no edge begins at a variable below one.
pub fn no_tail_below(edges: &[Edge], walk: &[u32], v: u32) -> bool
    requires { All (λ k. k < length edges.now) walk.now }
    ensures { IsTrue result ↔ All (λ u. v ≤ u) (tails_of edges.now walk.now) }
{
    for k in walk {
        if edges[*k as usize].from < v {
            return false;
        }
    }
    true
}
