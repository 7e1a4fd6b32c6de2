ghost use Rattle.std.specs.Prelude.{◌≡◌, ◌<◌, ◌≤◌, length, All, IfOk};
ghost use Rattle.cons_graph.specs.SimpleWalks.{tails_of};
ghost use Rattle.round_log.specs.WalksBack.{turned, least_place};

use cons_graph::Edge;
use std::alloc::{AllocError, Global};

// A closed walk turned so that it begins at its variable of least number.
pub fn turned(alloc: Global, edges: &[Edge], walk: &[u32]) -> Result<Vec<u32>, AllocError>
    requires { All (λ k. k < length edges.now) walk.now }
    ensures { IfOk result (λ w. w.items ≡ turned edges.now walk.now) }
{
    let place = least_tail(edges, walk);
    let mut turned = Vec::from_slice(alloc, &walk[place..])?;
    turned.extend_from_slice(&walk[..place])?;
    Ok(turned)
}

// The place of the edge that begins at the variable of least number, the first one of these; 0 in an empty walk.
fn least_tail(edges: &[Edge], walk: &[u32]) -> usize
    requires { All (λ k. k < length edges.now) walk.now }
    ensures value { result ≡ least_place (tails_of edges.now walk.now) }
    ensures in_range { result ≤ length walk.now }
{
    let mut best = 0;
    for i in 1..walk.len() {
        if edges[walk[i] as usize].from < edges[walk[best] as usize].from {
            best = i;
        }
    }
    best
}
