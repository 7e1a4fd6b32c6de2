ghost use Rattle.std.specs.Prelude.{◌≡◌, ◌+◌, ◌<◌, ◌≤◌, IfOk, OnOk, IfSome};
ghost use Rattle.cons_graph.specs.Constraints.{IsConstraintGraph, IsEdgeAmong};
ghost use Rattle.round_log.specs.Orders.{IsOrder};

use crate::size::Size;
use cons_graph::{Edge, Graph, GraphFault, Why};
use std::alloc::{AllocError, Global};

// The most that two numbers of an edge's ends differ by.
const REACH: u32 = 1000;

// The next of the numbers of a linear congruence, without its lowest bits.
fn draw(state: &mut u32) -> u32 {
    *state = state.wrapping_mul(1_664_525).wrapping_add(1_013_904_223);
    *state >> 8
}

// An edge from the origin to each other variable.
fn spokes(alloc: Global, vars: u32) -> Result<Vec<Edge>, AllocError>
    requires some { 1 ≤ vars }
    requires few { vars ≤ 65536 }
    ensures { IfOk result (λ edges. IsConstraintGraph (record { vars = vars; edges = edges.items })) }
{
    let mut edges = Vec::new(alloc);
    for v in 1..vars {
        edges.push(Edge {
            from: 0,
            to: v,
            len: 0,
            why: Why::Margin,
        })?;
    }
    Ok(edges)
}

// An edge up in the order of the numbers, of length 0 to 15.
fn forward_edge(vars: u32, state: &mut u32) -> Edge
    requires some { 2 ≤ vars }
    requires few { vars ≤ 65536 }
    ensures { IsEdgeAmong vars result }
{
    let from = draw(state) % (vars - 1);
    let to = from + 1 + draw(state) % (vars - 1 - from).min(REACH);
    Edge {
        from,
        to,
        len: i64::from(draw(state) % 16),
        why: Why::Space,
    }
}

// An edge down in the order of the numbers, so negative that it is in no positive cycle: an edge up is less than 16
// long.
fn backward_edge(vars: u32, state: &mut u32) -> Edge
    requires some { 3 ≤ vars }
    requires few { vars ≤ 65536 }
    ensures { IsEdgeAmong vars result }
{
    let to = 1 + draw(state) % (vars - 2);
    let distance = 1 + draw(state) % (vars - 1 - to).min(REACH);
    Edge {
        from: to + distance,
        to,
        len: -16 * i64::from(distance),
        why: Why::Limit,
    }
}

// Adds one edge to those of a graph.
fn push_edge(edges: &mut Vec<Edge>, vars: u32, edge: Edge) -> Result<(), AllocError>
    requires graph { IsConstraintGraph (record { vars = vars; edges = edges.old.items }) }
    requires among { IsEdgeAmong vars edge }
    ensures { OnOk result (IsConstraintGraph (record { vars = vars; edges = edges.new.items })) }
{
    edges.push(edge)?;
    Ok(())
}

// The edges of a graph of the given size: those from the origin, then those up, then those down.
fn edges_of(alloc: Global, size: &Size) -> Result<Vec<Edge>, AllocError>
    ensures { IfOk result (λ edges. IsConstraintGraph (record { vars = size.now.vars; edges = edges.items })) }
{
    let vars = size.vars;
    let mut edges = spokes(alloc, vars)?;
    let mut state = 1u32;
    for _ in 0..size.edges - (vars - 1) - size.back {
        let edge = forward_edge(vars, &mut state);
        push_edge(&mut edges, vars, edge)?;
    }
    for _ in 0..size.back {
        let edge = backward_edge(vars, &mut state);
        push_edge(&mut edges, vars, edge)?;
    }
    Ok(edges)
}

/// The graph of the given size, or None where there is no memory for it.
pub fn graph_of(alloc: Global, size: &Size) -> Option<Graph>
    ensures { IfSome result (λ g. g.vars ≡ size.now.vars) }
{
    let Ok(edges) = edges_of(alloc, size) else {
        return None;
    };
    match Graph::new(size.vars, edges) {
        Ok(graph) => Some(graph),
        Err(GraphFault::TooManyEdges) => None,
    }
}

/// The variables in order of their numbers.
pub fn variables(alloc: Global, vars: u32) -> Result<Vec<u32>, AllocError>
    requires { 1 ≤ vars }
    ensures { IfOk result (λ order. IsOrder vars order.items) }
{
    let mut order = Vec::new(alloc);
    for v in 0..vars {
        order.push(v)?;
    }
    Ok(order)
}
