//! Many edges that raise one variable.
ghost use Rattle.std.specs.Prelude.{◌≡◌, ◌≤◌, IfOk};
ghost use Rattle.cons_graph.specs.Constraints.{IsConstraintGraph, IsEdgeAmong};

use cons_graph::{Edge, Graph, Why};
use edit_session::Session;
use std::alloc::{AllocError, Global};
use std::test::Fail;

const MANY: u32 = 65_536;

fn edge(from: u32, to: u32, len: i64, why: Why) -> Edge
    ensures { result ≡ record { from = from; to = to; len = len; why = why } }
{
    Edge { from, to, len, why }
}

// An edge of length 0 from the origin to each other variable.
fn spokes(alloc: Global, vars: u32) -> Result<Vec<Edge>, AllocError>
    requires some { 1 ≤ vars }
    requires few { vars ≤ 65536 }
    ensures { IfOk result (λ edges. IsConstraintGraph (record { vars = vars; edges = edges.items })) }
{
    let mut edges = Vec::new(alloc);
    for v in 1..vars {
        edges.push(edge(0, v, 0, Why::Margin))?;
    }
    Ok(edges)
}

// And one of length 1 from each variable but the origin to the next one.
fn chain(alloc: Global, vars: u32) -> Result<Vec<Edge>, AllocError>
    requires some { 2 ≤ vars }
    requires few { vars ≤ 65536 }
    ensures { IfOk result (λ edges. IsConstraintGraph (record { vars = vars; edges = edges.items })) }
{
    let mut edges = spokes(alloc, vars)?;
    for v in 1..vars - 1 {
        edges.push(edge(v, v + 1, 1, Why::Space))?;
    }
    Ok(edges)
}

// The value of a variable in the least solution, if there is one.
fn value_at(session: &Session, v: u32) -> Option<i64> {
    match session.least() {
        Some(x) => x.get(v as usize).copied(),
        None => None,
    }
}

// An edge between the last two of many variables.
fn last_edge(len: u32) -> Edge
    requires { len ≤ 1000001 }
    ensures { IsEdgeAmong 65536 result }
{
    Edge {
        from: MANY - 2,
        to: MANY - 1,
        len: i64::from(len),
        why: Why::Limit,
    }
}

#[test]
fn many_adds(rt: HostRuntime) -> Result<(), Fail> {
    let alloc = rt.alloc();
    let g = Graph::new(MANY, chain(alloc, MANY)?)?;
    let mut session = Session::new(alloc, g)?;
    for len in 2..1_000_002u32 {
        session.add(last_edge(len))?;
        assert_eq!(rt; value_at(&session, MANY - 1), Some(65_533 + i64::from(len)));
    }
    assert_eq!(rt; value_at(&session, MANY - 1), Some(1_065_534));
    Ok(())
}
