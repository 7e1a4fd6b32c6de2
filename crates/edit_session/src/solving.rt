ghost use Rattle.std.specs.Prelude.{◌≡◌, ◌≤◌, length, IfOk, IfSome, IfNone};
ghost use Rattle.cons_graph.specs.{Solutions.{IsLeastSolution, value_of}, Walks.HasPositiveCycle};
ghost use Rattle.round_log.specs.Orders.{IsOrder};

use cons_graph::Graph;
use liao_wong::{Unsolved, solve, sort_order};
use std::alloc::{AllocError, Global};

// The least solution of a graph, or None where a cycle is positive. `near` are values that may lie near it: the
// closer, the fewer rounds it takes.
pub fn solve_near(alloc: Global, g: &Graph, near: &[i64]) -> Result<Option<Vec<i64>>, AllocError>
    requires { length near.now ≡ g.now.vars }
    ensures least { IfOk result (λ found. IfSome found
        (λ x. IsLeastSolution g.now.vars g.now.edges (value_of x.items))) }
    ensures one_each { IfOk result (λ found. IfSome found (λ x. length x.items ≡ g.now.vars)) }
    ensures cyclic { IfOk result (λ found. IfNone found (HasPositiveCycle g.now.edges)) }
{
    let order = order_near(alloc, g.vars(), near)?;
    match solve(alloc, g, &order) {
        Ok(solved) => Ok(Some(solved.x.into_vec())),
        Err(Unsolved::Cycle(_)) => Ok(None),
        Err(Unsolved::OutOfMemory) => Err(AllocError),
    }
}

// The variables in order of their values, the origin first.
fn order_near(alloc: Global, vars: u32, near: &[i64]) -> Result<Vec<u32>, AllocError>
    requires some { 1 ≤ vars }
    requires one_each { length near.now ≡ vars }
    ensures { IfOk result (λ order. IsOrder vars order.items) }
{
    let mut values = Vec::new(alloc);
    values.push(i64::MIN)?;
    for v in 1..near.len() {
        values.push(near[v])?;
    }
    sort_order(alloc, &values)
}
