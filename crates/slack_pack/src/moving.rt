ghost use Rattle.std.specs.Prelude.{◌≡◌, ℕ, ◌^◌, ◌<◌, ◌≤◌, ℤ, pos, neg_ℤ, ◌+ℤ◌, ◌≤ℤ◌, length, All, Contains, IfOk};
ghost use Rattle.std.specs.Prelude.{slice_index};
ghost use Rattle.cons_graph.specs.Solutions.{IsSolution, value_of};
ghost use Rattle.slack_pack.specs.{Most.{IsMost, HasWalk, IsAttained}, Slacks.AreFirst};

use crate::lowering::{NONE_YET, lower_all};
use cons_graph::Graph;
use edge_index::EdgeIndex;
use liao_wong::sort_order;
use std::alloc::{AllocError, Global};

/// The greatest values that the variables can have, in u, in a solution that leaves the origin at 0 and each far
/// variable at its value in `x`: one for each variable. `x` is a solution, and from each variable but the origin a walk
/// leads to a far one.
///
/// Goes in rounds over all edges, from the greatest value of `x` down, until a round lowers nothing: an edge of
/// positive length has had its full effect after one. The only refusal is want of memory.
pub fn most(alloc: Global, g: &Graph, x: &[i64], far: &[u32]) -> Result<Vec<i64>, AllocError>
    requires one_each { length x.now ≡ g.now.vars }
    requires solves { IsSolution g.now.edges (value_of x.now) }
    requires low { All (λ v. neg_ℤ (pos (2 ^ 60)) ≤ℤ v) x.now }
    requires high { All (λ v. v ≤ℤ pos (2 ^ 60)) x.now }
    requires among { All (λ f. f < g.now.vars) far.now }
    requires reach { (v : ℕ) → 1 ≤ v → v < g.now.vars
        → (f : ℕ) × (Contains far.now f) × ((long : ℤ) × (HasWalk g.now.edges v f long)) }
    ensures counted { IfOk result (λ y. length y.items ≡ g.now.vars) }
    ensures most { IfOk result (λ y. IsMost g.now.vars g.now.edges far.now (value_of x.now)
        (value_of y.items)) }
    // each value but the origin's is that of a far variable less the length of a walk to it
    ensures attained { IfOk result (λ y. (v : ℕ) → 1 ≤ v → v < g.now.vars
        → IsAttained g.now.edges far.now (value_of x.now) v (value_of y.items v)) }
{
    let mut slacks = first_slacks(alloc, g.vars(), far)?;
    let index = EdgeIndex::new(alloc, g)?;
    let order = sort_order(alloc, x)?;
    'rounds: loop {
        if !lower_all(&mut slacks, g, &index, &order, x) {
            return moved(alloc, x, &slacks);
        }
    }
}

// The slacks at the start.
fn first_slacks(alloc: Global, vars: u32, far: &[u32]) -> Result<Vec<u64>, AllocError>
    requires has_origin { 1 ≤ vars }
    requires among { All (λ f. f < vars) far.now }
    ensures { IfOk result (λ slacks. AreFirst vars far.now slacks.items) }
{
    let mut slacks = vec![in alloc; NONE_YET; vars as usize]?;
    slacks[0] = 0;
    for f in far {
        slacks[*f as usize] = 0;
    }
    Ok(slacks)
}

// The values, each moved by its slack.
fn moved(alloc: Global, x: &[i64], slacks: &[u64]) -> Result<Vec<i64>, AllocError>
    requires one_each { length slacks.now ≡ length x.now }
    requires low { All (λ a. neg_ℤ (pos (2 ^ 60)) ≤ℤ a) x.now }
    requires high { All (λ a. a ≤ℤ pos (2 ^ 60)) x.now }
    requires small { All (λ s. s ≤ 2 ^ 62) slacks.now }
    ensures counted { IfOk result (λ y. length y.items ≡ length x.now) }
    ensures values { IfOk result (λ y. (v : ℕ) → v < length x.now
        → value_of y.items v ≡ value_of x.now v +ℤ pos (slice_index slacks.now v)) }
{
    let mut values = Vec::new(alloc);
    for v in 0..x.len() {
        values.push(x[v] + slacks[v] as i64)?;
    }
    Ok(values)
}
