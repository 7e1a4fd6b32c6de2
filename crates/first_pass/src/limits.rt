//! The inequalities of limits over joint variables.

ghost use Rattle.std.specs.Prelude.{◌≡◌, ◌≤◌, ◌^◌, ◌++◌, neg_ℤ, length, map, flat_map, All, OnOk, IfOk};
ghost use Rattle.stick_lex.specs.Numbers.{IsNumber};
ghost use Rattle.expand.specs.{Masters.IsMaster, Structure.{is_limit_of, limit_edge, limit_edges}};
ghost use Rattle.pitch_join.specs.Joined.{bases_of, system_variables, shifted};
ghost use Rattle.first_pass.specs.Limits.{IsNear, system_limits};

use cell_model::{Axis2, Limit};
use cons_graph::{Edge, Why};
use expand::Master;
use lam_geom::Axis;
use rule_table::Tech;
use std::alloc::{AllocError, Global};

// Whether a limit on this axis is one of the axis of the edges.
fn is_limit_of(axis: Axis, along: Axis2) -> bool
    ensures { result ≡ is_limit_of axis along }
{
    match axis {
        Axis::X => along.is_same(Axis2::Across),
        Axis::Y => along.is_same(Axis2::Up),
    }
}

// A limit's number to the other side.
fn opposite(n: i64) -> i64
    requires { IsNumber n }
    ensures { result ≡ neg_ℤ n }
{
    -n
}

// The inequality of a limit of the master whose joint variables beside the origin begin with this one: the far
// border, and then the nodes' centres.
fn limit_edge(base: u32, limit: &Limit) -> Edge
    requires base { base ≤ 2 ^ 17 }
    requires near { IsNear limit.now }
    ensures { result ≡ shifted base (limit_edge limit.now) }
{
    let a = base + (1 + limit.a);
    let b = base + (1 + limit.b);
    if limit.at_most {
        Edge {
            from: b,
            to: a,
            len: opposite(limit.n),
            why: Why::Limit,
        }
    } else {
        Edge {
            from: a,
            to: b,
            len: limit.n,
            why: Why::Limit,
        }
    }
}

// Adds the inequalities of a master's limits on the axis.
fn push_limits(
    edges: &mut Vec<Edge>,
    axis: Axis,
    base: u32,
    limits: &[Limit],
) -> Result<(), AllocError>
    requires base { base ≤ 2 ^ 17 }
    requires near { All IsNear limits.now }
    ensures { OnOk result
        (edges.new.items ≡ edges.old.items ++ map (shifted base) (flat_map (limit_edges axis) limits.now)) }
{
    for limit in limits {
        if is_limit_of(axis, limit.axis) {
            edges.push(limit_edge(base, limit))?;
        }
    }
    Ok(())
}

/// The inequalities of the limits of all masters on an axis, over their joint variables: `base` has the number of
/// each master's first one beside the origin. The only refusal is want of memory.
pub fn system_limits(
    alloc: Global,
    axis: Axis,
    tech: &Tech,
    masters: &[Master],
    base: &[u32],
) -> Result<Vec<Edge>, AllocError>
    requires each { All (IsMaster tech.now) masters.now }
    requires few_masters { length masters.now ≤ 256 }
    requires few { system_variables axis masters.now ≤ 2 ^ 17 }
    requires base { base.now ≡ bases_of axis masters.now }
    ensures { IfOk result (λ edges. edges.items ≡ system_limits axis masters.now) }
{
    let mut edges = Vec::new(alloc);
    for m in 0..masters.len() as u32 {
        let limits = masters[m as usize].cell.limits.as_slice();
        push_limits(&mut edges, axis, base[m as usize], limits)?;
    }
    Ok(edges)
}
