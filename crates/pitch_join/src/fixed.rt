//! The inequalities that hold whatever the layouts.

ghost use Rattle.std.specs.Prelude.{◌≡◌, ◌<◌, ◌≤◌, ◌^◌, ◌++◌, flat_map, length, map, All, OnOk};
ghost use Rattle.expand.specs.{Masters.IsMaster, Structure.structure_of};
ghost use Rattle.pitch_join.specs.Among.{IsSameAmong, IsListedWire, IsListedMatch, listed_pitch, listed_ports};
ghost use Rattle.pitch_join.specs.Among.{listed_wire};
ghost use Rattle.pitch_join.specs.Joined.{bases_of, equal_edges, shifted, structures_of, tied_edges};

use crate::numbering::joined;
use cons_graph::{Edge, Why};
use expand::{Master, structure};
use lam_geom::Axis;
use lam_list::Seq;
use plan_model::{Match, Same};
use rule_table::Tech;
use std::alloc::{AllocError, Global};

// Adds inequalities of a master, over the joint variables.
fn push_shifted(edges: &mut Vec<Edge>, base: u32, local: &[Edge]) -> Result<(), AllocError>
    requires base { base ≤ 2 ^ 25 }
    requires below { All (λ e. (e.from < 2 ^ 17) × (e.to < 2 ^ 17)) local.now }
    ensures { OnOk result (edges.new.items ≡ edges.old.items ++ map (shifted base) local.now) }
{
    for edge in local {
        edges.push(Edge {
            from: joined(base, edge.from),
            to: joined(base, edge.to),
            len: edge.len,
            why: edge.why,
        })?;
    }
    Ok(())
}

// Adds the structure of a master.
fn push_structure(
    edges: &mut Vec<Edge>,
    alloc: Global,
    axis: Axis,
    tech: &Tech,
    master: &Master,
    base: u32,
) -> Result<(), AllocError>
    requires master { IsMaster tech.now master.now }
    requires base { base ≤ 2 ^ 25 }
    ensures { OnOk result
        (edges.new.items ≡ edges.old.items ++ map (shifted base)
        (structure_of axis tech.now master.now.cell master.now.items.list)) }
{
    let local = structure(alloc, axis, tech, &master.cell, &master.items)?;
    push_shifted(edges, base, &local)
}

/// Adds the structure of each master.
pub fn push_structures(
    edges: &mut Vec<Edge>,
    alloc: Global,
    axis: Axis,
    tech: &Tech,
    masters: &[Master],
    base: &[u32],
) -> Result<(), AllocError>
    requires each { All (IsMaster tech.now) masters.now }
    requires few_masters { length masters.now ≤ 256 }
    requires base { base.now ≡ bases_of axis masters.now }
    ensures { OnOk result (edges.new.items ≡ edges.old.items ++ structures_of axis tech.now masters.now) }
{
    for m in 0..masters.len() as u32 {
        let first = base[m as usize];
        push_structure(edges, alloc, axis, tech, &masters[m as usize], first)?;
    }
    Ok(())
}

// Adds that two variables are equal.
fn push_equal(edges: &mut Vec<Edge>, a: u32, b: u32, why: Why) -> Result<(), AllocError>
    ensures { OnOk result (edges.new.items ≡ edges.old.items ++ equal_edges a b why) }
{
    edges.push(Edge {
        from: a,
        to: b,
        len: 0,
        why,
    })?;
    edges.push(Edge {
        from: b,
        to: a,
        len: 0,
        why,
    })?;
    Ok(())
}

/// Adds that the far borders of each two masters are equal. A master's far border is its first variable.
pub fn push_pitches(edges: &mut Vec<Edge>, base: &[u32], pairs: &[Same]) -> Result<(), AllocError>
    requires { All (IsSameAmong (length base.now)) pairs.now }
    ensures { OnOk result (edges.new.items ≡ edges.old.items ++ flat_map (listed_pitch base.now) pairs.now) }
{
    for pair in pairs {
        let a = base[pair.a as usize];
        let b = base[pair.b as usize];
        push_equal(edges, a, b, Why::Pitch)?;
    }
    Ok(())
}

// The joint variable of a wire's cross coordinate.
fn wire_var(base: &[u32], crosses: &[Seq<u32>], master: u32, wire: u32) -> u32
    requires { IsListedWire base.now crosses.now master wire }
    ensures { result ≡ listed_wire base.now crosses.now master wire }
{
    let own = crosses[master as usize].as_slice();
    joined(base[master as usize], own[wire as usize])
}

// Adds that two variables are equal, unless they are one.
fn push_tied(edges: &mut Vec<Edge>, a: u32, b: u32) -> Result<(), AllocError>
    ensures { OnOk result (edges.new.items ≡ edges.old.items ++ tied_edges a b) }
{
    if a == b {
        return Ok(());
    }
    push_equal(edges, a, b, Why::Port)
}

/// Adds that the wires of each two ports that meet have one cross coordinate.
pub fn push_ports(
    edges: &mut Vec<Edge>,
    base: &[u32],
    crosses: &[Seq<u32>],
    matches: &[Match],
) -> Result<(), AllocError>
    requires { All (IsListedMatch base.now crosses.now) matches.now }
    ensures { OnOk result
        (edges.new.items ≡ edges.old.items ++ flat_map (listed_ports base.now crosses.now) matches.now) }
{
    for met in matches {
        let a = wire_var(base, crosses, met.a, met.a_wire);
        let b = wire_var(base, crosses, met.b, met.b_wire);
        push_tied(edges, a, b)?;
    }
    Ok(())
}
