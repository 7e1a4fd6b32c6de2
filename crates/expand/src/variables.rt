//! The variables of a cell on its axes.

ghost use Rattle.std.specs.Prelude.{◌≡◌, ◌≤◌, length, cond, IfOk};
ghost use Rattle.cell_model.specs.{Sound.IsLight, Wiring.is_same_axis, declared.cell.Axis2.TheVariants.{Across, Up}};
ghost use Rattle.expand.specs.{Variables.{running, crossing, variables_of}, Bounds.AreCrosses};

use cell_model::{Axis2, Cell, Wire};
use lam_geom::Axis;
use std::alloc::{AllocError, Global};

// 1 where the two axes are one, 0 where they are not.
fn counted(along: Axis2, other: Axis2) -> u32
    ensures value { result ≡ cond (is_same_axis along other) 1 0 }
    ensures few { result ≤ 1 }
{
    if along.is_same(other) { 1 } else { 0 }
}

// How many wires run along an axis.
fn running(along: Axis2, wires: &[Wire]) -> u32
    requires { length wires.now ≤ 65536 }
    ensures value { result ≡ running along wires.now }
    ensures few { result ≤ length wires.now }
{
    let mut count = 0;
    for wire in wires {
        count += counted(wire.along, along);
    }
    count
}

/// How a wire runs that has its cross coordinate on this axis.
pub fn crossing(axis: Axis) -> Axis2
    ensures { result ≡ crossing axis }
{
    match axis {
        Axis::X => Axis2::Up,
        Axis::Y => Axis2::Across,
    }
}

/// How many variables an axis has: the two borders, the nodes' centres, and the cross coordinates.
pub fn variables(axis: Axis, cell: &Cell) -> u32
    requires { IsLight cell.now }
    ensures { result ≡ variables_of axis cell.now }
{
    2 + cell.nodes.as_slice().len() as u32 + running(crossing(axis), cell.wires.as_slice())
}

// The next variable of the axis that a wire crosses.
fn next_cross(along: Axis2, across: u32, up: u32) -> u32
    ensures across { along ≡ Across → result ≡ across }
    ensures up { along ≡ Up → result ≡ up }
{
    match along {
        Axis2::Across => across,
        Axis2::Up => up,
    }
}

/// The variable of the cross coordinate of each wire, on the axis across its run.
pub fn crosses(alloc: Global, cell: &Cell) -> Result<Vec<u32>, AllocError>
    requires { IsLight cell.now }
    ensures { IfOk result (λ crosses. AreCrosses cell.now (length cell.now.wires) crosses.items) }
{
    let wires = cell.wires.as_slice();
    let first = 2 + cell.nodes.as_slice().len() as u32;
    let mut crosses = Vec::with_capacity(alloc, wires.len())?;
    let mut across = first;
    let mut up = first;
    for wire in wires {
        crosses.push(next_cross(wire.along, across, up))?;
        across += counted(wire.along, Axis2::Across);
        up += counted(wire.along, Axis2::Up);
    }
    Ok(crosses)
}
