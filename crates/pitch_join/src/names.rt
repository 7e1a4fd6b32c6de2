//! The names of the joint variables of an axis.

ghost use Rattle.std.specs.Prelude.{◌≡◌, ◌++◌, ◌∷◌, [], codes, map, flat_map, length, All, OnOk, IfOk};
ghost use Rattle.std.specs.List.{range_with_len};
ghost use Rattle.cell_model.specs.{declared.cell.Node.Node, Sound.IsLight};
ghost use Rattle.pitch_join.specs.Names.{within_cell, cross_name_along, cross_name, own_names, names_of_master};
ghost use Rattle.pitch_join.specs.{Names.system_names, Masters.IsLightMaster};

use cell_model::{Axis2, Cell};
use cons_graph::Names;
use expand::{Master, crossing};
use lam_geom::Axis;
use std::alloc::{AllocError, Global};
use stick_lex::push_decimal;

// Adds the name of the far border.
fn push_border(names: &mut Names, cell: &Cell) -> Result<(), AllocError>
    ensures { OnOk result (names.new ≡ names.old ++ (cell.now.name ++ codes "|") ∷ []) }
{
    names.push_joined(cell.name.bytes(), b'|', &[])
}

// Adds the name of something in the cell.
fn push_within(names: &mut Names, cell: &Cell, inner: &[u8]) -> Result<(), AllocError>
    ensures { OnOk result (names.new ≡ names.old ++ within_cell cell.now inner.now ∷ []) }
{
    names.push_joined(cell.name.bytes(), b':', inner)
}

// Adds the names of the centres of the nodes.
fn push_nodes(names: &mut Names, cell: &Cell) -> Result<(), AllocError>
    ensures { OnOk result
        (names.new ≡ names.old ++ map (λ (node : Node). within_cell cell.now node.name) cell.now.nodes) }
{
    for node in cell.nodes.as_slice() {
        push_within(names, cell, node.name.bytes())?;
    }
    Ok(())
}

// Adds the name of the cross coordinate of wire `k`, if it has it on the axis. The name in the cell is written in
// `inner`.
fn push_wire(
    names: &mut Names,
    inner: &mut Vec<u8>,
    axis: Axis,
    cell: &Cell,
    k: u32,
    along: Axis2,
) -> Result<(), AllocError>
    ensures { OnOk result (names.new ≡ names.old ++ cross_name_along axis cell.now k along) }
{
    if along != crossing(axis) {
        return Ok(());
    }
    inner.clear();
    inner.push(b'#')?;
    push_decimal(inner, u64::from(k))?;
    push_within(names, cell, inner)
}

// Adds the names of the cross coordinates of the wires that have them on an axis.
fn push_wires(
    names: &mut Names,
    inner: &mut Vec<u8>,
    axis: Axis,
    cell: &Cell,
) -> Result<(), AllocError>
    requires { IsLight cell.now }
    ensures { OnOk result
        (names.new ≡ names.old ++ flat_map (cross_name axis cell.now) (range_with_len 0 (length cell.now.wires))) }
{
    let wires = cell.wires.as_slice();
    for k in 0..wires.len() as u32 {
        push_wire(names, inner, axis, cell, k, wires[k as usize].along)?;
    }
    Ok(())
}

// Adds the names of a master's own variables: the far border, the nodes, and the wires that run along the other axis.
fn push_own(
    names: &mut Names,
    inner: &mut Vec<u8>,
    axis: Axis,
    cell: &Cell,
) -> Result<(), AllocError>
    requires { IsLight cell.now }
    ensures { OnOk result (names.new ≡ names.old ++ own_names axis cell.now) }
{
    push_border(names, cell)?;
    push_nodes(names, cell)?;
    push_wires(names, inner, axis, cell)
}

/// The names of the joint variables of an axis, in their order: the origin, and each master's own, master by master.
/// The only refusal is want of memory.
pub fn names(alloc: Global, axis: Axis, masters: &[Master]) -> Result<Names, AllocError>
    requires { All IsLightMaster masters.now }
    ensures { IfOk result (λ names. names ≡ system_names axis masters.now) }
{
    let mut names = Names::new(alloc);
    names.push(b"0")?;
    let mut inner = Vec::new(alloc);
    for master in masters {
        push_own(&mut names, &mut inner, axis, &master.cell)?;
    }
    Ok(names)
}
