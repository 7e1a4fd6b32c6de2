//! The items of a cell.

ghost use Rattle.std.specs.{Prelude.{◌≡◌, ◌≤◌, ◌<◌, ◌^◌, ◌++◌, length, flat_map, All, OnOk, IfOk}, List.range_with_len};
ghost use Rattle.cell_model.specs.{Sound.{IsSound, IsLight}, Nets.AreNets, Counts.items_in};
ghost use Rattle.expand.specs.{Items.{items_of_node, items_of_wire, items_of}, Bounds.{AreCrosses, IsItemAmong}};

use crate::nodes::push_kind;
use crate::variables::{crosses, variables};
use crate::wires::{kind_at, push_wire};
use cell_model::{Cell, Nets};
use lam_geom::Axis;
use lam_list::Seq;
use rule_table::Tech;
use std::alloc::{AllocError, Global};
use sym_items::{Item, Items};

// Adds the items of the nodes.
fn push_nodes(list: &mut Vec<Item>, tech: &Tech, cell: &Cell, nets: &Nets) -> Result<(), AllocError>
    requires sound { IsSound tech.now cell.now }
    requires light { IsLight cell.now }
    requires nets { AreNets cell.now nets.now }
    ensures { OnOk result
        (list.new.items ≡ list.old.items ++ flat_map (items_of_node tech.now cell.now nets.now)
        (range_with_len 0 (length cell.now.nodes))) }
{
    for k in 0..cell.nodes.as_slice().len() as u32 {
        let own = nets.node.as_slice()[k as usize];
        push_kind(list, tech, k, kind_at(cell, k), own)?;
    }
    Ok(())
}

// Adds the items of the wires, whose cross coordinates are given.
fn push_wires(
    list: &mut Vec<Item>,
    tech: &Tech,
    cell: &Cell,
    nets: &Nets,
    crosses: &[u32],
) -> Result<(), AllocError>
    requires sound { IsSound tech.now cell.now }
    requires light { IsLight cell.now }
    requires nets { AreNets cell.now nets.now }
    requires crosses { AreCrosses cell.now (length cell.now.wires) crosses.now }
    ensures { OnOk result
        (list.new.items ≡ list.old.items ++ flat_map (items_of_wire tech.now cell.now nets.now)
        (range_with_len 0 (length cell.now.wires))) }
{
    let wires = cell.wires.as_slice();
    let nodes = cell.nodes.as_slice().len() as u32;
    for k in 0..wires.len() as u32 {
        let net = nets.wire.as_slice()[k as usize];
        let cross = crosses[k as usize];
        push_wire(list, tech, cell, nodes + k, net, cross, &wires[k as usize])?;
    }
    Ok(())
}

/// The items of a cell that is inlined, with these nets of it: those of its nodes in order, then those of its wires.
/// The only refusal is want of memory.
#[tactic(auto, unfolding(crate::specs::Items::item_list))]
pub fn items_of(alloc: Global, tech: &Tech, cell: &Cell, nets: &Nets) -> Result<Items, AllocError>
    requires sound { IsSound tech.now cell.now }
    requires light { IsLight cell.now }
    requires nets { AreNets cell.now nets.now }
    ensures value { IfOk result (λ items. items ≡ items_of tech.now cell.now nets.now) }
    // each lies among the variables of its axes, with small lengths
    ensures among { IfOk result (λ items. All (IsItemAmong items.x_vars items.y_vars) items.list) }
    // there are as many as the cell's parts have
    ensures count { IfOk result (λ items. length items.list ≡ items_in cell.now) }
    ensures few { IfOk result (λ items. length items.list < 2 ^ 32) }
{
    let crosses = crosses(alloc, cell)?;
    let mut list = Vec::new(alloc);
    push_nodes(&mut list, tech, cell, nets)?;
    push_wires(&mut list, tech, cell, nets, &crosses)?;
    Ok(Items {
        list: Seq::from_vec(list),
        x_vars: variables(Axis::X, cell),
        y_vars: variables(Axis::Y, cell),
    })
}
