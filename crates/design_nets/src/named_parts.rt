//! The parts of instances that have names, net by net.
ghost use Rattle.std.specs.{Prelude.{◌≡◌, ◌<◌, [], ◌∷◌, ℕ, length, map, flat_map, OnOk, IfOk}, List.range_with_len};
ghost use Rattle.design_nets.specs.{declared.named_parts.CellPart.TheVariants.Port as SomePort, Connections.number_in};
ghost use Rattle.design_nets.specs.{Listing.list_in, NamedParts.{parts_of_node, parts_of_cell, part_of, named_parts}};
ghost use Rattle.design_nets.specs.NamedParts.{own_net_of, parts_of_net, AreListed, number_by, IsNumbered, AreNumbered};

use crate::connections::Connections;
use crate::numbered_lists::{empty_lists, push_to};
use crate::numbering::{NetNumbers, number_in};
use cell_model::{Cell, Nets, NodeKind};
use expand::Master;
use smallvec::SmallVec;
use std::alloc::{AllocError, Global};

/// A part of a cell that has a name, by the number of its node or of its port: a node that is no transistor; of a
/// transistor its gate, its low or its high diffusion; or a port.
#[derive(Clone, Copy)]
pub enum CellPart {
    Node(usize),
    Gate(usize),
    Low(usize),
    High(usize),
    Port(usize),
}

impl Default for CellPart {
    fn default() -> CellPart {
        CellPart::Node(0)
    }
}

/// A part of an instance, by the instance's number.
#[derive(Clone, Copy, Default)]
pub struct NamedPart {
    pub instance: usize,
    pub part: CellPart,
}

/// For each net the named parts that are of it: in order of instances, and in each those of nodes and then the ports.
/// The only refusal is want of memory.
pub fn parts_of_nets(
    alloc: Global,
    masters: &[Master],
    sticks: &Connections,
) -> Result<Vec<SmallVec<NamedPart, 2>>, AllocError>
    requires { AreNumbered masters.now sticks.now }
    ensures counted { IfOk result (λ lists. length lists.items ≡ sticks.now.count) }
    ensures each { IfOk result (λ lists. (net : ℕ) → net < sticks.now.count
        → list_in lists.items net ≡ parts_of_net
        (λ p. number_in sticks.now.numbers
        (own_net_of masters.now sticks.now.nets.items sticks.now.instances.items p)) (named_parts masters.now
        sticks.now.instances.items) net) }
{
    let mut lists = empty_lists(alloc, sticks.count as usize)?;
    for s in 0..sticks.instances.len() {
        let master = sticks.instances[s].master as usize;
        let cell = &masters[master].cell;
        list_cell(&mut lists, s, cell, &sticks.nets[master], &sticks.numbers)?;
    }
    Ok(lists)
}

// Puts the named parts of an instance into the lists of their nets, which have these numbers.
fn list_cell(
    lists: &mut Vec<SmallVec<NamedPart, 2>>,
    s: usize,
    cell: &Cell,
    nets: &Nets,
    numbers: &NetNumbers,
) -> Result<(), AllocError>
    requires { IsNumbered s cell.now nets.now numbers.now }
    ensures { OnOk result
        (AreListed (number_by numbers.now s cell.now nets.now) (map (part_of s) (parts_of_cell cell.now))
        lists.old.items lists.new.items) }
{
    list_nodes(lists, s, cell, nets, numbers)?;
    list_ports(lists, s, cell, nets, numbers)
}

// Puts those of its nodes into these lists.
fn list_nodes(
    lists: &mut Vec<SmallVec<NamedPart, 2>>,
    s: usize,
    cell: &Cell,
    nets: &Nets,
    numbers: &NetNumbers,
) -> Result<(), AllocError>
    requires { IsNumbered s cell.now nets.now numbers.now }
    ensures { OnOk result
        (AreListed (number_by numbers.now s cell.now nets.now)
        (map (part_of s) (flat_map (parts_of_node cell.now) (range_with_len 0 (length cell.now.nodes))))
        lists.old.items lists.new.items) }
{
    let nodes = cell.nodes.as_slice();
    for k in 0..nodes.len() {
        list_node(lists, s, k, cell, nets, numbers)?;
    }
    Ok(())
}

// Puts those of node number k into these lists.
fn list_node(
    lists: &mut Vec<SmallVec<NamedPart, 2>>,
    s: usize,
    k: usize,
    cell: &Cell,
    nets: &Nets,
    numbers: &NetNumbers,
) -> Result<(), AllocError>
    requires node { k < length cell.now.nodes }
    requires numbered { IsNumbered s cell.now nets.now numbers.now }
    ensures { OnOk result
        (AreListed (number_by numbers.now s cell.now nets.now) (map (part_of s) (parts_of_node cell.now k))
        lists.old.items lists.new.items) }
{
    let own = nets.node.as_slice()[k];
    let main = number_in(numbers, s, own.main);
    match cell.nodes.as_slice()[k].kind {
        NodeKind::Joint { .. } | NodeKind::Contact { .. } | NodeKind::Buried => {
            list_part(lists, main, s, CellPart::Node(k))
        }
        NodeKind::Fet { .. } => {
            list_part(lists, main, s, CellPart::Gate(k))?;
            list_part(lists, number_in(numbers, s, own.low), s, CellPart::Low(k))?;
            list_part(lists, number_in(numbers, s, own.high), s, CellPart::High(k))
        }
    }
}

// Puts its ports into these lists.
fn list_ports(
    lists: &mut Vec<SmallVec<NamedPart, 2>>,
    s: usize,
    cell: &Cell,
    nets: &Nets,
    numbers: &NetNumbers,
) -> Result<(), AllocError>
    requires { IsNumbered s cell.now nets.now numbers.now }
    ensures { OnOk result
        (AreListed (number_by numbers.now s cell.now nets.now)
        (map (part_of s) (map SomePort (range_with_len 0 (length cell.now.ports)))) lists.old.items lists.new.items) }
{
    let ports = cell.ports.as_slice();
    let wires = nets.wire.as_slice();
    for k in 0..ports.len() {
        let net = wires[ports[k].wire as usize];
        list_part(lists, number_in(numbers, s, net), s, CellPart::Port(k))?;
    }
    Ok(())
}

// Puts a part at the end of the list of its net, if there is one.
fn list_part(
    lists: &mut Vec<SmallVec<NamedPart, 2>>,
    net: u32,
    s: usize,
    part: CellPart,
) -> Result<(), AllocError>
    ensures { OnOk result (AreListed (λ p. net) (part_of s part ∷ []) lists.old.items lists.new.items) }
{
    if (net as usize) < lists.len() {
        push_to(lists, net, NamedPart { instance: s, part })?;
    }
    Ok(())
}
