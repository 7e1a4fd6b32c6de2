//! Which parts of a cell the wires attach to which: a list of neighbours for each part.
ghost use Rattle.std.specs.Prelude.{◌≡◌, ◌+◌, ◌<◌, ◌≤◌, [], IfOk, IfSome, OnOk, length, option_to_list};
ghost use Rattle.std.specs.List.{AllByRecursion};
ghost use Rattle.cell_model.specs.{Sound.{IsLight, IsEnd}, Nets.{kind_parts, node_parts, parts_of, joined_part}};
ghost use Rattle.cell_model.specs.Nets.{end_parts, attachments_of, HasEnds};
ghost use Rattle.graph_search.specs.Search.{AreNeighbours};
ghost use Rattle.cell_nets.specs.Attaching.{AreAttached, IsAdded, AreFirstParts};

use cell_model::{Cell, Node, NodeKind, WireEnd};
use rule_table::Layer;
use smallvec::SmallVec;
use std::alloc::{AllocError, Global};

/// For each part of a cell those that are attached to it: for a node's part wires, for a wire the parts at its ends.
/// The only refusal is want of memory.
pub fn neighbours(alloc: Global, cell: &Cell) -> Result<Vec<SmallVec<u32, 4>>, AllocError>
    requires light { IsLight cell.now }
    requires ends { AllByRecursion (HasEnds cell.now) cell.now.wires }
    ensures { IfOk result (λ lists. AreNeighbours (parts_of cell.now) (attachments_of cell.now) lists.items) }
{
    let firsts = first_parts(alloc, cell.nodes.as_slice())?;
    let nodes = firsts[cell.nodes.as_slice().len()];
    let wires = cell.wires.as_slice();
    let mut lists = empty_lists(alloc, nodes as usize + wires.len())?;
    for (k, wire) in wires.iter().enumerate() {
        let part = nodes + k as u32;
        let low = end_part(cell, &firsts, wire.layer, true, wire.low);
        let high = end_part(cell, &firsts, wire.layer, false, wire.high);
        attach(&mut lists, part, low)?;
        attach(&mut lists, part, high)?;
    }
    Ok(lists)
}

/// How many parts a node has.
pub fn kind_parts(kind: NodeKind) -> u32
    ensures value { result ≡ kind_parts kind }
    ensures few { result ≤ 3 }
{
    match kind {
        NodeKind::Joint { .. } | NodeKind::Contact { .. } | NodeKind::Buried => 1,
        NodeKind::Fet { .. } => 3,
    }
}

// The number of the first part of each node, and then that of all nodes' parts.
fn first_parts(alloc: Global, nodes: &[Node]) -> Result<Vec<u32>, AllocError>
    requires { length nodes.now ≤ 65536 }
    ensures { IfOk result (λ firsts. AreFirstParts nodes.now firsts.items) }
{
    let mut firsts = Vec::with_capacity(alloc, nodes.len() + 1)?;
    let mut part = 0;
    firsts.push(part)?;
    for node in nodes {
        part += kind_parts(node.kind);
        firsts.push(part)?;
    }
    Ok(firsts)
}

// So many lists, with nothing in them.
fn empty_lists(alloc: Global, count: usize) -> Result<Vec<SmallVec<u32, 4>>, AllocError>
    ensures { IfOk result (λ lists. AreNeighbours count [] lists.items) }
{
    let mut lists = Vec::with_capacity(alloc, count)?;
    for _ in 0..count {
        lists.push(SmallVec::new(alloc))?;
    }
    Ok(lists)
}

// The part that a wire of a layer joins at an end. A port has none.
fn end_part(cell: &Cell, firsts: &[u32], layer: Layer, is_low: bool, end: WireEnd) -> Option<u32>
    requires light { IsLight cell.now }
    requires end { IsEnd cell.now end }
    requires firsts { AreFirstParts cell.now.nodes firsts.now }
    ensures value { option_to_list result ≡ end_parts cell.now.nodes layer is_low end }
    ensures within { IfSome result (λ part. part < node_parts cell.now.nodes) }
{
    match end {
        WireEnd::Node(k) => {
            let kind = cell.nodes.as_slice()[k as usize].kind;
            Some(firsts[k as usize] + joined_part(kind, layer, is_low))
        }
        WireEnd::Port(_) => None,
    }
}

// Which part of a node a wire joins, counted from its first.
fn joined_part(kind: NodeKind, layer: Layer, is_low: bool) -> u32
    ensures value { result ≡ joined_part kind layer is_low }
    ensures within { result < kind_parts kind }
{
    match (kind, layer) {
        (NodeKind::Fet { .. }, Layer::Diffusion) if is_low => 2,
        (NodeKind::Fet { .. }, Layer::Diffusion) => 1,
        _ => 0,
    }
}

// Puts a wire's part and the part at its end, if there is one, into each other's lists.
fn attach(lists: &mut Vec<SmallVec<u32, 4>>, wire: u32, end: Option<u32>) -> Result<(), AllocError>
    requires wire { wire < length lists.old.items }
    requires end { IfSome end (λ part. part < length lists.old.items) }
    ensures counted { OnOk result (length lists.new.items ≡ length lists.old.items) }
    ensures attached { OnOk result (AreAttached wire (option_to_list end) lists.old.items lists.new.items) }
{
    let Some(part) = end else {
        return Ok(());
    };
    add(lists, wire, part)?;
    add(lists, part, wire)?;
    Ok(())
}

// Puts a part at the end of another's list.
fn add(lists: &mut Vec<SmallVec<u32, 4>>, to: u32, part: u32) -> Result<(), AllocError>
    requires { to < length lists.old.items }
    ensures { OnOk result (IsAdded to part lists.old.items lists.new.items) }
{
    let list = &mut lists[to as usize];
    list.push(part)?;
    Ok(())
}
