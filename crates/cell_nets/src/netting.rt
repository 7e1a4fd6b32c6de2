//! The nets of a cell.
ghost use Rattle.std.specs.{Prelude.{◌≡◌, ◌+◌, ◌≤◌, IfOk, length}, List.AllByRecursion};
ghost use Rattle.cell_model.specs.{Sound.IsLight, Nets.{kind_parts, node_parts, nets_of_kind, nets_of_nodes, AreNets}};
ghost use Rattle.cell_model.specs.{Nets.HasEnds, declared.cell.{Cell.Cell, Nets.Nets}};

use crate::attaching::{kind_parts, neighbours};
use cell_model::{Cell, Nets, Node, NodeKind, NodeNets};
use graph_search::numbers;
use lam_list::Seq;
use std::alloc::{AllocError, Global};

/// The nets of a cell: parts that a chain of wires joins are of one net. It takes time linear in the nodes and
/// wires. The only refusal is want of memory.
pub fn nets(alloc: Global, cell: &Cell) -> Result<Nets, AllocError>
    requires light { IsLight cell.now }
    requires ends { AllByRecursion (HasEnds cell.now) cell.now.wires }
    ensures { IfOk result (AreNets cell.now) }
{
    let lists = neighbours(alloc, cell)?;
    let (parts, count) = numbers(alloc, lists.as_slice())?;
    let node = nets_of_nodes(alloc, parts.as_slice(), cell.nodes.as_slice())?;
    let first = parts.len() - cell.wires.as_slice().len();
    let wire = Vec::from_slice(alloc, &parts[first..])?;
    Ok(Nets {
        node: Seq::from_vec(node),
        wire: Seq::from_vec(wire),
        count,
    })
}

/// A cell has only one value of its nets.
pub fn nets_are_determined()
    ensures { (cell : Cell) (a b : Nets) → AreNets cell a → AreNets cell b → a ≡ b }
{}

// The nets of nodes, by the net of each part.
fn nets_of_nodes(alloc: Global, parts: &[u32], nodes: &[Node]) -> Result<Vec<NodeNets>, AllocError>
    requires { node_parts nodes.now ≤ length parts.now }
    ensures { IfOk result (λ nets. nets.items ≡ nets_of_nodes parts.now 0 nodes.now) }
{
    let mut nets = Vec::with_capacity(alloc, nodes.len())?;
    let mut part = 0;
    for node in nodes {
        nets.push(nets_of_kind(node.kind, parts, part))?;
        part += kind_parts(node.kind) as usize;
    }
    Ok(nets)
}

// The nets of a node whose parts are numbered from `part` on.
fn nets_of_kind(kind: NodeKind, parts: &[u32], part: usize) -> NodeNets
    requires { part + kind_parts kind ≤ length parts.now }
    ensures { result ≡ nets_of_kind kind parts.now part }
{
    match kind {
        NodeKind::Joint { .. } | NodeKind::Contact { .. } | NodeKind::Buried => NodeNets {
            main: parts[part],
            low: parts[part],
            high: parts[part],
        },
        NodeKind::Fet { .. } => NodeNets {
            main: parts[part],
            low: parts[part + 1],
            high: parts[part + 2],
        },
    }
}
