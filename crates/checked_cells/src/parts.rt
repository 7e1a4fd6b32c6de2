//! The parts of a cell while its lines are inlined.
ghost use Rattle.std.specs.Prelude.{◌≡◌, ◌+◌, ◌<◌, ◌^◌, ◌++◌, ℕ, ℤ, List, map, vec_len, IfOk, OnOk};
ghost use Rattle.std.specs.List.{AllByRecursion};
ghost use Rattle.checked_cells.specs.CheckedCell.{CheckedCell, Plug, begun, cell_of, with_node, with_port, with_wire};
ghost use Rattle.checked_cells.specs.CheckedCell.{with_limit, with_copy, plugged, prefixed, copied_node, copied_end};
ghost use Rattle.checked_cells.specs.CheckedCell.{copied_wire, copied_limit};
ghost use Rattle.checked_cells.specs.Inlining.{ArePartsOf, HasPlace, HasNumber, HasNumbers, LimitsNumbers};

use cell_model::{Cell, Limit, Node, NodeKind, Port, Wire, WireEnd};
use lam_geom::Side;
use lam_list::Seq;
use rule_table::Layer;
use std::alloc::{AllocError, Global};
use stick_lex::Text;

/// The nodes, wires, ports and limits of the lines so far.
#[derive(Drop)]
pub struct Parts {
    pub nodes: Vec<Node>,
    pub wires: Vec<Wire>,
    pub ports: Vec<Port>,
    pub limits: Vec<Limit>,
}

impl Parts {
    /// A cell before its first line.
    pub fn new(alloc: Global) -> Parts
        ensures { (name : List ℕ) → ArePartsOf (begun name) result }
    {
        Parts {
            nodes: Vec::new(alloc),
            wires: Vec::new(alloc),
            ports: Vec::new(alloc),
            limits: Vec::new(alloc),
        }
    }

    /// Adds a node. Its column and row are coarse coordinates. The only refusal is want of memory.
    pub fn add_node(
        &mut self,
        alloc: Global,
        name: &[u8],
        kind: NodeKind,
        col: u32,
        row: u32,
    ) -> Result<(), AllocError>
        ensures { (known : CheckedCell) → ArePartsOf known self.old
            → OnOk result (ArePartsOf (with_node known name.now kind col row) self.new) }
    {
        let name = Text::new(alloc, name)?;
        self.nodes.push(Node {
            name,
            kind,
            col,
            row,
        })?;
        Ok(())
    }

    /// Adds a port, without a wire yet. The only refusal is want of memory.
    pub fn add_port(
        &mut self,
        alloc: Global,
        name: &[u8],
        side: Side,
        layer: Layer,
        place: u32,
    ) -> Result<(), AllocError>
        ensures { (known : CheckedCell) → ArePartsOf known self.old
            → OnOk result (ArePartsOf (with_port known name.now side layer place) self.new) }
    {
        let name = Text::new(alloc, name)?;
        self.ports.push(Port {
            name,
            side,
            layer,
            place,
            wire: 0,
        })?;
        Ok(())
    }

    /// Adds a wire, and tells its number to the ports at which it ends. The only refusal is want of memory.
    pub fn add_wire(&mut self, wire: Wire) -> Result<(), AllocError>
        requires { vec_len self.old.wires < 2 ^ 32 }
        ensures { (known : CheckedCell) → ArePartsOf known self.old
            → OnOk result (ArePartsOf (with_wire known wire) self.new) }
    {
        let number = self.wires.len() as u32;
        tell_port(&mut self.ports, number, wire.low);
        tell_port(&mut self.ports, number, wire.high);
        self.wires.push(wire)?;
        Ok(())
    }

    /// Adds a limit. The only refusal is want of memory.
    pub fn add_limit(&mut self, limit: Limit) -> Result<(), AllocError>
        ensures { (known : CheckedCell) → ArePartsOf known self.old
            → OnOk result (ArePartsOf (with_limit known limit) self.new) }
    {
        self.limits.push(limit)?;
        Ok(())
    }

    /// Adds the nodes, wires and limits of a cell without ports, shifted by columns and rows, with the use's name and a
    /// dot before the names. The only refusal is want of memory.
    pub fn add_copy(
        &mut self,
        alloc: Global,
        name: &[u8],
        col: u32,
        row: u32,
        copied: &Cell,
    ) -> Result<(), AllocError>
        requires first { vec_len self.old.nodes < 2 ^ 32 }
        requires nodes { AllByRecursion (HasPlace col row) copied.now.nodes }
        requires wires { AllByRecursion (HasNumbers (vec_len self.old.nodes)) copied.now.wires }
        requires limits { AllByRecursion (LimitsNumbers (vec_len self.old.nodes)) copied.now.limits }
        ensures { (known inner : CheckedCell) (k : ℕ) → ArePartsOf known self.old → copied.now ≡ cell_of inner
            → OnOk result (ArePartsOf (with_copy known name.now k inner col row) self.new) }
    {
        let first = self.nodes.len() as u32;
        copy_nodes(
            alloc,
            &mut self.nodes,
            name,
            (col, row),
            copied.nodes.as_slice(),
        )?;
        copy_wires(&mut self.wires, first, copied.wires.as_slice())?;
        copy_limits(&mut self.limits, first, copied.limits.as_slice())
    }

    /// The cell with this name that has these parts.
    pub fn into_cell(self, name: Text) -> Cell
        ensures { (known : CheckedCell) → ArePartsOf known self → name ≡ known.name → result ≡ cell_of known }
    {
        Cell {
            name,
            nodes: Seq::from_vec(self.nodes),
            wires: Seq::from_vec(self.wires),
            ports: Seq::from_vec(self.ports),
            limits: Seq::from_vec(self.limits),
        }
    }
}

// The number of a wire, to the port at which it ends.
fn tell_port(ports: &mut Vec<Port>, number: u32, end: WireEnd)
    ensures { (plugs : List Plug) (width : ℤ) → ports.old.items ≡ map (λ plug. plug.port) plugs
        → ports.new.items ≡ map (λ plug. plug.port) (plugged number width plugs end) }
{
    if let WireEnd::Port(k) = end {
        if let Some(port) = ports.get_mut(k as usize) {
            port.wire = number;
        }
    }
}

// A name within a copy, by way of a buffer whose content does not matter.
fn name_in_copy(
    alloc: Global,
    buffer: &mut Vec<u8>,
    use_name: &[u8],
    name: &[u8],
) -> Result<Text, AllocError>
    ensures { IfOk result (λ text. text ≡ prefixed use_name.now name.now) }
{
    buffer.clear();
    buffer.extend_from_slice(use_name)?;
    buffer.push(b'.')?;
    buffer.extend_from_slice(name)?;
    Text::new(alloc, buffer.as_slice())
}

// A node as it stands in a copy.
fn copied_node(
    alloc: Global,
    buffer: &mut Vec<u8>,
    use_name: &[u8],
    shift: (u32, u32),
    node: &Node,
) -> Result<Node, AllocError>
    requires { HasPlace shift.0 shift.1 node.now }
    ensures { IfOk result (λ copy. copy ≡ copied_node use_name.now shift.0 shift.1 node.now) }
{
    Ok(Node {
        name: name_in_copy(alloc, buffer, use_name, node.name.bytes())?,
        kind: node.kind,
        col: shift.0 + node.col,
        row: shift.1 + node.row,
    })
}

fn copy_nodes(
    alloc: Global,
    nodes: &mut Vec<Node>,
    use_name: &[u8],
    shift: (u32, u32),
    copied: &[Node],
) -> Result<(), AllocError>
    requires { AllByRecursion (HasPlace shift.0 shift.1) copied.now }
    ensures { OnOk result
        (nodes.new.items ≡ nodes.old.items ++ map (copied_node use_name.now shift.0 shift.1) copied.now) }
{
    let mut buffer = Vec::new(alloc);
    for node in copied {
        nodes.push(copied_node(alloc, &mut buffer, use_name, shift, node)?)?;
    }
    Ok(())
}

fn copied_end(first: u32, end: WireEnd) -> WireEnd
    requires { HasNumber first end }
    ensures { result ≡ copied_end first end }
{
    match end {
        WireEnd::Node(k) => WireEnd::Node(first + k),
        WireEnd::Port(k) => WireEnd::Port(k),
    }
}

fn copy_wires(wires: &mut Vec<Wire>, first: u32, copied: &[Wire]) -> Result<(), AllocError>
    requires { AllByRecursion (HasNumbers first) copied.now }
    ensures { OnOk result (wires.new.items ≡ wires.old.items ++ map (copied_wire first) copied.now) }
{
    for wire in copied {
        wires.push(Wire {
            low: copied_end(first, wire.low),
            high: copied_end(first, wire.high),
            ..*wire
        })?;
    }
    Ok(())
}

fn copy_limits(limits: &mut Vec<Limit>, first: u32, copied: &[Limit]) -> Result<(), AllocError>
    requires { AllByRecursion (LimitsNumbers first) copied.now }
    ensures { OnOk result (limits.new.items ≡ limits.old.items ++ map (copied_limit first) copied.now) }
{
    for limit in copied {
        limits.push(Limit {
            a: first + limit.a,
            b: first + limit.b,
            ..*limit
        })?;
    }
    Ok(())
}
