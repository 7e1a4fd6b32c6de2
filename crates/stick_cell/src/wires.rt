//! Where wires run, and which terminals take them.
ghost use Rattle.std.specs.Prelude.{◌≡◌, ◌==◌, ℕ, Bool, List, Option, Some, None, Err, if◌then◌else◌};
ghost use Rattle.rule_table.specs.declared.{technology.Tech.Tech, classes.Layer.Layer};
ghost use Rattle.stick_text.specs.declared.fault.StickKind.{StickKind};
ghost use Rattle.checked_cells.specs.{declared.names.Found.Found, Wires.{wire_between, wire_where, run_of, terminal}};
ghost use Rattle.checked_cells.specs.Wires.{line_of, run_along, run_between, takes_layer, takes_along, is_buried};
ghost use Rattle.checked_cells.specs.Wires.{is_free, fills_pad, is_within_pad, end_of, at_both, limited};
ghost use Rattle.stick_cell.specs.Refusals.{IsRefusedWire};
ghost use Rattle.cell_model.specs.{Wiring.axis_of, declared.cell.Wire.Wire};

use cell_model::{Axis2, NodeKind, Wire, WireEnd, buried_pad, is_low_side, is_same_layer};
use checked_cells::{Found, NodePlace, Pin, Run, Terminal, sized};
use rule_table::{Layer, Tech};
use stick_text::StickKind;

/// The straight run between the things that two paths have come to.
///
/// Refused, in this order: an end that is a use, or lies past a node or a port, as `WrongTerminal`; ends that no
/// straight wire joins as `NotStraight`.
pub fn run_of(a: Found, b: Found) -> Result<Run, StickKind>
    ensures { result ≡ run_of a b }
{
    let from = terminal(a)?;
    let to = terminal(b)?;
    run_between(from, to).ok_or(StickKind::NotStraight)
}

/// The wire of a layer along a run. `are_free` tells whether no wire of another layer leaves a buried contact at its
/// ends where it would, and `wired` of each port of the cell whether a wire ends at it. The width is in u, and where
/// none is given it is the layer's.
///
/// Refused, in this order: an end that takes no wire of the layer as `WrongLayer`, or not along this axis or on this
/// side as `WrongSide`; a port that has a wire as `PortWires`; a width as `BadSize`, `NarrowWire`, also where it is
/// narrower than the pad of a buried contact, or, where it is wider than the pad at an end, `WideWire`.
pub fn wire_where(
    are_free: bool,
    tech: &Tech,
    wired: &[bool],
    layer: Layer,
    width: Option<u32>,
    run: Run,
) -> Result<Wire, StickKind>
    ensures { result ≡ wire_where are_free tech.now wired.now layer width run }
{
    if !both_take_layer(layer, run) {
        return Err(StickKind::WrongLayer);
    }
    if !both_take_along(layer, run) || !are_free {
        return Err(StickKind::WrongSide);
    }
    if !both_are_free(wired, run) {
        return Err(StickKind::PortWires);
    }
    let size = sized(tech, layer, width)?;
    if !fills_pads(tech, size, run) {
        return Err(StickKind::NarrowWire);
    }
    if !is_within_pads(tech, layer, size, run) {
        return Err(StickKind::WideWire);
    }
    Ok(Wire {
        layer,
        width: size,
        low: end_of(run.low),
        high: end_of(run.high),
        along: run.along,
    })
}

/// A wire that is refused breaks the rule of the kind that it is refused with, and one that breaks a rule is refused.
pub fn a_refused_wire_breaks_a_rule()
    ensures refused { (tech : Tech) (wired : List Bool) (wires : List Wire) (layer : Layer) (a b : Found)
        (width : Option ℕ) (kind : StickKind) → wire_between tech wired wires layer a b width ≡ Err kind
        → IsRefusedWire tech wired wires layer a b width kind }
    ensures broken { (tech : Tech) (wired : List Bool) (wires : List Wire) (layer : Layer) (a b : Found)
        (width : Option ℕ) (kind : StickKind) → IsRefusedWire tech wired wires layer a b width kind
        → (first : StickKind) × (wire_between tech wired wires layer a b width ≡ Err first) }
{}

/// The node that a limit names; a port, a use and what lies past a node or a port are refused with `BadLimit`.
pub fn limited(found: Found) -> Result<NodePlace, StickKind>
    ensures { result ≡ limited found }
{
    match found {
        Found::At(Terminal::Node(node_place)) => Ok(node_place),
        Found::At(Terminal::Port(_)) | Found::AtCopy | Found::Through => Err(StickKind::BadLimit),
    }
}

// The terminal that a path has come to; a use and what lies past a node or a port are refused.
fn terminal(found: Found) -> Result<Terminal, StickKind>
    ensures { result ≡ terminal found }
{
    match found {
        Found::At(end) => Ok(end),
        Found::AtCopy | Found::Through => Err(StickKind::WrongTerminal),
    }
}

// ---- straight runs

// The row of a node for a wire that runs across, its column for one that runs up.
fn line_of(along: Axis2, node_place: NodePlace) -> u32
    ensures { result ≡ line_of along node_place }
{
    match along {
        Axis2::Across => node_place.row,
        Axis2::Up => node_place.col,
    }
}

// The run along an axis between two terminals of which the first is the low one, or the high one.
fn run_along(along: Axis2, is_low: bool, a: Terminal, b: Terminal) -> Run
    ensures { result ≡ run_along along is_low a b }
{
    if is_low {
        Run {
            along,
            low: a,
            high: b,
            forward: true,
        }
    } else {
        Run {
            along,
            low: b,
            high: a,
            forward: false,
        }
    }
}

// The straight run between two terminals, if there is one.
fn run_between(a: Terminal, b: Terminal) -> Option<Run>
    ensures { result ≡ run_between a b }
{
    match (a, b) {
        (Terminal::Node(from), Terminal::Node(to)) => run_between_nodes(from, to),
        (Terminal::Node(node), Terminal::Port(port)) => {
            run_at_port(port, node, !is_low_side(port.side), a, b)
        }
        (Terminal::Port(port), Terminal::Node(node)) => {
            run_at_port(port, node, is_low_side(port.side), a, b)
        }
        (Terminal::Port(from), Terminal::Port(to)) => run_between_ports(from, to),
    }
}

// Two nodes share exactly one of column and row.
fn run_between_nodes(a: NodePlace, b: NodePlace) -> Option<Run>
    ensures { result ≡ run_between (Terminal.Node a) (Terminal.Node b) }
{
    let from = Terminal::Node(a);
    let to = Terminal::Node(b);
    if a.row == b.row && a.col != b.col {
        Some(run_along(Axis2::Across, a.col < b.col, from, to))
    } else if a.col == b.col && a.row != b.row {
        Some(run_along(Axis2::Up, a.row < b.row, from, to))
    } else {
        None
    }
}

// The run along the axis of a port's side between the port and a node, in either order: a left or right port lies in
// the row of the node, a bottom or top port in its column.
fn run_at_port(q: Pin, a: NodePlace, is_low: bool, from: Terminal, to: Terminal) -> Option<Run>
    ensures { result
        ≡ (if line_of (axis_of q.side) a == q.place then Some (run_along (axis_of q.side) is_low from to) else None) }
{
    let along = Axis2::of_side(q.side);
    if line_of(along, a) == q.place {
        Some(run_along(along, is_low, from, to))
    } else {
        None
    }
}

// Two ports lie opposite each other.
fn run_between_ports(p: Pin, q: Pin) -> Option<Run>
    ensures { result ≡ run_between (Terminal.Port p) (Terminal.Port q) }
{
    let along = Axis2::of_side(p.side);
    let is_low = is_low_side(p.side);
    if along.is_same(Axis2::of_side(q.side))
        && is_low != is_low_side(q.side)
        && p.place == q.place
    {
        Some(run_along(along, is_low, Terminal::Port(p), Terminal::Port(q)))
    } else {
        None
    }
}

// ---- which terminals take which wires

fn takes_layer(layer: Layer, end: Terminal) -> bool
    ensures { result ≡ takes_layer layer end }
{
    match end {
        Terminal::Node(node_place) => node_place.kind.takes(layer),
        Terminal::Port(pin) => is_same_layer(pin.layer, layer),
    }
}

fn takes_along(layer: Layer, along: Axis2, end: Terminal) -> bool
    ensures { result ≡ takes_along layer along end }
{
    match end {
        Terminal::Node(node_place) => node_place.kind.takes_along(layer, along),
        Terminal::Port(_) => true,
    }
}

// Whether no wire ends at the port yet.
fn is_free(wired: &[bool], end: Terminal) -> bool
    ensures { result ≡ is_free wired.now end }
{
    match end {
        Terminal::Node(_) => true,
        Terminal::Port(pin) => !wired.get(pin.number as usize).copied().unwrap_or(false),
    }
}

// Whether the wire is no wider than the pad at its end. A port has none.
fn is_within_pad(tech: &Tech, layer: Layer, width: i64, end: Terminal) -> bool
    ensures { result ≡ is_within_pad tech.now layer width end }
{
    match end {
        Terminal::Node(node_place) => width <= node_place.kind.pad(tech, layer),
        Terminal::Port(_) => true,
    }
}

/// Whether a node is a buried contact.
pub fn is_buried(kind: NodeKind) -> bool
    ensures { result ≡ is_buried kind }
{
    match kind {
        NodeKind::Buried => true,
        NodeKind::Joint { .. } | NodeKind::Contact { .. } | NodeKind::Fet { .. } => false,
    }
}

// Whether the wire is no narrower than the pad of a buried contact at its end.
fn fills_pad(tech: &Tech, width: i64, end: Terminal) -> bool
    ensures { result ≡ fills_pad tech.now width end }
{
    match end {
        Terminal::Node(node_place) => !is_buried(node_place.kind) || buried_pad(tech) <= width,
        Terminal::Port(_) => true,
    }
}

fn end_of(end: Terminal) -> WireEnd
    ensures { result ≡ end_of end }
{
    match end {
        Terminal::Node(node_place) => WireEnd::Node(node_place.number),
        Terminal::Port(pin) => WireEnd::Port(pin.number),
    }
}

// ---- both ends of a run

fn both_take_layer(layer: Layer, run: Run) -> bool
    ensures { result ≡ at_both (takes_layer layer) run }
{
    takes_layer(layer, run.low) && takes_layer(layer, run.high)
}

fn both_take_along(layer: Layer, run: Run) -> bool
    ensures { result ≡ at_both (takes_along layer run.along) run }
{
    takes_along(layer, run.along, run.low) && takes_along(layer, run.along, run.high)
}

fn both_are_free(wired: &[bool], run: Run) -> bool
    ensures { result ≡ at_both (is_free wired.now) run }
{
    is_free(wired, run.low) && is_free(wired, run.high)
}

fn fills_pads(tech: &Tech, width: i64, run: Run) -> bool
    ensures { result ≡ at_both (fills_pad tech.now width) run }
{
    fills_pad(tech, width, run.low) && fills_pad(tech, width, run.high)
}

fn is_within_pads(tech: &Tech, layer: Layer, width: i64, run: Run) -> bool
    ensures { result ≡ at_both (is_within_pad tech.now layer width) run }
{
    is_within_pad(tech, layer, width, run.low) && is_within_pad(tech, layer, width, run.high)
}
