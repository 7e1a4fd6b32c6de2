//! Whether masters differ in their limits alone, and plans ask the same.

ghost use Rattle.std.specs.Prelude.{◌≡◌, true, All};
ghost use Rattle.expand.specs.Masters.{IsMaster};
ghost use Rattle.first_pass.specs.Bare.{AskAlike, bare_cell, bare_of};

use cell_model::{Cell, Node, NodeKind, Port, Wire, WireEnd};
use expand::Master;
use lam_geom::Axis;
use plan_model::{Match, Plan, Same};
use rule_table::Tech;

// Whether two kinds of nodes are equal.
fn is_same_kind(a: &NodeKind, b: &NodeKind) -> bool
    ensures { result ≡ true → a.now ≡ b.now }
{
    match (*a, *b) {
        (
            NodeKind::Joint { layer, width },
            NodeKind::Joint {
                layer: other,
                width: size,
            },
        ) => layer == other && width == size,
        (NodeKind::Contact { lower }, NodeKind::Contact { lower: other }) => lower == other,
        (NodeKind::Buried, NodeKind::Buried) => true,
        (
            NodeKind::Fet {
                depletion,
                gate,
                w,
                l,
            },
            NodeKind::Fet {
                depletion: other,
                gate: across,
                w: width,
                l: length,
            },
        ) => depletion == other && gate == across && w == width && l == length,
        _ => false,
    }
}

// Whether two ends of wires are equal.
fn is_same_end(a: WireEnd, b: WireEnd) -> bool
    ensures { result ≡ true → a ≡ b }
{
    match (a, b) {
        (WireEnd::Node(j), WireEnd::Node(k)) => j == k,
        (WireEnd::Port(j), WireEnd::Port(k)) => j == k,
        _ => false,
    }
}

// Whether two wires are equal.
fn is_same_wire(a: &Wire, b: &Wire) -> bool
    ensures { result ≡ true → a.now ≡ b.now }
{
    a.layer == b.layer
        && a.width == b.width
        && is_same_end(a.low, b.low)
        && is_same_end(a.high, b.high)
        && a.along == b.along
}

// Whether two nodes are equal.
fn is_same_node(a: &Node, b: &Node) -> bool
    ensures { result ≡ true → a.now ≡ b.now }
{
    a.col == b.col
        && a.row == b.row
        && is_same_kind(&a.kind, &b.kind)
        && a.name.bytes() == b.name.bytes()
}

// Whether two ports are equal.
fn is_same_port(a: &Port, b: &Port) -> bool
    ensures { result ≡ true → a.now ≡ b.now }
{
    a.place == b.place
        && a.wire == b.wire
        && a.side == b.side
        && a.layer == b.layer
        && a.name.bytes() == b.name.bytes()
}

// Whether two lists of nodes are equal.
fn are_same_nodes(a: &[Node], b: &[Node]) -> bool
    ensures { result ≡ true → a.now ≡ b.now }
{
    if a.len() != b.len() {
        return false;
    }
    for k in 0..a.len() {
        if !is_same_node(&a[k], &b[k]) {
            return false;
        }
    }
    true
}

// Whether two lists of ports are equal.
fn are_same_ports(a: &[Port], b: &[Port]) -> bool
    ensures { result ≡ true → a.now ≡ b.now }
{
    if a.len() != b.len() {
        return false;
    }
    for k in 0..a.len() {
        if !is_same_port(&a[k], &b[k]) {
            return false;
        }
    }
    true
}

// Whether two lists of wires are equal.
fn are_same_wires(a: &[Wire], b: &[Wire]) -> bool
    ensures { result ≡ true → a.now ≡ b.now }
{
    if a.len() != b.len() {
        return false;
    }
    for k in 0..a.len() {
        if !is_same_wire(&a[k], &b[k]) {
            return false;
        }
    }
    true
}

// Whether two cells are equal but for their limits.
fn is_same_cell(a: &Cell, b: &Cell) -> bool
    ensures { result ≡ true → bare_cell a.now ≡ bare_cell b.now }
{
    a.name.bytes() == b.name.bytes()
        && are_same_nodes(a.nodes.as_slice(), b.nodes.as_slice())
        && are_same_wires(a.wires.as_slice(), b.wires.as_slice())
        && are_same_ports(a.ports.as_slice(), b.ports.as_slice())
}

/// Whether masters are these but for their limits. Their items are not looked at: a cell determines them.
pub fn differ_in_limits(tech: &Tech, masters: &[Master], bared: &[Master]) -> bool
    requires each { All (IsMaster tech.now) masters.now }
    requires bared { All (IsMaster tech.now) bared.now }
    requires are_bare { bare_of bared.now ≡ bared.now }
    ensures { result ≡ true → bare_of masters.now ≡ bared.now }
{
    if masters.len() != bared.len() {
        return false;
    }
    for m in 0..masters.len() {
        if !is_same_cell(&masters[m].cell, &bared[m].cell) {
            return false;
        }
    }
    true
}

// Whether two lists of masters with equal borders are equal.
fn are_same_pitches(a: &[Same], b: &[Same]) -> bool
    ensures { result ≡ true → a.now ≡ b.now }
{
    a == b
}

// Whether two lists of ports that meet are equal.
fn are_same_matches(a: &[Match], b: &[Match]) -> bool
    ensures { result ≡ true → a.now ≡ b.now }
{
    a == b
}

/// Whether two plans ask the same on an axis.
pub fn ask_alike(axis: Axis, a: &Plan, b: &Plan) -> bool
    ensures { result ≡ true → AskAlike axis a.now b.now }
{
    match axis {
        Axis::X => {
            are_same_pitches(a.pitch_x.as_slice(), b.pitch_x.as_slice())
                && are_same_matches(a.port_x.as_slice(), b.port_x.as_slice())
        }
        Axis::Y => {
            are_same_pitches(a.pitch_y.as_slice(), b.pitch_y.as_slice())
                && are_same_matches(a.port_y.as_slice(), b.port_y.as_slice())
        }
    }
}
