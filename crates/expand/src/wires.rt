//! The items of a wire.

ghost use Rattle.std.specs.Prelude.{◌≡◌, ◌<◌, ◌++◌, length, neg_ℤ, ◌+ℤ◌, OnOk};
ghost use Rattle.rule_table.specs.{Bounds.IsSize, Technology.numbers_of};
ghost use Rattle.sym_items.specs.Standing.{nowhere};
ghost use Rattle.cell_model.specs.Sound.{IsKind, IsEnd, IsWire, IsSound, IsLight, node_at};
ghost use Rattle.expand.specs.{Bounds.{IsHalfSize, IsNear}, WireItems.{half_channel, reach, reach_at, terminal}};
ghost use Rattle.expand.specs.WireItems.{contact_at, run_item, wire_items};

use crate::boxes::{centre, extended, half, item_running, negated, push_on_layer};
use cell_model::{Axis2, Cell, NodeKind, Wire, WireEnd};
use rule_table::{Class, Tech};
use std::alloc::AllocError;
use sym_items::{End, Item, NOWHERE};

// The half size, in u, of a channel along an axis.
fn half_channel(gate: Axis2, w: i64, l: i64, along: Axis2) -> i64
    requires w { IsSize w }
    requires l { IsSize l }
    ensures value { result ≡ half_channel gate w l along }
    ensures bounds { IsHalfSize result }
{
    if gate.is_same(along) {
        half(w)
    } else {
        half(l)
    }
}

// How far a wire stays outside a channel, in u.
fn clearance(tech: &Tech) -> i64
    ensures value { result ≡ (numbers_of tech.now).spacing_poly_diffusion }
    ensures bounds { IsHalfSize result }
{
    tech.numbers().spacing_poly_diffusion
}

// How far past the centre of a node a wire goes that ends there, in u: short of it at a transistor.
fn reach(tech: &Tech, kind: NodeKind, width: i64, along: Axis2) -> i64
    requires kind { IsKind tech.now kind }
    requires width { IsSize width }
    ensures value { result ≡ reach tech.now kind width along }
    ensures near { IsNear result }
{
    match kind {
        NodeKind::Joint { .. } | NodeKind::Contact { .. } | NodeKind::Buried => half(width),
        NodeKind::Fet { gate, w, l, .. } => {
            negated(extended(half_channel(gate, w, l, along), clearance(tech)))
        }
    }
}

/// What a node is.
pub fn kind_at(cell: &Cell, node: u32) -> NodeKind
    requires { node < length cell.now.nodes }
    ensures { result ≡ (node_at cell.now.nodes node).kind }
{
    cell.nodes.as_slice()[node as usize].kind
}

// How far past a terminal a wire goes that ends there, in u. At a port it ends on the border.
fn reach_at(tech: &Tech, cell: &Cell, wire: &Wire, end: WireEnd) -> i64
    requires sound { IsSound tech.now cell.now }
    requires size { IsSize wire.now.width }
    requires end { IsEnd cell.now end }
    ensures value { result ≡ reach_at tech.now cell.now wire.now end }
    ensures near { IsNear result }
{
    match end {
        WireEnd::Node(node) => reach(tech, kind_at(cell, node), wire.width, wire.along),
        WireEnd::Port(_) => 0,
    }
}

// The variable of a terminal: a node's centre, or the border on which a port lies.
fn terminal(cell: &Cell, border: u32, end: WireEnd) -> u32
    requires light { IsLight cell.now }
    requires end { IsEnd cell.now end }
    ensures { result ≡ terminal border end }
{
    match end {
        WireEnd::Node(node) => centre(node),
        WireEnd::Port(_) => border,
    }
}

// The buried contact at which a wire stands that ends at this terminal.
fn contact_at(cell: &Cell, end: WireEnd) -> u32
    requires { IsEnd cell.now end }
    ensures { result ≡ contact_at cell.now end }
{
    match end {
        WireEnd::Node(node) => match kind_at(cell, node) {
            NodeKind::Buried => node,
            NodeKind::Joint { .. } | NodeKind::Contact { .. } | NodeKind::Fet { .. } => NOWHERE,
        },
        WireEnd::Port(_) => NOWHERE,
    }
}

// A box that runs across between two ends, so wide round the cross coordinate. It stands at no buried contact yet.
fn run_item(owner: u32, net: u32, cross: u32, width: i64, low: End, high: End) -> Item
    requires { IsSize width }
    ensures { result ≡ run_item owner net cross width low high nowhere nowhere }
{
    let half_width = half(width);
    Item {
        class: Class::M,
        net,
        owner,
        xl: low,
        xh: high,
        yl: End {
            var: cross,
            off: negated(half_width),
        },
        yh: End {
            var: cross,
            off: half_width,
        },
        least_x: width,
        least_y: width,
        at_low: NOWHERE,
        at_high: NOWHERE,
    }
}

/// Adds the items of a wire with this owner, net and cross coordinate.
pub fn push_wire(
    list: &mut Vec<Item>,
    tech: &Tech,
    cell: &Cell,
    owner: u32,
    net: u32,
    cross: u32,
    wire: &Wire,
) -> Result<(), AllocError>
    requires sound { IsSound tech.now cell.now }
    requires light { IsLight cell.now }
    requires wire { IsWire tech.now cell.now wire.now }
    ensures { OnOk result (list.new.items ≡ list.old.items ++ wire_items tech.now cell.now owner net cross wire.now) }
{
    let low = End {
        var: terminal(cell, 0, wire.low),
        off: negated(reach_at(tech, cell, wire, wire.low)),
    };
    let high = End {
        var: terminal(cell, 1, wire.high),
        off: reach_at(tech, cell, wire, wire.high),
    };
    let run = Item {
        at_low: contact_at(cell, wire.low),
        at_high: contact_at(cell, wire.high),
        ..run_item(owner, net, cross, wire.width, low, high)
    };
    push_on_layer(list, wire.layer, item_running(wire.along, run))?;
    Ok(())
}
