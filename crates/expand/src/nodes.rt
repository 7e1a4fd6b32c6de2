//! The items of a node.

ghost use Rattle.std.specs.Prelude.{◌≡◌, ◌+ℤ◌, ◌<◌, ◌^◌, ◌++◌, map, OnOk};
ghost use Rattle.cell_model.specs.{declared.cell.NodeKind.TheVariants.Contact, Wiring.buried_pad, Sound.IsKind};
ghost use Rattle.expand.specs.{Bounds.{IsHalfSize, IsSmall}, Variables.half, NodeItems.{item_running, square_round}};
ghost use Rattle.expand.specs.NodeItems.{standing_at, buried_items, channel_items, kind_items};
ghost use Rattle.rule_table.specs.{declared.classes.Class.TheVariants.{M, C, B}, Technology.{numbers_of, pad_of}};

use crate::boxes::{extended, half, item_running, push_on_layer, square_round};
use crate::channel::{channel, gate_poly, high_piece, implant, low_piece, mask_diffusion};
use cell_model::{Axis2, NodeKind, NodeNets, buried_pad};
use rule_table::{Class, Layer, Tech};
use std::alloc::AllocError;
use sym_items::Item;

/// Adds the items of a node with these nets.
pub fn push_kind(
    list: &mut Vec<Item>,
    tech: &Tech,
    node: u32,
    kind: NodeKind,
    nets: NodeNets,
) -> Result<(), AllocError>
    requires node { node < 2 ^ 31 }
    requires kind { IsKind tech.now kind }
    ensures { OnOk result (list.new.items ≡ list.old.items ++ kind_items tech.now node kind nets) }
{
    match kind {
        NodeKind::Joint { layer, width } => {
            push_on_layer(
                list,
                layer,
                square_round(node, Class::M, nets.main, half(width)),
            )
        }
        NodeKind::Contact { lower } => push_contact(list, tech, node, lower, nets.main),
        NodeKind::Buried => push_buried(list, tech, node, nets.main),
        NodeKind::Fet {
            depletion,
            gate,
            w,
            l,
        } => { push_transistor(list, tech, node, nets, half(w), half(l), depletion, gate) }
    }
}

// Adds the items of a contact: metal, the cut, and the lower layer.
fn push_contact(
    list: &mut Vec<Item>,
    tech: &Tech,
    node: u32,
    lower: Layer,
    net: u32,
) -> Result<(), AllocError>
    requires node { node < 2 ^ 31 }
    requires kind { IsKind tech.now (Contact lower) }
    ensures { OnOk result
        (list.new.items ≡ list.old.items ++ kind_items tech.now node (Contact lower)
        (record { main = net; low = net; high = net })) }
{
    let pad = pad_square(tech, node, net);
    list.push(pad)?;
    list.push(cut_square(tech, node, net))?;
    push_on_layer(list, lower, pad)?;
    Ok(())
}

// The metal pad of a contact.
fn pad_square(tech: &Tech, node: u32, net: u32) -> Item
    requires { node < 2 ^ 31 }
    ensures { result ≡ square_round node M net (half (pad_of tech.now)) }
{
    square_round(node, Class::M, net, half(tech.pad()))
}

// The side of a contact's cut, in u.
fn cut_size(tech: &Tech) -> i64
    ensures value { result ≡ (numbers_of tech.now).cut_size }
    ensures bounds { IsHalfSize result }
{
    tech.numbers().cut_size
}

// The cut of a contact.
fn cut_square(tech: &Tech, node: u32, net: u32) -> Item
    requires { node < 2 ^ 31 }
    ensures { result ≡ square_round node C net (half (numbers_of tech.now).cut_size) }
{
    square_round(node, Class::C, net, half(cut_size(tech)))
}

// The square of this half size round a buried contact, which stands at it.
fn standing_square(contact: u32, class: Class, net: u32, half_size: i64) -> Item
    requires contact { contact < 2 ^ 31 }
    requires half_size { IsSmall half_size }
    ensures { result ≡ standing_at contact (square_round contact class net half_size) }
{
    Item {
        at_low: contact,
        at_high: contact,
        ..square_round(contact, class, net, half_size)
    }
}

// How far the window of a buried contact goes on past its pad, in u.
fn window_past(tech: &Tech) -> i64
    ensures value { result ≡ (numbers_of tech.now).extension_buried }
    ensures bounds { IsHalfSize result }
{
    tech.numbers().extension_buried
}

// The pad of a buried contact, in poly or diffusion.
fn buried_square(tech: &Tech, node: u32, class: Class, net: u32) -> Item
    requires { node < 2 ^ 31 }
    ensures { result ≡ standing_at node (square_round node class net (half (buried_pad tech.now))) }
{
    standing_square(node, class, net, half(buried_pad(tech)))
}

// The window of a buried contact.
fn window(tech: &Tech, node: u32, net: u32) -> Item
    requires { node < 2 ^ 31 }
    ensures { result ≡ standing_at node
        (square_round node B net (half (buried_pad tech.now) +ℤ (numbers_of tech.now).extension_buried)) }
{
    let half_size = extended(half(buried_pad(tech)), window_past(tech));
    standing_square(node, Class::B, net, half_size)
}

// Adds the items of a buried contact: poly and diffusion on its pad, and the window.
fn push_buried(list: &mut Vec<Item>, tech: &Tech, node: u32, net: u32) -> Result<(), AllocError>
    requires { node < 2 ^ 31 }
    ensures { OnOk result (list.new.items ≡ list.old.items ++ buried_items tech.now node net) }
{
    list.extend_from_slice(&[
        buried_square(tech, node, Class::P, net),
        buried_square(tech, node, Class::Dm, net),
        buried_square(tech, node, Class::Dc, net),
        window(tech, node, net),
    ])
}

// Adds the items of a transistor whose channel has the half sizes `x` along the gate and `y` across it, in u.
fn push_transistor(
    list: &mut Vec<Item>,
    tech: &Tech,
    node: u32,
    nets: NodeNets,
    x: i64,
    y: i64,
    depletion: bool,
    gate: Axis2,
) -> Result<(), AllocError>
    requires node { node < 2 ^ 31 }
    requires x { IsHalfSize x }
    requires y { IsHalfSize y }
    ensures { OnOk result
        (list.new.items ≡ list.old.items ++ map (item_running gate)
        (channel_items tech.now node nets depletion x y)) }
{
    let boxes = [
        gate_poly(tech, node, nets.main, x, y),
        mask_diffusion(tech, node, nets.low, x, y),
        low_piece(tech, node, nets.low, x, y),
        high_piece(tech, node, nets.high, x, y),
        channel(node, nets.main, x, y),
    ];
    push_running(list, gate, &boxes)?;
    if !depletion {
        return Ok(());
    }
    push_running(list, gate, &[implant(tech, node, nets.main, x, y)])?;
    Ok(())
}

// Adds items that are described as if they ran across, turned as they run.
fn push_running(list: &mut Vec<Item>, along: Axis2, items: &[Item]) -> Result<(), AllocError>
    ensures { OnOk result (list.new.items ≡ list.old.items ++ map (item_running along) items.now) }
{
    for item in items {
        list.push(item_running(along, *item))?;
    }
    Ok(())
}
