//! Which nodes take which wires, on which pads.
ghost use Rattle.std.specs.Prelude.{◌≡◌, ◌≤ℤ◌, pos};
ghost use Rattle.rule_table.specs.Bounds.{IsSize};
ghost use Rattle.cell_model.specs.{Sound.IsKind, Wiring.{is_same_axis, axis_of, is_low_side, is_same_layer}};
ghost use Rattle.cell_model.specs.Wiring.{node_takes, node_takes_along, buried_pad, node_pad};

use crate::cell::{Axis2, NodeKind};
use lam_geom::Side;
use rule_table::{Layer, Tech};

impl Axis2 {
    /// Whether two axes are one.
    pub fn is_same(self, other: Axis2) -> bool
        ensures { result ≡ is_same_axis self other }
    {
        self == other
    }

    /// The axis on which a wire reaches a side.
    pub fn of_side(side: Side) -> Axis2
        ensures { result ≡ axis_of side }
    {
        match side {
            Side::Left | Side::Right => Axis2::Across,
            Side::Bottom | Side::Top => Axis2::Up,
        }
    }
}

/// Whether a side is one at which wires have their low ends: the left or the bottom one.
pub fn is_low_side(side: Side) -> bool
    ensures { result ≡ is_low_side side }
{
    match side {
        Side::Left | Side::Bottom => true,
        Side::Right | Side::Top => false,
    }
}

/// Whether two layers are one.
pub fn is_same_layer(a: Layer, b: Layer) -> bool
    ensures { result ≡ is_same_layer a b }
{
    a == b
}

/// The side, in u, of the square pad of a buried contact: the wider of diffusion and poly.
pub fn buried_pad(tech: &Tech) -> i64
    ensures value { result ≡ buried_pad tech.now }
    ensures size { IsSize result }
{
    tech.width(Layer::Diffusion).max(tech.width(Layer::Poly))
}

impl NodeKind {
    /// Whether the node takes wires of a layer: a joint its own, a contact metal and its lower layer, a buried
    /// contact and a transistor poly and diffusion.
    pub fn takes(self, layer: Layer) -> bool
        ensures { result ≡ node_takes self layer }
    {
        match self {
            NodeKind::Joint { layer: own, .. } => is_same_layer(own, layer),
            NodeKind::Contact { lower } => {
                is_same_layer(Layer::Metal, layer) || is_same_layer(lower, layer)
            }
            NodeKind::Buried | NodeKind::Fet { .. } => !is_same_layer(Layer::Metal, layer),
        }
    }

    /// Whether the node takes a wire of a layer along an axis: at a transistor a poly wire runs along the gate, and a
    /// diffusion wire across it.
    pub fn takes_along(self, layer: Layer, along: Axis2) -> bool
        ensures { result ≡ node_takes_along self layer along }
    {
        match self {
            NodeKind::Joint { .. } | NodeKind::Contact { .. } | NodeKind::Buried => true,
            NodeKind::Fet { gate, .. } => match layer {
                Layer::Poly => gate.is_same(along),
                Layer::Diffusion => !gate.is_same(along),
                Layer::Metal => true,
            },
        }
    }

    /// The side, in u, of the pad on which a wire of a layer ends: a joint's width, the square of a contact or of a
    /// buried contact, a transistor's channel.
    pub fn pad(self, tech: &Tech, layer: Layer) -> i64
        ensures value { result ≡ node_pad tech.now layer self }
        ensures low { IsKind tech.now self → pos 0 ≤ℤ result }
        ensures high { IsKind tech.now self → result ≤ℤ pos 12288 }
    {
        match self {
            NodeKind::Joint { width, .. } => width,
            NodeKind::Contact { .. } => tech.pad(),
            NodeKind::Buried => buried_pad(tech),
            NodeKind::Fet { w, l, .. } => match layer {
                Layer::Poly => l,
                Layer::Diffusion | Layer::Metal => w,
            },
        }
    }
}
