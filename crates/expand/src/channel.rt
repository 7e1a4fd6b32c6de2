//! The boxes round the channel of a transistor whose gate runs across. The channel's half sizes are `x` along the gate
//! and `y` across it, in u.

ghost use Rattle.std.specs.Prelude.{◌≡◌, ◌<◌, ◌^◌, pos, neg_ℤ, ◌+ℤ◌, ◌≤ℤ◌};
ghost use Rattle.rule_table.specs.{declared.classes.Class.TheVariants.{P, Dm, Dc, G, I}, Technology.numbers_of};
ghost use Rattle.expand.specs.{NodeItems.{box_at, box_round}, Bounds.IsHalfSize};

use crate::boxes::{box_at, box_round, extended, negated};
use rule_table::{Class, Tech};
use sym_items::Item;

// How far poly extends past a channel along the gate, in u.
fn poly_extension(tech: &Tech) -> i64
    ensures value { result ≡ (numbers_of tech.now).extension_poly }
    ensures bounds { IsHalfSize result }
{
    tech.numbers().extension_poly
}

// How far diffusion extends past a channel across the gate, in u.
fn diffusion_extension(tech: &Tech) -> i64
    ensures value { result ≡ (numbers_of tech.now).extension_diffusion }
    ensures bounds { IsHalfSize result }
{
    tech.numbers().extension_diffusion
}

// How far an implant extends past a channel, in u.
fn implant_extension(tech: &Tech) -> i64
    ensures value { result ≡ (numbers_of tech.now).extension_implant }
    ensures bounds { IsHalfSize result }
{
    tech.numbers().extension_implant
}

/// The poly of the gate, past the channel on both sides.
pub fn gate_poly(tech: &Tech, node: u32, net: u32, x: i64, y: i64) -> Item
    requires node { node < 2 ^ 31 }
    requires x { IsHalfSize x }
    requires y { IsHalfSize y }
    ensures { result ≡ box_round node P net (x +ℤ (numbers_of tech.now).extension_poly) y }
{
    box_round(node, Class::P, net, extended(x, poly_extension(tech)), y)
}

/// The diffusion of the mask, past the channel below and above.
pub fn mask_diffusion(tech: &Tech, node: u32, net: u32, x: i64, y: i64) -> Item
    requires node { node < 2 ^ 31 }
    requires x { IsHalfSize x }
    requires y { IsHalfSize y }
    ensures { result ≡ box_round node Dm net x (y +ℤ (numbers_of tech.now).extension_diffusion) }
{
    box_round(
        node,
        Class::Dm,
        net,
        x,
        extended(y, diffusion_extension(tech)),
    )
}

/// The conducting piece of diffusion below the channel.
pub fn low_piece(tech: &Tech, node: u32, net: u32, x: i64, y: i64) -> Item
    requires node { node < 2 ^ 31 }
    requires x { IsHalfSize x }
    requires y { IsHalfSize y }
    ensures { result ≡ box_at node Dc net (neg_ℤ x) x (neg_ℤ (y +ℤ (numbers_of tech.now).extension_diffusion))
        (neg_ℤ y) }
{
    let bottom = negated(extended(y, diffusion_extension(tech)));
    box_at(node, Class::Dc, net, negated(x), x, bottom, negated(y))
}

/// The conducting piece of diffusion above the channel.
pub fn high_piece(tech: &Tech, node: u32, net: u32, x: i64, y: i64) -> Item
    requires node { node < 2 ^ 31 }
    requires x { IsHalfSize x }
    requires y { IsHalfSize y }
    ensures { result ≡ box_at node Dc net (neg_ℤ x) x y (y +ℤ (numbers_of tech.now).extension_diffusion) }
{
    let top = extended(y, diffusion_extension(tech));
    box_at(node, Class::Dc, net, negated(x), x, y, top)
}

/// The channel itself.
pub fn channel(node: u32, net: u32, x: i64, y: i64) -> Item
    requires node { node < 2 ^ 31 }
    requires x { IsHalfSize x }
    requires y { IsHalfSize y }
    ensures { result ≡ box_round node G net x y }
{
    box_round(node, Class::G, net, x, y)
}

/// The implant of a depletion transistor, past the channel on all sides.
pub fn implant(tech: &Tech, node: u32, net: u32, x: i64, y: i64) -> Item
    requires node { node < 2 ^ 31 }
    requires x { IsHalfSize x }
    requires y { IsHalfSize y }
    ensures { result ≡ box_round node I net (x +ℤ (numbers_of tech.now).extension_implant)
        (y +ℤ (numbers_of tech.now).extension_implant) }
{
    let extension = implant_extension(tech);
    let half_x = extended(x, extension);
    let half_y = extended(y, extension);
    box_round(node, Class::I, net, half_x, half_y)
}
