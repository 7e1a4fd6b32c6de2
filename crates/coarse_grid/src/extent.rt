//! How far the parts of a cell reach, and the pitch of its coarse grid.

ghost use Rattle.std.specs.Prelude.{◌≡◌, pos, ◌*ℤ◌, ◌≤ℤ◌};
ghost use Rattle.cell_model.specs.Sound.{IsKind, IsSound};
ghost use Rattle.rule_table.specs.Bounds.{IsSize};
ghost use Rattle.expand.specs.Variables.{half};
ghost use Rattle.coarse_grid.specs.Extent.{implant_past, fet_reach, reach_of, half_extent_of, pitch_of};

use cell_model::{Cell, NodeKind, buried_pad};
use rule_table::Tech;

/// The pitch of a cell's coarse grid, in u: twice its half extent and the widest spacing. The half extent is the
/// greatest half size of an item at a node on either axis, and half width of a wire; 0 for an empty cell. It takes no
/// memory.
#[tactic(auto, unfolding(crate::specs::Extent::pitch_of))]
pub fn pitch(tech: &Tech, cell: &Cell) -> i64
    requires { IsSound tech.now cell.now }
    ensures value { result ≡ pitch_of tech.now cell.now }
    ensures positive { pos 1 ≤ℤ result }
    ensures near { result ≤ℤ pos 16384 }
{
    2 * half_extent(tech, cell) + tech.widest()
}

// The half extent of a cell.
fn half_extent(tech: &Tech, cell: &Cell) -> i64
    requires { IsSound tech.now cell.now }
    ensures value { result ≡ half_extent_of tech.now cell.now }
    ensures not_negative { pos 0 ≤ℤ result }
    ensures near { result ≤ℤ pos 6144 }
{
    let mut most = 0;
    for node in cell.nodes.as_slice() {
        most = most.max(reach(tech, node.kind));
    }
    for wire in cell.wires.as_slice() {
        most = most.max(half(wire.width));
    }
    most
}

// The greatest half size of the items at a node, on both axes.
fn reach(tech: &Tech, kind: NodeKind) -> i64
    requires { IsKind tech.now kind }
    ensures value { result ≡ reach_of tech.now kind }
    ensures not_negative { pos 0 ≤ℤ result }
    ensures near { result ≤ℤ pos 6144 }
{
    match kind {
        NodeKind::Joint { width, .. } => half(width),
        NodeKind::Contact { .. } => half(tech.pad()).max(half(tech.numbers().cut_size)),
        NodeKind::Buried => half(buried_pad(tech)) + tech.numbers().extension_buried,
        NodeKind::Fet {
            depletion,
            w,
            l,
            ..
        } => fet_reach(tech, depletion, w, l),
    }
}

// The greatest half size of the items of a transistor: its poly, diffusion and implant go on past the channel.
fn fet_reach(tech: &Tech, depletion: bool, w: i64, l: i64) -> i64
    requires w { IsSize w }
    requires l { IsSize l }
    ensures value { result ≡ fet_reach tech.now depletion w l }
    ensures not_negative { pos 0 ≤ℤ result }
    ensures near { result ≤ℤ pos 6144 }
{
    let numbers = tech.numbers();
    let implant = implant_past(tech, depletion);
    let along = half(w) + numbers.extension_poly.max(implant);
    let across = half(l) + numbers.extension_diffusion.max(implant);
    along.max(across)
}

// How far the implant of a transistor goes past its channel; an enhancement one has none.
fn implant_past(tech: &Tech, depletion: bool) -> i64
    ensures value { result ≡ implant_past tech.now depletion }
    ensures not_negative { pos 0 ≤ℤ result }
    ensures near { result ≤ℤ pos 4096 }
{
    if depletion {
        tech.numbers().extension_implant
    } else {
        0
    }
}

// Half of a size.
fn half(size: i64) -> i64
    requires not_negative { pos 0 ≤ℤ size }
    requires near { size ≤ℤ pos 12288 }
    ensures value { result ≡ half size }
    ensures not_negative { pos 0 ≤ℤ result }
    ensures within { (pos 2 *ℤ result) ≤ℤ size }
{
    size / 2
}
