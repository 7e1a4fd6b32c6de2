//! Pieces with their nets, and transistors.
ghost use Rattle.std.specs.Prelude.{◌≡◌, ◌+◌, ◌<◌, All, IfOk, length, map};
ghost use Rattle.lam_geom.specs.Places.{IsPlacedBox};
ghost use Rattle.crossing_model.specs.{declared.crossing.Crossing.Crossing, Boxes.{extent, other}};
ghost use Rattle.box_pieces.specs.{Places.place, Pieces.stand_of};
ghost use Rattle.net_model.specs.Netlists.{place_of, nets_of, is_same_part, net_at, device_of};
ghost use Rattle.net_model.specs.Devices.{ArePieceRanges, HasBoxes};

use crate::netlist::{Device, Piece};
use box_pieces::{Part, Placed};
use crossing_model::Crossing;
use lam_geom::{Axis, BoxXY, Span, span_of};
use std::alloc::{AllocError, Global};

/// The pieces with these nets. The only refusal is want of memory.
pub fn netted(alloc: Global, placed: &[Placed], nets: &[u32]) -> Result<Vec<Piece>, AllocError>
    requires { length nets.now ≡ length placed.now }
    ensures places { IfOk result (λ pieces. map place_of pieces.items ≡ map stand_of placed.now) }
    ensures nets { IfOk result (λ pieces. nets_of pieces.items ≡ nets.now) }
{
    let mut pieces = Vec::with_capacity(alloc, placed.len())?;
    for a in 0..placed.len() {
        let Placed { box_no, part, .. } = placed[a];
        let net = nets[a];
        pieces.push(Piece { box_no, part, net })?;
    }
    Ok(pieces)
}

/// The transistors of some crossings. The only refusal is want of memory.
pub fn devices_of(
    alloc: Global,
    pieces: &[Piece],
    starts: &[u32],
    crossings: &[Crossing],
) -> Result<Vec<Device>, AllocError>
    requires starts { ArePieceRanges pieces.now starts.now }
    requires crossings { All (HasBoxes starts.now) crossings.now }
    ensures { IfOk result (λ devices. devices.items ≡ map (device_of pieces.now) crossings.now) }
{
    let mut devices = Vec::with_capacity(alloc, crossings.len())?;
    for c in crossings {
        devices.push(device_of(pieces, starts, c))?;
    }
    Ok(devices)
}

// The transistor of a crossing.
fn device_of(pieces: &[Piece], starts: &[u32], c: &Crossing) -> Device
    requires starts { ArePieceRanges pieces.now starts.now }
    requires crossing { HasBoxes starts.now c.now }
    ensures { result ≡ device_of pieces.now c.now }
{
    Device {
        gate: net_at(pieces, starts, c.poly, Part::Whole),
        low: net_at(pieces, starts, c.diffusion, Part::Low),
        high: net_at(pieces, starts, c.diffusion, Part::High),
        w: extent(c.axis, &c.channel),
        l: extent(other(c.axis), &c.channel),
        depletion: c.depletion,
        channel: c.channel,
    }
}

// The net of a part of a box.
fn net_at(pieces: &[Piece], starts: &[u32], box_no: u32, part: Part) -> u32
    requires starts { ArePieceRanges pieces.now starts.now }
    requires in_range { box_no + 1 < length starts.now }
    ensures { result ≡ net_at pieces.now (place box_no part) }
{
    let first = starts[box_no as usize];
    let end = starts[box_no as usize + 1];
    for a in first..end {
        let piece = pieces[a as usize];
        if is_same_part(piece.part, part) {
            return piece.net;
        }
    }
    0
}

fn is_same_part(a: Part, b: Part) -> bool
    ensures { result ≡ is_same_part a b }
{
    matches!(
        (a, b),
        (Part::Whole, Part::Whole) | (Part::Low, Part::Low) | (Part::High, Part::High)
    )
}

// How long a box is along an axis.
fn extent(axis: Axis, area: &BoxXY) -> i64
    requires { IsPlacedBox area.now }
    ensures { result ≡ extent axis area.now }
{
    let Span { lo, hi, .. } = span_of(area, axis);
    hi - lo
}

fn other(axis: Axis) -> Axis
    ensures { result ≡ other axis }
{
    match axis {
        Axis::X => Axis::Y,
        Axis::Y => Axis::X,
    }
}
