//! The pieces into which boxes fall, with the areas that they cover.
ghost use Rattle.std.specs.Prelude.{◌≡◌, ◌+◌, ◌^◌, ◌<◌, ◌≤◌, pos, All, IfOk, IfSome, List, OnOk, ◌++◌, cond, is_some};
ghost use Rattle.std.specs.Prelude.{length};
ghost use Rattle.lam_geom.specs.Gaps.{Encloses};
ghost use Rattle.crossing_model.specs.{Boxes.area_at, Crossings.AreInOrder};
ghost use Rattle.box_pieces.specs.{declared.placing.Placed.Placed, Places.is_crossed, Areas.{IsLowPiece, IsHighPiece}};
ghost use Rattle.box_pieces.specs.{Areas.IsCrossingOf, Pieces.{ArePieces, IsWithinDiffusion, IsCursor}};
ghost use Rattle.box_pieces.specs.Placing.{AreOfBox};

use crossing_model::Crossing;
use lam_geom::{Axis, BoxXY, MaskBox, MaskLayer, Span};
use std::alloc::{AllocError, Global};

/// Which part of a box a piece is: all of it, or of crossed diffusion what lies before or after the channel.
#[derive(Clone, Copy, PartialEq, Eq)]
pub enum Part {
    Whole,
    Low,
    High,
}

/// A piece, and the area that it covers in grains.
#[derive(Clone, Copy, PartialEq, Eq)]
pub struct Placed {
    pub box_no: u32,
    pub part: Part,
    pub area: BoxXY,
}

/// The crossings of some boxes; the pieces into which the boxes fall, in order; and of each box the number of its first
/// piece, and then the number of all.
#[derive(Drop)]
pub struct Pieces {
    pub crossings: Vec<Crossing>,
    pub placed: Vec<Placed>,
    pub starts: Vec<u32>,
}

/// The pieces of some boxes with these crossings. The only refusal is want of memory.
pub fn pieces_of(
    alloc: Global,
    boxes: &[MaskBox],
    crossings: Vec<Crossing>,
) -> Result<Pieces, AllocError>
    requires few { length boxes.now ≤ 2 ^ 20 }
    requires in_order { AreInOrder crossings.items }
    requires within { All (IsWithinDiffusion boxes.now) crossings.items }
    ensures crossings { IfOk result (λ pieces. pieces.crossings.items ≡ crossings.items) }
    ensures pieces { IfOk result
        (λ pieces. ArePieces boxes.now crossings.items pieces.placed.items pieces.starts.items) }
{
    let mut placed = Vec::with_capacity(alloc, boxes.len())?;
    let mut starts = Vec::with_capacity(alloc, boxes.len() + 1)?;
    let mut next = 0;
    starts.push(0)?;
    for k in 0..boxes.len() {
        let crossing = crossing_of(crossings.as_slice(), next, k as u32);
        add_pieces(boxes, k as u32, crossing, &mut placed)?;
        starts.push(placed.len() as u32)?;
        next += usize::from(crossing.is_some());
    }
    Ok(Pieces {
        crossings,
        placed,
        starts,
    })
}

// The crossing of a box, if it has one: where it has, it is the next one.
fn crossing_of(crossings: &[Crossing], next: usize, k: u32) -> Option<Crossing>
    requires in_order { AreInOrder crossings.now }
    requires cursor { IsCursor crossings.now next k }
    ensures crossed { is_some result ≡ is_crossed crossings.now k }
    ensures of_box { IfSome result (IsCrossingOf crossings.now k) }
    ensures cursor { IsCursor crossings.now (next + cond (is_some result) 1 0) (k + 1) }
{
    if next < crossings.len() && crossings[next].diffusion == k {
        Some(crossings[next])
    } else {
        None
    }
}

// Puts the pieces of a box after those of the boxes before it.
fn add_pieces(
    boxes: &[MaskBox],
    k: u32,
    crossing: Option<Crossing>,
    placed: &mut Vec<Placed>,
) -> Result<(), AllocError>
    requires in_range { k < length boxes.now }
    requires within { IfSome crossing (λ c. Encloses (area_at boxes.now k) c.channel (pos 0)) }
    ensures { OnOk result ((added : List Placed) × (placed.new.items ≡ placed.old.items ++ added)
        × AreOfBox boxes.now k crossing added) }
{
    let b = boxes[k as usize];
    match b.layer {
        MaskLayer::ND => match crossing {
            Some(c) => {
                placed.push(piece(k, Part::Low, low_area(&c, &b.area)))?;
                placed.push(piece(k, Part::High, high_area(&c, &b.area)))?;
            }
            None => placed.push(piece(k, Part::Whole, b.area))?,
        },
        MaskLayer::NP | MaskLayer::NM => placed.push(piece(k, Part::Whole, b.area))?,
        MaskLayer::NC | MaskLayer::NI | MaskLayer::NB => {}
    }
    Ok(())
}

fn piece(box_no: u32, part: Part, area: BoxXY) -> Placed
    ensures { result ≡ record { box_no = box_no; part = part; area = area } }
{
    Placed { box_no, part, area }
}

// The part of crossed diffusion before the channel.
fn low_area(c: &Crossing, area: &BoxXY) -> BoxXY
    requires { Encloses area.now c.now.channel (pos 0) }
    ensures piece { IsLowPiece c.now area.now result }
    ensures inside { Encloses area.now result (pos 0) }
{
    match c.axis {
        Axis::X => BoxXY {
            x: area.x,
            y: Span {
                lo: area.y.lo,
                hi: c.channel.y.lo,
            },
        },
        Axis::Y => BoxXY {
            x: Span {
                lo: area.x.lo,
                hi: c.channel.x.lo,
            },
            y: area.y,
        },
    }
}

// The part of crossed diffusion after the channel.
fn high_area(c: &Crossing, area: &BoxXY) -> BoxXY
    requires { Encloses area.now c.now.channel (pos 0) }
    ensures piece { IsHighPiece c.now area.now result }
    ensures inside { Encloses area.now result (pos 0) }
{
    match c.axis {
        Axis::X => BoxXY {
            x: area.x,
            y: Span {
                lo: c.channel.y.hi,
                hi: area.y.hi,
            },
        },
        Axis::Y => BoxXY {
            x: Span {
                lo: c.channel.x.hi,
                hi: area.x.hi,
            },
            y: area.y,
        },
    }
}
