//! The entries of the boxes of metal, and of pieces, by their areas and by the areas of their boxes.
ghost use Rattle.std.specs.Prelude.{IfOk};
ghost use Rattle.crossing_model.specs.Boxes.{AreSearchable};
ghost use Rattle.net_extract.specs.Entries.{AreMetalBoxes, ArePieceEntries, AreBoxEntries};
ghost use Rattle.net_extract.specs.Grounds.{IsGround, placed_on};

use crate::ground::Ground;
use box_pieces::Placed;
use box_tree::Entry;
use lam_geom::{MaskBox, MaskLayer};
use std::alloc::{AllocError, Global};

/// The boxes of metal as entries, in order of their numbers, which are their owners and their tags. The only refusal is
/// want of memory.
pub fn metal_entries(alloc: Global, boxes: &[MaskBox]) -> Result<Vec<Entry>, AllocError>
    requires { AreSearchable boxes.now }
    ensures { IfOk result (λ entries. AreMetalBoxes boxes.now entries.items) }
{
    let mut entries = Vec::new(alloc);
    for number in 0..boxes.len() {
        let own = boxes[number];
        if own.layer == MaskLayer::NM {
            let owner = number as u32;
            entries.push(Entry {
                area: own.area,
                owner,
                tag: owner,
            })?;
        }
    }
    Ok(entries)
}

/// The entries of the pieces on a layer. The only refusal is want of memory.
pub fn piece_entries(
    alloc: Global,
    ground: &Ground,
    layer: MaskLayer,
) -> Result<Vec<Entry>, AllocError>
    requires { IsGround ground.now }
    ensures { IfOk result (λ entries. ArePieceEntries ground.now.boxes.now (placed_on ground.now) layer entries.items) }
{
    let Ground { boxes, pieces, .. } = *ground;
    let mut entries = Vec::new(alloc);
    for a in 0..pieces.placed.len() {
        let Placed { box_no, area, .. } = pieces.placed[a];
        if boxes[box_no as usize].layer == layer {
            let tag = a as u32;
            entries.push(Entry {
                area,
                owner: box_no,
                tag,
            })?;
        }
    }
    Ok(entries)
}

/// The entries of the pieces on a layer by the areas of their boxes, if the technology has buried contacts, and
/// otherwise none. The only refusal is want of memory.
pub fn box_entries(
    alloc: Global,
    ground: &Ground,
    layer: MaskLayer,
) -> Result<Vec<Entry>, AllocError>
    requires { IsGround ground.now }
    ensures { IfOk result (λ entries.
        AreBoxEntries ground.now.tech.now ground.now.boxes.now (placed_on ground.now) layer entries.items) }
{
    let Ground { boxes, pieces, .. } = *ground;
    let mut entries = Vec::new(alloc);
    if !ground.tech.has_buried() {
        return Ok(entries);
    }
    for a in 0..pieces.placed.len() {
        let owner = pieces.placed[a].box_no;
        let own = boxes[owner as usize];
        if own.layer == layer {
            let tag = a as u32;
            entries.push(Entry {
                area: own.area,
                owner,
                tag,
            })?;
        }
    }
    Ok(entries)
}
