//! How many pieces each net has.
ghost use Rattle.std.specs.{Prelude.{◌≡◌, ◌+◌, ◌<◌, ◌^◌, All, IfOk, length, map}, List.range_with_len};
ghost use Rattle.lam_geom.specs.declared.boxes.MaskBox.{MaskBox as SomeBox};
ghost use Rattle.net_list.specs.Counts.{one_more, layer_in, counts_of};

use lam_geom::{MaskBox, MaskLayer};
use net_model::Piece;
use std::alloc::{AllocError, Global};

/// How many pieces a net has, by layer.
#[derive(Clone, Copy)]
pub struct PieceCounts {
    pub diffusion: usize,
    pub poly: usize,
    pub metal: usize,
}

// One piece more on a layer.
fn one_more(counts: PieceCounts, layer: MaskLayer) -> PieceCounts
    requires diffusion { counts.diffusion + 1 < 2 ^ 64 }
    requires poly { counts.poly + 1 < 2 ^ 64 }
    requires metal { counts.metal + 1 < 2 ^ 64 }
    ensures { result ≡ one_more counts layer }
{
    let mut more = counts;
    match layer {
        MaskLayer::ND => more.diffusion += 1,
        MaskLayer::NP => more.poly += 1,
        MaskLayer::NM => more.metal += 1,
        MaskLayer::NC | MaskLayer::NI | MaskLayer::NB => {}
    }
    more
}

/// The counts of each of so many nets, by the layer of each box. Linear in the pieces and nets. The only refusal is
/// want of memory.
pub fn counts_of(
    alloc: Global,
    nets: u32,
    pieces: &[Piece],
    layers: &[MaskLayer],
) -> Result<Vec<PieceCounts>, AllocError>
    requires { All (λ piece. piece.box_no < length layers.now) pieces.now }
    ensures { IfOk result
        (λ counts. counts.items ≡ map (counts_of (layer_in layers.now) pieces.now) (range_with_len 0 nets)) }
{
    let none = PieceCounts {
        diffusion: 0,
        poly: 0,
        metal: 0,
    };
    let mut counts = vec![in alloc; none; nets as usize]?;
    for piece in pieces {
        let net = piece.net as usize;
        if net < counts.len() {
            let layer = layers[piece.box_no as usize];
            counts[net] = one_more(counts[net], layer);
        }
    }
    Ok(counts)
}

/// The layer of each box. The only refusal is want of memory.
pub fn layers_of(alloc: Global, boxes: &[MaskBox]) -> Result<Vec<MaskLayer>, AllocError>
    ensures { IfOk result (λ layers. layers.items ≡ map (λ (b : SomeBox). b.layer) boxes.now) }
{
    boxes.iter().map(|b| b.layer).collect(alloc)
}
