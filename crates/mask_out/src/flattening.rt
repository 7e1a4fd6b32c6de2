//! All boxes of a picture.
ghost use Rattle.std.specs.Prelude.{◌≡◌, ◌^◌, ◌+ℤ◌, ◌++◌, All, map, OnOk, IfOk};
ghost use Rattle.lam_geom.specs.Places.{IsPlacedBox, IsPlacedSpan};
ghost use Rattle.mask_out.specs.Masks.{mask_of};
ghost use Rattle.mask_out.specs.Pictures.{drawing_of, shifted, flat_of, IsWithin, LiesWithin, CanBeFlattened};

use crate::drawing::{Call, Picture};
use lam_geom::{BoxXY, MaskBox, Span};
use std::alloc::{AllocError, Global};

// A span, shifted.
fn shifted_span(span: Span, by: i64) -> Span
    requires low { IsWithin (2 ^ 40) span.lo }
    requires high { IsWithin (2 ^ 40) span.hi }
    requires by { IsWithin (2 ^ 41) by }
    ensures low { result.lo ≡ by +ℤ span.lo }
    ensures high { result.hi ≡ by +ℤ span.hi }
    ensures placed { IsPlacedSpan result }
{
    Span {
        lo: by + span.lo,
        hi: by + span.hi,
    }
}

// A box, shifted as a call says.
fn shifted_box(call: Call, mask: &MaskBox) -> MaskBox
    requires x { IsWithin (2 ^ 41) call.x }
    requires y { IsWithin (2 ^ 41) call.y }
    requires within { LiesWithin (2 ^ 40) (mask_of mask.now) }
    ensures mask { mask_of result ≡ shifted call (mask_of mask.now) }
    ensures placed { IsPlacedBox result.area }
{
    let x = shifted_span(mask.area.x, call.x);
    let y = shifted_span(mask.area.y, call.y);
    MaskBox {
        layer: mask.layer,
        area: BoxXY { x, y },
    }
}

// Adds the boxes of a symbol, shifted as a call says.
fn push_called(boxes: &mut Vec<MaskBox>, call: Call, symbol: &[MaskBox]) -> Result<(), AllocError>
    requires x { IsWithin (2 ^ 41) call.x }
    requires y { IsWithin (2 ^ 41) call.y }
    requires within { All (LiesWithin (2 ^ 40)) (map mask_of symbol.now) }
    requires before { All (λ box. IsPlacedBox box.area) boxes.old.items }
    ensures placed { OnOk result (All (λ box. IsPlacedBox box.area) boxes.new.items) }
    ensures boxes { OnOk result
        (map mask_of boxes.new.items ≡ map mask_of boxes.old.items ++ map (shifted call) (map mask_of symbol.now)) }
{
    for mask in symbol {
        boxes.push(shifted_box(call, mask))?;
    }
    Ok(())
}

/// All boxes of a picture: call by call, those of the call's symbol, shifted. The only refusal is want of memory.
pub fn flat(alloc: Global, picture: &Picture) -> Result<Vec<MaskBox>, AllocError>
    requires { CanBeFlattened (map drawing_of picture.now.symbols) picture.now.calls }
    ensures placed { IfOk result (λ boxes. All (λ box. IsPlacedBox box.area) boxes.items) }
    ensures boxes { IfOk result
        (λ boxes. map mask_of boxes.items ≡ flat_of (map drawing_of picture.now.symbols) picture.now.calls) }
{
    let symbols = picture.symbols.as_slice();
    let mut boxes = Vec::new(alloc);
    for call in picture.calls.as_slice() {
        let symbol = &symbols[call.symbol as usize];
        push_called(&mut boxes, *call, symbol.boxes.as_slice())?;
    }
    Ok(boxes)
}
