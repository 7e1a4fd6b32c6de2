//! All boxes of a file.
ghost use Rattle.std.specs.Prelude.{◌≡◌, ◌≤◌, ◌<◌, ◌^◌, ◌+ℤ◌, ◌++◌, ◌↔◌, All, IfOk, IfErr, OnOk, IfSome, IfNone};
ghost use Rattle.std.specs.Prelude.{length, map};
ghost use Rattle.lam_geom.specs.Places.{IsPlacedBox};
ghost use Rattle.cif_read.specs.{Hierarchies.{flattened, moved}, Files.{hierarchy_of, drawn_of, drawn_in_step}};
ghost use Rattle.cif_read.specs.Files.{most_boxes, CanBeFlattened, IsSolid, IsSolidWithin, IsStepOf, IsWithin};
ghost use Rattle.cif_read.specs.declared.fault.FlatFault.TheVariants.{TooMany, OutOfMemory};

use crate::fault::FlatFault;
use crate::file::{CifFile, CifStep};
use lam_geom::{BoxXY, MaskBox, Span};
use std::alloc::Global;

/// The most boxes of a flattened file.
pub const MOST_BOXES: usize = 1_048_576;

// A span, so far along its axis.
fn moved_span(span: Span, shift: i64) -> Span
    requires low { IsWithin (2 ^ 50) span.lo }
    requires high { IsWithin (2 ^ 50) span.hi }
    requires shift { IsWithin (2 ^ 31) shift }
    ensures low { result.lo ≡ span.lo +ℤ shift }
    ensures high { result.hi ≡ span.hi +ℤ shift }
{
    Span {
        lo: span.lo + shift,
        hi: span.hi + shift,
    }
}

// A box, so far to the right and so far up.
fn moved(mask: MaskBox, x: i64, y: i64) -> MaskBox
    requires solid { IsSolidWithin (2 ^ 50) (drawn_of mask) }
    requires across { IsWithin (2 ^ 31) x }
    requires up { IsWithin (2 ^ 31) y }
    ensures value { drawn_of result ≡ moved x y (drawn_of mask) }
    ensures solid { IsSolidWithin (2 ^ 51) (drawn_of result) }
{
    MaskBox {
        layer: mask.layer,
        area: BoxXY {
            x: moved_span(mask.area.x, x),
            y: moved_span(mask.area.y, y),
        },
    }
}

// How many boxes a step has.
fn boxes_of_step(file: &CifFile, step: CifStep) -> usize
    requires flat { CanBeFlattened file.now }
    requires step { IsStepOf (length file.now.symbols) (length file.now.boxes) step }
    ensures value { result ≡ length (drawn_in_step file.now step) }
    ensures few { result ≤ 2 ^ 26 }
{
    match step {
        CifStep::Own(_) => 1,
        CifStep::Called { symbol, .. } => {
            file.symbols.as_slice()[symbol as usize]
                .boxes
                .as_slice()
                .len()
        }
    }
}

// How many boxes a file has, if they are not too many.
fn count(file: &CifFile) -> Option<usize>
    requires { CanBeFlattened file.now }
    ensures count { IfSome result (λ n. (n ≡ length (flattened (hierarchy_of file.now))) × (n ≤ most_boxes)) }
    ensures too_many { IfNone result (most_boxes < length (flattened (hierarchy_of file.now))) }
{
    let mut total = 0;
    for step in file.order.as_slice() {
        total += boxes_of_step(file, *step);
        if total > MOST_BOXES {
            return None;
        }
    }
    Some(total)
}

// Adds some boxes, each so far to the right and so far up.
fn push_moved(out: &mut Vec<MaskBox>, boxes: &[MaskBox], x: i64, y: i64) -> Result<(), FlatFault>
    requires solid { All (IsSolidWithin (2 ^ 50)) (map drawn_of boxes.now) }
    requires across { IsWithin (2 ^ 31) x }
    requires up { IsWithin (2 ^ 31) y }
    ensures boxes { OnOk result
        (map drawn_of out.new.items ≡ map drawn_of out.old.items ++ map (moved x y) (map drawn_of boxes.now)) }
    ensures solid { OnOk result (All (IsSolidWithin (2 ^ 51)) (map drawn_of out.old.items)
        → All (IsSolidWithin (2 ^ 51)) (map drawn_of out.new.items)) }
    ensures fault { IfErr result (λ fault. fault ≡ OutOfMemory) }
{
    for mask in boxes {
        out.push(moved(*mask, x, y))?;
    }
    Ok(())
}

// Adds the boxes of a step.
fn push_step(out: &mut Vec<MaskBox>, file: &CifFile, step: CifStep) -> Result<(), FlatFault>
    requires flat { CanBeFlattened file.now }
    requires step { IsStepOf (length file.now.symbols) (length file.now.boxes) step }
    ensures boxes { OnOk result
        (map drawn_of out.new.items ≡ map drawn_of out.old.items ++ drawn_in_step file.now step) }
    ensures solid { OnOk result (All (IsSolidWithin (2 ^ 51)) (map drawn_of out.old.items)
        → All (IsSolidWithin (2 ^ 51)) (map drawn_of out.new.items)) }
    ensures fault { IfErr result (λ fault. fault ≡ OutOfMemory) }
{
    match step {
        CifStep::Own(at) => {
            out.push(file.boxes.as_slice()[at as usize])?;
            Ok(())
        }
        CifStep::Called { symbol, x, y } => {
            let boxes = file.symbols.as_slice()[symbol as usize].boxes.as_slice();
            push_moved(out, boxes, x, y)
        }
    }
}

/// The boxes of the layers that are kept, in the order of the file, calls in place, in grains. `TooMany` comes
/// exactly where there are more than 1,048,576: counting takes no memory. Linear in the steps and the boxes.
pub fn flatten(alloc: Global, file: &CifFile) -> Result<Vec<MaskBox>, FlatFault>
    requires { CanBeFlattened file.now }
    ensures boxes { IfOk result (λ boxes. map drawn_of boxes.items ≡ flattened (hierarchy_of file.now)) }
    ensures few { IfOk result (λ boxes. length boxes.items ≤ most_boxes) }
    ensures placed { IfOk result (λ boxes. All (λ box. IsPlacedBox box.area) boxes.items) }
    ensures solid { IfOk result (λ boxes. All IsSolid boxes.items) }
    ensures too_many { IfErr result
        (λ fault. (fault ≡ TooMany) ↔ (most_boxes < length (flattened (hierarchy_of file.now)))) }
{
    let Some(total) = count(file) else {
        return Err(FlatFault::TooMany);
    };
    let mut out = Vec::with_capacity(alloc, total)?;
    for step in file.order.as_slice() {
        push_step(&mut out, file, *step)?;
    }
    Ok(out)
}
