//! All boxes of a file.
ghost use Rattle.std.specs.Prelude.{◌≡◌, ◌+◌, ◌*◌, ◌-◌, ◌≤◌, ◌<◌, ◌^◌, ◌++◌, ◌↔◌, All, List, IfOk, IfErr, OnOk, length};
ghost use Rattle.std.specs.{Prelude.{IsTrue, map}, Int.{int_min, int_max}, List.filter};
ghost use Rattle.lam_geom.specs.Places.{IsPlacedBox};
ghost use Rattle.cif_lex.specs.Transformations.{IsNear, shift_of};
ghost use Rattle.cif_read.specs.{declared.fault.FlatFault.TheVariants.{TooMany, OutOfMemory}, Hierarchies.Drawn};
ghost use Rattle.cif_read.specs.Hierarchies.{placed_box, boxes_of_step, boxes_of_steps, boxes_of_symbols, flattened};
ghost use Rattle.cif_read.specs.{Hierarchies.depths_of, Files.{drawn_of, most_boxes, IsSolid, IsSolidWithin}};
ghost use Rattle.cif_read.specs.{Foreign.{foreign_step, foreign_symbol, IsForeignStep}, Readings.called_depth};
ghost use Rattle.cif_foreign.specs.Files.{hierarchy_of, CanBeFlattened};
ghost use Rattle.cif_foreign.specs.Counts.{counted, AreCounts, has_boxes, filled_file};

use cif_lex::Placement;
use cif_read::{FlatFault, ForeignFile, ForeignStep, ForeignSymbol, MOST_BOXES, MOST_DEPTH, Steps};
use lam_geom::{BoxXY, MaskBox, Span};
use lam_list::Seq;
use std::alloc::Global;

// Between two coordinates.
fn spanning(a: i64, b: i64) -> Span
    ensures low { result.lo ≡ int_min a b }
    ensures high { result.hi ≡ int_max a b }
{
    Span {
        lo: a.min(b),
        hi: a.max(b),
    }
}

// A box, turned and shifted.
fn placed(mask: MaskBox, place: Placement) -> MaskBox
    requires solid { IsSolidWithin (2 ^ 50) (drawn_of mask) }
    requires turn { place.turn < 8 }
    requires near { IsNear (2 ^ 54) (shift_of place) }
    ensures value { drawn_of result ≡ placed_box place (drawn_of mask) }
    ensures solid { IsSolidWithin (2 ^ 55) (drawn_of result) }
{
    let (left, bottom) = place.image(mask.area.x.lo, mask.area.y.lo);
    let (right, top) = place.image(mask.area.x.hi, mask.area.y.hi);
    MaskBox {
        layer: mask.layer,
        area: BoxXY {
            x: spanning(left, right),
            y: spanning(bottom, top),
        },
    }
}

// How many boxes a step has, and never more than one past the most, where those of each symbol are so many.
fn count_step(counts: &[usize], step: ForeignStep) -> usize
    requires step { IsForeignStep (length counts.now) step }
    requires few { All (λ count. count ≤ most_boxes + 1) counts.now }
    ensures value { (boxes : List (List Drawn)) → AreCounts counts.now boxes
        → result ≡ counted (boxes_of_step boxes (foreign_step step)) }
    ensures few { result ≤ most_boxes + 1 }
{
    match step {
        ForeignStep::Own(_) => 1,
        ForeignStep::Called { symbol, .. } => counts[symbol as usize],
    }
}

// The same for some steps.
fn count_steps(counts: &[usize], steps: &Steps) -> usize
    requires steps { All (IsForeignStep (length counts.now)) steps.now }
    requires few { All (λ count. count ≤ most_boxes + 1) counts.now }
    ensures value { (boxes : List (List Drawn)) → AreCounts counts.now boxes
        → result ≡ counted (boxes_of_steps boxes (map foreign_step steps.now)) }
    ensures few { result ≤ most_boxes + 1 }
{
    let mut total = 0;
    for i in 0..steps.len() {
        total = (total + count_step(counts, steps.get(i))).min(MOST_BOXES + 1);
    }
    total
}

// How many boxes each symbol has, and never more than one past the most: each symbol is counted once.
fn count_symbols(alloc: Global, file: &ForeignFile) -> Result<Vec<usize>, FlatFault>
    requires { CanBeFlattened file.now }
    ensures counts { IfOk result
        (λ counts. AreCounts counts.items (boxes_of_symbols (map foreign_symbol file.now.symbols))) }
    ensures few { IfOk result (λ counts. All (λ count. count ≤ most_boxes + 1) counts.items) }
    ensures all { IfOk result (λ counts. length counts.items ≡ length file.now.symbols) }
    ensures fault { IfErr result (λ fault. fault ≡ OutOfMemory) }
{
    let mut counts = Vec::with_capacity(alloc, file.symbols.as_slice().len())?;
    for symbol in file.symbols.as_slice() {
        let count = count_steps(&counts, &symbol.steps);
        counts.push(count)?;
    }
    Ok(counts)
}

// Whether a step has boxes, where the symbols have so many each.
fn has_boxes(counts: &[usize], step: ForeignStep) -> bool
    requires { IsForeignStep (length counts.now) step }
    ensures { result ≡ has_boxes counts.now step }
{
    match step {
        ForeignStep::Own(_) => true,
        ForeignStep::Called { symbol, .. } => counts[symbol as usize] > 0,
    }
}

// The steps that have boxes.
fn filled_steps(alloc: Global, counts: &[usize], steps: &Steps) -> Result<Steps, FlatFault>
    requires { All (IsForeignStep (length counts.now)) steps.now }
    ensures steps { IfOk result (λ filled. filled ≡ filter (has_boxes counts.now) steps.now) }
    ensures fault { IfErr result (λ fault. fault ≡ OutOfMemory) }
{
    let mut filled = Steps::new(alloc);
    for i in 0..steps.len() {
        let step = steps.get(i);
        if has_boxes(counts, step) {
            filled.push(step)?;
        }
    }
    Ok(filled)
}

// The file without the steps that have no boxes.
fn filled_file(
    alloc: Global,
    counts: &[usize],
    file: &ForeignFile,
) -> Result<ForeignFile, FlatFault>
    requires flat { CanBeFlattened file.now }
    requires all { length counts.now ≡ length file.now.symbols }
    ensures file { IfOk result (λ filled. filled ≡ filled_file counts.now file.now) }
    ensures fault { IfErr result (λ fault. fault ≡ OutOfMemory) }
{
    let mut symbols = Vec::with_capacity(alloc, file.symbols.as_slice().len())?;
    for symbol in file.symbols.as_slice() {
        let steps = filled_steps(alloc, counts, &symbol.steps)?;
        symbols.push(ForeignSymbol {
            number: symbol.number,
            steps,
        })?;
    }
    let top = filled_steps(alloc, counts, &file.top)?;
    Ok(ForeignFile {
        symbols: Seq::from_vec(symbols),
        top,
    })
}

// Adds the boxes of some steps, turned and shifted. The symbols that they call are at most so deep.
fn push_steps(
    out: &mut Vec<MaskBox>,
    file: &ForeignFile,
    steps: &Steps,
    place: Placement,
    depth: u8,
) -> Result<(), FlatFault>
    requires flat { CanBeFlattened file.now }
    requires steps { All (IsForeignStep (length file.now.symbols)) steps.now }
    requires deep { called_depth (depths_of (map foreign_symbol file.now.symbols)) (map foreign_step steps.now)
        ≤ depth }
    requires shallow { depth ≤ 64 }
    requires turn { place.turn < 8 }
    requires near { IsNear (2 ^ 47 * (64 - depth)) (shift_of place) }
    ensures boxes { OnOk result
        (map drawn_of out.new.items ≡ map drawn_of out.old.items
        ++ map (placed_box place)
        (boxes_of_steps (boxes_of_symbols (map foreign_symbol file.now.symbols)) (map foreign_step steps.now))) }
    ensures solid { OnOk result (All (IsSolidWithin (2 ^ 55)) (map drawn_of out.old.items)
        → All (IsSolidWithin (2 ^ 55)) (map drawn_of out.new.items)) }
    ensures fault { IfErr result (λ fault. fault ≡ OutOfMemory) }
{
    for i in 0..steps.len() {
        let step = steps.get(i);
        match step {
            ForeignStep::Own(mask) => out.push(placed(mask, place))?,
            ForeignStep::Called { symbol, turn, x, y } => {
                let steps = &file.symbols.as_slice()[symbol as usize].steps;
                let inner = place.after(Placement { turn, x, y });
                push_steps(out, file, steps, inner, depth - 1)?;
            }
        }
    }
    Ok(())
}

// Whether each symbol has boxes, where they have so many each. If so, each step has some.
fn are_filled(counts: &[usize]) -> bool
    ensures { IsTrue result ↔ All (λ count. 0 < count) counts.now }
{
    counts.iter().all(|count| *count > 0)
}

// The boxes of a file, with room at once for so many.
fn file_boxes(alloc: Global, file: &ForeignFile, room: usize) -> Result<Vec<MaskBox>, FlatFault>
    requires { CanBeFlattened file.now }
    ensures boxes { IfOk result (λ boxes. map drawn_of boxes.items ≡ flattened (hierarchy_of file.now)) }
    ensures solid { IfOk result (λ boxes. All (IsSolidWithin (2 ^ 55)) (map drawn_of boxes.items)) }
    ensures fault { IfErr result (λ fault. fault ≡ OutOfMemory) }
{
    let mut out = Vec::with_capacity(alloc, room)?;
    let still = Placement::still();
    push_steps(&mut out, file, &file.top, still, MOST_DEPTH)?;
    Ok(out)
}

// The same of a file whose symbols have so many boxes each. A symbol without boxes would be gone through once for each
// of its calls. So where there is one, the steps without boxes are left out, in a copy.
fn counted_boxes(
    alloc: Global,
    counts: &[usize],
    file: &ForeignFile,
    room: usize,
) -> Result<Vec<MaskBox>, FlatFault>
    requires flat { CanBeFlattened file.now }
    requires counted { AreCounts counts.now (boxes_of_symbols (map foreign_symbol file.now.symbols)) }
    requires all { length counts.now ≡ length file.now.symbols }
    ensures boxes { IfOk result (λ boxes. map drawn_of boxes.items ≡ flattened (hierarchy_of file.now)) }
    ensures solid { IfOk result (λ boxes. All (IsSolidWithin (2 ^ 55)) (map drawn_of boxes.items)) }
    ensures fault { IfErr result (λ fault. fault ≡ OutOfMemory) }
{
    if are_filled(counts) {
        return file_boxes(alloc, file, room);
    }
    let filled = filled_file(alloc, counts, file)?;
    file_boxes(alloc, &filled, room)
}

// The boxes of a file whose symbols have so many each. The test of their number takes no memory: `OutOfMemory` comes
// only where there are not too many. Where no call stands at the top, nothing is copied.
fn flatten_counted(
    alloc: Global,
    counts: &[usize],
    file: ForeignFile,
) -> Result<Vec<MaskBox>, FlatFault>
    requires flat { CanBeFlattened file }
    requires counted { AreCounts counts.now (boxes_of_symbols (map foreign_symbol file.symbols)) }
    requires few { All (λ count. count ≤ most_boxes + 1) counts.now }
    requires all { length counts.now ≡ length file.symbols }
    ensures boxes { IfOk result (λ boxes. map drawn_of boxes.items ≡ flattened (hierarchy_of file)) }
    ensures few { IfOk result (λ boxes. length boxes.items ≤ most_boxes) }
    ensures placed { IfOk result (λ boxes. All (λ box. IsPlacedBox box.area) boxes.items) }
    ensures solid { IfOk result (λ boxes. All IsSolid boxes.items) }
    ensures too_many { IfErr result
        (λ fault. (fault ≡ TooMany) ↔ (most_boxes < length (flattened (hierarchy_of file)))) }
{
    let total = count_steps(counts, &file.top);
    if total > MOST_BOXES {
        return Err(FlatFault::TooMany);
    }
    let ForeignFile { symbols, top } = file;
    match top.into_boxes() {
        Ok(boxes) => Ok(boxes),
        Err(top) => {
            let boxes = counted_boxes(alloc, counts, &ForeignFile { symbols, top }, total)?;
            Ok(boxes)
        }
    }
}

/// The boxes of the layers that are kept, in the order of the file, calls in place, in grains. `TooMany` comes
/// exactly where there are more than 1,048,576, if there is memory for the counts of the symbols. Linear in the steps
/// of the file and in the boxes, each of which stands at most 64 calls deep. A file without calls at the top gives the
/// boxes that it has, with nothing copied.
pub fn flatten_foreign(alloc: Global, file: ForeignFile) -> Result<Vec<MaskBox>, FlatFault>
    requires { CanBeFlattened file }
    ensures boxes { IfOk result (λ boxes. map drawn_of boxes.items ≡ flattened (hierarchy_of file)) }
    ensures few { IfOk result (λ boxes. length boxes.items ≤ most_boxes) }
    ensures placed { IfOk result (λ boxes. All (λ box. IsPlacedBox box.area) boxes.items) }
    ensures solid { IfOk result (λ boxes. All IsSolid boxes.items) }
    ensures too_many { IfErr result
        (λ fault. fault ≡ TooMany → most_boxes < length (flattened (hierarchy_of file))) }
{
    let counts = count_symbols(alloc, &file)?;
    flatten_counted(alloc, &counts, file)
}
