//! From a text of the plain dialect to what it draws.
ghost use Rattle.std.specs.Prelude.{◌≡◌, ◌^◌, ◌≤◌, IfOk, IfErr, ◌∷◌, [], length, map};
ghost use Rattle.cif_read.specs.Meaning.{Means};
ghost use Rattle.cif_read.specs.Files.{hierarchy_of, NamesInOrder, CanBeFlattened, IsCauseOf, IsNotTooDeep};
ghost use Rattle.cif_read.specs.Narrow.{own_box, own_boxes, plain_symbol, plain_order, plain_file};

use crate::dialect::Dialect;
use crate::fault::CifReadFault;
use crate::file::{CifFile, CifStep, CifSymbol, ForeignFile, ForeignStep, ForeignSymbol};
use crate::reading::read;
use crate::steps::Steps;
use lam_geom::MaskBox;
use lam_list::Seq;
use std::alloc::{AllocError, Global};

// The boxes among some steps.
fn own_boxes(alloc: Global, steps: &Steps) -> Result<Vec<MaskBox>, AllocError>
    ensures { IfOk result (λ boxes. boxes.items ≡ own_boxes steps.now) }
{
    let mut boxes = Vec::new(alloc);
    for i in 0..steps.len() {
        match steps.get(i) {
            ForeignStep::Own(mask) => boxes.push(mask)?,
            ForeignStep::Called { .. } => {}
        }
    }
    Ok(boxes)
}

// Symbols, of their boxes alone.
fn plain_symbols(alloc: Global, symbols: &[ForeignSymbol]) -> Result<Vec<CifSymbol>, AllocError>
    ensures { IfOk result (λ plain. plain.items ≡ map plain_symbol symbols.now) }
{
    let mut plain = Vec::new(alloc);
    for symbol in symbols {
        let boxes = own_boxes(alloc, &symbol.steps)?;
        plain.push(CifSymbol {
            number: symbol.number,
            boxes: Seq::from_vec(boxes),
        })?;
    }
    Ok(plain)
}

// A step, of which a box has this position.
fn plain_step(step: ForeignStep, at: u32) -> CifStep
    ensures { plain_order at (step ∷ []) ≡ result ∷ [] }
{
    match step {
        ForeignStep::Own(_) => CifStep::Own(at),
        ForeignStep::Called { symbol, x, y, .. } => CifStep::Called { symbol, x, y },
    }
}

// How many boxes a step is.
fn own_count(step: ForeignStep) -> u32
    ensures value { result ≡ length (own_box step) }
    ensures one { result ≤ 1 }
{
    match step {
        ForeignStep::Own(_) => 1,
        ForeignStep::Called { .. } => 0,
    }
}

// Boxes by their positions, and calls by their shifts.
fn plain_order(alloc: Global, steps: &Steps) -> Result<Vec<CifStep>, AllocError>
    requires { length steps.now ≤ 2 ^ 26 }
    ensures { IfOk result (λ order. order.items ≡ plain_order 0 steps.now) }
{
    let mut order = Vec::new(alloc);
    let mut boxes = 0;
    for i in 0..steps.len() {
        let step = steps.get(i);
        order.push(plain_step(step, boxes))?;
        boxes += own_count(step);
    }
    Ok(order)
}

// A file of the plain dialect.
fn plain_file(alloc: Global, file: &ForeignFile) -> Result<CifFile, AllocError>
    requires { length file.now.top ≤ 2 ^ 26 }
    ensures { IfOk result (λ plain. plain ≡ plain_file file.now) }
{
    let symbols = plain_symbols(alloc, file.symbols.as_slice())?;
    let boxes = own_boxes(alloc, &file.top)?;
    let order = plain_order(alloc, &file.top)?;
    Ok(CifFile {
        symbols: Seq::from_vec(symbols),
        boxes: Seq::from_vec(boxes),
        order: Seq::from_vec(order),
    })
}

/// What a text draws, or its first fault. Linear in the text and in the calls times the logarithm of the symbols.
pub fn read_cif(alloc: Global, bytes: &[u8]) -> Result<CifFile, CifReadFault>
    requires few { length bytes.now ≤ 2 ^ 26 }
    ensures means { IfOk result (λ file. Means bytes.now (hierarchy_of file)) }
    ensures named { IfOk result (λ file. NamesInOrder file.order (length file.boxes)) }
    ensures flat { IfOk result CanBeFlattened }
    ensures fault { IfErr result (IsCauseOf bytes.now) }
    ensures shallow { IfErr result IsNotTooDeep }
{
    let file = read(alloc, Dialect::Plain, bytes)?;
    match plain_file(alloc, &file) {
        Ok(plain) => Ok(plain),
        Err(_) => Err(CifReadFault::OutOfMemory),
    }
}
