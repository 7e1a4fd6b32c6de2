//! The checks on the names and sizes of a design.
ghost use Rattle.std.specs.Prelude.{◌≡◌, ◌≤◌, List, length, All, IfOk};
ghost use Rattle.stick_text.specs.{Reading.Gives, Writable.{IsCell, IsWritable}};
ghost use Rattle.cell_model.specs.Sound.{IsSound};
ghost use Rattle.checked_cells.specs.{CheckedCell.{CheckedCell, cell_of}, Lines.{known_cells, after_cell}};
ghost use Rattle.checked_cells.specs.{Grids.resolved_cells, Built.AreBuilt, Sides.HaveSides};
ghost use Rattle.checked_cells.specs.Tables.{AreTables, known_of, IsResolved};
ghost use Rattle.stick_cell.specs.{Resolving.TellsTable, Ready.{IsReady, AreReady}};

use crate::grids::check_grids;
use crate::reading::{read_cell, refused};
use crate::ready::{EarlyTable, ready_cells, take_ready};
use checked_cells::{Cells, Table, place_of};
use rule_table::Tech;
use std::alloc::{AllocError, Global};
use std::thread::Threads;
use stick_text::{CellText, Design, ParseFault as ResolveFault, StickKind};

/// The cells of a design, whose names and sizes meet the checks, line by line against the lines before; the names of
/// its grids are checked last.
///
/// A design that does not meet them is refused with its first fault: the line, and the kind, one of the sixth to the
/// twenty-first. Want of memory is `OutOfMemory`. Each cell is sound, also one that is too heavy to be inlined.
pub fn resolve<'a>(
    alloc: Global,
    design: &'a Design,
    tech: &Tech,
) -> Result<Cells<'a>, ResolveFault>
    requires { IsWritable design.now }
    ensures cells { Gives known_of result (resolved_cells tech.now design.now) }
    ensures number { IfOk result (λ cells. length (known_of cells) ≡ length design.now.cells) }
    ensures sound { IfOk result (λ cells. All (λ known. IsSound tech.now (cell_of known)) (known_of cells)) }
    ensures resolved { IfOk result IsResolved }
    ensures of { IfOk result (λ cells. (cells.tech ≡ tech.now) × (cells.design.now ≡ design.now)) }
{
    resolve_with(alloc, design, tech, &mut [])
}

/// The same as `resolve`, in so many shares: the cells that use no other are read first, in threads where these can be
/// made.
pub fn resolve_in_shares<'a, H: Threads + Sync>(
    rt: &H,
    alloc: Global,
    design: &'a Design,
    tech: &Tech,
    shares: u32,
) -> Result<Cells<'a>, ResolveFault>
    requires writable { IsWritable design.now }
    requires shares { (1 ≤ shares) × (shares ≤ 64) }
    ensures cells { Gives known_of result (resolved_cells tech.now design.now) }
    ensures number { IfOk result (λ cells. length (known_of cells) ≡ length design.now.cells) }
    ensures sound { IfOk result (λ cells. All (λ known. IsSound tech.now (cell_of known)) (known_of cells)) }
    ensures resolved { IfOk result IsResolved }
    ensures of { IfOk result (λ cells. (cells.tech ≡ tech.now) × (cells.design.now ≡ design.now)) }
{
    if shares == 1 {
        return resolve(alloc, design, tech);
    }
    match ready_cells(rt, alloc, tech, design.cells.as_slice(), shares) {
        Ok(mut ready) => resolve_with(alloc, design, tech, &mut ready),
        Err(AllocError) => Err(ResolveFault::OutOfMemory),
    }
}

// The cells of a design, of some of which the table is ready.
fn resolve_with<'a>(
    alloc: Global,
    design: &'a Design,
    tech: &Tech,
    ready: &mut [EarlyTable<'a>],
) -> Result<Cells<'a>, ResolveFault>
    requires writable { IsWritable design.now }
    requires ready { AreReady tech.now design.now.cells ready.old }
    ensures cells { Gives known_of result (resolved_cells tech.now design.now) }
    ensures number { IfOk result (λ cells. length (known_of cells) ≡ length design.now.cells) }
    ensures sound { IfOk result (λ cells. All (λ known. IsSound tech.now (cell_of known)) (known_of cells)) }
    ensures resolved { IfOk result IsResolved }
    ensures of { IfOk result (λ cells. (cells.tech ≡ tech.now) × (cells.design.now ≡ design.now)) }
{
    let cells = resolve_cells(alloc, design, tech, ready)?;
    check_grids(alloc, design.grids.as_slice())?;
    Ok(cells)
}

// The cells of a design, whose grids are not checked.
fn resolve_cells<'a>(
    alloc: Global,
    design: &'a Design,
    tech: &Tech,
    ready: &mut [EarlyTable<'a>],
) -> Result<Cells<'a>, ResolveFault>
    requires writable { IsWritable design.now }
    requires ready { AreReady tech.now design.now.cells ready.old }
    ensures cells { Gives known_of result (known_cells tech.now design.now.cells) }
    ensures number { IfOk result (λ cells. length (known_of cells) ≡ length design.now.cells) }
    ensures sound { IfOk result (λ cells. All (λ known. IsSound tech.now (cell_of known)) (known_of cells)) }
    ensures resolved { IfOk result IsResolved }
    ensures of { IfOk result (λ cells. (cells.tech ≡ tech.now) × (cells.design.now ≡ design.now)) }
{
    let mut tables = Vec::new(alloc);
    for text in design.cells.as_slice() {
        let made = take_ready(ready, tables.len());
        let table = resolve_cell(alloc, tech, tables.as_slice(), text, made)?;
        tables.push(table)?;
    }
    Ok(Cells {
        design,
        tech: *tech,
        tables,
    })
}

// The table of a cell, given those of the cells before it, and what is ready of it.
fn resolve_cell<'a>(
    alloc: Global,
    tech: &Tech,
    tables: &[Table<'a>],
    text: &'a CellText,
    ready: EarlyTable<'a>,
) -> Result<Table<'a>, ResolveFault>
    requires few { length tables.now ≤ 256 }
    requires is_cell { IsCell text.now }
    requires ready { IsReady tech.now text.now ready }
    ensures { (cells : List CheckedCell) → AreBuilt tech.now cells → AreTables cells tables.now
        → HaveSides cells tables.now → TellsTable cells result (after_cell tech.now cells text.now) }
{
    if place_of(tables, text.name.bytes()).is_some() {
        return Err(refused(text.line, StickKind::RepeatedName));
    }
    match ready {
        Some(read) => read,
        None => read_cell(alloc, tech, tables, text),
    }
}
