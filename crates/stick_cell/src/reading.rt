//! The table of one cell, whose name is new.
ghost use Rattle.std.specs.Prelude.{◌≡◌, ◌≤◌, List, length, MatchResult, Ok, IsTrue};
ghost use Rattle.stick_text.specs.{declared.fault.ParseFault.TheVariants.Stick, Reading.Fails, Writable.IsCell};
ghost use Rattle.checked_cells.specs.{CheckedCell.{CheckedCell, begun}, Lines.{after_lines, after_cell, is_new_cell}};
ghost use Rattle.checked_cells.specs.{Built.AreBuilt, Tables.AreTables, Sides.{HaveSides, side_entries, AreSidesOf}};
ghost use Rattle.stick_cell.specs.{Resolving.{fault_at_line, GrowsTo, TellsTable}, CellBuilder.IsCellBuilder};

use crate::builder::CellBuilder;
use checked_cells::Table;
use rule_table::Tech;
use std::alloc::Global;
use stick_text::{CellText, LineFault, ParseFault as ResolveFault, StickFault, StickKind};

/// The table of a cell whose name is new, given those of the cells before it.
pub fn read_cell<'a>(
    alloc: Global,
    tech: &Tech,
    tables: &[Table<'a>],
    text: &'a CellText,
) -> Result<Table<'a>, ResolveFault>
    requires few { length tables.now ≤ 256 }
    requires is_cell { IsCell text.now }
    ensures { (cells : List CheckedCell) → AreBuilt tech.now cells → AreTables cells tables.now
        → HaveSides cells tables.now → IsTrue (is_new_cell cells text.now.name)
        → TellsTable cells result (after_cell tech.now cells text.now) }
{
    let lines = text.lines.as_slice().len();
    let mut builder = CellBuilder::new(alloc, text.name.bytes(), lines);
    read_lines(tech, tables, &mut builder, text)?;
    if !builder.is_wired() {
        return Err(refused(text.end_line, StickKind::PortWires));
    }
    Ok(builder.finish())
}

/// Reads the lines of a cell, before the first of which this is what is kept of it.
fn read_lines<'a>(
    tech: &Tech,
    tables: &[Table<'a>],
    builder: &mut CellBuilder<'a>,
    text: &'a CellText,
) -> Result<(), ResolveFault>
    requires few { length tables.now ≤ 256 }
    requires is_cell { IsCell text.now }
    ensures { (cells : List CheckedCell) → AreBuilt tech.now cells → AreTables cells tables.now
        → HaveSides cells tables.now
        → IsCellBuilder cells (begun text.now.name) builder.old
        → AreSidesOf cells (begun text.now.name) (side_entries builder.old.table.sides)
        → MatchResult result
        (λ _. GrowsTo cells (Ok builder.new) (after_lines tech.now cells (begun text.now.name) text.now.lines))
        (λ fault. Fails fault (after_lines tech.now cells (begun text.now.name) text.now.lines)) }
{
    for line in text.lines.as_slice() {
        match builder.line(tech, tables, &line.form) {
            Ok(()) => {}
            Err(fault) => return Err(at_line(line.number, fault)),
        }
    }
    Ok(())
}

/// The fault of a line, with the line's number.
fn at_line(line: u32, fault: LineFault) -> ResolveFault
    ensures { result ≡ fault_at_line line fault }
{
    match fault {
        LineFault::Kind(kind) => refused(line, kind),
        LineFault::OutOfMemory => ResolveFault::OutOfMemory,
    }
}

/// A fault of this kind at a line.
pub fn refused(line: u32, kind: StickKind) -> ResolveFault
    ensures { result ≡ Stick (record { line = line; kind = kind }) }
{
    ResolveFault::Stick(StickFault { line, kind })
}
