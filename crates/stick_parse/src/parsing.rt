//! The parts of a text: its first line, its cells and its grids.
ghost use Rattle.std.specs.Prelude.{◌≡◌, ◌==◌, ◌⊎◌, ◌+◌, ◌^◌, ◌<◌, ◌≤◌, ℕ, Bool, [], ◌∷◌, length, vec_len, max, Ok};
ghost use Rattle.std.specs.Prelude.{MatchOption, IfOk, IfErr, OnOk};
ghost use Rattle.stick_text.specs.declared.fault.{ParseFault.TheVariants.Stick, StickKind.TheVariants.Unended};
ghost use Rattle.stick_text.specs.{Reading.{Gives, Fails}, Order.{AtHead, AfterCells, InCell, InGrid, AtEnd, nothing}};
ghost use Rattle.stick_text.specs.{Order.design_of, FirstFault.Tells, Writable.IsWritable};
ghost use Rattle.stick_parse.specs.Parts.{rest_at, with_cell_lines, with_version, with_cell, with_cells, with_grid};
ghost use Rattle.stick_parse.specs.{Parts.{with_grids, AreRowsOf, grids_alone}, LinesLeft.{left, last_of, BeginsWith}};

use crate::cursor::Lines;
use lam_io::Gate;
use lam_list::Seq;
use std::alloc::Global;
use std::thread::Threads;
use stick_lex::Text;
use stick_text::{
    CellText, Design, GridText, Line, ParseFault, RowText, Statement, StickFault, StickKind,
};

/// The greatest number of cells in a text.
const MOST_CELLS: usize = 256;

fn refused(line: u32, kind: StickKind) -> ParseFault
    ensures { result ≡ Stick (record { line = line; kind = kind }) }
{
    ParseFault::Stick(StickFault { line, kind })
}

/// The text ends where it may not.
fn unended(lines: &Lines) -> ParseFault
    ensures { result ≡ Stick (record { line = max 1 lines.now.number; kind = Unended }) }
{
    refused(lines.number.max(1), StickKind::Unended)
}

/// The next line that says something: its number and what it says. The text may not end in front of it.
fn next_line(lines: &mut Lines) -> Result<(u32, Statement), ParseFault>
    ensures line { IfOk result
        (λ line. left lines.old ≡ record { number = line.0; said = Ok line.1 } ∷ left lines.new) }
    ensures last { OnOk result (last_of lines.new ≡ last_of lines.old) }
    ensures shorter { OnOk result (length lines.new.said.items < length lines.old.said.items) }
    ensures fault { IfErr result (λ fault. BeginsWith fault (left lines.old)
        ⊎ ((left lines.old ≡ []) × (fault ≡ Stick (record { line = max 1 (last_of lines.old); kind = Unended })))) }
{
    match lines.next()? {
        Some(line) => Ok(line),
        None => Err(unended(lines)),
    }
}

/// The lines of a cell after its first line, and the number of its `end`.
fn cell_lines(alloc: Global, lines: &mut Lines) -> Result<(Seq<Line>, u32), ParseFault>
    ensures cell { IfOk result (λ cell. (named : Bool) (n : ℕ) → rest_at (InCell named n) lines.old
        ≡ with_cell_lines cell.0 cell.1 (rest_at (AfterCells named n) lines.new)) }
    ensures last { OnOk result (last_of lines.new ≡ last_of lines.old) }
    ensures shorter { OnOk result (length lines.new.said.items < length lines.old.said.items) }
    ensures fault { IfErr result (λ fault. (named : Bool) (n : ℕ) → Fails fault (rest_at (InCell named n) lines.old)) }
{
    let mut inner = Vec::new(alloc);
    'lines: loop {
        let (number, statement) = next_line(lines)?;
        match statement {
            Statement::Item(form) => inner.push(Line { number, form })?,
            Statement::End => return Ok((Seq::from_vec(inner), number)),
            _ => return Err(refused(number, StickKind::BadLine)),
        }
    }
}

/// The rows of a grid after its first line, up to its `end`.
fn grid_rows(alloc: Global, lines: &mut Lines) -> Result<Seq<RowText>, ParseFault>
    ensures rows { IfOk result (λ rows. AreRowsOf rows lines.old lines.new) }
    ensures last { OnOk result (last_of lines.new ≡ last_of lines.old) }
    ensures shorter { OnOk result (length lines.new.said.items < length lines.old.said.items) }
    ensures fault { IfErr result (λ fault. (named : Bool) → Fails fault (rest_at (InGrid named) lines.old)) }
{
    let mut rows = Vec::new(alloc);
    'lines: loop {
        let (number, statement) = next_line(lines)?;
        match statement {
            Statement::Row(row) => rows.push(row)?,
            Statement::End => return Ok(Seq::from_vec(rows)),
            _ => return Err(refused(number, StickKind::BadLine)),
        }
    }
}

/// Takes the cell after its first line into the cells.
fn take_cell(
    alloc: Global,
    lines: &mut Lines,
    line: u32,
    name: Text,
    cells: &mut Vec<CellText>,
) -> Result<(), ParseFault>
    ensures cell { OnOk result ((named : Bool) (n : ℕ)
        → with_cells cells.old.items (with_cell line name (rest_at (InCell named n) lines.old))
        ≡ with_cells cells.new.items (rest_at (AfterCells named n) lines.new)) }
    ensures longer { OnOk result (vec_len cells.new ≡ vec_len cells.old + 1) }
    ensures last { OnOk result (last_of lines.new ≡ last_of lines.old) }
    ensures shorter { OnOk result (length lines.new.said.items < length lines.old.said.items) }
    ensures fault { IfErr result (λ fault. (named : Bool) (n : ℕ) → Fails fault (rest_at (InCell named n) lines.old)) }
{
    let (inner, end_line) = cell_lines(alloc, lines)?;
    cells.push(CellText {
        name,
        line,
        end_line,
        lines: inner,
    })?;
    Ok(())
}

/// The cells of a text after its first line, and the number and the name of its first grid.
fn cells(
    alloc: Global,
    lines: &mut Lines,
    named: bool,
) -> Result<(Seq<CellText>, u32, Option<Text>), ParseFault>
    ensures cells { IfOk result (λ read. with_cells [] (rest_at (AfterCells named 0) lines.old)
        ≡ with_cells read.0 (with_grid read.1 read.2 (rest_at (InGrid named) lines.new))) }
    ensures last { OnOk result (last_of lines.new ≡ last_of lines.old) }
    ensures fault { IfErr result (λ fault. Fails fault (with_cells [] (rest_at (AfterCells named 0) lines.old))) }
{
    let mut cells = Vec::new(alloc);
    'lines: loop {
        let (number, statement) = next_line(lines)?;
        match statement {
            Statement::Cell(name) => {
                if cells.len() == MOST_CELLS {
                    return Err(refused(number, StickKind::TooManyCells));
                }
                take_cell(alloc, lines, number, name, &mut cells)?;
            }
            Statement::Grid(name) => {
                if name.is_some() != named {
                    return Err(refused(number, StickKind::BadLine));
                }
                return Ok((Seq::from_vec(cells), number, name));
            }
            _ => return Err(refused(number, StickKind::BadLine)),
        }
    }
}

/// Takes the grid after its first line into the grids.
fn take_grid(
    alloc: Global,
    lines: &mut Lines,
    line: u32,
    name: Option<Text>,
    grids: &mut Vec<GridText>,
) -> Result<(), ParseFault>
    ensures grid { OnOk result
        ((named : Bool) → with_grids grids.old.items (with_grid line name (rest_at (InGrid named) lines.old))
        ≡ with_grids grids.new.items (rest_at (AtEnd named) lines.new)) }
    ensures last { OnOk result (last_of lines.new ≡ last_of lines.old) }
    ensures shorter { OnOk result (length lines.new.said.items < length lines.old.said.items) }
    ensures fault { IfErr result (λ fault. (named : Bool) → Fails fault (rest_at (InGrid named) lines.old)) }
{
    let rows = grid_rows(alloc, lines)?;
    grids.push(GridText { name, line, rows })?;
    Ok(())
}

/// The number and the name of the next grid, unless the text ends in its place. Only named grids follow one another.
fn next_grid(lines: &mut Lines, named: bool) -> Result<Option<(u32, Option<Text>)>, ParseFault>
    ensures grid { IfOk result (λ grid. MatchOption grid (rest_at (AtEnd named) lines.old ≡ Ok nothing)
        (λ grid. (rest_at (AtEnd named) lines.old ≡ with_grid grid.0 grid.1 (rest_at (InGrid named) lines.new))
        × (last_of lines.new ≡ last_of lines.old) × (length lines.new.said.items < length lines.old.said.items))) }
    ensures fault { IfErr result (λ fault. Fails fault (rest_at (AtEnd named) lines.old)) }
{
    let Some((line, statement)) = lines.next()? else {
        return Ok(None);
    };
    let Statement::Grid(name) = statement else {
        return Err(refused(line, StickKind::BadLine));
    };
    if !named || name.is_none() {
        return Err(refused(line, StickKind::BadLine));
    }
    Ok(Some((line, name)))
}

/// The grids of a text after the first line of the first, with nothing after the `end` of the last. They have names, or
/// there is one.
fn grids(
    alloc: Global,
    lines: &mut Lines,
    named: bool,
    line: u32,
    name: Option<Text>,
) -> Result<Seq<GridText>, ParseFault>
    ensures grids { IfOk result
        (λ grids. with_grids [] (with_grid line name (rest_at (InGrid named) lines.old)) ≡ Ok (grids_alone grids)) }
    ensures fault { IfErr result
        (λ fault. Fails fault (with_grids [] (with_grid line name (rest_at (InGrid named) lines.old)))) }
{
    let mut grids = Vec::new(alloc);
    take_grid(alloc, lines, line, name, &mut grids)?;
    'lines: while let Some((line, name)) = next_grid(lines, named)? {
        take_grid(alloc, lines, line, name, &mut grids)?;
    }
    Ok(Seq::from_vec(grids))
}

/// The first line: the version of the text.
fn header(lines: &mut Lines) -> Result<u32, ParseFault>
    ensures rest { IfOk result
        (λ version. rest_at AtHead lines.old ≡ with_version version
        (rest_at (AfterCells (version == 2) 0) lines.new)) }
    ensures last { OnOk result (last_of lines.new ≡ last_of lines.old) }
    ensures fault { IfErr result (λ fault. Fails fault (rest_at AtHead lines.old)) }
{
    let (number, statement) = next_line(lines)?;
    match statement {
        Statement::Version(version) if version == 1 || version == 2 => Ok(version),
        _ => Err(refused(number, StickKind::BadLine)),
    }
}

fn design_of<H: Threads + Sync, G: Gate>(
    rt: &H,
    alloc: Global,
    gate: &G,
    text: &[u8],
    shares: u32,
) -> Result<Design, ParseFault>
    requires short { length text.now ≤ 2 ^ 20 }
    requires shares { (1 ≤ shares) × (shares ≤ 64) }
    ensures { Gives (λ design. design) result (design_of text.now) }
{
    let Ok(mut lines) = Lines::read(rt, alloc, gate, text, shares) else {
        return Err(ParseFault::OutOfMemory);
    };
    let version = header(&mut lines)?;
    let named = version == 2;
    let (cells, line, name) = cells(alloc, &mut lines, named)?;
    let grids = grids(alloc, &mut lines, named, line, name)?;
    Ok(Design {
        version,
        cells,
        grids,
    })
}

/// The design that a stick text says.
///
/// A text without one is refused with its first fault: the first line that breaks the language, counted from 1, and
/// the kind, one of the first five. Want of memory is `OutOfMemory`. The lines are read in so many shares.
/// It costs time linear in the text.
pub fn parse<H: Threads + Sync, G: Gate>(
    rt: &H,
    alloc: Global,
    gate: &G,
    text: &[u8],
    shares: u32,
) -> Result<Design, ParseFault>
    requires short { length text.now ≤ 2 ^ 20 }
    requires shares { (1 ≤ shares) × (shares ≤ 64) }
    ensures design { Gives (λ design. design) result (design_of text.now) }

    // The design has the lines of the text, and the fault is the text's first.
    ensures says { Tells text.now result }

    // A design that is read can be printed and read again.
    ensures writable { IfOk result IsWritable }
{
    design_of(rt, alloc, gate, text, shares)
}
