//! A design copied line by line, with the numbers that its lines have in its canonical text.
ghost use Rattle.std.specs.Prelude.{◌≡◌, ◌+◌, ◌^◌, ◌<◌, ◌≤◌, ◌++◌, length, slice_set, sum_by, IfOk, MatchBool};
ghost use Rattle.std.specs.Prelude.{MatchOption, OnOk, [], ◌∷◌};
ghost use Rattle.stick_print.specs.ReadBack.{lines_from, cells_from, line_after_cells, grids_from, laid_out};
ghost use Rattle.design_sizes.specs.Sizes.{lines_of_cell, lines_of_grid, lines_in};
ghost use Rattle.design_edits.specs.Cells.{cell_text_at};

use crate::forms::copy_form;
use lam_list::Seq;
use std::alloc::{AllocError, Global};
use stick_lex::Text;
use stick_text::{CellText, Design, GridText, Line, RowText};

const MOST_LINES: usize = 1 << 30;

// The lines of a cell, of which the first gets this number.
fn copy_lines(alloc: Global, first: u32, lines: &[Line]) -> Result<Seq<Line>, AllocError>
    requires { first + length lines.now < 2 ^ 32 }
    ensures { IfOk result (λ copy. copy ≡ lines_from first lines.now) }
{
    let mut copies = Vec::new(alloc);
    let mut number = first;
    for line in lines {
        let form = copy_form(alloc, &line.form)?;
        copies.push(Line { number, form })?;
        number += 1;
    }
    Ok(Seq::from_vec(copies))
}

// The cell with these lines, whose own line gets this number.
fn copy_cell(
    alloc: Global,
    number: u32,
    cell: &CellText,
    lines: &[Line],
) -> Result<CellText, AllocError>
    requires { number + length lines.now + 2 < 2 ^ 32 }
    ensures { IfOk result (λ copy. copy ∷ [] ≡ cells_from number (record cell.now { lines = lines.now } ∷ [])) }
{
    Ok(CellText {
        name: Text::new(alloc, cell.name.bytes())?,
        line: number,
        end_line: number + 1 + lines.len() as u32,
        lines: copy_lines(alloc, number + 1, lines)?,
    })
}

// Appends cells, of which the first gets this number, and tells the number of the line after them.
fn push_cells(
    alloc: Global,
    first: u32,
    cells: &[CellText],
    copies: &mut Vec<CellText>,
) -> Result<u32, AllocError>
    requires { first + sum_by lines_of_cell cells.now < 2 ^ 32 }
    ensures cells { OnOk result (copies.new.items ≡ copies.old.items ++ cells_from first cells.now) }
    ensures after { IfOk result (λ number. number ≡ line_after_cells first cells.now) }
    ensures lines { IfOk result (λ number. number ≡ first + sum_by lines_of_cell cells.now) }
{
    let mut number = first;
    for cell in cells {
        let lines = cell.lines.as_slice();
        copies.push(copy_cell(alloc, number, cell, lines)?)?;
        number += lines.len() as u32 + 2;
    }
    Ok(number)
}

fn copy_row(alloc: Global, row: &RowText) -> Result<RowText, AllocError>
    ensures { IfOk result (λ copy. copy ≡ row.now) }
{
    let mut names = Vec::new(alloc);
    for name in row.names.as_slice() {
        names.push(Text::new(alloc, name.bytes())?)?;
    }
    Ok(RowText {
        names: Seq::from_vec(names),
    })
}

fn copy_rows(alloc: Global, rows: &[RowText]) -> Result<Seq<RowText>, AllocError>
    ensures { IfOk result (λ copy. copy ≡ rows.now) }
{
    let mut copies = Vec::new(alloc);
    for row in rows {
        copies.push(copy_row(alloc, row)?)?;
    }
    Ok(Seq::from_vec(copies))
}

fn copy_name(alloc: Global, name: &Option<Text>) -> Result<Option<Text>, AllocError>
    ensures { IfOk result (λ copy. copy ≡ name.now) }
{
    match name {
        None => Ok(None),
        Some(name) => {
            let copy = Text::new(alloc, name.bytes())?;
            Ok(Some(copy))
        }
    }
}

fn copy_grid(alloc: Global, number: u32, grid: &GridText) -> Result<GridText, AllocError>
    ensures { IfOk result (λ copy. copy ∷ [] ≡ grids_from number (grid.now ∷ [])) }
{
    let name = copy_name(alloc, &grid.name)?;
    let rows = copy_rows(alloc, grid.rows.as_slice())?;
    Ok(GridText {
        name,
        line: number,
        rows,
    })
}

// Grids, of which the first gets this number.
fn copy_grids(alloc: Global, first: u32, grids: &[GridText]) -> Result<Seq<GridText>, AllocError>
    requires { first + sum_by lines_of_grid grids.now < 2 ^ 32 }
    ensures { IfOk result (λ copy. copy ≡ grids_from first grids.now) }
{
    let mut copies = Vec::new(alloc);
    let mut number = first;
    for grid in grids {
        copies.push(copy_grid(alloc, number, grid)?)?;
        number += grid.rows.as_slice().len() as u32 + 2;
    }
    Ok(Seq::from_vec(copies))
}

// What is left of so many lines without those of these cells, if they are no more.
fn without_cells(most: usize, cells: &[CellText]) -> Option<usize>
    ensures { MatchOption result (most < sum_by lines_of_cell cells.now)
        (λ left. left + sum_by lines_of_cell cells.now ≡ most) }
{
    let mut left = most;
    for cell in cells {
        let lines = cell.lines.as_slice().len() + 2;
        if left < lines {
            return None;
        }
        left -= lines;
    }
    Some(left)
}

// The same without those of these grids.
fn without_grids(most: usize, grids: &[GridText]) -> Option<usize>
    ensures { MatchOption result (most < sum_by lines_of_grid grids.now)
        (λ left. left + sum_by lines_of_grid grids.now ≡ most) }
{
    let mut left = most;
    for grid in grids {
        let lines = grid.rows.as_slice().len() + 2;
        if left < lines {
            return None;
        }
        left -= lines;
    }
    Some(left)
}

/// Whether the canonical text of a design has at most 2^30 lines, so that they can be numbered.
pub fn is_short(design: &Design) -> bool
    ensures { MatchBool result (lines_in design.now ≤ 2 ^ 30) (2 ^ 30 < lines_in design.now) }
{
    let Some(left) = without_cells(MOST_LINES - 1, design.cells.as_slice()) else {
        return false;
    };
    without_grids(left, design.grids.as_slice()).is_some()
}

/// The design with these lines in a cell, all lines numbered as in its canonical text. The only refusal is want of
/// memory.
pub fn with_lines(
    alloc: Global,
    design: &Design,
    number: usize,
    lines: &[Line],
) -> Result<Design, AllocError>
    requires within { number < length design.now.cells }
    requires few { lines_in design.now + length lines.now + 2 < 2 ^ 32 }
    ensures { IfOk result (λ new. new ≡ laid_out (record design.now {
      cells = slice_set design.now.cells number (record (cell_text_at design.now number) { lines = lines.now });
    })) }
{
    let cells = design.cells.as_slice();
    let mut copies = Vec::new(alloc);
    let first = push_cells(alloc, 2, &cells[..number], &mut copies)?;
    copies.push(copy_cell(alloc, first, &cells[number], lines)?)?;
    let first = first + lines.len() as u32 + 2;
    let first = push_cells(alloc, first, &cells[number + 1..], &mut copies)?;
    let grids = copy_grids(alloc, first, design.grids.as_slice())?;
    Ok(Design {
        version: design.version,
        cells: Seq::from_vec(copies),
        grids,
    })
}
