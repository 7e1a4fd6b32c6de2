//! The cells that grids name, by their numbers.

ghost use Rattle.std.specs.Prelude.{◌≡◌, ◌^◌, ◌<◌, length, map, OnOk, IfOk};
ghost use Rattle.checked_cells.specs.Tables.{known_of, IsResolved};
ghost use Rattle.grid_plan.specs.{Numbered.{numbers_in_row, numbers_in_grid}, Small.{AreFewRows, AreFewGrids}};

use checked_cells::Cells;
use lam_list::{Seq, check_count};
use std::alloc::{AllocError, Global};
use stick_text::{GridText, RowText};

/// The numbers of the cells in a row; 0 for a name of no cell.
fn number_row(alloc: Global, cells: &Cells, text: &RowText) -> Result<Seq<u32>, AllocError>
    requires { IsResolved cells.now }
    ensures numbers { IfOk result (λ numbers. numbers ≡ numbers_in_row (known_of cells.now) text.now) }
    ensures few { OnOk result (length text.now.names < 2 ^ 32) }
{
    let names = text.names.as_slice();
    check_count(names.len())?;
    let mut numbers = Vec::new(alloc);
    for col in 0..names.len() {
        let number = cells.find(names[col].bytes()).unwrap_or(0);
        numbers.push(number)?;
    }
    Ok(Seq::from_vec(numbers))
}

/// The numbers of the cells in a grid.
fn number_grid(alloc: Global, cells: &Cells, grid: &GridText) -> Result<Seq<Seq<u32>>, AllocError>
    requires { IsResolved cells.now }
    ensures numbers { IfOk result (λ numbers. numbers ≡ numbers_in_grid (known_of cells.now) grid.now) }
    ensures few { OnOk result (AreFewRows grid.now.rows) }
{
    let rows = grid.rows.as_slice();
    check_count(rows.len())?;
    let mut numbers = Vec::new(alloc);
    for row in 0..rows.len() {
        numbers.push(number_row(alloc, cells, &rows[row])?)?;
    }
    Ok(Seq::from_vec(numbers))
}

/// The numbers of the cells in all grids.
pub fn number_grids(
    alloc: Global,
    cells: &Cells,
    grids: &[GridText],
) -> Result<Vec<Seq<Seq<u32>>>, AllocError>
    requires { IsResolved cells.now }
    ensures numbers { IfOk result (λ numbers. numbers.items ≡ map (numbers_in_grid (known_of cells.now)) grids.now) }
    ensures few { OnOk result (AreFewGrids grids.now) }
{
    check_count(grids.len())?;
    let mut numbers = Vec::new(alloc);
    for grid in 0..grids.len() {
        numbers.push(number_grid(alloc, cells, &grids[grid])?)?;
    }
    Ok(numbers)
}
