//! The first fault of the grids. Nothing here takes memory.

ghost use Rattle.std.specs.Prelude.{◌≡◌, ◌^◌, ◌<◌, length, map};
ghost use Rattle.checked_cells.specs.Tables.{known_of, IsResolved};
ghost use Rattle.grid_plan.specs.{Numbered.{numbers_in_grid, ports_of_cells}, Faults.{unknown_in_row, unknown_in}};
ghost use Rattle.grid_plan.specs.{Faults.{ragged_in, grid_fault, plan_fault, judged}, Scan.IsScanOf, Small.AreFewRows};
ghost use Rattle.grid_plan.specs.Small.{AreFewGrids};

use crate::fault::PlanFault;
use crate::scan::Scan;
use checked_cells::Cells;
use lam_list::Seq;
use stick_text::{GridFault, GridText, RowText};

/// The first name of a row that is of no cell.
fn unknown_in_row(cells: &Cells, row: u32, text: &RowText) -> Option<GridFault>
    requires resolved { IsResolved cells.now }
    requires few { length text.now.names < 2 ^ 32 }
    ensures { result ≡ unknown_in_row (known_of cells.now) row text.now }
{
    let names = text.names.as_slice();
    for col in 0..names.len() {
        if cells.find(names[col].bytes()).is_none() {
            let col = col as u32;
            return Some(GridFault::UnknownCell { row, col });
        }
    }
    None
}

/// The first name of some rows that is of no cell.
fn unknown_in(cells: &Cells, rows: &[RowText]) -> Option<GridFault>
    requires resolved { IsResolved cells.now }
    requires few { AreFewRows rows.now }
    ensures { result ≡ unknown_in (known_of cells.now) rows.now }
{
    for row in 0..rows.len() {
        if let Some(fault) = unknown_in_row(cells, row as u32, &rows[row]) {
            return Some(fault);
        }
    }
    None
}

/// The first row that is not as long as the first.
fn ragged(rows: &[RowText]) -> Option<GridFault>
    requires some_rows { 0 < length rows.now }
    requires few { length rows.now < 2 ^ 32 }
    ensures { result ≡ ragged_in rows.now }
{
    let columns = rows[0].names.as_slice().len();
    for row in 0..rows.len() {
        if rows[row].names.as_slice().len() != columns {
            let row = row as u32;
            return Some(GridFault::RaggedRow { row });
        }
    }
    None
}

/// The first fault of a grid, given the numbers of its cells.
fn fault_in(
    cells: &Cells,
    scan: &mut Scan,
    grid: &GridText,
    numbers: &[Seq<u32>],
) -> Option<GridFault>
    requires resolved { IsResolved cells.now }
    requires scan { IsScanOf (ports_of_cells (known_of cells.now)) scan.old }
    requires numbers { numbers.now ≡ numbers_in_grid (known_of cells.now) grid.now }
    requires few { AreFewRows grid.now.rows }
    ensures scan { IsScanOf (ports_of_cells (known_of cells.now)) scan.new }
    ensures fault { result ≡ grid_fault (known_of cells.now) grid.now }
{
    let rows = grid.rows.as_slice();
    if rows.is_empty() {
        return Some(GridFault::Empty);
    }
    if let Some(fault) = unknown_in(cells, rows) {
        return Some(fault);
    }
    if let Some(fault) = ragged(rows) {
        return Some(fault);
    }
    scan.misfit(numbers)
}

/// Refuses grids that have a fault, with the first one, given the numbers of their cells.
#[tactic(auto, unfolding(crate::specs::Faults::plan_fault))]
pub fn check_grids(
    cells: &Cells,
    scan: &mut Scan,
    grids: &[GridText],
    numbers: &[Seq<Seq<u32>>],
) -> Result<(), PlanFault>
    requires resolved { IsResolved cells.now }
    requires scan { IsScanOf (ports_of_cells (known_of cells.now)) scan.old }
    requires numbers { numbers.now ≡ map (numbers_in_grid (known_of cells.now)) grids.now }
    requires few { AreFewGrids grids.now }
    ensures scan { IsScanOf (ports_of_cells (known_of cells.now)) scan.new }
    ensures judged { result ≡ judged (plan_fault (known_of cells.now) grids.now) }
{
    for grid in 0..grids.len() {
        if let Some(fault) = fault_in(cells, scan, &grids[grid], numbers[grid].as_slice()) {
            let grid = grid as u32;
            return Err(PlanFault::Grid { grid, fault });
        }
    }
    Ok(())
}
