//! The scan of a grid's borders: rows from the bottom, each from the left, and of an instance the right border before
//! the top one.

ghost use Rattle.std.specs.Prelude.{◌≡◌, ◌+◌, ◌^◌, ◌<◌, List, length, vec_len, IfOk};
ghost use Rattle.cell_model.specs.declared.cell.CellPort.{CellPort};
ghost use Rattle.plan_model.specs.Rows.{row_at};
ghost use Rattle.checked_cells.specs.Tables.{known_of, IsResolved};
ghost use Rattle.grid_plan.specs.{Numbered.ports_of_cells, Faults.{misfit_on_right, misfit_on_top, misfit_of}};
ghost use Rattle.grid_plan.specs.{Faults.{misfit_in_row, misfit_in}, Small.{AreRowsOf, IsInstanceOf, AreFewCells}};
ghost use Rattle.stick_text.specs.declared.fault.GridFault.TheVariants.{PortMismatch};

use crate::borders::Borders;
use checked_cells::Cells;
use lam_geom::Axis;
use lam_list::Seq;
use std::alloc::{AllocError, Global};
use stick_text::GridFault;

/// The borders of the cells in both directions.
#[derive(Drop)]
pub struct Scan {
    pub above: Borders,
    pub beside: Borders,
    ghost one_length: { vec_len above.before ≡ vec_len beside.before },
}

/// The fault of an instance on its right border, or on its top one.
fn mismatch(row: usize, col: usize, top: bool, index: u32) -> GridFault
    requires row { row < 2 ^ 32 }
    requires col { col < 2 ^ 32 }
    ensures { result ≡ PortMismatch row col top index }
{
    GridFault::PortMismatch {
        row: row as u32,
        col: col as u32,
        top,
        index,
    }
}

impl Scan {
    ghost use Rattle.grid_plan.specs.Scan.{IsScanOf, FindsMisfit};

    pub fn new(alloc: Global, cells: &Cells) -> Result<Scan, AllocError>
        requires resolved { IsResolved cells.now }
        ensures { IfOk result (IsScanOf (ports_of_cells (known_of cells.now))) }
    {
        Ok(Scan {
            above: Borders::new(alloc, cells, Axis::X)?,
            beside: Borders::new(alloc, cells, Axis::Y)?,
        })
    }

    /// The misfit on the right border of an instance.
    fn on_right(&mut self, rows: &[Seq<u32>], r: usize, c: usize) -> Option<GridFault>
        requires instance { IsInstanceOf (vec_len self.old.beside.before) rows.now r c }
        requires few { AreFewCells rows.now }
        ensures len { vec_len self.new.beside.before ≡ vec_len self.old.beside.before }
        ensures found { (ports : List (List CellPort)) → IsScanOf ports self.old
            → FindsMisfit ports (misfit_on_right ports rows.now r c) result self.new }
    {
        let row = rows[r].as_slice();
        if c + 1 == row.len() {
            return None;
        }
        let index = self.beside.misfit(row[c], row[c + 1])?;
        Some(mismatch(r, c, false, index))
    }

    /// The misfit on its top border.
    fn on_top(&mut self, rows: &[Seq<u32>], r: usize, c: usize) -> Option<GridFault>
        requires instance { IsInstanceOf (vec_len self.old.beside.before) rows.now r c }
        requires few { AreFewCells rows.now }
        ensures len { vec_len self.new.beside.before ≡ vec_len self.old.beside.before }
        ensures found { (ports : List (List CellPort)) → IsScanOf ports self.old
            → FindsMisfit ports (misfit_on_top ports rows.now r c) result self.new }
    {
        if r + 1 == rows.len() {
            return None;
        }
        let low = rows[r].as_slice();
        let high = rows[r + 1].as_slice();
        let index = self.above.misfit(low[c], high[c])?;
        Some(mismatch(r, c, true, index))
    }

    /// The first misfit of an instance.
    fn at(&mut self, rows: &[Seq<u32>], r: usize, c: usize) -> Option<GridFault>
        requires instance { IsInstanceOf (vec_len self.old.beside.before) rows.now r c }
        requires few { AreFewCells rows.now }
        ensures len { vec_len self.new.beside.before ≡ vec_len self.old.beside.before }
        ensures found { (ports : List (List CellPort)) → IsScanOf ports self.old
            → FindsMisfit ports (misfit_of ports rows.now r c) result self.new }
    {
        match self.on_right(rows, r, c) {
            Some(fault) => Some(fault),
            None => self.on_top(rows, r, c),
        }
    }

    /// The first misfit of a row.
    fn in_row(&mut self, rows: &[Seq<u32>], r: usize) -> Option<GridFault>
        requires rows { AreRowsOf (vec_len self.old.beside.before) rows.now }
        requires row { r < length rows.now }
        requires few { AreFewCells rows.now }
        ensures len { vec_len self.new.beside.before ≡ vec_len self.old.beside.before }
        ensures found { (ports : List (List CellPort)) → IsScanOf ports self.old
            → FindsMisfit ports (misfit_in_row ports rows.now r (row_at rows.now r)) result self.new }
    {
        for c in 0..rows[r].as_slice().len() {
            if let Some(fault) = self.at(rows, r, c) {
                return Some(fault);
            }
        }
        None
    }

    /// The first misfit of a grid.
    pub fn misfit(&mut self, rows: &[Seq<u32>]) -> Option<GridFault>
        requires rows { AreRowsOf (vec_len self.old.beside.before) rows.now }
        requires few { AreFewCells rows.now }
        ensures len { vec_len self.new.beside.before ≡ vec_len self.old.beside.before }
        ensures found { (ports : List (List CellPort)) → IsScanOf ports self.old
            → FindsMisfit ports (misfit_in ports rows.now) result self.new }
    {
        for r in 0..rows.len() {
            if let Some(fault) = self.in_row(rows, r) {
                return Some(fault);
            }
        }
        None
    }
}
