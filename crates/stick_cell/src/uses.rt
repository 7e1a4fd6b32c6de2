//! The uses of a cell.
ghost use Rattle.std.specs.Prelude.{◌≡◌, ◌+◌, ◌<◌, ◌≤◌, ◌==◌, max, if◌then◌else◌, List, length, IsTrue, IfOk, OnOk};
ghost use Rattle.checked_cells.specs.{Checks.{is_fresh, is_place}, NameEntries.entries_of, CheckedCell.CheckedCell};
ghost use Rattle.checked_cells.specs.{CheckedCell.{known_at, with_copy}, Lines.after_use, Tables.IsTableOf};
ghost use Rattle.checked_cells.specs.Tables.{AreTables};
ghost use Rattle.stick_cell.specs.CellBuilder.{IsCellBuilder, Grows, usable};

use crate::builder::CellBuilder;
use crate::counts::capped_sum;
use checked_cells::{Binding, Copied, MOST_PLACE, Step, Table, place_of};
use std::alloc::AllocError;
use stick_text::{LineFault, StickKind};

/// The greatest depth of uses.
const MOST_DEEP: u32 = 16;

/// Whether a column or a row, shifted, is not too far out.
fn is_near(place: u32, shift: u32) -> bool
    ensures { result ≡ is_place (shift + place) }
{
    u64::from(shift) + u64::from(place) <= u64::from(MOST_PLACE)
}

/// Refuses the use of a cell that has ports or is too deep, and of one whose nodes would lie too far out.
#[tactic(auto, unfolding(crate::specs::CellBuilder::usable))]
fn check_use(used: &Table, col: u32, row: u32) -> Result<(), StickKind>
    ensures usable { result ≡ usable (length used.now.ports.items == 0) used.now.depth (col + used.now.most_col)
        (row + used.now.most_row) }
    ensures shallow { IfOk result (λ passed. used.now.depth < 16) }
    ensures near_col { IfOk result (λ passed. col + used.now.most_col ≤ 4095) }
    ensures near_row { IfOk result (λ passed. row + used.now.most_row ≤ 4095) }
{
    if !used.ports.is_empty() {
        return Err(StickKind::UsedPorts);
    }
    if used.depth >= MOST_DEEP {
        return Err(StickKind::UseDepth);
    }
    if !is_near(used.most_col, col) || !is_near(used.most_row, row) {
        return Err(StickKind::FarPlace);
    }
    Ok(())
}

/// The greatest column or row of a cell with a copy whose greatest one is shifted.
fn most_with_copy(most: u32, nodes: u32, copied: u32, shift: u32) -> u32
    requires { shift + copied ≤ 4095 }
    ensures { result ≡ (if nodes == 0 then most else max most (shift + copied)) }
{
    if nodes == 0 {
        most
    } else {
        most.max(shift + copied)
    }
}

impl<'a> CellBuilder<'a> {
    /// A copy of an earlier cell, shifted by coarse columns and rows.
    pub fn copy(
        &mut self,
        tables: &[Table<'a>],
        name: &'a [u8],
        cell: &[u8],
        col: u32,
        row: u32,
    ) -> Result<(), LineFault>
        requires { length tables.now ≤ 256 }
        ensures grows { (cells : List CheckedCell) (known : CheckedCell) → AreTables cells tables.now
            → IsCellBuilder cells known self.old
            → Grows cells result self.new (after_use cells known name.now cell.now col row) }
        ensures sides { self.new.table.sides ≡ self.old.table.sides }
    {
        if !self.table.names.is_fresh(name) {
            return Err(LineFault::Kind(StickKind::RepeatedName));
        }
        if cell == self.table.name {
            return Err(LineFault::Kind(StickKind::UseCycle));
        }
        let Some(place) = place_of(tables, cell) else {
            return Err(LineFault::Kind(StickKind::UnknownName));
        };
        let used = &tables[place];
        check_use(used, col, row)?;
        self.add_copy(name, place as u32, used, col, row)?;
        Ok(())
    }

    /// Adds a copy whose name is new.
    fn add_copy(
        &mut self,
        name: &'a [u8],
        cell: u32,
        used: &Table,
        col: u32,
        row: u32,
    ) -> Result<(), AllocError>
        requires fresh { IsTrue (is_fresh (entries_of self.old.table.names) name.now) }
        requires shallow { used.now.depth < 16 }
        requires near_col { col + used.now.most_col ≤ 4095 }
        requires near_row { row + used.now.most_row ≤ 4095 }
        ensures grows { OnOk result ((cells : List CheckedCell) (known : CheckedCell)
            → IsCellBuilder cells known self.old → cell < length cells → IsTableOf (known_at cells cell) used.now
            → IsCellBuilder cells (with_copy known name.now cell (known_at cells cell) col row) self.new) }
        ensures sides { self.new.table.sides ≡ self.old.table.sides }
    {
        let first = self.table.nodes;
        let copy = Copied {
            cell,
            first,
            col,
            row,
        };
        self.table.names.add(name, Binding::Copy(copy))?;
        self.table.steps.push(Step::Copy {
            name,
            cell,
            col,
            row,
        })?;
        self.table.nodes = capped_sum(first, used.nodes);
        self.table.wires = capped_sum(self.table.wires, used.wires);
        self.table.weight = capped_sum(capped_sum(self.table.weight, used.weight), 1);
        self.table.boxes = capped_sum(self.table.boxes, used.boxes);
        self.table.most_col = most_with_copy(self.table.most_col, used.nodes, used.most_col, col);
        self.table.most_row = most_with_copy(self.table.most_row, used.nodes, used.most_row, row);
        self.table.depth = self.table.depth.max(used.depth + 1);
        Ok(())
    }
}
