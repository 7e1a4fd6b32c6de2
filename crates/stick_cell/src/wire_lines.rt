//! The wires and limits of a cell.
ghost use Rattle.std.specs.Prelude.{◌≡◌, ◌≤◌, ℤ, Bool, Ok, Err, List, MatchResult, OnOk};
ghost use Rattle.rule_table.specs.declared.technology.Tech.{Tech};
ghost use Rattle.stick_text.specs.Writable.{IsPath};
ghost use Rattle.cell_model.specs.{declared.cell.{Limit.Limit as SomeLimit, Wire.Wire}, Nets.HasEnds};
ghost use Rattle.checked_cells.specs.{CheckedCell.{CheckedCell, cell_of, with_limit, with_wire}, Paths.found_at};
ghost use Rattle.checked_cells.specs.Sides.{side_entries, AreSidesOf, HaveSides};
ghost use Rattle.checked_cells.specs.{Counts.weight_of, Lines.{axis_where, after_wire, after_limit}, Kept.capped_wire};
ghost use Rattle.checked_cells.specs.{Built.{IsBuilt, AreBuilt}, Tables.AreTables};
ghost use Rattle.stick_cell.specs.CellBuilder.{IsCellBuilder, Grows, GrowsWith, plugged_ports, plugged_marks};
ghost use Rattle.stick_cell.specs.CellBuilder.{found_or_unknown};

use crate::builder::CellBuilder;
use crate::counts::{capped_sum, layer_items};
use crate::leaving::{are_open, mark_ends, paths_of};
use crate::paths::found_at;
use crate::wires::{limited, run_of, wire_where};
use cell_model::{CellPort, Limit, Wire, WireEnd};
use checked_cells::{Found, Step, Table, axis_where, layer_of};
use rule_table::Tech;
use std::alloc::AllocError;
use stick_text::{Layer as DrawnLayer, LineFault, StickKind};

/// Notes at the port at an end, where the end is a port, the number and the width of the wire that ends there.
fn plug(ports: &mut Vec<CellPort>, end: WireEnd, number: u32, width: i64)
    ensures { ports.new.items ≡ plugged_ports number width ports.old.items end }
{
    if let WireEnd::Port(k) = end {
        let k = k as usize;
        if k < ports.len() {
            ports[k] = CellPort {
                width,
                wire: number,
                ..ports[k]
            };
        }
    }
}

/// Notes that a wire ends at the port at an end, where the end is a port.
fn mark(wired: &mut Vec<bool>, end: WireEnd)
    ensures { wired.new.items ≡ plugged_marks wired.old.items end }
{
    if let WireEnd::Port(k) = end {
        let k = k as usize;
        if k < wired.len() {
            wired[k] = true;
        }
    }
}

impl<'a> CellBuilder<'a> {
    /// A wire between two terminals that paths name. Its width is in u.
    pub fn wire(
        &mut self,
        tech: &Tech,
        tables: &[Table],
        layer: DrawnLayer,
        a: &'a [u8],
        b: &'a [u8],
        width: Option<u32>,
    ) -> Result<(), LineFault>
        ensures { (cells : List CheckedCell) (known : CheckedCell) → AreBuilt tech.now cells
            → AreTables cells tables.now → HaveSides cells tables.now → IsPath a.entry.now → IsPath b.entry.now
            → IsBuilt tech.now cells known → IsCellBuilder cells known self.old
            → AreSidesOf cells known (side_entries self.old.table.sides)
            → GrowsWith cells result self.new (after_wire tech.now cells known layer a.entry.now b.entry.now width) }
    {
        let from = self.found(tables, a)?;
        let to = self.found(tables, b)?;
        let run = run_of(from, to)?;
        let (low, high) = paths_of(run, a, b);
        let layer = layer_of(layer);
        let are_free = are_open(tables, &self.table, run, low, high, layer);
        let wire = wire_where(are_free, tech, self.wired.as_slice(), layer, width, run)?;
        self.add_wire(wire)?;
        mark_ends(&mut self.table.sides, run, low, high, layer)?;
        Ok(())
    }

    /// A bound on how far two nodes that paths name lie apart.
    pub fn limit(
        &mut self,
        tables: &[Table],
        vertical: bool,
        a: &[u8],
        b: &[u8],
        at_most: bool,
        n: i64,
    ) -> Result<(), LineFault>
        ensures grows { (tech : Tech) (cells : List CheckedCell) (known : CheckedCell) → AreBuilt tech cells
            → AreTables cells tables.now
            → IsPath a.now → IsPath b.now → IsBuilt tech cells known → IsCellBuilder cells known self.old
            → Grows cells result self.new (after_limit cells known vertical a.now b.now at_most n) }
        ensures sides { self.new.table.sides ≡ self.old.table.sides }
    {
        let ends = self.limit_ends(tables, a, b)?;
        self.add_limit(Limit {
            axis: axis_where(vertical),
            a: ends.0,
            b: ends.1,
            at_most,
            n,
        })?;
        Ok(())
    }

    /// The numbers of the two nodes that paths name, which are not one node.
    fn limit_ends(&self, tables: &[Table], a: &[u8], b: &[u8]) -> Result<(u32, u32), StickKind>
        ensures { (tech : Tech) (cells : List CheckedCell) (known : CheckedCell) (vertical at_most : Bool) (n : ℤ)
            → AreBuilt tech cells → AreTables cells tables.now
            → IsPath a.now → IsPath b.now → IsBuilt tech cells known → IsCellBuilder cells known self.now
            → MatchResult result
            (λ ends. (limit : SomeLimit)
            × (after_limit cells known vertical a.now b.now at_most n ≡ Ok (with_limit known limit))
            × (weight_of (with_limit known limit) ≤ 65536
            → with_limit known
            (record { axis = axis_where vertical; a = ends.0; b = ends.1; at_most = at_most; n = n })
            ≡ with_limit known limit))
            (λ kind. after_limit cells known vertical a.now b.now at_most n ≡ Err kind) }
    {
        let from = self.found(tables, a)?;
        let to = self.found(tables, b)?;
        let low = limited(from)?;
        let high = limited(to)?;

        // Two paths come to one node only where they are the same.
        if a == b {
            return Err(StickKind::BadLimit);
        }
        Ok((low.number, high.number))
    }

    /// Adds a limit. Its nodes may be told by capped numbers where the cell is too heavy to be inlined.
    fn add_limit(&mut self, limit: Limit) -> Result<(), AllocError>
        ensures grows { OnOk result ((cells : List CheckedCell) (known : CheckedCell) (next : SomeLimit)
            → IsCellBuilder cells known self.old
            → (weight_of (with_limit known next) ≤ 65536 → with_limit known limit ≡ with_limit known next)
            → IsCellBuilder cells (with_limit known next) self.new) }
        ensures sides { self.new.table.sides ≡ self.old.table.sides }
    {
        self.table.steps.push(Step::Limit(limit))?;
        self.table.weight = capped_sum(self.table.weight, 1);
        Ok(())
    }

    /// What a path comes to.
    fn found(&self, tables: &[Table], path: &[u8]) -> Result<Found, StickKind>
        ensures { (cells : List CheckedCell) (known : CheckedCell) → AreTables cells tables.now
            → IsCellBuilder cells known self.now
            → result ≡ found_or_unknown (found_at cells known path.now) }
    {
        found_at(tables, &self.table.names, path).ok_or(StickKind::UnknownName)
    }

    /// Adds a wire, which ends at the ports that it names. The only refusal is want of memory.
    fn add_wire(&mut self, wire: Wire) -> Result<(), AllocError>
        ensures grows { OnOk result ((cells : List CheckedCell) (known : CheckedCell) (next : Wire)
            → IsCellBuilder cells known self.old → HasEnds (cell_of (with_wire known next)) next
            → wire ≡ capped_wire next
            → IsCellBuilder cells (with_wire known next) self.new) }
        ensures sides { self.new.table.sides ≡ self.old.table.sides }
    {
        self.table.steps.push(Step::Wire(wire))?;
        let number = self.table.wires;
        plug(&mut self.table.ports, wire.low, number, wire.width);
        plug(&mut self.table.ports, wire.high, number, wire.width);
        mark(&mut self.wired, wire.low);
        mark(&mut self.wired, wire.high);
        self.table.wires = capped_sum(number, 1);
        self.table.weight = capped_sum(self.table.weight, layer_items(wire.layer));
        self.table.boxes = capped_sum(self.table.boxes, 1);
        Ok(())
    }
}
