//! A cell while its lines are read.
ghost use Rattle.std.specs.{Prelude.{◌≡◌, List, [], map, IsTrue, IfOk, OnOk}, List.list_all};
ghost use Rattle.checked_cells.specs.{Checks.is_fresh, NameEntries.entries_of, CheckedCell.{CheckedCell, begun}};
ghost use Rattle.checked_cells.specs.{CheckedCell.{with_node, with_port}, Lines.{is_wired, after_joint, after_contact}};
ghost use Rattle.checked_cells.specs.{Lines.{after_buried, after_fet, after_port}, Steps.AreStepsOf, Tables.IsTableOf};
ghost use Rattle.checked_cells.specs.Sides.{side_entries};
ghost use Rattle.stick_cell.specs.CellBuilder.{IsCellBuilder, Grows, placed, without_wire};

use crate::counts::{capped_sum, kind_boxes, kind_items};
use cell_model::{CellPort, NodeKind};
use checked_cells::{
    Binding, NameMap, NodePlace, Pin, SideMap, Step, Table, axis_where, is_channel, is_place,
    layer_of, sized,
};
use lam_geom::Side;
use rule_table::{Layer, Tech};
use std::alloc::{AllocError, Global};
use stick_text::{Layer as DrawnLayer, LineFault, StickKind};

/// The greatest weight of a cell that may be inlined.
pub const MOST_ITEMS: u32 = 65_536;

/// The table of a cell as its lines so far make it, and of each port whether a wire ends at it yet.
#[derive(Drop)]
pub struct CellBuilder<'a> {
    pub table: Table<'a>,
    pub wired: Vec<bool>,
}

impl<'a> CellBuilder<'a> {
    /// A cell before its first line, with room for what so many lines add where there is memory for it.
    pub fn new(alloc: Global, name: &'a [u8], lines: usize) -> CellBuilder<'a>
        ensures builder { (cells : List CheckedCell) → IsCellBuilder cells (begun name.now) result }
        ensures sides { side_entries result.table.sides ≡ [] }
    {
        let mut steps = Vec::new(alloc);
        let _ = steps.reserve(lines);
        let table = Table {
            name,
            names: NameMap::with_room(alloc, lines),
            sides: SideMap::new(alloc),
            steps,
            ports: Vec::new(alloc),
            nodes: 0,
            wires: 0,
            weight: 0,
            boxes: 0,
            most_col: 0,
            most_row: 0,
            depth: 1,
        };
        CellBuilder {
            table,
            wired: Vec::new(alloc),
        }
    }

    /// A joint. Its column and row are coarse coordinates, its width is in u.
    pub fn joint(
        &mut self,
        tech: &Tech,
        name: &'a [u8],
        layer: DrawnLayer,
        col: u32,
        row: u32,
        width: Option<u32>,
    ) -> Result<(), LineFault>
        ensures grows { (cells : List CheckedCell) (known : CheckedCell) → IsCellBuilder cells known self.old
            → Grows cells result self.new (after_joint tech.now known name.now layer col row width) }
        ensures sides { self.new.table.sides ≡ self.old.table.sides }
    {
        self.check_place(name, col, row)?;
        let layer = layer_of(layer);
        let width = sized(tech, layer, width)?;
        self.add_node(name, NodeKind::Joint { layer, width }, col, row)?;
        Ok(())
    }

    /// A contact of metal with the lower layer.
    pub fn contact(
        &mut self,
        name: &'a [u8],
        lower: DrawnLayer,
        col: u32,
        row: u32,
    ) -> Result<(), LineFault>
        ensures grows { (cells : List CheckedCell) (known : CheckedCell) → IsCellBuilder cells known self.old
            → Grows cells result self.new (after_contact known name.now lower col row) }
        ensures sides { self.new.table.sides ≡ self.old.table.sides }
    {
        self.check_place(name, col, row)?;
        let lower = layer_of(lower);
        self.add_node(name, NodeKind::Contact { lower }, col, row)?;
        Ok(())
    }

    /// A buried contact, which only a technology that has them may have.
    pub fn buried(
        &mut self,
        tech: &Tech,
        name: &'a [u8],
        col: u32,
        row: u32,
    ) -> Result<(), LineFault>
        ensures grows { (cells : List CheckedCell) (known : CheckedCell) → IsCellBuilder cells known self.old
            → Grows cells result self.new (after_buried tech.now known name.now col row) }
        ensures sides { self.new.table.sides ≡ self.old.table.sides }
    {
        self.check_place(name, col, row)?;
        if !tech.has_buried() {
            return Err(LineFault::Kind(StickKind::NoBuried));
        }
        self.add_node(name, NodeKind::Buried, col, row)?;
        Ok(())
    }

    /// A transistor, whose gate runs up where it is vertical. W and L are in u.
    pub fn fet(
        &mut self,
        tech: &Tech,
        name: &'a [u8],
        depletion: bool,
        vertical: bool,
        col: u32,
        row: u32,
        w: u32,
        l: u32,
    ) -> Result<(), LineFault>
        ensures grows { (cells : List CheckedCell) (known : CheckedCell) → IsCellBuilder cells known self.old
            → Grows cells result self.new (after_fet tech.now known name.now depletion vertical col row w l) }
        ensures sides { self.new.table.sides ≡ self.old.table.sides }
    {
        self.check_place(name, col, row)?;
        if !is_channel(tech, w, l) {
            return Err(LineFault::Kind(StickKind::BadSize));
        }
        let kind = NodeKind::Fet {
            depletion,
            gate: axis_where(vertical),
            w: i64::from(w),
            l: i64::from(l),
        };
        self.add_node(name, kind, col, row)?;
        Ok(())
    }

    /// A port, at a coarse coordinate on its side. Where there are 2^32 ports already it is refused as want of memory.
    pub fn port(
        &mut self,
        name: &'a [u8],
        side: Side,
        layer: DrawnLayer,
        place: u32,
    ) -> Result<(), LineFault>
        ensures grows { (cells : List CheckedCell) (known : CheckedCell) → IsCellBuilder cells known self.old
            → Grows cells result self.new (after_port known name.now side layer place) }
        ensures sides { self.new.table.sides ≡ self.old.table.sides }
    {
        self.check_place(name, place, 0)?;
        self.add_port(name, side, layer_of(layer), place)?;
        Ok(())
    }

    /// Refuses a name that the cell has already, and a column or a row that is too far out.
    #[tactic(auto, unfolding(crate::specs::CellBuilder::placed))]
    fn check_place(&self, name: &[u8], col: u32, row: u32) -> Result<(), StickKind>
        ensures placed { result ≡ placed (entries_of self.now.table.names) name.now col row }
        ensures fresh { IfOk result (λ passed. IsTrue (is_fresh (entries_of self.now.table.names) name.now)) }
    {
        if !self.table.names.is_fresh(name) {
            return Err(StickKind::RepeatedName);
        }
        if !is_place(col) || !is_place(row) {
            return Err(StickKind::FarPlace);
        }
        Ok(())
    }

    /// Adds a node whose name is new.
    fn add_node(
        &mut self,
        name: &'a [u8],
        kind: NodeKind,
        col: u32,
        row: u32,
    ) -> Result<(), AllocError>
        requires { IsTrue (is_fresh (entries_of self.old.table.names) name.now) }
        ensures grows { OnOk result ((cells : List CheckedCell) (known : CheckedCell)
            → IsCellBuilder cells known self.old
            → IsCellBuilder cells (with_node known name.now kind col row) self.new) }
        ensures sides { self.new.table.sides ≡ self.old.table.sides }
    {
        let number = self.table.nodes;
        let node_place = NodePlace {
            number,
            kind,
            col,
            row,
        };
        self.table.names.add(name, Binding::Node(node_place))?;
        self.table.steps.push(Step::Node {
            name,
            kind,
            col,
            row,
        })?;
        self.table.nodes = capped_sum(number, 1);
        self.table.weight = capped_sum(self.table.weight, kind_items(kind));
        self.table.boxes = capped_sum(self.table.boxes, kind_boxes(kind));
        self.table.most_col = self.table.most_col.max(col);
        self.table.most_row = self.table.most_row.max(row);
        Ok(())
    }

    /// Adds a port whose name is new.
    fn add_port(
        &mut self,
        name: &'a [u8],
        side: Side,
        layer: Layer,
        place: u32,
    ) -> Result<(), AllocError>
        requires { IsTrue (is_fresh (entries_of self.old.table.names) name.now) }
        ensures grows { OnOk result ((cells : List CheckedCell) (known : CheckedCell)
            → IsCellBuilder cells known self.old
            → IsCellBuilder cells (with_port known name.now side layer place) self.new) }
        ensures sides { self.new.table.sides ≡ self.old.table.sides }
    {
        let Ok(number) = u32::try_from(self.wired.len()) else {
            return Err(AllocError);
        };
        let pin = Pin {
            number,
            side,
            layer,
            place,
        };
        self.table.names.add(name, Binding::Port(pin))?;
        self.table.steps.push(Step::Port {
            name,
            side,
            layer,
            place,
        })?;
        self.table.ports.push(CellPort {
            side,
            layer,
            place,
            width: 0,
            wire: 0,
        })?;
        self.wired.push(false)?;
        Ok(())
    }

    /// Whether a wire ends at each port.
    pub fn is_wired(&self) -> bool
        ensures { (cells : List CheckedCell) (known : CheckedCell) → IsCellBuilder cells known self.now
            → result ≡ is_wired known }
    {
        all_marked(self.wired.as_slice())
    }

    /// The table, with the numbers of the wires at its ports where the cell may be inlined, and else with 0.
    pub fn finish(self) -> Table<'a>
        ensures table { (cells : List CheckedCell) (known : CheckedCell) → IsCellBuilder cells known self.entry
            → IsTableOf known result }
        ensures steps { (cells : List CheckedCell) (known : CheckedCell) → IsCellBuilder cells known self.entry
            → AreStepsOf cells known result.steps.items }
        ensures sides { result.sides ≡ self.entry.table.sides }
    {
        let CellBuilder {
            mut table,
            wired: _wired,
        } = self;
        if table.weight > MOST_ITEMS {
            forget_wires(&mut table.ports);
        }
        table
    }
}

fn all_marked(wired: &[bool]) -> bool
    ensures { result ≡ list_all (λ mark. mark) wired.now }
{
    wired.iter().all(|mark| *mark)
}

/// Puts 0 for the numbers of the wires.
fn forget_wires(ports: &mut Vec<CellPort>)
    ensures { ports.new.items ≡ map without_wire ports.old.items }
{
    for port in ports.iter_mut() {
        port.wire = 0;
    }
}
