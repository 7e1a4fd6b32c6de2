//! The lines of a cell.
ghost use Rattle.std.specs.Prelude.{◌≤◌, List, length};
ghost use Rattle.stick_text.specs.Writable.{IsForm};
ghost use Rattle.checked_cells.specs.{CheckedCell.CheckedCell, Lines.after_form, Built.{IsBuilt, AreBuilt}};
ghost use Rattle.checked_cells.specs.{Tables.AreTables, Sides.{side_entries, AreSidesOf, HaveSides}};
ghost use Rattle.stick_cell.specs.CellBuilder.{IsCellBuilder, GrowsWith};

use crate::builder::CellBuilder;
use checked_cells::Table;
use rule_table::Tech;
use stick_text::{Form, LineFault};

impl<'a> CellBuilder<'a> {
    /// One more line, given the tables of the cells before. It is refused with the kind of its first fault.
    pub fn line(
        &mut self,
        tech: &Tech,
        tables: &[Table<'a>],
        form: &'a Form,
    ) -> Result<(), LineFault>
        requires { length tables.now ≤ 256 }
        ensures { (cells : List CheckedCell) (known : CheckedCell) → AreBuilt tech.now cells
            → AreTables cells tables.now → HaveSides cells tables.now → IsForm form.now
            → IsBuilt tech.now cells known → IsCellBuilder cells known self.old
            → AreSidesOf cells known (side_entries self.old.table.sides)
            → GrowsWith cells result self.new (after_form tech.now cells known form.now) }
    {
        match form {
            Form::Joint {
                name,
                layer,
                col,
                row,
                width,
            } => self.joint(tech, name.bytes(), *layer, *col, *row, *width),
            Form::Contact {
                name,
                lower,
                col,
                row,
            } => self.contact(name.bytes(), *lower, *col, *row),
            Form::Buried { name, col, row } => self.buried(tech, name.bytes(), *col, *row),
            Form::Fet {
                name,
                depletion,
                vertical,
                col,
                row,
                w,
                l,
            } => self.fet(
                tech,
                name.bytes(),
                *depletion,
                *vertical,
                *col,
                *row,
                *w,
                *l,
            ),
            Form::Port {
                name,
                side,
                layer,
                place,
            } => self.port(name.bytes(), *side, *layer, *place),
            Form::Inst {
                name,
                cell,
                col,
                row,
            } => self.copy(tables, name.bytes(), cell.bytes(), *col, *row),
            Form::Wire { layer, a, b, width } => {
                self.wire(tech, tables, *layer, a.bytes(), b.bytes(), *width)
            }
            Form::Limit {
                vertical,
                a,
                b,
                at_most,
                n,
            } => self.limit(tables, *vertical, a.bytes(), b.bytes(), *at_most, *n),
        }
    }
}
