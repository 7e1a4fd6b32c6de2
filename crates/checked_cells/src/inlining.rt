//! A cell with its uses replaced by what they stand for.
ghost use Rattle.std.specs.{Prelude.{◌≡◌, ◌<◌, ◌≤◌, length, IfOk, OnOk}, List.AllByRecursion};
ghost use Rattle.cell_model.specs.{Nets.HasEnds, Sound.{IsSound, IsLight}};
ghost use Rattle.checked_cells.specs.{CheckedCell.{CheckedCell, known_at, cell_of}, Counts.weight_of, Steps.apply};
ghost use Rattle.checked_cells.specs.{Tables.{known_of, IsResolved}, Inlining.{ArePartsOf, IsAtStep, cells_before}};
ghost use Rattle.checked_cells.specs.Inlining.{IsKept};

use crate::cells::Cells;
use crate::parts::Parts;
use crate::steps::Step;
use cell_model::Cell;
use std::alloc::{AllocError, Global};
use stick_lex::Text;

// A cell of the design with its uses replaced, and its number: what was copied last, kept for the next use.
#[derive(Drop)]
struct Inlined {
    number: u32,
    cell: Cell,
}

impl<'a> Cells<'a> {
    /// The cell with each use replaced, on all levels, by the nodes, wires and limits of the used cell: shifted, with
    /// the use's name and a dot before their names. The only refusal is want of memory.
    ///
    /// It costs time linear in what the cell has with its uses inlined: each node, wire and limit is made at most once,
    /// and copied at most once for each level of uses above it, of which there are at most 15. A used cell is inlined
    /// once for all uses of it that follow one another, whatever other lines stand between, and copied for each.
    #[cycle(inlining)]
    pub fn inline(&self, alloc: Global, cell: u32) -> Result<Cell, AllocError>
        requires resolved { IsResolved self.now }
        requires within { cell < length (known_of self.now) }
        requires light { weight_of (known_at (known_of self.now) cell) ≤ 65536 }
        ensures value { IfOk result (λ inlined. inlined ≡ cell_of (known_at (known_of self.now) cell)) }
        ensures sound { IfOk result (IsSound self.now.tech) }
        ensures light { IfOk result IsLight }
        ensures ends { IfOk result (λ inlined. AllByRecursion (HasEnds inlined) inlined.wires) }
    {
        let table = &self.tables[cell as usize];
        let mut parts = Parts::new(alloc);
        let mut last = None;
        for step in table.steps.as_slice() {
            self.add_step(alloc, cell, step, &mut parts, &mut last)?;
        }
        let name = Text::new(alloc, table.name)?;
        Ok(parts.into_cell(name))
    }

    // Adds what one more line of the cell adds to it. A cell that is copied is kept in `last`.
    #[cycle(inlining)]
    fn add_step(
        &self,
        alloc: Global,
        cell: u32,
        step: &Step,
        parts: &mut Parts,
        last: &mut Option<Inlined>,
    ) -> Result<(), AllocError>
        requires resolved { IsResolved self.now }
        requires within { cell < length (known_of self.now) }
        requires at { IsAtStep self.now cell step.now parts.old }
        requires kept { IsKept self.now last.old }
        ensures parts { (known : CheckedCell) → ArePartsOf known parts.old
            → OnOk result (ArePartsOf (apply (cells_before self.now cell) known step.now) parts.new) }
        ensures kept { OnOk result (IsKept self.now last.new) }
    {
        match *step {
            Step::Node {
                name,
                kind,
                col,
                row,
            } => parts.add_node(alloc, name, kind, col, row),
            Step::Port {
                name,
                side,
                layer,
                place,
            } => parts.add_port(alloc, name, side, layer, place),
            Step::Copy {
                name,
                cell: used,
                col,
                row,
            } => {
                let copied = self.take_or_inline(alloc, used, last)?;
                parts.add_copy(alloc, name, col, row, &copied)?;
                *last = Some(Inlined {
                    number: used,
                    cell: copied,
                });
                Ok(())
            }
            Step::Wire(wire) => parts.add_wire(wire),
            Step::Limit(limit) => parts.add_limit(limit),
        }
    }

    // The cell with each use replaced: the one in `last`, where it is the same. Otherwise that one is let go of, and
    // the cell is inlined.
    #[cycle(inlining)]
    fn take_or_inline(
        &self,
        alloc: Global,
        number: u32,
        last: &mut Option<Inlined>,
    ) -> Result<Cell, AllocError>
        requires resolved { IsResolved self.now }
        requires within { number < length (known_of self.now) }
        requires light { weight_of (known_at (known_of self.now) number) ≤ 65536 }
        requires kept { IsKept self.now last.old }
        ensures value { IfOk result (λ inlined. inlined ≡ cell_of (known_at (known_of self.now) number)) }
        ensures sound { IfOk result (IsSound self.now.tech) }
    {
        if let Some(kept) = last.take() {
            if kept.number == number {
                return Ok(kept.cell);
            }
        }
        self.inline(alloc, number)
    }
}
