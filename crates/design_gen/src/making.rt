//! The whole design.
ghost use Rattle.std.specs.Prelude.{◌≡◌, ◌+◌, ◌^◌, ◌<◌, ◌≤◌, [], ◌∷◌, vec_len, codes, IfOk};
ghost use Rattle.design_gen.specs.Made.{forms_of, lines_from, made};

use crate::draws::draw_points;
use crate::lines::{number_lines, push_nodes, push_wires};
use lam_list::Seq;
use std::alloc::{AllocError, Global};
use stick_lex::Text;
use stick_text::{CellText, Design, Form, GridText, RowText};

// The name of the one cell.
const BENCH: &[u8] = b"bench";

// What stands in the cell: the nodes, then the wires.
fn forms_of(alloc: Global, n: u32) -> Result<Vec<Form>, AllocError>
    requires some { 0 < n }
    requires few { n ≤ 64 }
    ensures { IfOk result (λ forms. forms.items ≡ forms_of n) }
{
    let drawn = draw_points(alloc, n)?;
    let mut forms = Vec::new(alloc);
    push_nodes(alloc, &mut forms, n, &drawn)?;
    push_wires(alloc, &mut forms, n, &drawn)?;
    Ok(forms)
}

// The cell with these forms, on line 2 and those after it.
fn cell_of(alloc: Global, forms: Vec<Form>) -> Result<CellText, AllocError>
    requires { vec_len forms ≤ 2 ^ 20 }
    ensures { IfOk result
        (λ cell.
        cell ≡ record {
          name = codes "bench";
          line = 2;
          end_line = 3 + vec_len forms;
          lines = lines_from 3 forms.items;
        }) }
{
    let name = Text::new(alloc, BENCH)?;
    let end_line = 3 + forms.len() as u32;
    let lines = number_lines(alloc, forms)?;
    Ok(CellText {
        name,
        line: 2,
        end_line,
        lines,
    })
}

// A grid of one row with the one cell, from this line on.
fn grid_at(alloc: Global, line: u32) -> Result<GridText, AllocError>
    ensures { IfOk result
        (λ grid. grid ≡ record { name = None; line = line; rows = record { names = codes "bench" ∷ [] } ∷ [] }) }
{
    let name = Text::new(alloc, BENCH)?;
    let names = Seq::from_vec(vec![in alloc; name]?);
    let rows = Seq::from_vec(vec![in alloc; RowText { names }]?);
    Ok(GridText {
        name: None,
        line,
        rows,
    })
}

/// The design made from `n`. The only refusal is want of memory.
pub fn make(alloc: Global, n: u32) -> Result<Design, AllocError>
    requires some { 1 ≤ n }
    requires few { n ≤ 64 }
    ensures { IfOk result (λ design. design ≡ made n) }
{
    let forms = forms_of(alloc, n)?;
    let cell = cell_of(alloc, forms)?;
    let grid = grid_at(alloc, cell.end_line + 1)?;
    Ok(Design {
        version: 1,
        cells: Seq::from_vec(vec![in alloc; cell]?),
        grids: Seq::from_vec(vec![in alloc; grid]?),
    })
}
