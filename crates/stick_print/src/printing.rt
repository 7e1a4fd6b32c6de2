//! Cells and grids.
ghost use Rattle.std.specs.Prelude.{◌≡◌, ◌++◌, IfOk, OnOk};
ghost use Rattle.stick_text.specs.declared.design.Statement.TheVariants.{Version, Cell, Grid, Row};
ghost use Rattle.stick_text.specs.Writable.{IsWritable};
ghost use Rattle.stick_print.specs.{ReadBack.ReadsAs, Canonical.{line_of, row_line, cell_lines, grid_lines, canonical}};

use crate::lines::put_form;
use crate::words::{put_count, put_name, put_word};
use std::alloc::{AllocError, Global};
use stick_lex::Text;
use stick_text::{CellText, Design, GridText, RowText};

#[tactic(auto, unfolding(crate::specs::Canonical::line_of))]
fn put_cell_name(out: &mut Vec<u8>, name: &Text) -> Result<(), AllocError>
    ensures { OnOk result (out.new.items ≡ out.old.items ++ line_of (Cell name.now)) }
{
    out.extend_from_slice(b"cell")?;
    put_word(out, name.bytes())?;
    out.push(b'\n')?;
    Ok(())
}

#[tactic(auto, unfolding(crate::specs::Canonical::line_of, crate::specs::Canonical::cell_lines))]
fn put_cell(out: &mut Vec<u8>, cell: &CellText) -> Result<(), AllocError>
    ensures { OnOk result (out.new.items ≡ out.old.items ++ cell_lines cell.now) }
{
    put_cell_name(out, &cell.name)?;
    for line in cell.lines.as_slice() {
        put_form(out, &line.form)?;
    }
    out.extend_from_slice(b"end\n")?;
    Ok(())
}

#[tactic(auto, unfolding(crate::specs::Canonical::line_of))]
fn put_row(out: &mut Vec<u8>, row: &RowText) -> Result<(), AllocError>
    ensures { OnOk result (out.new.items ≡ out.old.items ++ row_line row.now) }
{
    out.extend_from_slice(b"row")?;
    for name in row.names.as_slice() {
        put_word(out, name.bytes())?;
    }
    out.push(b'\n')?;
    Ok(())
}

#[tactic(auto, unfolding(crate::specs::Canonical::line_of))]
fn put_grid_name(out: &mut Vec<u8>, name: &Option<Text>) -> Result<(), AllocError>
    ensures { OnOk result (out.new.items ≡ out.old.items ++ line_of (Grid name.now)) }
{
    out.extend_from_slice(b"grid")?;
    put_name(out, name)?;
    out.extend_from_slice(b"\n")
}

#[tactic(auto, unfolding(crate::specs::Canonical::line_of, crate::specs::Canonical::grid_lines))]
fn put_grid(out: &mut Vec<u8>, grid: &GridText) -> Result<(), AllocError>
    ensures { OnOk result (out.new.items ≡ out.old.items ++ grid_lines grid.now) }
{
    put_grid_name(out, &grid.name)?;
    for row in grid.rows.as_slice() {
        put_row(out, row)?;
    }
    out.extend_from_slice(b"end\n")?;
    Ok(())
}

#[tactic(auto, unfolding(crate::specs::Canonical::line_of))]
fn put_version(out: &mut Vec<u8>, version: u32) -> Result<(), AllocError>
    ensures { OnOk result (out.new.items ≡ out.old.items ++ line_of (Version version)) }
{
    out.extend_from_slice(b"sticks")?;
    put_count(out, version)?;
    out.push(b'\n')?;
    Ok(())
}

#[tactic(auto, unfolding(crate::specs::Canonical::canonical))]
fn canonical_text(alloc: Global, design: &Design) -> Result<Vec<u8>, AllocError>
    ensures { IfOk result (λ text. text.items ≡ canonical design.now) }
{
    let mut out = Vec::new(alloc);
    put_version(&mut out, design.version)?;
    for cell in design.cells.as_slice() {
        put_cell(&mut out, cell)?;
    }
    for grid in design.grids.as_slice() {
        put_grid(&mut out, grid)?;
    }
    Ok(out)
}

/// The canonical text of a design: one space between words, a line feed after each line, no comments, no empty
/// lines, no leading zeros, and a width where one stands in the design. The only refusal is want of memory.
pub fn print(alloc: Global, design: &Design) -> Result<Vec<u8>, AllocError>
    ensures text { IfOk result (λ text. text.items ≡ canonical design.now) }

    // The text says the same design, line numbers aside.
    ensures reads_back { IfOk result (λ text. IsWritable design.now → ReadsAs text.items design.now) }
{
    canonical_text(alloc, design)
}
