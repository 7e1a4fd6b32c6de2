//! Which masters stand beside and above one another, as lists of pairs. A grid is the list of its rows, from the
//! bottom.

ghost use Rattle.std.specs.{Prelude.{◌≡◌, ◌<◌, ◌++◌, length, map, flat_map, All, OnOk, IfOk}, List.zip};
ghost use Rattle.plan_model.specs.Rows.{neighbours, zipped_rows, beside, above, column_at, columns_of, first_row};

use lam_list::Seq;
use std::alloc::{AllocError, Global};

/// Adds each master of a row with the one after it.
fn push_neighbours(pairs: &mut Vec<(u32, u32)>, row: &[u32]) -> Result<(), AllocError>
    ensures { OnOk result (pairs.new.items ≡ pairs.old.items ++ neighbours row.now) }
{
    for k in 1..row.len() {
        pairs.push((row[k - 1], row[k]))?;
    }
    Ok(())
}

/// Adds each master of a grid with the one on its right.
fn push_beside(pairs: &mut Vec<(u32, u32)>, rows: &[Seq<u32>]) -> Result<(), AllocError>
    ensures { OnOk result (pairs.new.items ≡ pairs.old.items ++ beside rows.now) }
{
    for row in rows {
        push_neighbours(pairs, row.as_slice())?;
    }
    Ok(())
}

/// Each master of each grid with the one on its right: row by row.
pub fn beside(alloc: Global, grids: &[Seq<Seq<u32>>]) -> Result<Vec<(u32, u32)>, AllocError>
    ensures { IfOk result (λ pairs. pairs.items ≡ flat_map beside grids.now) }
{
    let mut pairs = Vec::new(alloc);
    for rows in grids {
        push_beside(&mut pairs, rows.as_slice())?;
    }
    Ok(pairs)
}

/// Adds the masters of a row with those above them.
fn push_zipped(pairs: &mut Vec<(u32, u32)>, low: &[u32], high: &[u32]) -> Result<(), AllocError>
    ensures { OnOk result (pairs.new.items ≡ pairs.old.items ++ zip low.now high.now) }
{
    for c in 0..low.len().min(high.len()) {
        pairs.push((low[c], high[c]))?;
    }
    Ok(())
}

/// Adds each master of a grid with the one above it.
fn push_above(pairs: &mut Vec<(u32, u32)>, rows: &[Seq<u32>]) -> Result<(), AllocError>
    ensures { OnOk result (pairs.new.items ≡ pairs.old.items ++ above rows.now) }
{
    for r in 1..rows.len() {
        push_zipped(pairs, rows[r - 1].as_slice(), rows[r].as_slice())?;
    }
    Ok(())
}

/// Each master of each grid with the one above it: row by row.
pub fn above(alloc: Global, grids: &[Seq<Seq<u32>>]) -> Result<Vec<(u32, u32)>, AllocError>
    ensures { IfOk result (λ pairs. pairs.items ≡ flat_map above grids.now) }
{
    let mut pairs = Vec::new(alloc);
    for rows in grids {
        push_above(&mut pairs, rows.as_slice())?;
    }
    Ok(pairs)
}

/// A column, from the bottom.
fn column(alloc: Global, rows: &[Seq<u32>], c: usize) -> Result<Seq<u32>, AllocError>
    requires { All (λ row. c < length row) rows.now }
    ensures { IfOk result (λ column. column ≡ column_at rows.now c) }
{
    let mut column = Vec::new(alloc);
    for row in rows {
        column.push(row.as_slice()[c])?;
    }
    Ok(Seq::from_vec(column))
}

/// The columns of a grid, from the left.
fn columns(alloc: Global, rows: &[Seq<u32>]) -> Result<Seq<Seq<u32>>, AllocError>
    requires some_rows { 0 < length rows.now }
    requires equal { All (λ row. length row ≡ length (first_row rows.now)) rows.now }
    ensures { IfOk result (λ columns. columns ≡ columns_of rows.now) }
{
    let mut columns = Vec::new(alloc);
    for c in 0..rows[0].as_slice().len() {
        columns.push(column(alloc, rows, c)?)?;
    }
    Ok(Seq::from_vec(columns))
}

/// The columns of each grid.
pub fn columns_of(alloc: Global, grids: &[Seq<Seq<u32>>]) -> Result<Vec<Seq<Seq<u32>>>, AllocError>
    requires some_rows { All (λ rows. 0 < length rows) grids.now }
    requires equal { All (λ rows. All (λ row. length row ≡ length (first_row rows)) rows) grids.now }
    ensures { IfOk result (λ turned. turned.items ≡ map columns_of grids.now) }
{
    let mut turned = Vec::new(alloc);
    for rows in grids {
        turned.push(columns(alloc, rows.as_slice())?)?;
    }
    Ok(turned)
}
