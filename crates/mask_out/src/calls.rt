//! The calls of a picture, one for each instance.
ghost use Rattle.std.specs.Prelude.{◌≡◌, ◌++◌, map, OnOk, IfOk};
ghost use Rattle.lam_geom.specs.declared.boxes.Axis.TheVariants.{X, Y};
ghost use Rattle.rule_table.specs.Technology.{widest_of};
ghost use Rattle.sym_items.specs.Layouts.{size_in};
ghost use Rattle.plan_model.specs.Plan.{grids_of};
ghost use Rattle.mask_out.specs.Pictures.{calls_of, IsInReach, IsRowInReach, IsGridInReach, IsDrawable};
ghost use Rattle.mask_out.specs.RowCalls.{calls_in_row, calls_in_grid};

use crate::drawing::Call;
use crate::sizes::{height_of_row, size_of, width_of_grid};
use lam_geom::Axis;
use plan_model::{Plan, PlanRow};
use rule_table::Tech;
use std::alloc::{AllocError, Global};
use sym_items::Coords;

// Adds the calls of a row, from the left border of its grid and the row's bottom.
fn push_row(
    calls: &mut Vec<Call>,
    coords: &[Coords],
    row: &[u32],
    left: i64,
    bottom: i64,
) -> Result<(), AllocError>
    requires row { IsRowInReach (size_in X coords.now) row.now }
    requires left { IsInReach left }
    ensures { OnOk result
        (calls.new.items ≡ calls.old.items ++ calls_in_row (size_in X coords.now) left bottom row.now) }
{
    let mut x = left;
    for master in row {
        let symbol = *master;
        calls.push(Call {
            symbol,
            x,
            y: bottom,
        })?;
        x += size_of(Axis::X, coords, symbol);
    }
    Ok(())
}

// Adds the calls of a grid, row by row.
fn push_grid(
    calls: &mut Vec<Call>,
    coords: &[Coords],
    rows: &[PlanRow],
    left: i64,
) -> Result<(), AllocError>
    requires rows { IsGridInReach (size_in X coords.now) (size_in Y coords.now) (map (λ row. row.cells) rows.now) }
    requires left { IsInReach left }
    ensures { OnOk result
        (calls.new.items ≡ calls.old.items ++ calls_in_grid (size_in X coords.now) (size_in Y coords.now) left
        (map (λ row. row.cells) rows.now)) }
{
    let mut bottom = 0;
    for row in rows {
        let masters = row.cells.as_slice();
        push_row(calls, coords, masters, left, bottom)?;
        bottom += height_of_row(coords, masters);
    }
    Ok(())
}

/// The calls of a plan, grid by grid: grids stand side by side, the widest spacing after each. Of each grid the rows
/// come from the bottom, and each row from the left. A call is shifted by the widths of the instances to its left and
/// the heights of the rows below in its grid, and to the right by the widths of the grids before and the widest spacing
/// for each of them, in u. The only refusal is want of memory.
pub fn calls_in(
    alloc: Global,
    tech: &Tech,
    plan: &Plan,
    coords: &[Coords],
) -> Result<Vec<Call>, AllocError>
    requires { IsDrawable (size_in X coords.now) (size_in Y coords.now) (widest_of tech.now) (grids_of plan.now) }
    ensures { IfOk result
        (λ calls. calls.items ≡ calls_of (size_in X coords.now) (size_in Y coords.now) (widest_of tech.now)
        (grids_of plan.now)) }
{
    let widest = tech.widest();
    let mut calls = Vec::new(alloc);
    let mut left = 0;
    for grid in plan.grids.as_slice() {
        let rows = grid.rows.as_slice();
        push_grid(&mut calls, coords, rows, left)?;
        left += width_of_grid(coords, rows) + widest;
    }
    Ok(calls)
}
