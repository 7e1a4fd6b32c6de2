//! The instances of all grids, one by one.
ghost use Rattle.std.specs.Prelude.{◌≡◌, ◌++◌, map, OnOk, IfOk};
ghost use Rattle.plan_model.specs.{declared.plan.PlanRow.PlanRow as SomeRow, Plan.grids_of};
ghost use Rattle.design_nets.specs.Instances.{instances_of, instances_in_row, instances_in_grid};

use plan_model::{Plan, PlanRow};
use std::alloc::{AllocError, Global};

/// An instance: the numbers of its grid, its row and its column, and its master.
#[derive(Clone, Copy)]
pub struct Instance {
    pub grid: usize,
    pub row: usize,
    pub col: usize,
    pub master: u32,
}

/// All instances: grids in order, of each the rows from the bottom, and each row from the left. The only refusal is
/// want of memory.
pub fn instances(alloc: Global, plan: &Plan) -> Result<Vec<Instance>, AllocError>
    ensures { IfOk result (λ instances. instances.items ≡ instances_of (grids_of plan.now)) }
{
    let mut instances = Vec::new(alloc);
    let grids = plan.grids.as_slice();
    for grid in 0..grids.len() {
        push_grid(&mut instances, grid, grids[grid].rows.as_slice())?;
    }
    Ok(instances)
}

// Adds the instances of a grid, which has this number.
fn push_grid(instances: &mut Vec<Instance>, grid: usize, rows: &[PlanRow]) -> Result<(), AllocError>
    ensures { OnOk result
        (instances.new.items ≡ instances.old.items ++ instances_in_grid grid
        (map (λ (row : SomeRow). row.cells) rows.now)) }
{
    for row in 0..rows.len() {
        push_row(instances, grid, row, rows[row].cells.as_slice())?;
    }
    Ok(())
}

// Adds the instances of a row, which has this number, of a grid.
fn push_row(
    instances: &mut Vec<Instance>,
    grid: usize,
    row: usize,
    cells: &[u32],
) -> Result<(), AllocError>
    ensures { OnOk result (instances.new.items ≡ instances.old.items ++ instances_in_row grid row cells.now) }
{
    for col in 0..cells.len() {
        instances.push(Instance {
            grid,
            row,
            col,
            master: cells[col],
        })?;
    }
    Ok(())
}
