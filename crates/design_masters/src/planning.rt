//! The cells of a design, and the plan of its grids.

ghost use Rattle.std.specs.Prelude.{◌≡◌, ◌≤◌, Ok, IfOk, IfErr};
ghost use Rattle.stick_text.specs.Writable.{IsWritable};
ghost use Rattle.checked_cells.specs.{Grids.resolved_cells, Tables.{known_of, IsResolved}};
ghost use Rattle.design_masters.specs.Plans.{IsPlanned, HasNoMasters};

use crate::fault::MastersFault;
use checked_cells::Cells;
use grid_plan::{PlanFault, plan};
use plan_model::Plan;
use rule_table::Tech;
use std::alloc::Global;
use std::thread::Threads;
use stick_cell::resolve_in_shares;
use stick_text::{Design, ParseFault};

/// A design's cells, whose names and sizes have no fault, and the plan of its grids.
#[derive(Drop)]
pub struct Planned<'a> {
    pub cells: Cells<'a>,
    pub plan: Plan,
}

// The cells of a design, read in as many shares as `split` says.
fn read_cells<'a, H: Threads + Sync>(
    rt: &H,
    alloc: Global,
    tech: &Tech,
    design: &'a Design,
    split: u32,
) -> Result<Cells<'a>, MastersFault>
    requires writable { IsWritable design.now }
    requires split { (1 ≤ split) × (split ≤ 64) }
    ensures read { IfOk result (λ cells. resolved_cells tech.now design.now ≡ Ok (known_of cells)) }
    ensures resolved { IfOk result IsResolved }
    ensures of { IfOk result (λ cells. (cells.tech ≡ tech.now) × (cells.design.now ≡ design.now)) }
    ensures refused { IfErr result (HasNoMasters tech.now design.now) }
{
    match resolve_in_shares(rt, alloc, design, tech, split) {
        Ok(cells) => Ok(cells),
        Err(ParseFault::Stick(fault)) => Err(MastersFault::Stick(fault)),
        Err(ParseFault::OutOfMemory) => Err(MastersFault::OutOfMemory),
    }
}

/// The cells of a design, read in as many shares as `split` says, and the plan of its grids.
pub fn plan_of<'a, H: Threads + Sync>(
    rt: &H,
    alloc: Global,
    tech: &Tech,
    design: &'a Design,
    split: u32,
) -> Result<Planned<'a>, MastersFault>
    requires writable { IsWritable design.now }
    requires split { (1 ≤ split) × (split ≤ 64) }
    ensures planned { IfOk result (λ p. IsPlanned tech.now design.now (known_of p.cells) p.plan) }
    ensures resolved { IfOk result (λ p. IsResolved p.cells) }
    ensures of { IfOk result (λ p. (p.cells.tech ≡ tech.now) × (p.cells.design.now ≡ design.now)) }
    ensures refused { IfErr result (HasNoMasters tech.now design.now) }
{
    let cells = read_cells(rt, alloc, tech, design, split)?;
    match plan(alloc, design, &cells) {
        Ok(plan) => Ok(Planned { cells, plan }),
        Err(PlanFault::Grid { grid, fault }) => Err(MastersFault::Grid { grid, fault }),
        Err(PlanFault::OutOfMemory) => Err(MastersFault::OutOfMemory),
    }
}
