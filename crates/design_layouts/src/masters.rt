//! The masters of a design, or its refusal.

ghost use Rattle.std.specs.Prelude.{◌≡◌, ◌<◌, ◌≤◌, ◌^◌, All, length, option_map, IfOk, IfErr};
ghost use Rattle.design_sizes.specs.Sizes.{names_in};
ghost use Rattle.stick_text.specs.Writable.{IsWritable};
ghost use Rattle.pitch_join.specs.Masters.{ArePlanned};
ghost use Rattle.master_counts.specs.Parts.{boxes_of_instances, AllStand, HasFewParts, HasPlainName};
ghost use Rattle.design_masters.specs.{Plans.AreMastersOf, Limits.most_boxes};
ghost use Rattle.design_layouts.specs.Plans.{RefusesPlan, grid_name, masters_refusal};
ghost use Rattle.command_files.specs.Refusals.{Refused};

use command_files::{Refusal, Status, What};
use design_masters::{DesignMasters, MastersFault, make_masters};
use fault_lines::{grid_line, stick_line};
use lam_io::Gate;
use rule_table::Tech;
use std::alloc::{AllocError, Global};
use std::thread::Threads;
use stick_text::Design;

// The name of a grid, where it has one.
fn grid_name(design: &Design, grid: u32) -> Option<&[u8]>
    ensures { option_map (λ bytes. bytes.now) result ≡ grid_name design.now grid }
{
    match design.grids.as_slice().get(grid as usize) {
        Some(grid) => match &grid.name {
            Some(name) => Some(name.bytes()),
            None => None,
        },
        None => None,
    }
}

// The refusal of a design that has no masters, and its line.
fn masters_refusal(
    alloc: Global,
    design: &Design,
    fault: MastersFault,
) -> Result<Refusal, AllocError>
    ensures { IfOk result (λ r. r ≡ masters_refusal design.now fault) }
{
    match fault {
        MastersFault::Stick(fault) => Ok(Refusal {
            status: Status::BadSticks(fault),
            line: Some(stick_line(alloc, fault)?),
        }),
        MastersFault::Grid { grid, fault } => Ok(Refusal {
            status: Status::BadGrid { grid, fault },
            line: Some(grid_line(alloc, grid_name(design, grid), fault)?),
        }),
        MastersFault::TooManyItems => Ok(Refusal::from(Status::TooLarge(What::Items))),
        MastersFault::TooManyBoxes => Ok(Refusal::from(Status::TooLarge(What::Boxes))),
        MastersFault::OutOfMemory => Ok(Refusal::from(Status::OutOfMemory)),
    }
}

/// The masters of a design, made in as many shares as `split` says, and the plan of its grids.
pub fn masters_of<H: Threads + Sync, G: Gate>(
    rt: &H,
    alloc: Global,
    gate: &G,
    tech: &Tech,
    design: &Design,
    split: u32,
) -> Result<DesignMasters, Refusal>
    requires writable { IsWritable design.now }
    requires few_names { names_in design.now ≤ 2 ^ 19 }
    requires split { (1 ≤ split) × (split ≤ 64) }
    ensures of_design { IfOk result (λ d. AreMastersOf tech.now design.now d.plan d.masters.items) }
    ensures planned { IfOk result (λ d. ArePlanned tech.now d.plan d.masters.items) }
    ensures plain { IfOk result (λ d. All HasPlainName d.masters.items) }
    ensures stand { IfOk result (λ d. AllStand d.plan d.masters.items) }
    ensures few_parts { IfOk result (λ d. HasFewParts d.plan d.masters.items) }
    ensures few_boxes { IfOk result (λ d. boxes_of_instances d.plan d.masters.items ≤ most_boxes) }
    ensures few { IfOk result (λ d. length d.masters.items < 2 ^ 32) }
    ensures refused { IfErr result (Refused (RefusesPlan tech.now design.now)) }
{
    match make_masters(rt, alloc, gate, tech, design, split) {
        Ok(made) => Ok(made),
        Err(fault) => Err(masters_refusal(alloc, design, fault)?),
    }
}
