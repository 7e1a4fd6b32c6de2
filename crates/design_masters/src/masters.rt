//! The masters of a design: the cells of its plan, with their uses inlined, and their items.

ghost use Rattle.std.specs.Prelude.{◌≡◌, Err, ◌+◌, ◌<◌, ◌≤◌, ◌^◌, All, List, min, length, map, slice_index, sum_by};
ghost use Rattle.std.specs.Prelude.{IfOk, IfErr};
ghost use Rattle.checked_cells.specs.{Counts.{weight_of, boxes_of, capped}, CheckedCell.{cell_of, known_at}};
ghost use Rattle.checked_cells.specs.Tables.{known_of, IsResolved};
ghost use Rattle.expand.specs.{declared.master.Master.Master as SomeMaster, Items.AreItems, Masters.IsMaster};
ghost use Rattle.pitch_join.specs.Masters.{ArePlanned};
ghost use Rattle.plan_model.specs.Rows.{rows_of};
ghost use Rattle.design_sizes.specs.Sizes.{names_in};
ghost use Rattle.stick_text.specs.Writable.{IsWritable};
ghost use Rattle.master_counts.specs.Parts.{boxes_of_instances, AllStand, HasFewParts, HasPlainName, HasShortName};
ghost use Rattle.design_masters.specs.Plans.{AreChosen, AreMastersOf, HasNoMasters, IsLightPlan, IsPlanned};
ghost use Rattle.design_masters.specs.{Plans.{RefusesSize, weights_of}, Limits.{most_items, most_boxes, capped_boxes}};
ghost use Rattle.design_masters.specs.declared.fault.MastersFault.TheVariants.{TooManyItems, TooManyBoxes};

use crate::fault::MastersFault;
use crate::planning::{Planned, plan_of};
use cell_nets::nets;
use checked_cells::Cells;
use cif_read::MOST_BOXES;
use expand::{Master, items_of};
use lam_io::Gate;
use par_phase::map_split;
use plan_model::{Plan, PlanGrid, PlanRow};
use rule_table::Tech;
use std::alloc::{AllocError, Global};
use std::thread::Threads;
use stick_cell::{MOST_ITEMS, ports_are_seen};
use stick_text::Design;

/// The greatest weight of all masters together: their items, limits and uses.
const MAX_ITEMS: u64 = MOST_ITEMS as u64;

/// The most mask boxes of all instances.
const MAX_BOXES: u64 = MOST_BOXES as u64;

/// The masters of a design, and the plan of its grids.
#[derive(Drop)]
pub struct DesignMasters {
    pub plan: Plan,
    pub masters: Vec<Master>,
}

// The weights of all masters together; 65,537 where that is more than 65,536.
fn weight_of_all(cells: &Cells, masters: &[u32]) -> u64
    requires resolved { IsResolved cells.now }
    requires among { All (λ k. k < length (known_of cells.now)) masters.now }
    ensures { result ≡ capped (sum_by (λ k. weight_of (known_at (known_of cells.now) k)) masters.now) }
{
    let mut weight = 0;
    for master in masters {
        weight = (weight + cells.weight(*master)).min(MAX_ITEMS + 1);
    }
    weight
}

// How many mask boxes each master has, none of which is too heavy.
fn boxes_of_each(alloc: Global, cells: &Cells, masters: &[u32]) -> Result<Vec<u64>, AllocError>
    requires resolved { IsResolved cells.now }
    requires among { All (λ k. k < length (known_of cells.now)) masters.now }
    requires light { All (λ k. weight_of (known_at (known_of cells.now) k) ≤ most_items) masters.now }
    ensures value { IfOk result
        (λ boxes. boxes.items ≡ map (λ k. boxes_of (known_at (known_of cells.now) k)) masters.now) }
    ensures few { IfOk result (λ boxes. All (λ n. n ≤ most_items) boxes.items) }
{
    let mut boxes = Vec::new(alloc);
    for master in masters {
        boxes.push(cells.boxes(*master))?;
    }
    Ok(boxes)
}

// So many mask boxes and those of a row; 1,048,577 where there are more than 1,048,576.
fn with_row(boxes: &[u64], row: &PlanRow, before: u64) -> u64
    requires few { All (λ n. n ≤ most_items) boxes.now }
    requires among { All (λ m. m < length boxes.now) row.now.cells }
    requires before { before ≤ most_boxes + 1 }
    ensures value { result ≡ capped_boxes (before + sum_by (slice_index boxes.now) row.now.cells) }
    ensures few { result ≤ most_boxes + 1 }
{
    let mut count = before;
    for master in row.cells.as_slice() {
        count = (count + boxes[*master as usize]).min(MAX_BOXES + 1);
    }
    count
}

// The same with those of a grid.
fn with_grid(boxes: &[u64], grid: &PlanGrid, before: u64) -> u64
    requires few { All (λ n. n ≤ most_items) boxes.now }
    requires among { All (All (λ m. m < length boxes.now)) (rows_of grid.now) }
    requires before { before ≤ most_boxes + 1 }
    ensures value { result ≡ capped_boxes (before + sum_by (sum_by (slice_index boxes.now)) (rows_of grid.now)) }
    ensures few { result ≤ most_boxes + 1 }
{
    let mut count = before;
    for row in grid.rows.as_slice() {
        count = with_row(boxes, row, count);
    }
    count
}

// The mask boxes of all instances; 1,048,577 where there are more than 1,048,576.
fn boxes_of_all(boxes: &[u64], grids: &[PlanGrid]) -> u64
    requires few { All (λ n. n ≤ most_items) boxes.now }
    requires among { All (All (All (λ m. m < length boxes.now))) (map rows_of grids.now) }
    ensures { result ≡ capped_boxes (sum_by (sum_by (sum_by (slice_index boxes.now))) (map rows_of grids.now)) }
{
    let mut count = 0;
    for grid in grids {
        count = with_grid(boxes, grid, count);
    }
    count
}

// A cell with its uses inlined, and its items.
fn master(alloc: Global, tech: &Tech, cells: &Cells, number: u32) -> Result<Master, AllocError>
    requires resolved { IsResolved cells.now }
    requires technology { cells.now.tech ≡ tech.now }
    requires within { number < length (known_of cells.now) }
    requires light { weight_of (known_at (known_of cells.now) number) ≤ most_items }
    ensures cell { IfOk result (λ m. m.cell ≡ cell_of (known_at (known_of cells.now) number)) }
    ensures master { IfOk result (IsMaster tech.now) }
{
    let cell = cells.inline(alloc, number)?;
    let nets = nets(alloc, &cell)?;
    let items = items_of(alloc, tech, &cell, &nets)?;
    Ok(Master { cell, items })
}

// The masters that are the cells of these numbers, made in as many shares as `split` says.
fn made<H: Threads + Sync, G: Gate>(
    rt: &H,
    alloc: Global,
    gate: &G,
    tech: &Tech,
    cells: &Cells,
    numbers: &[u32],
    split: u32,
) -> Result<Vec<Master>, AllocError>
    requires resolved { IsResolved cells.now }
    requires technology { cells.now.tech ≡ tech.now }
    requires among { All (λ k. k < length (known_of cells.now)) numbers.now }
    requires light { All (λ k. weight_of (known_at (known_of cells.now) k) ≤ most_items) numbers.now }
    requires split { (1 ≤ split) × (split ≤ 64) }
    ensures cells { IfOk result
        (λ ms. map (λ (m : SomeMaster). m.cell) ms.items ≡ map (λ k. cell_of (known_at (known_of cells.now) k))
        numbers.now) }
    ensures masters { IfOk result (λ ms. All (IsMaster tech.now) ms.items) }
{
    let make = |number: &u32| -> Result<Master, AllocError>
        requires { IsResolved cells.now × (cells.now.tech ≡ tech.now) × (number.now < length (known_of cells.now))
            × (weight_of (known_at (known_of cells.now) number.now) ≤ most_items) }
        ensures { IfOk result (λ m. (m.cell ≡ cell_of (known_at (known_of cells.entry.now) number.entry.now))
            × IsMaster tech.entry.now m) }
    { master(alloc, tech, cells, *number) };
    map_split(rt, alloc, gate, numbers, split, &make)
}

// Sees that the masters with these numbers have no more items than there may be. Takes no memory.
fn check_items(cells: &Cells, numbers: &[u32]) -> Result<(), MastersFault>
    requires resolved { IsResolved cells.now }
    requires among { All (λ k. k < length (known_of cells.now)) numbers.now }
    ensures few { IfOk result
        (λ done. sum_by (λ k. weight_of (known_at (known_of cells.now) k)) numbers.now ≤ most_items) }
    ensures many { IfErr result
        (λ r. (most_items < sum_by (λ k. weight_of (known_at (known_of cells.now) k)) numbers.now)
        × (r ≡ TooManyItems)) }
{
    if weight_of_all(cells, numbers) > MAX_ITEMS {
        return Err(MastersFault::TooManyItems);
    }
    Ok(())
}

// Sees that all instances have no more mask boxes than there may be, of which each master has so many. Takes no memory.
fn check_boxes(boxes: &[u64], grids: &[PlanGrid]) -> Result<(), MastersFault>
    requires few { All (λ n. n ≤ most_items) boxes.now }
    requires among { All (All (All (λ m. m < length boxes.now))) (map rows_of grids.now) }
    ensures few { IfOk result
        (λ done. sum_by (sum_by (sum_by (slice_index boxes.now))) (map rows_of grids.now) ≤ most_boxes) }
    ensures many { IfErr result
        (λ r. (most_boxes < sum_by (sum_by (sum_by (slice_index boxes.now))) (map rows_of grids.now))
        × (r ≡ TooManyBoxes)) }
{
    if boxes_of_all(boxes, grids) > MAX_BOXES {
        return Err(MastersFault::TooManyBoxes);
    }
    Ok(())
}

// Sees that a plan has neither too many items nor too many mask boxes.
fn check_size(alloc: Global, cells: &Cells, plan: &Plan) -> Result<(), MastersFault>
    requires resolved { IsResolved cells.now }
    requires chosen { AreChosen (known_of cells.now) plan.now }
    ensures light { IfOk result (λ done. IsLightPlan (known_of cells.now) plan.now) }
    ensures refused { IfErr result (RefusesSize (known_of cells.now) plan.now) }
    ensures heavy { most_items < weights_of (known_of cells.now) plan.now → result ≡ Err TooManyItems }
{
    let numbers = plan.masters.as_slice();
    check_items(cells, numbers)?;
    let boxes = boxes_of_each(alloc, cells, numbers)?;
    check_boxes(&boxes, plan.grids.as_slice())
}

// The masters of a design that has a plan, made in as many shares as `split` says.
fn masters_of<H: Threads + Sync, G: Gate>(
    rt: &H,
    alloc: Global,
    gate: &G,
    tech: &Tech,
    design: &Design,
    planned: &Planned,
    split: u32,
) -> Result<Vec<Master>, MastersFault>
    requires resolved { IsResolved planned.now.cells }
    requires of { (planned.now.cells.tech ≡ tech.now) × (planned.now.cells.design.now ≡ design.now) }
    requires planned { IsPlanned tech.now design.now (known_of planned.now.cells) planned.now.plan }
    requires split { (1 ≤ split) × (split ≤ 64) }
    ensures of_design { IfOk result (λ ms. AreMastersOf tech.now design.now planned.now.plan ms.items) }
    ensures planned { IfOk result (λ ms. ArePlanned tech.now planned.now.plan ms.items) }
    ensures named { IfOk result (λ ms. All HasShortName ms.items) }
    ensures plain { IfOk result (λ ms. All HasPlainName ms.items) }
    ensures stand { IfOk result (λ ms. AllStand planned.now.plan ms.items) }
    ensures refused { IfErr result (HasNoMasters tech.now design.now) }
{
    check_size(alloc, &planned.cells, &planned.plan)?;
    ports_are_seen();
    let numbers = planned.plan.masters.as_slice();
    Ok(made(rt, alloc, gate, tech, &planned.cells, numbers, split)?)
}

/// The masters of a design, read and made in as many shares as `split` says, and the plan of its grids.
pub fn make_masters<H: Threads + Sync, G: Gate>(
    rt: &H,
    alloc: Global,
    gate: &G,
    tech: &Tech,
    design: &Design,
    split: u32,
) -> Result<DesignMasters, MastersFault>
    requires writable { IsWritable design.now }
    requires few_names { names_in design.now ≤ 2 ^ 19 }
    requires split { (1 ≤ split) × (split ≤ 64) }
    ensures of_design { IfOk result (λ d. AreMastersOf tech.now design.now d.plan d.masters.items) }
    ensures planned { IfOk result (λ d. ArePlanned tech.now d.plan d.masters.items) }
    ensures plain { IfOk result (λ d. All HasPlainName d.masters.items) }
    ensures stand { IfOk result (λ d. AllStand d.plan d.masters.items) }
    ensures few_parts { IfOk result (λ d. HasFewParts d.plan d.masters.items) }
    ensures few_boxes { IfOk result (λ d. boxes_of_instances d.plan d.masters.items ≤ most_boxes) }
    ensures few { IfOk result (λ d. length d.masters.items < 2 ^ 32) }
    ensures refused { IfErr result (HasNoMasters tech.now design.now) }
{
    let planned = plan_of(rt, alloc, tech, design, split)?;
    let masters = masters_of(rt, alloc, gate, tech, design, &planned, split)?;
    let Planned { cells: _, plan } = planned;
    Ok(DesignMasters { plan, masters })
}
