//! Masters laid out together: their passes, and that they are within the extent.

ghost use Rattle.std.specs.Prelude.{◌≡◌, ◌<◌, ◌≤◌, ◌^◌, All, length, IfOk, IfErr, IsTrue};
ghost use Rattle.lam_geom.specs.declared.boxes.Axis.TheVariants.{X, Y};
ghost use Rattle.plan_model.specs.Plan.{grids_of};
ghost use Rattle.expand.specs.Masters.{IsMaster};
ghost use Rattle.rule_table.specs.Technology.{widest_of};
ghost use Rattle.sym_items.specs.Layouts.{size_in};
ghost use Rattle.pitch_join.specs.Masters.{ArePlanned};
ghost use Rattle.instance_laws.specs.Rules.{AreFinished};
ghost use Rattle.pass_run.specs.{Clashes.IsStartClash, Laid.StartsClean, Layouts.starts_of, PassFaults.RefusesPasses};
ghost use Rattle.pass_run.specs.{PassesOn.ArePassesOn, Slack.{AreGreatestValues, AreTight}};
ghost use Rattle.mask_out.specs.Pictures.{HaveBoxes, IsDrawable};
ghost use Rattle.design_masters.specs.Limits.{most_boxes};
ghost use Rattle.master_counts.specs.Parts.{HasPlainName, boxes_of_instances, HasFewParts, AllStand};
ghost use Rattle.command_files.specs.{Limits.most_passes, Refusals.Refused, StepLists.{Stops, ends}};
ghost use Rattle.design_layouts.specs.Designs.{ArePlaced, HasBothAxes, RefusesStart, RefusesMasters, clean_starts};
ghost use Rattle.design_layouts.specs.Designs.{last_layouts, passes_text, refusal_of};

use coarse_grid::near_share_a_point;
use command_files::{Refusal, Status, What};
use expand::Master;
use extents::check_extent;
use fault_lines::clash_line;
use instance_laws::{all_keep_spacing, grids_are_aligned};
use lam_geom::Axis;
use lam_io::Gate;
use mask_out::wholes_bound_places;
use masks_meet_rules::boxes_keep_rules;
use pass_run::{PassFault, Passes, passes_with_greatest, run_passes, start_clashes, starts};
use plan_model::Plan;
use rule_table::Tech;
use std::alloc::Global;
use std::thread::Threads;
use sym_items::Coords;
use written_masks::{boxes_are_few, texts_are_short, written_nets_are_the_sticks};

// Sees that the start layout of a master, which has this number, is clean, by its first clash.
fn check_start(
    alloc: Global,
    tech: &Tech,
    master: &Master,
    clash: Option<(u32, u32)>,
    number: u32,
) -> Result<(), Refusal>
    requires master { IsMaster tech.now master.now }
    requires clash { IsStartClash tech.now master.now clash }
    ensures clean { IfOk result (λ _. StartsClean tech.now master.now) }
    ensures refused { IfErr result (Refused (RefusesStart tech.now master.now number)) }
{
    near_share_a_point(tech, master);
    let list = master.items.list.as_slice();
    match clash {
        None => Ok(()),
        Some((a, b)) => {
            let (first, second) = (list[a as usize].owner, list[b as usize].owner);
            let line = clash_line(alloc, &master.cell, first, second)?;
            Err(Refusal {
                status: Status::Clash { cell: number, a, b },
                line: Some(line),
            })
        }
    }
}

/// The start layouts of all masters, which are seen to be clean, whatever passes follow, in as many shares as `split`
/// says.
pub fn check_starts<H: Threads + Sync, G: Gate>(
    rt: &H,
    alloc: Global,
    gate: &G,
    tech: &Tech,
    masters: &[Master],
    split: u32,
) -> Result<Vec<Coords>, Refusal>
    requires masters { All (IsMaster tech.now) masters.now }
    requires few { length masters.now < 2 ^ 32 }
    requires split { (1 ≤ split) × (split ≤ 64) }
    ensures starts { IfOk result (λ layouts. layouts.items ≡ starts_of tech.now masters.now) }
    ensures clean { IfOk result (λ _. All (StartsClean tech.now) masters.now) }
    ensures refused { IfErr result (Refused (Stops (clean_starts tech.now masters.now ends))) }
{
    let layouts = starts(rt, alloc, gate, tech, masters, split)?;
    let clashes = start_clashes(rt, alloc, gate, tech, masters, &layouts, split)?;
    for number in 0..masters.len() {
        let clash = clashes[number];
        check_start(alloc, tech, &masters[number], clash, number as u32)?;
    }
    Ok(layouts)
}

// The passes of the masters of a plan on these axes, of which the last one on each axis tells its greatest values
// with `with_most`.
fn passes_of<H: Threads + Sync, G: Gate>(
    rt: &H,
    alloc: Global,
    gate: &G,
    tech: &Tech,
    plan: &Plan,
    masters: &[Master],
    starts: Vec<Coords>,
    axes: &[Axis],
    split: u32,
    with_most: bool,
) -> Result<Passes, PassFault>
    requires planned { ArePlanned tech.now plan.now masters.now }
    requires clean { All (StartsClean tech.now) masters.now }
    requires starts { starts.items ≡ starts_of tech.now masters.now }
    requires few { length axes.now ≤ most_passes }
    requires split { (1 ≤ split) × (split ≤ 64) }
    ensures made { IfOk result (ArePassesOn tech.now plan.now masters.now axes.now) }
    ensures refused { IfErr result (RefusesPasses tech.now plan.now masters.now axes.now) }
    ensures greatest_values { IfOk result (λ passes. IsTrue with_most
        → AreGreatestValues tech.now plan.now masters.now (starts_of tech.now masters.now) passes.steps
        passes.greatest_values) }
    ensures tight { IfOk result (λ passes. IsTrue with_most
        → AreTight tech.now plan.now masters.now (starts_of tech.now masters.now) passes.steps
        passes.greatest_values) }
{
    if with_most {
        passes_with_greatest(rt, alloc, gate, tech, plan, masters, starts, axes, split)
    } else {
        run_passes(rt, alloc, gate, tech, plan, masters, starts, axes, split)
    }
}

// The refusal of masters whose passes end so.
fn refusal_of(fault: PassFault) -> Refusal
    ensures { result ≡ refusal_of fault }
{
    match fault {
        PassFault::TooManyEdges { pass: _ } => Refusal::from(Status::TooLarge(What::Edges)),
        PassFault::Unsatisfiable { pass, report } => Refusal {
            status: Status::Unsatisfiable { pass },
            line: Some(report),
        },
        PassFault::OutOfMemory => Refusal::from(Status::OutOfMemory),
    }
}

/// Lays out the masters of a plan, by passes on these axes, with the work on the masters in as many shares as `split`
/// says. With `with_most` the last pass on each axis tells the greatest values at its far borders.
pub fn lay_out<H: Threads + Sync, G: Gate>(
    rt: &H,
    alloc: Global,
    gate: &G,
    tech: &Tech,
    plan: &Plan,
    masters: &[Master],
    axes: &[Axis],
    split: u32,
    with_most: bool,
) -> Result<Passes, Refusal>
    requires planned { ArePlanned tech.now plan.now masters.now }
    requires both { HasBothAxes axes.now }
    requires few { length axes.now ≤ most_passes }
    requires split { (1 ≤ split) × (split ≤ 64) }
    requires named { All HasPlainName masters.now }
    requires stand { AllStand plan.now masters.now }
    requires few_parts { HasFewParts plan.now masters.now }
    requires few_boxes { boxes_of_instances plan.now masters.now ≤ most_boxes }
    ensures laid_out { IfOk result (λ passes. ArePlaced tech.now plan.now masters.now axes.now passes.steps) }
    ensures last { IfOk result (λ passes. passes.coords ≡ last_layouts tech.now masters.now passes.steps) }
    ensures report { IfOk result (λ passes. passes.report ≡ passes_text tech.now plan.now masters.now passes.steps) }
    ensures counted { IfOk result (λ passes. length passes.coords ≡ length masters.now) }
    ensures boxes { IfOk result (λ passes. HaveBoxes passes.coords masters.now) }
    ensures finished { IfOk result (λ passes. AreFinished tech.now plan.now masters.now passes.coords) }
    ensures drawable { IfOk result
        (λ passes. IsDrawable (size_in X passes.coords) (size_in Y passes.coords) (widest_of tech.now)
        (grids_of plan.now)) }
    ensures greatest_values { IfOk result (λ passes. IsTrue with_most
        → AreGreatestValues tech.now plan.now masters.now (starts_of tech.now masters.now) passes.steps
        passes.greatest_values) }
    ensures tight { IfOk result (λ passes. IsTrue with_most
        → AreTight tech.now plan.now masters.now (starts_of tech.now masters.now) passes.steps
        passes.greatest_values) }
    ensures refused { IfErr result (Refused (RefusesMasters tech.now plan.now masters.now axes.now)) }
{
    let starts = check_starts(rt, alloc, gate, tech, masters, split)?;
    let passes = match passes_of(
        rt, alloc, gate, tech, plan, masters, starts, axes, split, with_most,
    ) {
        Ok(passes) => passes,
        Err(fault) => return Err(refusal_of(fault)),
    };
    let layouts = passes.coords.as_slice();
    grids_are_aligned(tech, plan, masters, layouts);
    all_keep_spacing(tech, plan, masters, layouts);
    check_extent(tech, plan, layouts)?;
    wholes_bound_places(tech, plan, layouts);
    written_nets_are_the_sticks(tech, plan, masters, layouts);
    boxes_keep_rules(tech, plan, masters, layouts);
    boxes_are_few(tech, plan, masters, layouts);
    texts_are_short(tech, plan, masters, layouts);
    Ok(passes)
}
