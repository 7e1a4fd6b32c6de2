//! How far the parts of a design could move at the found sizes.

ghost use Rattle.std.specs.Prelude.{◌≡◌, ℕ, ◌+◌, ◌<◌, ◌≤◌, ◌^◌, Contains, List, length, IfOk, IfErr};
ghost use Rattle.design_sizes.specs.Sizes.{names_in};
ghost use Rattle.stick_text.specs.Writable.{IsWritable};
ghost use Rattle.sym_items.specs.declared.items.Coords.{Coords as SomeCoords};
ghost use Rattle.expand.specs.declared.master.Master.{Master as SomeMaster};
ghost use Rattle.lam_geom.specs.declared.boxes.Axis.{Axis as SomeAxis};
ghost use Rattle.pitch_join.specs.Masters.{ArePlanned};
ghost use Rattle.pass_run.specs.{Layouts.starts_of, Passes.axes_of, Slack.{AreGreatestValues, AreTight, IsLastOn}};
ghost use Rattle.pass_run.specs.Slack.{step_at};
ghost use Rattle.command_files.specs.{declared.status.Status.TheVariants.OutOfMemory, Limits.most_passes};
ghost use Rattle.command_files.specs.Refusals.{Refused};
ghost use Rattle.design_layouts.specs.Designs.{ArePlaced, HasBothAxes, RefusesDesign};
ghost use Rattle.design_commands.specs.Slacks.{HasSlack, HaveSlack, SlacksTo};

use command_files::Refusal;
use design_layouts::{LaidOut, layout_of};
use expand::Master;
use lam_geom::Axis;
use lam_io::Gate;
use pass_run::{Passes, Step};
use plan_model::Plan;
use rule_table::Tech;
use slack_text::axis_slack;
use std::alloc::{AllocError, Global};
use std::thread::Threads;
use stick_text::Design;

// Where the last pass on an axis stands among some passes, from 0 on.
fn last_on(steps: &[Step], axis: Axis) -> usize
    requires { Contains (axes_of steps.now) axis }
    ensures within { result < length steps.now }
    ensures last { (masters : List SomeMaster) (starts : List SomeCoords)
        → (before : List SomeCoords) × IsLastOn masters axis starts steps.now (result + 1) before
        (step_at steps.now result) }
{
    let mut last = 0;
    for at in 0..steps.len() {
        if steps[at].axis == axis {
            last = at;
        }
    }
    last
}

// The text of an axis: how far each part could move after the last pass on it.
fn on_axis(
    alloc: Global,
    tech: &Tech,
    plan: &Plan,
    masters: &[Master],
    passes: &Passes,
    axis: Axis,
) -> Result<Vec<u8>, AllocError>
    requires planned { ArePlanned tech.now plan.now masters.now }
    requires axis { Contains (axes_of passes.now.steps) axis }
    requires few { length passes.now.steps ≤ most_passes }
    requires placed { (axes : List SomeAxis) × ArePlaced tech.now plan.now masters.now axes passes.now.steps }
    requires greatest_values { AreGreatestValues tech.now plan.now masters.now (starts_of tech.now masters.now)
        passes.now.steps passes.now.greatest_values }
    requires tight { AreTight tech.now plan.now masters.now (starts_of tech.now masters.now) passes.now.steps
        passes.now.greatest_values }
    ensures { IfOk result (λ text. HasSlack tech.now plan.now masters.now passes.now.steps axis text.items) }
{
    let steps = passes.steps.as_slice();
    let greatest_values = passes.greatest_values.as_slice();
    let last = last_on(steps, axis);
    let least = steps[last].x.as_slice();
    let most = greatest_values[last].as_slice();
    axis_slack(alloc, axis, last as u32 + 1, masters, least, most)
}

// The texts of both axes, that of y after that of x. The only refusal is want of memory.
fn on_both(alloc: Global, tech: &Tech, laid: &LaidOut) -> Result<Vec<u8>, Refusal>
    requires planned { ArePlanned tech.now laid.now.plan laid.now.masters.items }
    requires both { HasBothAxes (axes_of laid.now.passes.steps) }
    requires few { length laid.now.passes.steps ≤ most_passes }
    requires placed { (axes : List SomeAxis)
        × ArePlaced tech.now laid.now.plan laid.now.masters.items axes laid.now.passes.steps }
    requires greatest_values { let starts = starts_of tech.now laid.now.masters.items in
        AreGreatestValues tech.now laid.now.plan laid.now.masters.items starts
        laid.now.passes.steps laid.now.passes.greatest_values }
    requires tight { let starts = starts_of tech.now laid.now.masters.items in
        AreTight tech.now laid.now.plan laid.now.masters.items starts
        laid.now.passes.steps laid.now.passes.greatest_values }
    ensures done { IfOk result (λ text.
        HaveSlack tech.now laid.now.plan laid.now.masters.items laid.now.passes.steps text.items) }
    ensures refused { IfErr result (λ r. r.status ≡ OutOfMemory) }
{
    let (plan, masters, passes) = (&laid.plan, laid.masters.as_slice(), &laid.passes);
    let mut text = on_axis(alloc, tech, plan, masters, passes, Axis::X)?;
    let on_y = on_axis(alloc, tech, plan, masters, passes, Axis::Y)?;
    text.extend_from_slice(&on_y)?;
    Ok(text)
}

/// For each axis, x and then y, how far each part of the masters of a design could move at the sizes that passes on
/// these axes find.
pub fn slack<H: Threads + Sync, G: Gate>(
    rt: &H,
    alloc: Global,
    gate: &G,
    tech: &Tech,
    design: &Design,
    axes: &[Axis],
) -> Result<Vec<u8>, Refusal>
    requires writable { IsWritable design.now }
    requires few_names { names_in design.now ≤ 2 ^ 19 }
    requires both { HasBothAxes axes.now }
    requires few { length axes.now ≤ most_passes }
    ensures done { IfOk result (λ text. SlacksTo tech.now axes.now design.now text.items) }
    ensures refused { IfErr result (Refused (RefusesDesign tech.now axes.now design.now)) }
{
    let laid = layout_of(rt, alloc, gate, tech, design, axes, 1, true)?;
    on_both(alloc, tech, &laid)
}
