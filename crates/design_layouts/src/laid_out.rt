//! Designs that are laid out whole, from their cells to the last layouts of their masters.

ghost use Rattle.std.specs.Prelude.{◌≡◌, ◌<◌, ◌≤◌, ◌^◌, length, IfOk, IfErr, IsTrue};
ghost use Rattle.lam_geom.specs.declared.boxes.Axis.TheVariants.{X, Y};
ghost use Rattle.rule_table.specs.Technology.{widest_of};
ghost use Rattle.sym_items.specs.Layouts.{size_in};
ghost use Rattle.plan_model.specs.Plan.{grids_of};
ghost use Rattle.pitch_join.specs.Masters.{ArePlanned};
ghost use Rattle.mask_out.specs.Pictures.{HaveBoxes, IsDrawable};
ghost use Rattle.pass_run.specs.{Layouts.starts_of, Slack.{AreGreatestValues, AreTight}};
ghost use Rattle.design_sizes.specs.Sizes.{names_in};
ghost use Rattle.stick_text.specs.Writable.{IsWritable};
ghost use Rattle.design_masters.specs.Plans.{AreMastersOf};
ghost use Rattle.master_counts.specs.Parts.{HasFewParts};
ghost use Rattle.command_files.specs.{Limits.most_passes, Refusals.Refused};
ghost use Rattle.design_layouts.specs.Designs.{ArePlaced, HasBothAxes, RefusesDesign, last_layouts, passes_text};

use crate::layout::lay_out;
use crate::masters::masters_of;
use command_files::Refusal;
use design_masters::DesignMasters;
use expand::Master;
use lam_geom::Axis;
use lam_io::Gate;
use pass_run::Passes;
use plan_model::Plan;
use rule_table::Tech;
use std::alloc::Global;
use std::thread::Threads;
use stick_text::Design;

/// The masters of a design, and the passes that lay them out.
#[derive(Drop)]
pub struct LaidOut {
    pub plan: Plan,
    pub masters: Vec<Master>,
    pub passes: Passes,
}

/// A design laid out by passes on these axes, with the work on the masters in as many shares as `split` says. With
/// `with_most` the last pass on each axis tells the greatest values at its far borders.
pub fn layout_of<H: Threads + Sync, G: Gate>(
    rt: &H,
    alloc: Global,
    gate: &G,
    tech: &Tech,
    design: &Design,
    axes: &[Axis],
    split: u32,
    with_most: bool,
) -> Result<LaidOut, Refusal>
    requires writable { IsWritable design.now }
    requires few_names { names_in design.now ≤ 2 ^ 19 }
    requires both { HasBothAxes axes.now }
    requires few { length axes.now ≤ most_passes }
    requires split { (1 ≤ split) × (split ≤ 64) }
    ensures masters { IfOk result (λ laid. AreMastersOf tech.now design.now laid.plan laid.masters.items) }
    ensures planned { IfOk result (λ laid. ArePlanned tech.now laid.plan laid.masters.items) }
    ensures few_parts { IfOk result (λ laid. HasFewParts laid.plan laid.masters.items) }
    ensures few_masters { IfOk result (λ laid. length laid.masters.items < 2 ^ 32) }
    ensures placed { IfOk result (λ laid. ArePlaced tech.now laid.plan laid.masters.items axes.now laid.passes.steps) }
    ensures last { IfOk result
        (λ laid. laid.passes.coords ≡ last_layouts tech.now laid.masters.items laid.passes.steps) }
    ensures report { IfOk result
        (λ laid. laid.passes.report ≡ passes_text tech.now laid.plan laid.masters.items laid.passes.steps) }
    ensures boxes { IfOk result (λ laid. HaveBoxes laid.passes.coords laid.masters.items) }
    ensures counted { IfOk result (λ laid. length laid.passes.coords ≡ length laid.masters.items) }
    ensures drawable { IfOk result
        (λ laid. IsDrawable (size_in X laid.passes.coords) (size_in Y laid.passes.coords) (widest_of tech.now)
        (grids_of laid.plan)) }
    ensures greatest_values { IfOk result (λ laid. IsTrue with_most
        → AreGreatestValues tech.now laid.plan laid.masters.items (starts_of tech.now laid.masters.items)
        laid.passes.steps laid.passes.greatest_values) }
    ensures tight { IfOk result (λ laid. IsTrue with_most
        → AreTight tech.now laid.plan laid.masters.items (starts_of tech.now laid.masters.items) laid.passes.steps
        laid.passes.greatest_values) }
    ensures refused { IfErr result (Refused (RefusesDesign tech.now axes.now design.now)) }
{
    let made = masters_of(rt, alloc, gate, tech, design, split)?;
    let (plan, masters) = (&made.plan, &made.masters);
    let passes = lay_out(rt, alloc, gate, tech, plan, masters, axes, split, with_most)?;
    let DesignMasters { plan, masters } = made;
    Ok(LaidOut {
        plan,
        masters,
        passes,
    })
}
