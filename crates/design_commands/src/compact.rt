//! The compaction of a design: the texts of its masks and of its passes.

ghost use Rattle.std.specs.Prelude.{◌≡◌, ◌≤◌, ◌^◌, All, length, map, IfOk, IfErr};
ghost use Rattle.design_sizes.specs.Sizes.{names_in};
ghost use Rattle.stick_text.specs.Writable.{IsWritable};
ghost use Rattle.lam_geom.specs.declared.boxes.Axis.TheVariants.{X, Y};
ghost use Rattle.rule_table.specs.Technology.{widest_of};
ghost use Rattle.sym_items.specs.Layouts.{size_in};
ghost use Rattle.plan_model.specs.Plan.{grids_of, AreOfMasters};
ghost use Rattle.mask_out.specs.Pictures.{HaveBoxes, IsDrawable};
ghost use Rattle.command_files.specs.{Limits.most_passes, Refusals.Refused, Outputs.text_of};
ghost use Rattle.design_layouts.specs.Designs.{HasBothAxes, RefusesDesign, last_layouts, masks_parts, masks_text};
ghost use Rattle.design_commands.specs.Compact.{CompactsTo, AreMasksIn};
ghost use Rattle.master_counts.specs.Parts.{HasShortName};
ghost use Rattle.cif_text.specs.Cutting.{AreCut};

use cif_text::cif_chunks;
use command_files::{Output, Refusal};
use design_layouts::{LaidOut, layout_of};
use expand::Master;
use lam_geom::Axis;
use lam_io::Gate;
use mask_out::picture;
use pass_run::Passes;
use plan_model::Plan;
use rule_table::Tech;
use std::alloc::{AllocError, AllocFailed, Global};
use std::thread::Threads;
use stick_text::Design;

// The texts of masters that are laid out: their symbols, the calls of all instances with the end, and the report of the
// passes. The symbols are made and written in so many shares.
fn written<H: Threads + Sync, G: Gate>(
    rt: &H,
    alloc: Global,
    gate: &G,
    tech: &Tech,
    plan: &Plan,
    masters: &[Master],
    passes: Passes,
    split: u32,
) -> Result<Output, AllocError>
    requires last { passes.coords ≡ last_layouts tech.now masters.now passes.steps }
    requires counted { length passes.coords ≡ length masters.now }
    requires boxes { HaveBoxes passes.coords masters.now }
    requires named { All HasShortName masters.now }
    requires few_masters { length masters.now ≤ 256 }
    requires of_masters { All (AreOfMasters (length masters.now)) (grids_of plan.now) }
    requires drawable { IsDrawable (size_in X passes.coords) (size_in Y passes.coords) (widest_of tech.now)
        (grids_of plan.now) }
    requires split { (1 ≤ split) × (split ≤ 64) }
    ensures masks { IfOk result (λ output. text_of output ≡ masks_text tech.now plan.now masters.now passes.steps) }
    ensures chunks { IfOk result
        (λ output. AreCut (masks_parts tech.now plan.now masters.now passes.steps)
        (map (λ chunk. chunk.items) output.chunks.items)) }
    ensures report { IfOk result (λ output. output.report ≡ passes.report) }
{
    let picture = picture(
        rt,
        alloc,
        tech,
        plan,
        masters,
        passes.coords.as_slice(),
        split,
    )?;
    Ok(Output {
        chunks: cif_chunks(rt, alloc, gate, tech, &picture, split)?,
        report: passes.report,
    })
}

/// The masks of the grids of a design, by the numbers of a technology and passes on these axes, and the report of the
/// passes.
pub fn compact<H: Threads + Sync, G: Gate>(
    rt: &H,
    alloc: Global,
    gate: &G,
    tech: &Tech,
    design: &Design,
    axes: &[Axis],
    split: u32,
) -> Result<Output, Refusal>
    requires writable { IsWritable design.now }
    requires few_names { names_in design.now ≤ 2 ^ 19 }
    requires both { HasBothAxes axes.now }
    requires few { length axes.now ≤ most_passes }
    requires split { (1 ≤ split) × (split ≤ 64) }
    ensures done { IfOk result (λ output. CompactsTo tech.now axes.now design.now (text_of output) output.report) }
    ensures chunks { IfOk result
        (λ output. AreMasksIn tech.now axes.now design.now (map (λ chunk. chunk.items) output.chunks.items)) }
    ensures refused { IfErr result (Refused (RefusesDesign tech.now axes.now design.now)) }
{
    let laid = layout_of(rt, alloc, gate, tech, design, axes, split, false)?;
    let LaidOut {
        plan,
        masters,
        passes,
    } = laid;
    Ok(written(rt, alloc, gate, tech, &plan, &masters, passes, split)?)
}
