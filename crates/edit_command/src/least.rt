//! The least layouts of masters, by a first pass that is kept while limits come and go.

ghost use Rattle.std.specs.Prelude.{◌≡◌, All, IfOk, IfSome, OnOk};
ghost use Rattle.pitch_join.specs.Masters.{ArePlanned};
ghost use Rattle.pass_run.specs.{Laid.StartsClean, Layouts.starts_of};
ghost use Rattle.first_pass.specs.First.{IsFirstPass};
ghost use Rattle.edit_command.specs.Edits.{AreLeastLayouts};

use expand::Master;
use extents::check_extent;
use first_pass::FirstPass;
use lam_geom::Axis;
use lam_io::Gate;
use pass_run::further_passes;
use plan_model::Plan;
use rule_table::Tech;
use std::alloc::{AllocError, Global};
use std::thread::Threads;
use sym_items::Coords;

/// The masters of a design and the plan of its grids, and the start layouts of the masters.
#[derive(Drop)]
pub struct Started {
    pub plan: Plan,
    pub masters: Vec<Master>,
    pub starts: Vec<Coords>,
}

/// The first of the passes on these axes, of masters whose start layouts are clean, to be kept. There may be none.
/// The only refusal is want of memory.
pub fn first_of<H: Threads + Sync, G: Gate>(
    rt: &H,
    alloc: Global,
    gate: &G,
    tech: &Tech,
    start: Started,
    axes: &[Axis],
) -> Result<Option<FirstPass>, AllocError>
    requires planned { ArePlanned tech.now start.plan start.masters.items }
    requires starts { start.starts.items ≡ starts_of tech.now start.masters.items }
    requires clean { All (StartsClean tech.now) start.masters.items }
    ensures { IfOk result (λ o. IfSome o (IsFirstPass tech.now)) }
{
    let Started {
        plan,
        masters,
        starts,
    } = start;
    match axes.first() {
        Some(axis) => FirstPass::new(rt, alloc, gate, tech, plan, masters, starts, *axis),
        None => Ok(None),
    }
}

// The least layouts of the masters of a plan, whose first pass is this one; None where it is not, where a pass has no
// values, or where the layouts are too large together.
fn by_first<H: Threads + Sync, G: Gate>(
    rt: &H,
    alloc: Global,
    gate: &G,
    tech: &Tech,
    plan: &Plan,
    masters: &[Master],
    axes: &[Axis],
    first: &mut FirstPass,
) -> Result<Option<Vec<Coords>>, AllocError>
    requires planned { ArePlanned tech.now plan.now masters.now }
    requires first { IsFirstPass tech.now first.old }
    ensures first { OnOk result (IsFirstPass tech.now first.new) }
    ensures least { IfOk result
        (λ o. IfSome o (λ layouts. AreLeastLayouts tech.now plan.now masters.now axes.now layouts.items)) }
{
    let Some((axis, later)) = axes.split_first() else {
        return Ok(None);
    };
    if first.axis != *axis {
        return Ok(None);
    }
    let Some(before) = first.layouts(alloc, tech, plan, masters)? else {
        return Ok(None);
    };
    let Some(layouts) = further_passes(rt, alloc, gate, tech, plan, masters, later, before)? else {
        return Ok(None);
    };
    match check_extent(tech, plan, &layouts) {
        Ok(()) => Ok(Some(layouts)),
        Err(_) => Ok(None),
    }
}

/// The least layouts of the masters of a plan by the first pass that is kept; None where there is none, or where it
/// does not give them. It costs what the other passes cost, and what the limits do that have come and gone. The only
/// refusal is want of memory.
pub fn kept_layouts<H: Threads + Sync, G: Gate>(
    rt: &H,
    alloc: Global,
    gate: &G,
    tech: &Tech,
    plan: &Plan,
    masters: &[Master],
    axes: &[Axis],
    first: &mut Option<FirstPass>,
) -> Result<Option<Vec<Coords>>, AllocError>
    requires planned { ArePlanned tech.now plan.now masters.now }
    requires first { IfSome first.old (IsFirstPass tech.now) }
    ensures first { OnOk result (IfSome first.new (IsFirstPass tech.now)) }
    ensures least { IfOk result
        (λ o. IfSome o (λ layouts. AreLeastLayouts tech.now plan.now masters.now axes.now layouts.items)) }
{
    match first {
        Some(first) => by_first(rt, alloc, gate, tech, plan, masters, axes, first),
        None => Ok(None),
    }
}
