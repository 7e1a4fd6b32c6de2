//! Passes of which nothing is recorded but the layouts to which they lead.

ghost use Rattle.std.specs.Prelude.{◌≡◌, ◌++◌, ℤ, List, All, IfNone, IfOk, IfSome, MatchResult};
ghost use Rattle.lam_geom.specs.declared.boxes.Axis.{Axis as SomeAxis};
ghost use Rattle.liao_wong.specs.Answers.{IsWithinLimit};
ghost use Rattle.pitch_join.specs.{Masters.ArePlanned, Joined.bases_of};
ghost use Rattle.pass_run.specs.{Laid.{AreLaidOut, AreSettled}, Least.{AreLeastValues, LeadNowhere, LeadTo}};
ghost use Rattle.pass_run.specs.{Least.StaySettled, Layouts.with_values, OnePass.HasNoValues};

use crate::laws::masters_are_lawful;
use crate::layouts::with_parts;
use crate::pass::{Stop, one_pass};
use expand::Master;
use lam_geom::Axis;
use lam_io::Gate;
use plan_model::Plan;
use rule_table::Tech;
use std::alloc::{AllocError, Global};
use std::thread::Threads;
use sym_items::Coords;

/// The layouts after a pass on an axis whose least values these are, in u: `base` has the number of each master's
/// first joint variable beside the origin. The only refusal is want of memory.
pub fn with_values(
    alloc: Global,
    tech: &Tech,
    plan: &Plan,
    masters: &[Master],
    before: &[Coords],
    base: &[u32],
    axis: Axis,
    x: &[i64],
) -> Result<Vec<Coords>, AllocError>
    requires planned { ArePlanned tech.now plan.now masters.now }
    requires laid { AreLaidOut tech.now masters.now before.now }
    requires bases { base.now ≡ bases_of axis masters.now }
    requires least { AreLeastValues tech.now plan.now masters.now before.now axis x.now }
    requires small { All IsWithinLimit x.now }
    ensures value { IfOk result (λ layouts. layouts.items ≡ with_values axis masters.now before.now x.now) }
    ensures settled { IfOk result (λ layouts. StaySettled tech.now plan.now masters.now before.now axis layouts.items) }
{
    masters_are_lawful(tech, masters);
    with_parts(alloc, tech, masters, before, base, axis, x)
}

// Hands on want of memory; else the pass that stops has no values.
fn unless_no_values(stop: Stop) -> Result<(), AllocError>
    ensures { MatchResult result (λ _. HasNoValues stop) (λ _. stop ≡ Stop.OutOfMemory) }
{
    match stop {
        Stop::TooManyEdges | Stop::Cycle(_) => Ok(()),
        Stop::OutOfMemory => Err(AllocError),
    }
}

// The layouts to which one pass leads; None where it has no values.
fn next_layouts<H: Threads + Sync, G: Gate>(
    rt: &H,
    alloc: Global,
    gate: &G,
    tech: &Tech,
    plan: &Plan,
    masters: &[Master],
    axis: Axis,
    before: &[Coords],
) -> Result<Option<Vec<Coords>>, AllocError>
    requires planned { ArePlanned tech.now plan.now masters.now }
    requires laid { AreLaidOut tech.now masters.now before.now }
    ensures least { IfOk result
        (λ o. IfSome o (λ layouts. (x : List ℤ) × AreLeastValues tech.now plan.now masters.now before.now axis x
        × (layouts.items ≡ with_values axis masters.now before.now x)
        × StaySettled tech.now plan.now masters.now before.now axis layouts.items)) }
    ensures none { IfOk result
        (λ o. IfNone o ((x : List ℤ) → AreLeastValues tech.now plan.now masters.now before.now axis x → ⊥)) }
{
    match one_pass(
        rt, alloc, gate, tech, plan, masters, 1, axis, before, 1, false,
    ) {
        Ok(made) => Ok(Some(made.layouts)),
        Err(stop) => {
            unless_no_values(stop)?;
            Ok(None)
        }
    }
}

/// The layouts to which passes on these axes, one after another, lead from some layouts; None where one of them has
/// no values, as its list is too long or its system has a positive cycle. In each pass the kept pairs are found in
/// one share, which passes the gate. The only refusal is want of memory.
pub fn further_passes<H: Threads + Sync, G: Gate>(
    rt: &H,
    alloc: Global,
    gate: &G,
    tech: &Tech,
    plan: &Plan,
    masters: &[Master],
    axes: &[Axis],
    before: Vec<Coords>,
) -> Result<Option<Vec<Coords>>, AllocError>
    requires planned { ArePlanned tech.now plan.now masters.now }
    requires laid { AreLaidOut tech.now masters.now before.items }
    ensures lead { IfOk result
        (λ o. IfSome o (λ layouts. LeadTo tech.now plan.now masters.now axes.now before.items layouts.items)) }
    ensures none { IfOk result (λ o. IfNone o (LeadNowhere tech.now plan.now masters.now axes.now before.items)) }
    ensures laid { IfOk result (λ o. IfSome o (λ layouts. AreLaidOut tech.now masters.now layouts.items)) }
    ensures settled { IfOk result
        (λ o. IfSome o (λ layouts. (had : List SomeAxis) → AreSettled tech.now plan.now masters.now had before.items
        → AreSettled tech.now plan.now masters.now (axes.now ++ had) layouts.items)) }
{
    match axes.split_first() {
        None => Ok(Some(before)),
        Some((axis, later)) => {
            match next_layouts(rt, alloc, gate, tech, plan, masters, *axis, &before)? {
                Some(layouts) => {
                    further_passes(rt, alloc, gate, tech, plan, masters, later, layouts)
                }
                None => Ok(None),
            }
        }
    }
}
