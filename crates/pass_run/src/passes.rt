//! The passes of a plan, one after another.

ghost use Rattle.std.specs.Prelude.{◌≡◌, ◌<◌, ◌≤◌, ◌∷◌, ◌++◌, [], false, List, length, All, IfOk, IfErr, IsTrue};
ghost use Rattle.std.specs.Prelude.{MatchResult};
ghost use Rattle.lam_geom.specs.declared.boxes.Axis.{Axis as SomeAxis};
ghost use Rattle.pitch_join.specs.Masters.{ArePlanned};
ghost use Rattle.pass_run.specs.{Layouts.starts_of, Passes.axes_of, Laid.StartsClean, Pruning.PruningLosesNothing};
ghost use Rattle.pass_run.specs.{PassFaults.{AreRefusedInOneWay, RefusesPasses, StopsAtFirst}, Going.IsGoing};
ghost use Rattle.pass_run.specs.{Going.IsCheckedOrExtractedIfLast, OnePass.EndsPasses, PassesOn.ArePassesOn};
ghost use Rattle.pass_run.specs.Slack.{AreGreatestValues, AreTight};
ghost use Rattle.pass_run.specs.declared.passes.PassFault.TheVariants.{OutOfMemory};

use crate::laws::{pruning_loses_nothing, refusals_are_determined};
use crate::pass::{Made, Stop, one_pass};
use crate::step::Step;
use expand::Master;
use lam_geom::Axis;
use lam_io::Gate;
use lam_list::Seq;
use plan_model::Plan;
use rule_table::Tech;
use std::alloc::{AllocError, AllocFailed, Global};
use std::thread::Threads;
use stick_lex::Text;
use sym_items::Coords;
use thiserror::Error;

/// What the passes give.
#[derive(Drop)]
pub struct Passes {
    /// For each master its last layout.
    pub coords: Seq<Coords>,
    /// The passes, in order.
    pub steps: Seq<Step>,
    /// What they report: for each pass its counts, and for each master its size and its critical path.
    pub report: Text,
    /// From `run_passes` nothing; from `passes_with_greatest` an entry for each pass: for the last one on an axis the
    /// greatest values of the joint variables at the far borders that it found, in u, and for the others an empty
    /// list.
    pub greatest_values: Seq<Seq<i64>>,
}

/// Why the passes end. Passes are counted from 1.
#[derive(Debug, Drop, Error)]
pub enum PassFault {
    /// There are more than 4,194,304 inequalities in the list of a pass.
    #[error("too many edges")]
    TooManyEdges { pass: u32 },
    /// The inequalities of a pass have a positive cycle. The report has the texts of the passes before it, the length
    /// of the cycle, and its lines.
    #[error("unsatisfiable")]
    Unsatisfiable { pass: u32, report: Text },
    #[error("out of memory")]
    OutOfMemory,
}

impl From<AllocError> for PassFault {
    ghost from_gives = { λ _ fault. fault ≡ OutOfMemory };

    fn from(_error: AllocError) -> PassFault {
        PassFault::OutOfMemory
    }
}

impl<T: Drop> From<AllocFailed<T>> for PassFault {
    ghost from_gives = { λ _ fault. fault ≡ OutOfMemory };

    fn from(_failed: AllocFailed<T>) -> PassFault {
        PassFault::OutOfMemory
    }
}

// The passes so far: the layouts that they leave, what is recorded of them, what they report, and what is told besides.
#[derive(Drop)]
struct SoFar {
    layouts: Vec<Coords>,
    steps: Vec<Step>,
    report: Vec<u8>,
    greatest_values: Vec<Seq<i64>>,
}

// No passes, over these layouts.
fn none_yet(alloc: Global, layouts: Vec<Coords>) -> SoFar
    ensures layouts { result.layouts.items ≡ layouts.items }
    ensures steps { result.steps.items ≡ [] }
    ensures report { result.report.items ≡ [] }
    ensures greatest_values { result.greatest_values.items ≡ [] }
{
    SoFar {
        layouts,
        steps: Vec::new(alloc),
        report: Vec::new(alloc),
        greatest_values: Vec::new(alloc),
    }
}

// The passes so far and one more, of which something may be told.
fn with_pass(so_far: SoFar, made: Made, with_most: bool) -> Result<SoFar, AllocError>
    ensures layouts { IfOk result (λ s. s.layouts.items ≡ made.layouts.items) }
    ensures steps { IfOk result (λ s. s.steps.items ≡ so_far.steps.items ++ made.step ∷ []) }
    ensures report { IfOk result (λ s. s.report.items ≡ so_far.report.items ++ made.text.items) }
    ensures told { IfOk result (λ s. IsTrue with_most
        → s.greatest_values.items ≡ so_far.greatest_values.items ++ made.most ∷ []) }
    ensures untold { IfOk result (λ s. with_most ≡ false → s.greatest_values.items ≡ so_far.greatest_values.items) }
{
    let SoFar {
        layouts: _,
        mut steps,
        mut report,
        mut greatest_values,
    } = so_far;
    let Made {
        step,
        layouts,
        text,
        most,
    } = made;
    steps.push(step)?;
    report.extend_from_slice(&text)?;
    if with_most {
        greatest_values.push(most)?;
    }
    Ok(SoFar {
        layouts,
        steps,
        report,
        greatest_values,
    })
}

// The report of the passes before one that has a positive cycle, and the text of the cycle.
fn cycle_report(alloc: Global, before: &[u8], text: &[u8]) -> Result<Text, AllocError>
    ensures { IfOk result (λ report. report ≡ before.now ++ text.now) }
{
    let mut report = Vec::from_slice(alloc, before)?;
    report.extend_from_slice(text)?;
    Text::new(alloc, &report)
}

// Whether a pass on this axis is told, before those that come: if it is the last on its axis, and something is to be
// told.
fn is_told(axis: Axis, coming: &[Axis], with_most: bool) -> bool
    ensures last { IsCheckedOrExtractedIfLast with_most coming.now axis result }
    ensures none { with_most ≡ false → result ≡ false }
{
    with_most && !coming.contains(&axis)
}

// The text of the cycle at which a pass stops, or why the passes end there.
fn cycle_at(pass: u32, stop: Stop) -> Result<Vec<u8>, PassFault>
    ensures { MatchResult result (λ text. stop ≡ Stop.Cycle text) (EndsPasses pass stop) }
{
    match stop {
        Stop::TooManyEdges => Err(PassFault::TooManyEdges { pass }),
        Stop::Cycle(text) => Ok(text),
        Stop::OutOfMemory => Err(PassFault::OutOfMemory),
    }
}

// Makes one more pass, on this axis, before those that come. With `with_most` it tells its greatest values if it is
// the last on its axis.
fn next_pass<H: Threads + Sync, G: Gate>(
    rt: &H,
    alloc: Global,
    gate: &G,
    tech: &Tech,
    plan: &Plan,
    masters: &[Master],
    axis: Axis,
    coming: &[Axis],
    split: u32,
    with_most: bool,
    so_far: SoFar,
) -> Result<SoFar, PassFault>
    requires planned { ArePlanned tech.now plan.now masters.now }
    requires split { (1 ≤ split) × (split ≤ 64) }
    requires going { IsGoing tech.now plan.now masters.now with_most (axis ∷ coming.now) so_far }
    requires few { length so_far.steps.items < 16 }
    ensures going { IfOk result (IsGoing tech.now plan.now masters.now with_most coming.now) }
    ensures axes { IfOk result (λ s. axes_of s.steps.items ≡ axes_of so_far.steps.items ++ axis ∷ []) }
    ensures refused { IfErr result (λ fault. (later : List SomeAxis)
        → RefusesPasses tech.now plan.now masters.now (axes_of so_far.steps.items ++ axis ∷ later) fault) }
{
    let told = is_told(axis, coming, with_most);
    let pass = so_far.steps.len() as u32 + 1;
    match one_pass(
        rt,
        alloc,
        gate,
        tech,
        plan,
        masters,
        pass,
        axis,
        &so_far.layouts,
        split,
        told,
    ) {
        Ok(made) => Ok(with_pass(so_far, made, with_most)?),
        Err(stop) => {
            let text = cycle_at(pass, stop)?;
            let report = cycle_report(alloc, &so_far.report, &text)?;
            Err(PassFault::Unsatisfiable { pass, report })
        }
    }
}

// What the passes so far give.
fn given(alloc: Global, so_far: SoFar) -> Result<Passes, AllocError>
    ensures coords { IfOk result (λ p. p.coords ≡ so_far.layouts.items) }
    ensures steps { IfOk result (λ p. p.steps ≡ so_far.steps.items) }
    ensures report { IfOk result (λ p. p.report ≡ so_far.report.items) }
    ensures greatest_values { IfOk result (λ p. p.greatest_values ≡ so_far.greatest_values.items) }
{
    let SoFar {
        layouts,
        steps,
        report,
        greatest_values,
    } = so_far;
    let report = Text::new(alloc, &report)?;
    Ok(Passes {
        coords: Seq::from_vec(layouts),
        steps: Seq::from_vec(steps),
        report,
        greatest_values: Seq::from_vec(greatest_values),
    })
}

// Passes on these axes, as `run_passes` makes them. With `with_most` the last one on each axis tells its greatest
// values.
fn passes_on<H: Threads + Sync, G: Gate>(
    rt: &H,
    alloc: Global,
    gate: &G,
    tech: &Tech,
    plan: &Plan,
    masters: &[Master],
    starts: Vec<Coords>,
    axes: &[Axis],
    split: u32,
    with_most: bool,
) -> Result<Passes, PassFault>
    requires planned { ArePlanned tech.now plan.now masters.now }
    requires clean { All (StartsClean tech.now) masters.now }
    requires starts { starts.items ≡ starts_of tech.now masters.now }
    requires few { length axes.now ≤ 16 }
    requires split { (1 ≤ split) × (split ≤ 64) }
    ensures made { IfOk result (ArePassesOn tech.now plan.now masters.now axes.now) }
    ensures refused { IfErr result (RefusesPasses tech.now plan.now masters.now axes.now) }
    ensures first { IfErr result (StopsAtFirst tech.now plan.now masters.now axes.now) }
    ensures greatest_values { IfOk result (λ p. IsTrue with_most
        → AreGreatestValues tech.now plan.now masters.now (starts_of tech.now masters.now) p.steps
        p.greatest_values) }
    ensures tight { IfOk result (λ p. IsTrue with_most
        → AreTight tech.now plan.now masters.now (starts_of tech.now masters.now) p.steps p.greatest_values) }
    ensures untold { IfOk result (λ p. with_most ≡ false → p.greatest_values ≡ []) }
{
    let mut so_far = none_yet(alloc, starts);
    let mut coming = axes;
    for axis in axes {
        coming = &coming[1..];
        so_far = next_pass(
            rt, alloc, gate, tech, plan, masters, *axis, coming, split, with_most, so_far,
        )?;
    }
    Ok(given(alloc, so_far)?)
}

/// Passes on these axes, one after another, over the start layouts of all masters of a plan, which are clean. Each
/// gives its axis the least values that meet the structure of each master, keep all candidates of the layouts before
/// it apart, and give masters that share a column or a row one size and ports that meet one line; the other axis
/// stays. The caller has made the start layouts, by `starts`. The kept pairs of the masters are found in as many
/// shares as `split` says, each of which passes the gate in each pass; want of memory aside, the answer is the same
/// for every `split` and every gate.
pub fn run_passes<H: Threads + Sync, G: Gate>(
    rt: &H,
    alloc: Global,
    gate: &G,
    tech: &Tech,
    plan: &Plan,
    masters: &[Master],
    starts: Vec<Coords>,
    axes: &[Axis],
    split: u32,
) -> Result<Passes, PassFault>
    requires planned { ArePlanned tech.now plan.now masters.now }
    requires clean { All (StartsClean tech.now) masters.now }
    requires starts { starts.items ≡ starts_of tech.now masters.now }
    requires few { length axes.now ≤ 16 }
    requires split { (1 ≤ split) × (split ≤ 64) }
    ensures made { IfOk result (ArePassesOn tech.now plan.now masters.now axes.now) }
    // pruning loses nothing, whatever the answer
    ensures pruning { PruningLosesNothing tech.now plan.now masters.now }
    ensures refused { IfErr result (RefusesPasses tech.now plan.now masters.now axes.now) }
    // A refusal names the first pass that has no values. No other refusal fits these axes.
    ensures first { IfErr result (StopsAtFirst tech.now plan.now masters.now axes.now) }
    ensures in_one_way { AreRefusedInOneWay tech.now plan.now masters.now axes.now }
    ensures untold { IfOk result (λ p. p.greatest_values ≡ []) }
{
    pruning_loses_nothing(tech, plan, masters);
    refusals_are_determined(tech, plan, masters);
    passes_on(
        rt, alloc, gate, tech, plan, masters, starts, axes, split, false,
    )
}

/// The same passes as those of `run_passes`, of which the last one on each axis also tells the greatest values that
/// the variables could have while its far borders stay, from the inequalities that it has listed.
pub fn passes_with_greatest<H: Threads + Sync, G: Gate>(
    rt: &H,
    alloc: Global,
    gate: &G,
    tech: &Tech,
    plan: &Plan,
    masters: &[Master],
    starts: Vec<Coords>,
    axes: &[Axis],
    split: u32,
) -> Result<Passes, PassFault>
    requires planned { ArePlanned tech.now plan.now masters.now }
    requires clean { All (StartsClean tech.now) masters.now }
    requires starts { starts.items ≡ starts_of tech.now masters.now }
    requires few { length axes.now ≤ 16 }
    requires split { (1 ≤ split) × (split ≤ 64) }
    ensures made { IfOk result (ArePassesOn tech.now plan.now masters.now axes.now) }
    ensures pruning { PruningLosesNothing tech.now plan.now masters.now }
    ensures refused { IfErr result (RefusesPasses tech.now plan.now masters.now axes.now) }
    ensures first { IfErr result (StopsAtFirst tech.now plan.now masters.now axes.now) }
    ensures in_one_way { AreRefusedInOneWay tech.now plan.now masters.now axes.now }
    // how far the variables could move after the last pass on each axis
    ensures greatest_values { IfOk result
        (λ p. AreGreatestValues tech.now plan.now masters.now (starts_of tech.now masters.now) p.steps
        p.greatest_values) }
    ensures tight { IfOk result
        (λ p. AreTight tech.now plan.now masters.now (starts_of tech.now masters.now) p.steps p.greatest_values) }
{
    pruning_loses_nothing(tech, plan, masters);
    refusals_are_determined(tech, plan, masters);
    passes_on(
        rt, alloc, gate, tech, plan, masters, starts, axes, split, true,
    )
}
