//! One pass over some layouts.

ghost use Rattle.std.specs.Prelude.{◌≡◌, ◌<◌, ◌≤◌, ◌^◌, [], false, length, All, IfOk, IfErr, IsTrue};
ghost use Rattle.round_log.specs.Logs.{IsEndedLog};
ghost use Rattle.cons_graph.specs.Solutions.{value_of, IsSolution};
ghost use Rattle.liao_wong.specs.Answers.{IsWithinLimit};
ghost use Rattle.expand.specs.Laws.{IsLawful};
ghost use Rattle.pitch_join.specs.{Masters.ArePlanned, Names.system_names, Joined.{bases_of, pruned_system}};
ghost use Rattle.shadow_prune.specs.KeptFaults.{RefusesKept};
ghost use Rattle.pass_run.specs.{declared.pass.Stop.TheVariants.OutOfMemory, Layouts.{system_values, with_values}};
ghost use Rattle.pass_run.specs.{Alike.most_edges, Laid.AreLaidOut, Report.pass_text, OneStep.{step_of, walks_to}};
ghost use Rattle.pass_run.specs.OneStep.{HasPath, IsListedMost, IsListOver, IsOrderAlong, IsSolvedPass, ReachFar};
ghost use Rattle.pass_run.specs.{OneStep.stop_of, OnePass.{IsPassMade, StopsPass}};

use crate::edges::{Listed, ordered_list};
use crate::laws::masters_are_lawful;
use crate::layouts::with_parts;
use crate::step::{Step, Walk};
use crate::text::{cycle_text, pass_text};
use expand::Master;
use lam_geom::Axis;
use lam_io::Gate;
use lam_list::Seq;
use liao_wong::{Solved, Unsolved, solve_reached};
use plan_model::Plan;
use round_log::{Log, walk_to};
use rule_table::Tech;
use shadow_prune::KeptFault;
use slack_pack::most;
use std::alloc::{AllocError, Global};
use std::thread::Threads;
use sym_items::Coords;

/// A pass that was made, the layouts after it, its text in the report, and the greatest values after it, in u, if
/// they are told.
#[derive(Drop)]
pub struct Made {
    pub step: Step,
    pub layouts: Vec<Coords>,
    pub text: Vec<u8>,
    pub most: Seq<i64>,
}

/// Why a pass is not made.
#[derive(Drop)]
pub enum Stop {
    /// There are more than 4,194,304 inequalities in its list.
    TooManyEdges,
    /// Its inequalities have a positive cycle, of which this is the text.
    Cycle(Vec<u8>),
    OutOfMemory,
}

impl From<AllocError> for Stop {
    ghost from_gives = { λ _ stop. stop ≡ OutOfMemory };

    fn from(_error: AllocError) -> Stop {
        Stop::OutOfMemory
    }
}

impl From<KeptFault> for Stop {
    ghost from_gives = { λ fault stop. stop ≡ stop_of fault };

    fn from(fault: KeptFault) -> Stop {
        match fault {
            KeptFault::TooMany => Stop::TooManyEdges,
            KeptFault::OutOfMemory => Stop::OutOfMemory,
        }
    }
}

// The walks that the log of ended rounds has to some far borders.
fn walks_to(alloc: Global, listed: &Listed, log: &Log) -> Result<Vec<Walk>, AllocError>
    requires ended { IsEndedLog listed.now.graph log.now }
    requires among { All (λ far. far < listed.now.graph.vars) listed.now.base }
    ensures value { IfOk result (λ walks. walks.items ≡ walks_to log.now listed.now.base) }
    ensures paths { IfOk result (λ _. All (HasPath listed.now.graph.edges log.now) listed.now.base) }
{
    let mut walks = Vec::new(alloc);
    for far in listed.base.as_slice() {
        let edges = walk_to(alloc, &listed.graph, log, *far)?;
        walks.push(Walk {
            edges: Seq::from_vec(edges),
        })?;
    }
    Ok(walks)
}

// The numbers of kept pairs, and the walks that the log of ended rounds has to the far borders.
fn told_of(alloc: Global, listed: &Listed, log: &Log) -> Result<(Seq<u32>, Seq<Walk>), AllocError>
    requires ended { IsEndedLog listed.now.graph log.now }
    requires among { All (λ far. far < listed.now.graph.vars) listed.now.base }
    ensures kept { IfOk result (λ t. t.0 ≡ listed.now.kept.items) }
    ensures walks { IfOk result (λ t. t.1 ≡ walks_to log.now listed.now.base) }
    ensures paths { IfOk result (λ _. All (HasPath listed.now.graph.edges log.now) listed.now.base) }
{
    let walks = walks_to(alloc, listed, log)?;
    let kept = Vec::from_slice(alloc, &listed.kept)?;
    Ok((Seq::from_vec(kept), Seq::from_vec(walks)))
}

// The step of a solved pass: what the rounds give, and the walks that their log has to the far borders.
fn step_from(alloc: Global, axis: Axis, listed: &Listed, solved: Solved) -> Result<Step, AllocError>
    requires ended { IsEndedLog listed.now.graph solved.log }
    requires among { All (λ far. far < listed.now.graph.vars) listed.now.base }
    ensures value { IfOk result (λ s. s ≡ step_of axis listed.now solved) }
    ensures paths { IfOk result (λ _. All (HasPath listed.now.graph.edges solved.log) listed.now.base) }
{
    let (kept, walks) = told_of(alloc, listed, &solved.log)?;
    Ok(Step {
        axis,
        x: solved.x,
        kept,
        edges: listed.graph.edges().len() as u32,
        backward: solved.backward,
        rounds: solved.rounds,
        walks,
    })
}

// The greatest values of the variables, in u, at the far borders in `x`, if they are to be told, and else nothing.
fn most_of(alloc: Global, told: bool, listed: &Listed, x: &[i64]) -> Result<Seq<i64>, AllocError>
    requires one_each { length x.now ≡ listed.now.graph.vars }
    requires solves { IsSolution listed.now.graph.edges (value_of x.now) }
    requires small { All IsWithinLimit x.now }
    requires among { All (λ far. far < listed.now.graph.vars) listed.now.base }
    requires reach { ReachFar listed.now.graph.vars listed.now.graph.edges listed.now.base }
    ensures most { IfOk result
        (λ y. IsTrue told → IsListedMost listed.now.graph.vars listed.now.graph.edges listed.now.base x.now y) }
    ensures none { IfOk result (λ y. told ≡ false → y ≡ []) }
{
    if told {
        let values = most(alloc, &listed.graph, x, listed.base.as_slice())?;
        Ok(Seq::from_vec(values))
    } else {
        Ok(Seq::from_vec(Vec::new(alloc)))
    }
}

// The layouts after a solved pass, and the greatest values after it, if they are to be told, and else nothing.
fn moved_by(
    alloc: Global,
    tech: &Tech,
    plan: &Plan,
    masters: &[Master],
    before: &[Coords],
    axis: Axis,
    listed: &Listed,
    solved: &Solved,
    told: bool,
) -> Result<(Vec<Coords>, Seq<i64>), AllocError>
    requires planned { ArePlanned tech.now plan.now masters.now }
    requires lawful { All (IsLawful tech.now) masters.now }
    requires laid { AreLaidOut tech.now masters.now before.now }
    requires run { IsSolvedPass axis tech.now plan.now masters.now before.now listed.now solved.now }
    ensures layouts { IfOk result (λ m. m.0.items ≡ with_values axis masters.now before.now solved.now.x) }
    ensures most { IfOk result
        (λ m. IsTrue told → IsListedMost listed.now.graph.vars listed.now.graph.edges listed.now.base solved.now.x
        m.1) }
    ensures none { IfOk result (λ m. told ≡ false → m.1 ≡ []) }
{
    let base = listed.base.as_slice();
    let x = solved.x.as_slice();
    let layouts = with_parts(alloc, tech, masters, before, base, axis, x)?;
    let most = most_of(alloc, told, listed, x)?;
    Ok((layouts, most))
}

// The step of a solved pass, and its text.
fn recorded(
    alloc: Global,
    masters: &[Master],
    pass: u32,
    axis: Axis,
    listed: &Listed,
    solved: Solved,
) -> Result<(Step, Vec<u8>), AllocError>
    requires few { length masters.now < 2 ^ 32 }
    requires bases { listed.now.base ≡ bases_of axis masters.now }
    requires names { listed.now.names ≡ system_names axis masters.now }
    requires named { length listed.now.names ≡ listed.now.graph.vars }
    requires ended { IsEndedLog listed.now.graph solved.log }
    requires among { All (λ far. far < listed.now.graph.vars) listed.now.base }
    ensures step { IfOk result (λ r. r.0 ≡ step_of axis listed.now solved) }
    ensures text { IfOk result (λ r. r.1.items ≡ pass_text masters.now listed.now.graph.edges pass r.0) }
    ensures paths { IfOk result (λ _. All (HasPath listed.now.graph.edges solved.log) listed.now.base) }
{
    let step = step_from(alloc, axis, listed, solved)?;
    let text = pass_text(alloc, masters, listed, pass, &step)?;
    Ok((step, text))
}

// A solved pass, the layouts after it, and its text.
fn made_of(
    alloc: Global,
    tech: &Tech,
    plan: &Plan,
    masters: &[Master],
    before: &[Coords],
    pass: u32,
    axis: Axis,
    listed: &Listed,
    solved: Solved,
    told: bool,
) -> Result<Made, AllocError>
    requires planned { ArePlanned tech.now plan.now masters.now }
    requires lawful { All (IsLawful tech.now) masters.now }
    requires laid { AreLaidOut tech.now masters.now before.now }
    requires run { IsSolvedPass axis tech.now plan.now masters.now before.now listed.now solved }
    ensures axis { IfOk result (λ m. m.step.axis ≡ axis) }
    ensures made { IfOk result (IsPassMade tech.now plan.now masters.now before.now pass told) }
{
    let (layouts, most) = moved_by(
        alloc, tech, plan, masters, before, axis, listed, &solved, told,
    )?;
    let (step, text) = recorded(alloc, masters, pass, axis, listed, solved)?;
    Ok(Made {
        step,
        layouts,
        text,
        most,
    })
}

// The pass with this number, of which this is the list, solved in this order of its variables, or stopped at a cycle.
fn pass_in_order(
    alloc: Global,
    tech: &Tech,
    plan: &Plan,
    masters: &[Master],
    before: &[Coords],
    pass: u32,
    axis: Axis,
    listed: &Listed,
    order: &[u32],
    told: bool,
) -> Result<Made, Stop>
    requires planned { ArePlanned tech.now plan.now masters.now }
    requires lawful { All (IsLawful tech.now) masters.now }
    requires laid { AreLaidOut tech.now masters.now before.now }
    requires listed { IsListOver axis tech.now plan.now masters.now before.now listed.now }
    requires order { IsOrderAlong axis before.now order.now }
    ensures axis { IfOk result (λ m. m.step.axis ≡ axis) }
    ensures made { IfOk result (IsPassMade tech.now plan.now masters.now before.now pass told) }
    ensures stopped { IfErr result (StopsPass tech.now plan.now masters.now before.now pass axis) }
{
    match solve_reached(alloc, &listed.graph, order) {
        Ok(solved) => Ok(made_of(
            alloc, tech, plan, masters, before, pass, axis, listed, solved, told,
        )?),
        Err(Unsolved::Cycle(cycle)) => {
            let text = cycle_text(alloc, listed, pass, axis, cycle.as_slice())?;
            Err(Stop::Cycle(text))
        }
        Err(Unsolved::OutOfMemory) => Err(Stop::OutOfMemory),
    }
}

/// The pass with this number on an axis, over the layouts before it: the least values of the axis for all masters, by
/// Liao and Wong's rounds over the listed inequalities in order of the values before. The kept pairs are found in as
/// many shares as `split` says. With `told` the greatest values after it are told, too.
pub fn one_pass<H: Threads + Sync, G: Gate>(
    rt: &H,
    alloc: Global,
    gate: &G,
    tech: &Tech,
    plan: &Plan,
    masters: &[Master],
    pass: u32,
    axis: Axis,
    before: &[Coords],
    split: u32,
    told: bool,
) -> Result<Made, Stop>
    requires planned { ArePlanned tech.now plan.now masters.now }
    requires laid { AreLaidOut tech.now masters.now before.now }
    requires split { (1 ≤ split) × (split ≤ 64) }
    ensures axis { IfOk result (λ m. m.step.axis ≡ axis) }
    ensures made { IfOk result (IsPassMade tech.now plan.now masters.now before.now pass told) }
    ensures stopped { IfErr result (StopsPass tech.now plan.now masters.now before.now pass axis) }
{
    masters_are_lawful(tech, masters);
    let (order, listed) = ordered_list(rt, alloc, gate, axis, tech, plan, masters, before, split)?;
    pass_in_order(
        alloc, tech, plan, masters, before, pass, axis, &listed, &order, told,
    )
}
