ghost use Rattle.std.specs.Prelude.{◌≡◌, ℕ, ◌+◌, ◌<◌, ◌≤◌, length, All, Some, None, IfOk, IfErr};
ghost use Rattle.round_log.specs.{Looks.{label, backward_numbers}, Logs.{HoldsRaises, IsLogOfRounds, raises_in}};
ghost use Rattle.round_log.specs.{Orders.IsOrder, Rounds.{schedule_of, EndsInRound}};
ghost use Rattle.cons_graph.specs.{SimpleWalks.IsSimplePositiveCycle, Solutions.{IsLeastSolution, value_of}};
ghost use Rattle.cons_graph.specs.Walks.{HasPositiveCycle};
ghost use Rattle.liao_wong.specs.{Answers.{IfCycle, IsCycleOf, IsWithinLimit}, Running.{IsEndedHeld, IsStoppedLog}};
ghost use Rattle.liao_wong.specs.Running.{IsReadOut};

use crate::raises::Raises;
use crate::solver::{backward_count, places_of, run_rounds};
use crate::worklist::Order;
use cons_graph::Graph;
use lam_list::Seq;
use round_log::{Log, cycle_of};
use std::alloc::{AllocError, Global};
use thiserror::Error;

// The floor of `solve_reached`: entries of some 1.5 MB are not swept.
const SWEEP_FLOOR: usize = 32_768;

/// What the rounds leave when they end without a cycle.
#[derive(Drop)]
pub struct Solved {
    /// The least solution: a value for each variable.
    pub x: Seq<i64>,
    /// How many edges are backward in the order.
    pub backward: u32,
    /// The number of the first round whose backward part raises nothing.
    pub rounds: u32,
    /// The raises, in order: all of them, or those that its chains reach.
    pub log: Log,
}

/// Why there is no solution.
#[derive(Debug, Drop, Error)]
pub enum Unsolved {
    /// The edges of a positive cycle: it meets no variable twice and begins at its variable of least number. Comes
    /// exactly where the graph has a positive cycle.
    #[error("a cycle of positive length")]
    Cycle(Seq<u32>),
    #[error("out of memory")]
    OutOfMemory,
}

/// The least solution of a graph's inequalities, by Liao and Wong's rounds (1983) over an order of the variables; or
/// the positive cycle at which they stop.
pub fn solve(alloc: Global, g: &Graph, order: &[u32]) -> Result<Solved, Unsolved>
    requires { IsOrder g.now.vars order.now }
    ensures least { IfOk result (λ s. IsLeastSolution g.now.vars g.now.edges (value_of s.x)) }
    ensures one_each { IfOk result (λ s. length s.x ≡ g.now.vars) }
    ensures small { IfOk result (λ s. All IsWithinLimit s.x) }
    ensures backward { IfOk result (λ s. s.backward ≡ length (backward_numbers g.now.edges order.now)) }
    ensures rounds { IfOk result (λ s. s.rounds ≤ s.backward + 1) }
    ensures log { IfOk result (λ s. HoldsRaises g.now.vars s.log (raises_in s.log)) }
    ensures ended { IfOk result
        (λ s. EndsInRound (schedule_of g.now.edges order.now) s.rounds (raises_in s.log)) }
    ensures labels { IfOk result (λ s. (v : ℕ) → v < g.now.vars
        → label (raises_in s.log) v ≡ Some (value_of s.x v)) }
    ensures no_cycle { IfOk result (λ _. HasPositiveCycle g.now.edges → ⊥) }

    ensures cyclic { IfErr result (λ e. IfCycle e (λ _. HasPositiveCycle g.now.edges)) }
    ensures cycle { IfErr result (λ e. IfCycle e (IsSimplePositiveCycle g.now.edges)) }
    ensures stopped { IfErr result (λ e. IfCycle e (IsCycleOf g.now.edges order.now)) }
{
    solve_with_floor(alloc, g, order, None)
}

/// What `solve` gives, in less memory: between rounds the log drops the raises that no chain from a variable's latest
/// one reaches, once it has grown by half of what it kept the last time. Values, rounds and cycle are those of `solve`,
/// and so are the walks that the log tells. Sweeping costs a constant time a raise; the log holds at most one and a
/// half times the most raises that chains reach, and those of one round, of which there are no more than edges.
pub fn solve_reached(alloc: Global, g: &Graph, order: &[u32]) -> Result<Solved, Unsolved>
    requires { IsOrder g.now.vars order.now }
    ensures least { IfOk result (λ s. IsLeastSolution g.now.vars g.now.edges (value_of s.x)) }
    ensures one_each { IfOk result (λ s. length s.x ≡ g.now.vars) }
    ensures small { IfOk result (λ s. All IsWithinLimit s.x) }
    ensures backward { IfOk result (λ s. s.backward ≡ length (backward_numbers g.now.edges order.now)) }
    ensures rounds { IfOk result (λ s. s.rounds ≤ s.backward + 1) }
    ensures log { IfOk result (λ s. IsLogOfRounds g.now order.now s.rounds s.log) }
    ensures labels { IfOk result (λ s. (v : ℕ) → v < g.now.vars
        → label (raises_in s.log) v ≡ Some (value_of s.x v)) }
    ensures no_cycle { IfOk result (λ _. HasPositiveCycle g.now.edges → ⊥) }

    ensures cyclic { IfErr result (λ e. IfCycle e (λ _. HasPositiveCycle g.now.edges)) }
    ensures cycle { IfErr result (λ e. IfCycle e (IsSimplePositiveCycle g.now.edges)) }
    ensures stopped { IfErr result (λ e. IfCycle e (IsCycleOf g.now.edges order.now)) }
{
    solve_with_floor(alloc, g, order, Some(SWEEP_FLOOR))
}

/// `solve` without a floor, and else `solve_reached` with this one: a log with fewer raises than the floor and half as
/// many again is not swept.
pub fn solve_with_floor(
    alloc: Global,
    g: &Graph,
    order: &[u32],
    floor: Option<usize>,
) -> Result<Solved, Unsolved>
    requires { IsOrder g.now.vars order.now }
    ensures least { IfOk result (λ s. IsLeastSolution g.now.vars g.now.edges (value_of s.x)) }
    ensures one_each { IfOk result (λ s. length s.x ≡ g.now.vars) }
    ensures small { IfOk result (λ s. All IsWithinLimit s.x) }
    ensures backward { IfOk result (λ s. s.backward ≡ length (backward_numbers g.now.edges order.now)) }
    ensures rounds { IfOk result (λ s. s.rounds ≤ s.backward + 1) }
    ensures log { IfOk result (λ s. IsLogOfRounds g.now order.now s.rounds s.log) }
    ensures ended { IfOk result (λ s. floor ≡ None
        → EndsInRound (schedule_of g.now.edges order.now) s.rounds (raises_in s.log)) }
    ensures labels { IfOk result (λ s. (v : ℕ) → v < g.now.vars
        → label (raises_in s.log) v ≡ Some (value_of s.x v)) }
    ensures no_cycle { IfOk result (λ _. HasPositiveCycle g.now.edges → ⊥) }

    ensures cyclic { IfErr result (λ e. IfCycle e (λ _. HasPositiveCycle g.now.edges)) }
    ensures cycle { IfErr result (λ e. IfCycle e (IsSimplePositiveCycle g.now.edges)) }
    ensures stopped { IfErr result (λ e. IfCycle e (IsCycleOf g.now.edges order.now)) }
{
    let edges = g.edges();
    let Ok(places) = places_of(alloc, order) else {
        return Err(Unsolved::OutOfMemory);
    };
    let order = Order {
        variables: order,
        places,
    };
    let backward = backward_count(edges, &order);
    let Ok(mut raises) = Raises::new(alloc, g.vars()) else {
        return Err(Unsolved::OutOfMemory);
    };
    match run_rounds(alloc, &mut raises, g, &order, floor) {
        Err(AllocError) => Err(Unsolved::OutOfMemory),
        Ok(None) => Err(cycle_at(alloc, g, &order, raises)),
        Ok(Some(rounds)) => match read_out(alloc, g, &order, raises, backward, rounds, floor) {
            Ok(solved) => Ok(solved),
            Err(AllocError) => Err(Unsolved::OutOfMemory),
        },
    }
}

// The solution that a log of ended rounds has.
fn read_out(
    alloc: Global,
    g: &Graph,
    order: &Order,
    raises: Raises,
    backward: u32,
    rounds: u32,
    floor: Option<usize>,
) -> Result<Solved, AllocError>
    requires { IsEndedHeld g.now order.now.variables.now rounds floor raises }
    ensures { IfOk result (λ s. IsReadOut g.now order.now.variables.now backward rounds floor
        s.x s.backward s.rounds s.log) }
{
    let x = raises.labels(alloc)?;
    Ok(Solved {
        x: Seq::from_vec(x),
        backward,
        rounds,
        log: raises.into_log(),
    })
}

// The cycle of a log at which the rounds have stopped.
fn cycle_at(alloc: Global, g: &Graph, order: &Order, raises: Raises) -> Unsolved
    requires vars { raises.vars ≡ g.now.vars }
    requires stopped { IsStoppedLog g.now order.now.variables.now raises.raises }
    ensures cycle { IfCycle result (IsSimplePositiveCycle g.now.edges) }
    ensures stopped { IfCycle result (IsCycleOf g.now.edges order.now.variables.now) }
{
    let entry = raises.len() as u64;
    let log = raises.into_log();
    match cycle_of(alloc, g, &log, entry) {
        Ok(cycle) => Unsolved::Cycle(Seq::from_vec(cycle)),
        Err(AllocError) => Unsolved::OutOfMemory,
    }
}
