//! What is made before the list of a pass is put together, in shares that run beside each other: the order of the
//! joint variables, the inequalities that hold whatever the layouts, and those of the kept pairs of each master.

ghost use Rattle.std.specs.Prelude.{◌≡◌, ◌∷◌, ℕ, ◌+◌, ◌<◌, ◌≤◌, ◌^◌, length, map, IfOk, slice_index_or};
ghost use Rattle.pitch_join.specs.{Joined.bases_of, Masters.ArePlanned};
ghost use Rattle.pass_run.specs.{Laid.AreLaidOut, Layouts.system_values, OneStep.IsOrderAlong};
ghost use Rattle.pass_run.specs.Ready.{IsOfNumber, IsPrepared, IsReady};
ghost use Rattle.pass_run.specs.declared.ready.Ready.{Ready as SomeReady};

use crate::finding::{Found, find_kept};
use crate::layouts::system_values;
use expand::Master;
use lam_geom::Axis;
use lam_io::Gate;
use liao_wong::sort_order;
use par_phase::map_numbers;
use pitch_join::{Joint, join, number};
use plan_model::Plan;
use rule_table::Tech;
use std::alloc::{AllocError, Global};
use std::thread::Threads;
use sym_items::Coords;

/// What is made before the list of a pass is put together.
#[derive(Drop)]
pub struct Prepared {
    /// The joint variables in order of their values in the layouts.
    pub order: Vec<u32>,
    /// The inequalities that hold whatever the layouts.
    pub joint: Joint,
    /// What is found of each master.
    pub found: Vec<Found>,
}

// One of these.
#[derive(Drop)]
enum Ready {
    Order(Vec<u32>),
    Fixed(Joint),
    Kept(Found),
}

// The joint variables of an axis in order of their values in the layouts.
fn order_along(alloc: Global, axis: Axis, layouts: &[Coords]) -> Result<Vec<u32>, AllocError>
    requires few { length (system_values axis layouts.now) < 2 ^ 32 }
    ensures { IfOk result (λ order. IsOrderAlong axis layouts.now order.items) }
{
    let values = system_values(alloc, axis, layouts)?;
    sort_order(alloc, &values)
}

// What is made as number `number`: first the order, then the inequalities, then what is found of each master. The first
// joint variable of each beside the origin is known.
fn make_one(
    alloc: Global,
    axis: Axis,
    tech: &Tech,
    plan: &Plan,
    masters: &[Master],
    layouts: &[Coords],
    bases: &[u32],
    number: u32,
) -> Result<Ready, AllocError>
    requires planned { ArePlanned tech.now plan.now masters.now }
    requires laid { AreLaidOut tech.now masters.now layouts.now }
    requires bases { bases.now ≡ bases_of axis masters.now }
    requires among { number < length masters.now + 2 }
    ensures { IfOk result (IsReady axis tech.now plan.now masters.now layouts.now number) }
{
    match number {
        0 => Ok(Ready::Order(order_along(alloc, axis, layouts)?)),
        1 => Ok(Ready::Fixed(join(alloc, axis, tech, plan, masters)?)),
        _ => {
            let m = number as usize - 2;
            let found = find_kept(alloc, axis, tech, bases[m], &masters[m], &layouts[m])?;
            Ok(Ready::Kept(found))
        }
    }
}

// All of it, out of the list in which it was made.
fn taken_apart(alloc: Global, mut ready: Vec<Ready>) -> Result<Prepared, AllocError>
    requires first { 2 ≤ length ready.items }
    requires each { (k : ℕ) (d : SomeReady) → k < length ready.items → IsOfNumber k (slice_index_or ready.items k d) }
    ensures { IfOk result (λ all. ready.items ≡ Ready.Order all.order ∷ (Ready.Fixed all.joint
        ∷ map Ready.Kept all.found.items)) }
{
    let Ready::Order(order) = ready.remove(0) else {
        unreachable!();
    };
    let Ready::Fixed(joint) = ready.remove(0) else {
        unreachable!();
    };
    let mut all_found = Vec::with_capacity(alloc, ready.len())?;
    for one in ready {
        let Ready::Kept(found) = one else {
            unreachable!();
        };
        all_found.push(found)?;
    }
    Ok(Prepared {
        order,
        joint,
        found: all_found,
    })
}

/// What is made before the list of a pass over some layouts is put together, in as many shares as `split` says. The
/// only refusal is want of memory.
pub fn prepare<H: Threads + Sync, G: Gate>(
    rt: &H,
    alloc: Global,
    gate: &G,
    axis: Axis,
    tech: &Tech,
    plan: &Plan,
    masters: &[Master],
    layouts: &[Coords],
    split: u32,
) -> Result<Prepared, AllocError>
    requires planned { ArePlanned tech.now plan.now masters.now }
    requires laid { AreLaidOut tech.now masters.now layouts.now }
    requires split { (1 ≤ split) × (split ≤ 64) }
    ensures { IfOk result (IsPrepared axis tech.now plan.now masters.now layouts.now) }
{
    let numbering = number(alloc, axis, tech, masters)?;
    let bases = numbering.base.as_slice();
    let make = |number: &u32| -> Result<Ready, AllocError>
        requires { ArePlanned tech.now plan.now masters.now × AreLaidOut tech.now masters.now layouts.now
            × (bases.now ≡ bases_of axis masters.now) × (number.now < length masters.now + 2) }
        ensures { IfOk result
            (IsReady axis tech.entry.now plan.entry.now masters.entry.now layouts.entry.now number.entry.now) }
    { make_one(alloc, axis, tech, plan, masters, layouts, bases, *number) };
    let made = map_numbers(rt, alloc, gate, masters.len() as u32 + 2, split, &make)?;
    taken_apart(alloc, made)
}
