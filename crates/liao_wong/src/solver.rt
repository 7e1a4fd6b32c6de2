ghost use Rattle.std.specs.Prelude.{◌≡◌, ◌+◌, ◌^◌, ◌<◌, ◌≤◌, length, All, IfOk, IfSome, IfNone};
ghost use Rattle.round_log.specs.{Orders.NamesEachOnce, Looks.backward_numbers};
ghost use Rattle.edge_index.specs.Runs.{IsIndexOf};
ghost use Rattle.liao_wong.specs.{Held.ArePlaces, Running.{IsEndLog, IsStoppedLog, StartsEmpty}, Sweeping.IsTrimmed};
ghost use Rattle.liao_wong.specs.Worklist.{IsWorklist};

use crate::looks::goes_up;
use crate::raises::Raises;
use crate::rounds::{look_backward, look_forward};
use crate::worklist::{Order, Worklist};
use cons_graph::{Edge, Graph};
use edge_index::EdgeIndex;
use std::alloc::{AllocError, Global};

// The place of each variable in an order of them.
pub fn places_of(alloc: Global, order: &[u32]) -> Result<Vec<u32>, AllocError>
    requires names { NamesEachOnce (length order.now) order.now }
    requires few { length order.now ≤ 2 ^ 17 }
    ensures { IfOk result (λ places. ArePlaces order.now (length order.now) places.items) }
{
    let mut places = vec![in alloc; 0u32; order.len()]?;
    for (i, v) in order.iter().enumerate() {
        places[*v as usize] = i as u32;
    }
    Ok(places)
}

// Sweeps the log where it has a floor, and half as many raises again as the last sweep left; gives how many the last
// one has left, at least the floor.
fn trim(
    alloc: Global,
    raises: &mut Raises,
    floor: Option<usize>,
    left: usize,
) -> Result<usize, AllocError>
    ensures { IfOk result (λ _. IsTrimmed floor raises.old raises.new) }
{
    let Some(floor) = floor else {
        return Ok(left);
    };
    if raises.len() - raises.len() / 3 < left {
        return Ok(left);
    }
    raises.sweep(alloc)?;
    Ok(raises.len().max(floor))
}

// Runs the rounds from the log without a raise until they end, and gives the number of the last one; or until a raise
// stops them, and gives None. With a floor the log is swept between rounds, once it has grown by half. A round costs
// the looks at edges whose tails were raised since the last look at them, and one flag for every 256 edges and
// variables.
pub fn run_rounds(
    alloc: Global,
    raises: &mut Raises,
    g: &Graph,
    order: &Order,
    floor: Option<usize>,
) -> Result<Option<u32>, AllocError>
    requires start { StartsEmpty g.now raises.old }
    requires few { length g.now.edges ≤ 4194304 }
    requires names { NamesEachOnce g.now.vars order.now.variables.now }
    requires places { ArePlaces order.now.variables.now g.now.vars order.now.places.items }
    ensures vars { IfOk result (λ _. raises.new.vars ≡ g.now.vars) }
    ensures ended { IfOk result (λ o. IfSome o (λ rounds.
        IsEndLog g.now order.now.variables.now rounds floor raises.new.raises)) }
    ensures not_many { IfOk result (λ o. IfSome o (λ rounds.
        rounds ≤ length (backward_numbers g.now.edges order.now.variables.now) + 1)) }
    ensures stopped { IfOk result (λ o. IfNone o
        (IsStoppedLog g.now order.now.variables.now raises.new.raises)) }
{
    let index = EdgeIndex::new(alloc, g)?;
    // the first round looks at all edges: each variable is ready, so that its backward edges will wait
    let mut work = Worklist::new(alloc, order.variables.len(), g.edges().len())?;
    run_by(alloc, raises, &mut work, g, &index, order, floor)
}

// The same by a worklist and an index of the edges.
fn run_by(
    alloc: Global,
    raises: &mut Raises,
    work: &mut Worklist,
    g: &Graph,
    index: &EdgeIndex,
    order: &Order,
    floor: Option<usize>,
) -> Result<Option<u32>, AllocError>
    requires start { StartsEmpty g.now raises.old }
    requires few { length g.now.edges ≤ 4194304 }
    requires names { NamesEachOnce g.now.vars order.now.variables.now }
    requires places { ArePlaces order.now.variables.now g.now.vars order.now.places.items }
    requires index { IsIndexOf g.now index.now }
    requires worklist { IsWorklist g.now.edges order.now.variables.now work.old.ready work.old.waiting
        raises.old.raises }
    ensures vars { IfOk result (λ _. raises.new.vars ≡ g.now.vars) }
    ensures ended { IfOk result (λ o. IfSome o (λ rounds.
        IsEndLog g.now order.now.variables.now rounds floor raises.new.raises)) }
    ensures not_many { IfOk result (λ o. IfSome o (λ rounds.
        rounds ≤ length (backward_numbers g.now.edges order.now.variables.now) + 1)) }
    ensures stopped { IfOk result (λ o. IfNone o
        (IsStoppedLog g.now order.now.variables.now raises.new.raises)) }
{
    let mut rounds = 0u32;
    let mut left = floor.unwrap_or(0);
    'rounds: loop {
        look_forward(raises, work, g, index, order)?;
        let before = raises.len();
        if look_backward(raises, work, g, index, order)? {
            return Ok(None);
        }
        rounds += 1;
        if raises.len() == before {
            return Ok(Some(rounds));
        }
        left = trim(alloc, raises, floor, left)?;
    }
}

// How many edges do not go up in the order.
pub fn backward_count(edges: &[Edge], order: &Order) -> u32
    requires places { ArePlaces order.now.variables.now (length order.now.places.items) order.now.places.items }
    requires in_range { All (λ e. (e.from < length order.now.places.items)
        × (e.to < length order.now.places.items)) edges.now }
    requires few { length edges.now < 2 ^ 32 }
    ensures { result ≡ length (backward_numbers edges.now order.now.variables.now) }
{
    let mut count = 0u32;
    for edge in edges {
        if !goes_up(edge, &order.places) {
            count += 1;
        }
    }
    count
}
