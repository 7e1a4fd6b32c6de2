ghost use Rattle.std.specs.Prelude.{◌≡◌, ℕ, ◌<◌, false, length, slice_index, fold, All, IfOk, OnOk};
ghost use Rattle.round_log.specs.{Looks.{look, backward_numbers}, Rounds.{schedule_of, forward_part, backward_part}};
ghost use Rattle.cons_graph.specs.EdgeNumbers.{edge_at, leaving};
ghost use Rattle.edge_index.specs.Runs.{IsIndexOf};
ghost use Rattle.liao_wong.specs.{Going.{IsReady, forward_of, group_of}, Leaving.LeaveFrom, Marked.is_marked};
ghost use Rattle.liao_wong.specs.Worklist.{IsWorklist, BackwardOnesWait, HasLookedForward, HasNoneReady};
ghost use Rattle.liao_wong.specs.Worklist.{HasLookedAtPlace};

use crate::looks::{edge_from, goes_up, raise_along, raise_at};
use crate::raises::Raises;
use crate::worklist::{Order, Worklist};
use cons_graph::{Edge, Graph};
use edge_index::{EdgeIndex, Head};
use std::alloc::AllocError;

// The forward part of a round: looks at the forward edges whose tails are ready, by their tails in order.
pub fn look_forward(
    raises: &mut Raises,
    work: &mut Worklist,
    g: &Graph,
    index: &EdgeIndex,
    order: &Order,
) -> Result<(), AllocError>
    requires ready { IsReady g.now.vars g.now.edges order.now.variables.now
        order.now.places.items raises.old }
    requires index { IsIndexOf g.now index.now }
    requires worklist { IsWorklist g.now.edges order.now.variables.now work.old.ready work.old.waiting
        raises.old.raises }
    ensures part { OnOk result (raises.new ≡ record {
      vars = g.now.vars;
      raises = forward_part (schedule_of g.now.edges order.now.variables.now) raises.old.raises;
    }) }
    ensures worklist { OnOk result (IsWorklist g.now.edges order.now.variables.now work.new.ready work.new.waiting
        raises.new.raises) }
    ensures none_ready { OnOk result (HasNoneReady work.new.ready) }
{
    let mut at = 0;
    while let Some(place) = work.ready.next(at) {
        look_at_place(raises, work, g, index, order, place)?;
        at = place + 1;
    }
    Ok(())
}

// Looks at the forward edges out of the variable at a place, which is then no longer ready, and lets its backward edges
// wait.
fn look_at_place(
    raises: &mut Raises,
    work: &mut Worklist,
    g: &Graph,
    index: &EdgeIndex,
    order: &Order,
    place: usize,
) -> Result<(), AllocError>
    requires in_order { place < length order.now.variables.now }
    requires ready { IsReady g.now.vars g.now.edges order.now.variables.now
        order.now.places.items raises.old }
    requires index { IsIndexOf g.now index.now }
    requires worklist { IsWorklist g.now.edges order.now.variables.now work.old.ready work.old.waiting
        raises.old.raises }
    ensures looks { OnOk result (raises.new ≡ record {
      vars = raises.old.vars;
      raises = fold (look (edge_at g.now.edges)) raises.old.raises
          (group_of g.now.edges order.now.variables.now (slice_index order.now.variables.now place));
    }) }
    ensures worklist { OnOk result (IsWorklist g.now.edges order.now.variables.now work.new.ready work.new.waiting
        raises.new.raises) }
    ensures place { OnOk result (HasLookedAtPlace place work.old.ready work.new.ready) }
{
    let v = order.variables[place];
    look_at_forward(
        raises,
        work,
        g.edges(),
        v,
        index.out_of(v),
        index.heads_out_of(v),
        order,
    )?;
    work.ready.clear(place);
    Ok(())
}

// Looks at those of the edges out of a variable that are forward, and makes the variables ready that they raise. The
// others wait. What an edge is comes from its head: the list is here for what the contract says.
fn look_at_forward(
    raises: &mut Raises,
    work: &mut Worklist,
    edges: &[Edge],
    tail: u32,
    numbers: &[u32],
    heads: &[Head],
    order: &Order,
) -> Result<(), AllocError>
    requires ready { IsReady raises.old.vars edges.now order.now.variables.now
        order.now.places.items raises.old }
    requires leave { LeaveFrom edges.now tail numbers.now heads.now }
    requires worklist { IsWorklist edges.now order.now.variables.now work.old.ready work.old.waiting
        raises.old.raises }
    ensures looks { OnOk result (raises.new ≡ record {
      vars = raises.old.vars;
      raises = fold (look (edge_at edges.now)) raises.old.raises
          (forward_of edges.now order.now.variables.now numbers.now);
    }) }
    ensures worklist { OnOk result (IsWorklist edges.now order.now.variables.now work.new.ready work.new.waiting
        raises.new.raises) }
    ensures waiting { OnOk result (BackwardOnesWait edges.now order.now.variables.now numbers.now
        work.new.waiting) }
    ensures looked { OnOk result (HasLookedForward edges.now order.now.variables.now numbers.now tail
        work.old.ready work.new.ready raises.new.raises) }
{
    for (i, k) in numbers.iter().enumerate() {
        let edge = edge_from(tail, heads[i]);
        if goes_up(&edge, &order.places) {
            if let Some(raise) = raise_along(raises, &edge, *k) {
                raises.push(raise)?;
                work.ready.set(order.place(raise.var));
            }
        } else {
            work.waiting.set(*k as usize);
        }
    }
    Ok(())
}

// The backward part of a round: looks at the backward edges that wait, in list order. Gives whether a raise has its
// variable earlier in its own chain, and stops at the first such raise.
pub fn look_backward(
    raises: &mut Raises,
    work: &mut Worklist,
    g: &Graph,
    index: &EdgeIndex,
    order: &Order,
) -> Result<bool, AllocError>
    requires ready { IsReady g.now.vars g.now.edges order.now.variables.now order.now.places.items raises.old }
    requires index { IsIndexOf g.now index.now }
    requires worklist { IsWorklist g.now.edges order.now.variables.now work.old.ready work.old.waiting
        raises.old.raises }
    requires none_ready { HasNoneReady work.old.ready }
    ensures vars { OnOk result (raises.new.vars ≡ g.now.vars) }
    ensures part { IfOk result (λ stops. record { raises = raises.new.raises; stopped = stops }
        ≡ backward_part (edge_at g.now.edges)
        (backward_numbers g.now.edges order.now.variables.now) raises.old.raises) }
    ensures worklist { IfOk result (λ stops. stops ≡ false
        → IsWorklist g.now.edges order.now.variables.now work.new.ready work.new.waiting
        raises.new.raises) }
{
    let edges = g.edges();
    let mut at = 0;
    while let Some(k) = work.waiting.next(at) {
        if let Some(raise) = raise_at(raises, edges, k as u32) {
            let stops = raises.comes_back(&raise);
            raises.push(raise)?;
            if stops {
                return Ok(true);
            }
            let v = raise.var;
            work.mark_raised(edges, index.out_of(v), index.heads_out_of(v), order, v);
        }
        work.waiting.clear(k);
        at = k + 1;
    }
    Ok(false)
}
