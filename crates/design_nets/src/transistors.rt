//! The transistors of all instances, by the boxes that show them.
ghost use Rattle.std.specs.Prelude.{◌≡◌, ◌<◌, false, All, length, map, IfNone, IfSome, IfOk};
ghost use Rattle.lam_geom.specs.Places.{IsPlacedBox};
ghost use Rattle.rule_table.specs.declared.classes.Class.TheVariants.{Dm};
ghost use Rattle.crossing_model.specs.declared.crossing.Crossing.{Crossing as SomeCrossing};
ghost use Rattle.instance_laws.specs.Sticks.{IsTransistor, AreTransistors};
ghost use Rattle.design_nets.specs.{Pieces.is_fet, Shapes.drawn_in, Transistors.{AreItemsOfNodes, IsFetItem}};
ghost use Rattle.design_nets.specs.Transistors.{IsLaidOut, cell_shown, item_shown};

use crate::channels::channel_at;
use crate::node_items::{NodeItems, items_of_nodes};
use crate::shapes::{Shape, Shapes};
use cell_model::{Axis2, Cell, NodeKind};
use crossing_model::Crossing;
use expand::Master;
use instance_laws::transistors_have_boxes;
use lam_geom::Axis;
use lam_list::Seq;
use mask_out::Call;
use plan_model::Plan;
use rule_table::{Class, Tech};
use std::alloc::{AllocError, Global};
use sym_items::{Coords, Item};

/// A transistor: whether it is a depletion one, and the axis along which its gate runs.
#[derive(Clone, Copy)]
pub struct Fet {
    pub depletion: bool,
    pub axis: Axis,
}

/// The transistors of all instances, in order of the boxes of their diffusion. `calls` has a call of its master for
/// each instance, and `drawn` the items of each master that are boxes. The only refusal is want of memory.
pub fn transistors(
    alloc: Global,
    tech: &Tech,
    plan: &Plan,
    masters: &[Master],
    layouts: &[Coords],
    calls: &[Call],
    drawn: &[Seq<usize>],
    shapes: &Shapes,
) -> Result<Vec<Crossing>, AllocError>
    requires laid_out { IsLaidOut tech.now plan.now masters.now layouts.now calls.now shapes.now }
    requires drawn { drawn.now ≡ map drawn_in masters.now }
    ensures all { IfOk result (λ all. AreTransistors tech.now plan.now masters.now layouts.now all.items) }
    ensures placed { IfOk result (λ all. All (λ (c : SomeCrossing). IsPlacedBox c.channel) all.items) }
{
    transistors_have_boxes(tech, plan, masters, layouts);
    let found = items_of_nodes(alloc, masters, drawn)?;
    let mut all = Vec::new(alloc);
    for k in 0..shapes.all.len() {
        let Shape { instance, item } = shapes.all[k];
        let master = &masters[calls[instance].symbol as usize];
        if let Some(fet) = fet_of(&master.cell, &master.items.list.as_slice()[item]) {
            all.push(transistor_at(
                tech, plan, masters, layouts, calls, shapes, &found, k as u32, fet,
            ))?;
        }
    }
    Ok(all)
}

// The transistor of which box number k shows the diffusion. `found` has the items of the nodes of each master.
fn transistor_at(
    tech: &Tech,
    plan: &Plan,
    masters: &[Master],
    layouts: &[Coords],
    calls: &[Call],
    shapes: &Shapes,
    found: &[NodeItems],
    k: u32,
    fet: Fet,
) -> Crossing
    requires laid_out { IsLaidOut tech.now plan.now masters.now layouts.now calls.now shapes.now }
    requires found { AreItemsOfNodes masters.now found.now }
    requires among { k < length shapes.now.all.items }
    requires fet { IsFetItem (cell_shown plan.now masters.now shapes.now k)
        (item_shown plan.now masters.now shapes.now k)
        fet }
    ensures transistor { IsTransistor tech.now plan.now masters.now layouts.now result }
    ensures diffusion { result.diffusion ≡ k }
    ensures placed { IsPlacedBox result.channel }
{
    transistors_have_boxes(tech, plan, masters, layouts);
    let Shape { instance, item } = shapes.all[k as usize];
    let call = calls[instance];
    let master = call.symbol as usize;
    let items = masters[master].items.list.as_slice();
    let owner = items[item].owner as usize;
    let own = &found[master];
    let channel = &items[own.channels[owner]];
    Crossing {
        poly: shapes.firsts[instance] + own.polys[owner] as u32,
        diffusion: k,
        axis: fet.axis,
        channel: channel_at(tech, channel, &layouts[master], call),
        depletion: fet.depletion,
    }
}

// The transistor of which an item is the diffusion, if it is one's.
fn fet_of(cell: &Cell, item: &Item) -> Option<Fet>
    ensures some { IfSome result (IsFetItem cell.now item.now) }
    ensures none { IfNone result (item.now.class ≡ Dm → is_fet cell.now item.now.owner ≡ false) }
{
    let Class::Dm = item.class else {
        return None;
    };
    let node = cell.nodes.as_slice().get(item.owner as usize)?;
    let NodeKind::Fet {
        depletion,
        gate,
        ..
    } = node.kind
    else {
        return None;
    };
    let axis = match gate {
        Axis2::Across => Axis::X,
        Axis2::Up => Axis::Y,
    };
    Some(Fet { depletion, axis })
}
