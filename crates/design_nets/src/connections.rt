//! What is known of the netlist of the sticks before anything is laid out.
ghost use Rattle.std.specs.Prelude.{◌≤◌, ◌^◌, length, IfOk};
ghost use Rattle.instance_laws.specs.{Planned.AreOfPlan, Shapes.shapes_of};
ghost use Rattle.design_nets.specs.Connections.{AreConnections};

use crate::instances::{Instance, instances};
use crate::masters::{drawn_in_masters, nets_of_masters};
use crate::numbering::{NetNumbers, net_numbers, next_net};
use crate::pieces::{Pieces, netted, owners, pieces_of};
use crate::shapes::{Shapes, shapes_of};
use cell_model::Nets;
use expand::Master;
use lam_list::Seq;
use net_model::Piece;
use plan_model::Plan;
use rule_table::Tech;
use std::alloc::{AllocError, Global};

/// What a plan and its masters tell of the netlist.
#[derive(Drop)]
pub struct Connections {
    /// The nets of each master.
    pub nets: Vec<Nets>,
    /// All instances.
    pub instances: Vec<Instance>,
    /// The items of each master that are boxes.
    pub drawn: Vec<Seq<usize>>,
    /// What the boxes of all instances show.
    pub shapes: Shapes,
    /// The pieces of these boxes with their nets.
    pub pieces: Vec<Piece>,
    /// Of each box the number of its first piece, and then that of all.
    pub starts: Vec<u32>,
    /// How many nets there are.
    pub count: u32,
    /// The number of each net of each instance.
    pub numbers: NetNumbers,
}

/// The pieces of the sticks with their nets, which no layout changes. It takes time linear in the boxes, the nets of
/// all instances and the ports that meet, but for a table of each two masters. The only refusal is want of memory.
pub fn connect(
    alloc: Global,
    tech: &Tech,
    plan: &Plan,
    masters: &[Master],
) -> Result<Connections, AllocError>
    requires planned { AreOfPlan tech.now plan.now masters.now }
    requires few { length (shapes_of plan.now masters.now) ≤ 2 ^ 20 }
    ensures { IfOk result (AreConnections plan.now masters.now) }
{
    let nets = nets_of_masters(alloc, tech, masters)?;
    let drawn = drawn_in_masters(alloc, masters)?;
    let instances = instances(alloc, plan)?;
    let shapes = shapes_of(alloc, masters, &drawn, &instances)?;
    let placed = pieces_of(alloc, masters, &nets, &instances, &shapes.all)?;
    let owners = owners(alloc, &placed.all)?;
    let numbers = net_numbers(alloc, plan, &nets, &instances, &owners)?;
    let of_pieces = &numbers.all[..owners.len()];
    let pieces = netted(alloc, &placed.all, of_pieces)?;
    let count = next_net(of_pieces);
    let Pieces { starts, .. } = placed;
    Ok(Connections {
        nets,
        instances,
        drawn,
        shapes,
        pieces,
        starts,
        count,
        numbers,
    })
}
