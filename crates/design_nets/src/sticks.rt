//! The netlist of the sticks.
ghost use Rattle.std.specs.Prelude.{◌≡◌, ◌≤◌, ◌^◌, length, IfOk};
ghost use Rattle.lam_geom.specs.declared.boxes.Axis.TheVariants.{X, Y};
ghost use Rattle.rule_table.specs.Technology.{widest_of};
ghost use Rattle.sym_items.specs.Layouts.{size_in};
ghost use Rattle.plan_model.specs.Plan.{grids_of};
ghost use Rattle.instance_laws.specs.{Planned.AreOfPlan, Shapes.shapes_of, Sticks.IsSticksNetlist};
ghost use Rattle.mask_out.specs.Pictures.{HaveBoxes, IsDrawable};
ghost use Rattle.design_nets.specs.Transistors.{BoxesLieNear};

use crate::connections::{Connections, connect};
use crate::transistors::transistors;
use expand::Master;
use lam_list::Seq;
use mask_out::calls_in;
use net_model::{Netlist, devices_of};
use plan_model::Plan;
use rule_table::Tech;
use std::alloc::{AllocError, Global};
use sym_items::Coords;

/// The netlist of the sticks of all instances: the pieces of their boxes with the nets of the parts that these belong
/// to, and a device for each transistor, whose channel is in grains. The layouts need not be finished: it asks for what
/// can be drawn, and for no more than 2^20 boxes. The only refusal is want of memory.
pub fn stick_netlist(
    alloc: Global,
    tech: &Tech,
    plan: &Plan,
    masters: &[Master],
    layouts: &[Coords],
) -> Result<Netlist, AllocError>
    requires planned { AreOfPlan tech.now plan.now masters.now }
    requires counted { length layouts.now ≡ length masters.now }
    requires boxes { HaveBoxes layouts.now masters.now }
    requires near { BoxesLieNear plan.now masters.now layouts.now }
    requires drawable { IsDrawable (size_in X layouts.now) (size_in Y layouts.now) (widest_of tech.now)
        (grids_of plan.now) }
    requires few { length (shapes_of plan.now masters.now) ≤ 2 ^ 20 }
    ensures { IfOk result (IsSticksNetlist tech.now plan.now masters.now layouts.now) }
{
    let sticks = connect(alloc, tech, plan, masters)?;
    let calls = calls_in(alloc, tech, plan, layouts)?;
    let shapes = &sticks.shapes;
    let crossings = transistors(
        alloc,
        tech,
        plan,
        masters,
        layouts,
        &calls,
        &sticks.drawn,
        shapes,
    )?;
    let devices = devices_of(alloc, &sticks.pieces, &sticks.starts, &crossings)?;
    let Connections { pieces, count, .. } = sticks;
    Ok(Netlist {
        nets: count,
        pieces: Seq::from_vec(pieces),
        devices: Seq::from_vec(devices),
    })
}
