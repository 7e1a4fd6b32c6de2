//! The text that tells for each net the names of its parts, and for each transistor the nets of its terminals.
ghost use Rattle.std.specs.Prelude.{◌≡◌, ◌≤◌, ◌^◌, All, length, map, IfOk};
ghost use Rattle.instance_laws.specs.{Planned.AreOfPlan, Shapes.shapes_of};
ghost use Rattle.design_nets.specs.{NamedLines.layer_of_shape, NamedNets.IsNamedText, Pieces.IsShapeOf};

use crate::connections::{Connections, connect};
use crate::fet_nodes::fets_of;
use crate::instances::Instance;
use crate::masters::layer_shown;
use crate::named_lines::{push_fets, push_nets};
use crate::named_parts::parts_of_nets;
use crate::shapes::Shape;
use expand::Master;
use lam_geom::MaskLayer;
use net_list::{counts_of, head_line};
use plan_model::Plan;
use rule_table::Tech;
use std::alloc::{AllocError, Global};
use stick_lex::Text;

/// The text of the nets of a plan by their names: how many nets and transistors there are; a line for each net, with
/// its number, how many pieces it has by layer, and the names of its parts; and a line for each transistor, with its
/// kind, its name and the nets of its terminals. The numbers are those of the netlist of the sticks, whatever the
/// layouts. `grids` has the names of the grids, if they have names. It takes time linear in what is written, the boxes,
/// the nets of all instances and the ports that meet, but for a table of each two masters. The only refusal is want of
/// memory.
pub fn named_nets(
    alloc: Global,
    tech: &Tech,
    plan: &Plan,
    masters: &[Master],
    grids: &[Text],
) -> Result<Vec<u8>, AllocError>
    requires planned { AreOfPlan tech.now plan.now masters.now }
    requires few { length (shapes_of plan.now masters.now) ≤ 2 ^ 20 }
    ensures { IfOk result (λ text. IsNamedText grids.now plan.now masters.now text.items) }
{
    let sticks = connect(alloc, tech, plan, masters)?;
    let layers = layers_shown(alloc, masters, &sticks.instances, &sticks.shapes.all)?;
    let counts = counts_of(alloc, sticks.count, &sticks.pieces, &layers)?;
    let parts = parts_of_nets(alloc, masters, &sticks)?;
    let fets = fets_of(alloc, masters, &sticks.instances, &sticks.shapes.all)?;
    let head = head_line(alloc, sticks.count, fets.len())?;
    let mut out = Vec::from_slice(alloc, head.as_bytes())?;
    push_nets(
        &mut out,
        alloc,
        grids,
        masters,
        &sticks.instances,
        &counts,
        &parts,
    )?;
    push_fets(&mut out, alloc, grids, masters, &sticks, &fets)?;
    Ok(out)
}

// The layer of the box of each shape.
fn layers_shown(
    alloc: Global,
    masters: &[Master],
    instances: &[Instance],
    shapes: &[Shape],
) -> Result<Vec<MaskLayer>, AllocError>
    requires { All (IsShapeOf masters.now instances.now) shapes.now }
    ensures { IfOk result (λ layers. layers.items ≡ map (layer_of_shape masters.now instances.now) shapes.now) }
{
    let mut layers = Vec::with_capacity(alloc, shapes.len())?;
    for shape in shapes {
        let master = instances[shape.instance].master as usize;
        let items = masters[master].items.list.as_slice();
        layers.push(layer_shown(items[shape.item].class))?;
    }
    Ok(layers)
}
