//! The links between pieces and nets of instances, by number: pieces first, and then the nets of the instances, one
//! instance after another.
ghost use Rattle.std.specs.Prelude.{◌≡◌, ◌+◌, ◌<◌, ◌^◌, ℕ, All, length, slice_index, IfNone, IfSome, OnOk, IfOk};
ghost use Rattle.plan_model.specs.{GridNets.IsNextInstance, Plan.{grids_of, matches_in}, Rows.IsRectangular};
ghost use Rattle.design_nets.specs.declared.instances.Instance.{Instance as SomeInstance};
ghost use Rattle.design_nets.specs.{declared.meetings.Meeting.Meeting as SomeMeeting, Firsts.{together, AreFirsts}};
ghost use Rattle.design_nets.specs.{Instances.{instances_of, spot_no}, Joining.{nets_in, IsOwn, HaveNets}};
ghost use Rattle.design_nets.specs.Linking.{AreAdded, AreNetFirsts, IsPieceLink, IsListedLink, IsMeetLink};

use crate::instances::Instance;
use crate::meetings::{Meeting, meetings};
use crate::owners::OwnNet;
use cell_model::Nets;
use lam_geom::Axis;
use plan_model::{Match, Plan};
use std::alloc::{AllocError, Global};

/// Of each instance the number of its first net, where the first of all has the number `first`; and then the number
/// after the last. The only refusal is want of memory.
pub fn first_nets(
    alloc: Global,
    nets: &[Nets],
    instances: &[Instance],
    first: u32,
) -> Result<Vec<u32>, AllocError>
    requires among { All (λ (i : SomeInstance). i.master < length nets.now) instances.now }
    requires few { first + length (together (nets_in nets.now instances.now) (length instances.now)) < 2 ^ 31 }
    ensures { IfOk result
        (λ firsts. AreFirsts (nets_in nets.now instances.now) (length instances.now) first firsts.items) }
{
    let mut firsts = Vec::with_capacity(alloc, instances.len() + 1)?;
    let mut next = first;
    firsts.push(next)?;
    for instance in instances {
        next += nets[instance.master as usize].count;
        firsts.push(next)?;
    }
    Ok(firsts)
}

/// Links each piece, which is of one of these nets, with its net.
pub fn link_pieces(
    nets: &[Nets],
    instances: &[Instance],
    firsts: &[u32],
    owners: &[OwnNet],
    links: &mut Vec<(u32, u32)>,
) -> Result<(), AllocError>
    requires firsts { AreNetFirsts nets.now instances.now firsts.now }
    requires owners { All (IsOwn nets.now instances.now) owners.now }
    requires few { length owners.now < 2 ^ 31 }
    ensures { OnOk result (AreAdded (IsPieceLink firsts.now owners.now) links.old.items links.new.items) }
{
    for i in 0..owners.len() {
        let OwnNet { instance, net } = owners[i];
        links.push((i as u32, firsts[instance] + net))?;
    }
    Ok(())
}

/// Links the nets that ports join on an axis.
pub fn link_axis(
    alloc: Global,
    axis: Axis,
    plan: &Plan,
    nets: &[Nets],
    instances: &[Instance],
    firsts: &[u32],
    links: &mut Vec<(u32, u32)>,
) -> Result<(), AllocError>
    requires nets { HaveNets plan.now nets.now instances.now }
    requires firsts { AreNetFirsts nets.now instances.now firsts.now }
    ensures { OnOk result
        (AreAdded (IsMeetLink axis plan.now nets.now instances.now firsts.now (length instances.now)) links.old.items
        links.new.items) }
{
    let table = meetings(alloc, nets, matches_along(axis, plan))?;
    for s in 0..instances.len() {
        if let Some(t) = next_instance(axis, plan, instances, s) {
            let row = table[instances[s].master as usize].as_slice();
            let list = row[instances[t].master as usize].as_slice();
            link_listed(list, firsts[s], firsts[t], links)?;
        }
    }
    Ok(())
}

// The ports that a plan matches on an axis.
fn matches_along(axis: Axis, plan: &Plan) -> &[Match]
    ensures { result.now ≡ matches_in axis plan.now }
{
    match axis {
        Axis::X => plan.port_x.as_slice(),
        Axis::Y => plan.port_y.as_slice(),
    }
}

// The number of the instance above instance number s (on x), or on its right (on y), if there is one.
fn next_instance(axis: Axis, plan: &Plan, instances: &[Instance], s: usize) -> Option<usize>
    requires among { s < length instances.now }
    requires instances { instances.now ≡ instances_of (grids_of plan.now) }
    requires rectangular { All IsRectangular (grids_of plan.now) }
    ensures within { IfSome result (λ t. t < length instances.now) }
    ensures found { IfSome result (λ t. IsNextInstance axis (spot_no instances.now s) (spot_no instances.now t)) }
    ensures none { IfNone result ((t : ℕ) → t < length instances.now
        → ¬ IsNextInstance axis (spot_no instances.now s) (spot_no instances.now t)) }
{
    let instance = &instances[s];
    let rows = plan.grids.as_slice()[instance.grid].rows.as_slice();
    let columns = rows[instance.row].cells.as_slice().len();
    match axis {
        Axis::X if instance.row + 1 < rows.len() => Some(s + columns),
        Axis::Y if instance.col + 1 < columns => Some(s + 1),
        _ => None,
    }
}

// Links the nets of two instances that a list joins, of which the first nets have these numbers.
fn link_listed(
    list: &[Meeting],
    first: u32,
    second: u32,
    links: &mut Vec<(u32, u32)>,
) -> Result<(), AllocError>
    requires { All (λ (m : SomeMeeting). (first + m.before < 2 ^ 31) × (second + m.after < 2 ^ 31)) list.now }
    ensures { OnOk result (AreAdded (IsListedLink list.now first second) links.old.items links.new.items) }
{
    for m in list {
        links.push((first + m.before, second + m.after))?;
    }
    Ok(())
}
