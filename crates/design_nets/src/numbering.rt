//! Numbers for the nets of pieces.
ghost use Rattle.std.specs.Prelude.{◌≡◌, ◌+◌, ◌<◌, ◌^◌, ℕ, All, length, max, slice_index, IfOk};
ghost use Rattle.graph_search.specs.Netting.{next_net};
ghost use Rattle.design_nets.specs.{Firsts.together, Joining.{own_net, nets_in, IsOwn, HaveNets}};
ghost use Rattle.design_nets.specs.{Connections.{number_in, AreAllNumbers}, Linking.{AreAllLinks, AreNetFirsts}};

use crate::instances::Instance;
use crate::linking::{first_nets, link_axis, link_pieces};
use crate::neighbours::neighbours;
use crate::owners::OwnNet;
use cell_model::Nets;
use graph_search::numbers;
use lam_geom::Axis;
use plan_model::Plan;
use std::alloc::{AllocError, Global};

/// Numbers of pieces, and after them those of all nets of instances, one instance after another. And of each instance
/// the place of the number of its first net among these, and then that after the last.
#[derive(Drop)]
pub struct NetNumbers {
    pub all: Vec<u32>,
    pub firsts: Vec<u32>,
}

/// Numbers for pieces that are of these nets of instances: equal exactly where ports join the nets, in order of the
/// first piece of each; and for all nets of the instances, which have those of their pieces. The only refusal is want
/// of memory.
pub fn net_numbers(
    alloc: Global,
    plan: &Plan,
    nets: &[Nets],
    instances: &[Instance],
    owners: &[OwnNet],
) -> Result<NetNumbers, AllocError>
    requires nets { HaveNets plan.now nets.now instances.now }
    requires owners { All (IsOwn nets.now instances.now) owners.now }
    requires few { length owners.now + length (together (nets_in nets.now instances.now) (length instances.now))
        < 2 ^ 31 }
    ensures { IfOk result (AreAllNumbers plan.now nets.now instances.now owners.now) }
{
    let firsts = first_nets(alloc, nets, instances, owners.len() as u32)?;
    let links = links(alloc, plan, nets, instances, &firsts, owners)?;
    let count = firsts[instances.len()] as usize;
    let lists = neighbours(alloc, count, &links)?;
    let (all, _) = numbers(alloc, &lists)?;
    Ok(NetNumbers { all, firsts })
}

/// The number of a net of an instance.
pub fn number_in(numbers: &NetNumbers, instance: usize, net: u32) -> u32
    requires instance { instance < length numbers.now.firsts.items }
    requires net { slice_index numbers.now.firsts.items instance + net < length numbers.now.all.items }
    ensures { result ≡ number_in numbers.now (own_net instance net) }
{
    numbers.all[numbers.firsts[instance] as usize + net as usize]
}

// All links, of pieces and of nets that ports join.
fn links(
    alloc: Global,
    plan: &Plan,
    nets: &[Nets],
    instances: &[Instance],
    firsts: &[u32],
    owners: &[OwnNet],
) -> Result<Vec<(u32, u32)>, AllocError>
    requires nets { HaveNets plan.now nets.now instances.now }
    requires firsts { AreNetFirsts nets.now instances.now firsts.now }
    requires owners { All (IsOwn nets.now instances.now) owners.now }
    requires few { length owners.now < 2 ^ 31 }
    ensures { IfOk result (λ links. AreAllLinks plan.now nets.now instances.now firsts.now owners.now links.items) }
{
    let mut links = Vec::new(alloc);
    link_pieces(nets, instances, firsts, owners, &mut links)?;
    link_axis(alloc, Axis::X, plan, nets, instances, firsts, &mut links)?;
    link_axis(alloc, Axis::Y, plan, nets, instances, firsts, &mut links)?;
    Ok(links)
}

/// The least number above all of these.
pub fn next_net(nets: &[u32]) -> u32
    requires { All (λ net. net < 2 ^ 31) nets.now }
    ensures { result ≡ next_net nets.now }
{
    let mut next = 0;
    for net in nets {
        next = next.max(net + 1);
    }
    next
}
