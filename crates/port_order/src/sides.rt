//! The ports of a side in order.

ghost use Rattle.std.specs.Prelude.{◌≡◌, ◌^◌, ◌≤◌, ◌<◌, length, filter, All, IfOk};
ghost use Rattle.plan_model.specs.Borders.{layer_rank, port_rank, is_on_side, side_ports};

use cell_model::CellPort;
use lam_geom::Side;
use lam_list::{Seq, check_count};
use rule_table::Layer;
use std::alloc::{AllocError, Global};

fn layer_rank(layer: Layer) -> u64
    ensures { result ≡ layer_rank layer }
{
    match layer {
        Layer::Diffusion => 0,
        Layer::Poly => 1,
        Layer::Metal => 2,
    }
}

// Where a port stands in the order of a side: by place, and at one place by layer.
fn port_rank(port: &CellPort) -> u64
    ensures { result ≡ port_rank port.now }
{
    u64::from(port.place) * 3 + layer_rank(port.layer)
}

// The ports on a side, in the order in which they are given.
fn on_side(alloc: Global, ports: &[CellPort], side: Side) -> Result<Vec<CellPort>, AllocError>
    ensures { IfOk result (λ found. found.items ≡ filter (is_on_side side) ports.now) }
{
    let mut found = Vec::new(alloc);
    for port in ports {
        if port.side == side {
            found.push(*port)?;
        }
    }
    Ok(found)
}

/// The ports on a side, in the order of the side: by place, and at one place diffusion before poly before metal. The
/// only refusal is want of memory.
pub fn side_ports(
    alloc: Global,
    ports: &[CellPort],
    side: Side,
) -> Result<Seq<CellPort>, AllocError>
    requires places { All (λ port. port.place ≤ 4095) ports.now }
    ensures ports { IfOk result (λ found. found ≡ side_ports side ports.now) }
    ensures short { IfOk result (λ found. length found < 2 ^ 32) }
{
    let mut found = on_side(alloc, ports, side)?;
    found.sort_by_key(
        |port: &CellPort| -> u64
            ensures { result ≡ port_rank port.now }
        { port_rank(port) },
    )?;
    check_count(found.len())?;
    Ok(Seq::from_vec(found))
}
