//! Masters without their limits.

ghost use Rattle.std.specs.Prelude.{◌≡◌, IfOk};
ghost use Rattle.first_pass.specs.Bare.{bare, bare_of};

use cell_model::Cell;
use expand::Master;
use lam_list::Seq;
use std::alloc::{AllocError, Global};

// A master without its limits.
fn without_limits(alloc: Global, master: Master) -> Master
    ensures { result ≡ bare master }
{
    let Master { cell, items } = master;
    let Cell {
        name,
        nodes,
        wires,
        ports,
        limits: _,
    } = cell;
    let limits = Seq::from_vec(Vec::new(alloc));
    Master {
        cell: Cell {
            name,
            nodes,
            wires,
            ports,
            limits,
        },
        items,
    }
}

/// Masters without their limits. The only refusal is want of memory.
pub fn stripped(alloc: Global, masters: Vec<Master>) -> Result<Vec<Master>, AllocError>
    ensures { IfOk result (λ bared. bared.items ≡ bare_of masters.items) }
{
    let mut bared = Vec::new(alloc);
    for master in masters {
        bared.push(without_limits(alloc, master))?;
    }
    Ok(bared)
}
