//! The transistors of all instances, by their nodes.
ghost use Rattle.std.specs.Prelude.{◌≡◌, ◌<◌, All, length, IfOk};
ghost use Rattle.design_nets.specs.{NamedNets.fets_of, Pieces.IsShapeOf};

use crate::instances::Instance;
use crate::masters::is_drawn;
use crate::pieces::is_fet;
use crate::shapes::Shape;
use expand::Master;
use lam_geom::MaskLayer;
use std::alloc::{AllocError, Global};

/// A transistor, by the numbers of its instance and of its node.
#[derive(Clone, Copy)]
pub struct FetAt {
    pub instance: usize,
    pub node: usize,
}

/// The transistors of which these shapes are the diffusion. The only refusal is want of memory.
pub fn fets_of(
    alloc: Global,
    masters: &[Master],
    instances: &[Instance],
    shapes: &[Shape],
) -> Result<Vec<FetAt>, AllocError>
    requires { All (IsShapeOf masters.now instances.now) shapes.now }
    ensures { IfOk result (λ fets. fets.items ≡ fets_of masters.now instances.now shapes.now) }
{
    let mut fets = Vec::new(alloc);
    for k in 0..shapes.len() {
        let Shape { instance, item } = shapes[k];
        let master = &masters[instances[instance].master as usize];
        let item = &master.items.list.as_slice()[item];
        if is_drawn(MaskLayer::ND, item.class) && is_fet(&master.cell, item.owner) {
            let node = item.owner as usize;
            fets.push(FetAt { instance, node })?;
        }
    }
    Ok(fets)
}
