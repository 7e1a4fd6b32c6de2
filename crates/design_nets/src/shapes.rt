//! What the boxes of all instances show, one by one.
ghost use Rattle.std.specs.Prelude.{◌≡◌, ◌++◌, ◌≤◌, ◌<◌, ◌^◌, All, length, map, OnOk, IfOk};
ghost use Rattle.design_nets.specs.{declared.instances.Instance.Instance as SomeInstance, Firsts.together};
ghost use Rattle.design_nets.specs.Shapes.{shape, drawn_in, shapes_in, AreShapesOf};

use crate::instances::Instance;
use expand::Master;
use lam_list::Seq;
use std::alloc::{AllocError, Global};

/// What a box shows: an item of an instance, by the instance's number and the item's among those of its master.
#[derive(Clone, Copy)]
pub struct Shape {
    pub instance: usize,
    pub item: usize,
}

/// The shapes of all instances, and of each instance the number of its first shape, and then that of all.
#[derive(Drop)]
pub struct Shapes {
    pub all: Vec<Shape>,
    pub firsts: Vec<u32>,
}

/// The shapes of all instances, of whose masters these items are boxes. The only refusal is want of memory.
pub fn shapes_of(
    alloc: Global,
    masters: &[Master],
    drawn: &[Seq<usize>],
    instances: &[Instance],
) -> Result<Shapes, AllocError>
    requires drawn { drawn.now ≡ map drawn_in masters.now }
    requires among { All (λ (i : SomeInstance). i.master < length masters.now) instances.now }
    requires few { length (together (shapes_in masters.now instances.now) (length instances.now)) ≤ 2 ^ 20 }
    ensures { IfOk result (λ shapes. AreShapesOf masters.now instances.now shapes.all.items shapes.firsts.items) }
{
    let mut all = Vec::new(alloc);
    let mut firsts = Vec::with_capacity(alloc, instances.len() + 1)?;
    firsts.push(0)?;
    for instance in 0..instances.len() {
        let master = instances[instance].master;
        push_shapes(&mut all, instance, drawn[master as usize].as_slice())?;
        firsts.push(all.len() as u32)?;
    }
    Ok(Shapes { all, firsts })
}

// Adds the shapes of an instance, of whose master these items are boxes.
fn push_shapes(shapes: &mut Vec<Shape>, instance: usize, drawn: &[usize]) -> Result<(), AllocError>
    ensures { OnOk result (shapes.new.items ≡ shapes.old.items ++ map (shape instance) drawn.now) }
{
    for &item in drawn {
        shapes.push(Shape { instance, item })?;
    }
    Ok(())
}
