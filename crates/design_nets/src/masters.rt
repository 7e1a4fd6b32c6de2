//! The nets of masters, and their items that are boxes.
ghost use Rattle.std.specs.Prelude.{◌≡◌, ◌<◌, ◌++◌, length, map, All, OnOk, IfOk};
ghost use Rattle.lam_geom.specs.declared.boxes.MaskLayer.TheVariants.{ND};
ghost use Rattle.expand.specs.Masters.{IsMaster};
ghost use Rattle.mask_out.specs.Masks.{layer_drawn, is_drawn};
ghost use Rattle.instance_laws.specs.Shapes.{items_on, drawn_items};
ghost use Rattle.design_nets.specs.{Shapes.drawn_in, Nets.AreNetsOfAll, Pieces.layer_shown};

use cell_model::Nets;
use cell_nets::nets;
use expand::{Master, master_is_lawful};
use lam_geom::MaskLayer;
use lam_list::Seq;
use mask_out::is_same_layer;
use rule_table::{Class, Tech};
use std::alloc::{AllocError, Global};
use sym_items::Item;

/// The nets of each master. The only refusal is want of memory.
pub fn nets_of_masters(
    alloc: Global,
    tech: &Tech,
    masters: &[Master],
) -> Result<Vec<Nets>, AllocError>
    requires { All (IsMaster tech.now) masters.now }
    ensures { IfOk result (λ all. AreNetsOfAll masters.now all.items) }
{
    let mut all = Vec::new(alloc);
    for master in masters {
        master_is_lawful(tech, master);
        all.push(nets(alloc, &master.cell)?)?;
    }
    Ok(all)
}

/// The items of each master that are boxes of masks, by their numbers: layer by layer, and on each layer in their
/// order. The only refusal is want of memory.
pub fn drawn_in_masters(alloc: Global, masters: &[Master]) -> Result<Vec<Seq<usize>>, AllocError>
    ensures { IfOk result (λ all. all.items ≡ map drawn_in masters.now) }
{
    let mut all = Vec::new(alloc);
    for master in masters {
        let drawn = drawn_items(alloc, master.items.list.as_slice())?;
        all.push(Seq::from_vec(drawn))?;
    }
    Ok(all)
}

/// The layer of a box that shows an item of this class, which is one that boxes show.
pub fn layer_shown(class: Class) -> MaskLayer
    ensures { result ≡ layer_shown class }
{
    layer_drawn(class).unwrap_or(MaskLayer::ND)
}

// Those of some items that are boxes.
fn drawn_items(alloc: Global, items: &[Item]) -> Result<Vec<usize>, AllocError>
    ensures { IfOk result (λ drawn. drawn.items ≡ drawn_items items.now) }
{
    let mut drawn = Vec::new(alloc);
    for layer in MaskLayer::ALL {
        push_layer(&mut drawn, items, layer)?;
    }
    Ok(drawn)
}

// Adds those that are boxes of a layer.
fn push_layer(drawn: &mut Vec<usize>, items: &[Item], layer: MaskLayer) -> Result<(), AllocError>
    ensures { OnOk result (drawn.new.items ≡ drawn.old.items ++ items_on items.now layer) }
{
    for n in 0..items.len() {
        if is_drawn(layer, items[n].class) {
            drawn.push(n)?;
        }
    }
    Ok(())
}

// The layer on which items of a class are boxes. Conducting pieces of diffusion and channels are boxes of none.
fn layer_drawn(class: Class) -> Option<MaskLayer>
    ensures { result ≡ layer_drawn class }
{
    match class {
        Class::Dm => Some(MaskLayer::ND),
        Class::P => Some(MaskLayer::NP),
        Class::C => Some(MaskLayer::NC),
        Class::M => Some(MaskLayer::NM),
        Class::I => Some(MaskLayer::NI),
        Class::B => Some(MaskLayer::NB),
        Class::Dc | Class::G => None,
    }
}

/// Whether items of a class are boxes of a layer.
pub fn is_drawn(layer: MaskLayer, class: Class) -> bool
    ensures { result ≡ is_drawn layer class }
{
    match layer_drawn(class) {
        Some(own) => is_same_layer(layer, own),
        None => false,
    }
}
