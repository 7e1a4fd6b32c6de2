//! The symbol of a master.
ghost use Rattle.std.specs.Prelude.{◌≡◌, ◌++◌, All, map, OnOk, IfOk};
ghost use Rattle.lam_geom.specs.Places.{IsPlacedBox};
ghost use Rattle.sym_items.specs.Boxes.{HasBox};
ghost use Rattle.mask_out.specs.Masks.{mask_of, layer_drawn, is_same_layer, is_drawn, masks_on, masks_in};

use crate::drawing::Symbol;
use expand::Master;
use lam_geom::{MaskBox, MaskLayer};
use lam_list::Seq;
use rule_table::Class;
use std::alloc::{AllocError, Global};
use stick_lex::Text;
use sym_items::{Coords, Item, box_of};

/// Whether two layers are the same.
pub fn is_same_layer(a: MaskLayer, b: MaskLayer) -> bool
    ensures { result ≡ is_same_layer a b }
{
    a == b
}

// The layer on which items of a class are boxes. Conducting pieces of diffusion and channels are boxes of none.
fn layer_drawn(class: Class) -> Option<MaskLayer>
    ensures { result ≡ layer_drawn class }
{
    match class {
        Class::Dm => Some(MaskLayer::ND),
        Class::P => Some(MaskLayer::NP),
        Class::C => Some(MaskLayer::NC),
        Class::M => Some(MaskLayer::NM),
        Class::I => Some(MaskLayer::NI),
        Class::B => Some(MaskLayer::NB),
        Class::Dc | Class::G => None,
    }
}

// Whether items of a class are boxes of a layer.
fn is_drawn(layer: MaskLayer, class: Class) -> bool
    ensures { result ≡ is_drawn layer class }
{
    match layer_drawn(class) {
        Some(own) => is_same_layer(layer, own),
        None => false,
    }
}

// Adds the boxes of a layer.
fn push_layer(
    boxes: &mut Vec<MaskBox>,
    items: &[Item],
    coords: &Coords,
    layer: MaskLayer,
) -> Result<(), AllocError>
    requires items { All (HasBox coords.now) items.now }
    requires before { All (λ box. IsPlacedBox box.area) boxes.old.items }
    ensures placed { OnOk result (All (λ box. IsPlacedBox box.area) boxes.new.items) }
    ensures boxes { OnOk result
        (map mask_of boxes.new.items ≡ map mask_of boxes.old.items ++ masks_on coords.now items.now layer) }
{
    for item in items {
        if is_drawn(layer, item.class) {
            let area = box_of(item, coords);
            boxes.push(MaskBox { layer, area })?;
        }
    }
    Ok(())
}

/// The symbol of a master in a layout. The only refusal is want of memory.
pub fn symbol(alloc: Global, master: &Master, coords: &Coords) -> Result<Symbol, AllocError>
    requires { All (HasBox coords.now) master.now.items.list }
    ensures name { IfOk result (λ s. s.name ≡ master.now.cell.name) }
    ensures placed { IfOk result (λ s. All (λ box. IsPlacedBox box.area) s.boxes) }
    ensures boxes { IfOk result (λ s. map mask_of s.boxes ≡ masks_in coords.now master.now.items.list) }
{
    let name = Text::new(alloc, master.cell.name.bytes())?;
    let items = master.items.list.as_slice();
    let mut boxes = Vec::new(alloc);
    for layer in MaskLayer::ALL {
        push_layer(&mut boxes, items, coords, layer)?;
    }
    Ok(Symbol {
        name,
        boxes: Seq::from_vec(boxes),
    })
}
