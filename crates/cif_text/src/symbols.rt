//! The text of a symbol.
ghost use Rattle.std.specs.Prelude.{◌≡◌, pos, ◌+ℤ◌, ◌-ℤ◌, ◌*ℤ◌, [], ◌++◌, All, map, filter, codes, string_bytes};
ghost use Rattle.std.specs.Prelude.{if◌then◌else◌, OnOk, IfOk};
ghost use Rattle.lam_geom.specs.Places.{IsPlacedBox, IsPlacedSpan};
ghost use Rattle.rule_table.specs.Technology.{numbers_of};
ghost use Rattle.mask_out.specs.Masks.{mask_of, is_same_layer};
ghost use Rattle.cif_text.specs.Cif.{box_text, layer_name, layer_text, layers_text, scale_line, symbol_text};

use crate::numbers::push_number;
use lam_geom::{MaskBox, MaskLayer, Span};
use mask_out::{Symbol, is_same_layer};
use rule_table::Tech;
use std::alloc::{AllocError, Global};

// Twice the extent of a span.
fn twice_extent(span: Span) -> i64
    requires { IsPlacedSpan span }
    ensures { result ≡ pos 2 *ℤ (span.hi -ℤ span.lo) }
{
    2 * (span.hi - span.lo)
}

// Twice the place midway in a span.
fn twice_centre(span: Span) -> i64
    requires { IsPlacedSpan span }
    ensures { result ≡ span.lo +ℤ span.hi }
{
    span.lo + span.hi
}

// Adds a box's line: its extents and its centre, in units of half of u.
fn push_box(out: &mut Vec<u8>, mask: &MaskBox) -> Result<(), AllocError>
    requires { IsPlacedBox mask.now.area }
    ensures { OnOk result (out.new.items ≡ out.old.items ++ box_text (mask_of mask.now)) }
{
    push_number(out, b"B ", twice_extent(mask.area.x))?;
    push_number(out, b" ", twice_extent(mask.area.y))?;
    push_number(out, b" ", twice_centre(mask.area.x))?;
    push_number(out, b" ", twice_centre(mask.area.y))?;
    out.extend_from_slice(b";\n")?;
    Ok(())
}

// The line with the symbol's number and its scale, from units of half of u to hundredths of a micron.
fn text_of_scale(alloc: Global, number: u32, unit: i64) -> Result<String, AllocError>
    ensures { IfOk result (λ line. string_bytes line ≡ scale_line number unit) }
{
    let scale = unit / 2;
    format!(in alloc; "DS {number} {scale} 1;\n")
}

fn name_of(layer: MaskLayer) -> &'static [u8]
    ensures { result.now ≡ layer_name layer }
{
    match layer {
        MaskLayer::ND => b"ND",
        MaskLayer::NP => b"NP",
        MaskLayer::NC => b"NC",
        MaskLayer::NM => b"NM",
        MaskLayer::NI => b"NI",
        MaskLayer::NB => b"NB",
    }
}

// Adds the line that names a layer, where it is not named yet.
fn push_name(out: &mut Vec<u8>, layer: MaskLayer, is_named: bool) -> Result<(), AllocError>
    ensures { OnOk result
        (out.new.items ≡ out.old.items
        ++ (if is_named then [] else (codes "L " ++ (layer_name layer ++ codes ";\n")))) }
{
    if is_named {
        return Ok(());
    }
    out.extend_from_slice(b"L ")?;
    out.extend_from_slice(name_of(layer))?;
    out.extend_from_slice(b";\n")
}

// Adds the boxes of a layer, and its name before the first.
fn push_layer(out: &mut Vec<u8>, layer: MaskLayer, boxes: &[MaskBox]) -> Result<(), AllocError>
    requires { All (λ box. IsPlacedBox box.area) boxes.now }
    ensures { OnOk result
        (out.new.items ≡ out.old.items ++ layer_text layer
        (filter (λ m. is_same_layer layer m.layer) (map mask_of boxes.now))) }
{
    let mut is_named = false;
    for mask in boxes {
        if is_same_layer(layer, mask.layer) {
            push_name(out, layer, is_named)?;
            is_named = true;
            push_box(out, mask)?;
        }
    }
    Ok(())
}

// Adds the boxes of each layer that has some.
fn push_layers(out: &mut Vec<u8>, boxes: &[MaskBox]) -> Result<(), AllocError>
    requires { All (λ box. IsPlacedBox box.area) boxes.now }
    ensures { OnOk result (out.new.items ≡ out.old.items ++ layers_text (map mask_of boxes.now)) }
{
    for layer in MaskLayer::ALL {
        push_layer(out, layer, boxes)?;
    }
    Ok(())
}

/// The CIF text of a symbol with this number, under a technology, whose unit is the scale. The only refusal is want of
/// memory.
pub fn symbol_text(
    alloc: Global,
    tech: &Tech,
    number: u32,
    symbol: &Symbol,
) -> Result<Vec<u8>, AllocError>
    requires { All (λ box. IsPlacedBox box.area) symbol.now.boxes }
    ensures { IfOk result
        (λ text. text.items ≡ symbol_text number (numbers_of tech.now).unit symbol.now.name
        (map mask_of symbol.now.boxes)) }
{
    let scale = text_of_scale(alloc, number, tech.numbers().unit)?;
    let mut out = Vec::from_slice(alloc, scale.as_bytes())?;
    out.extend_from_slice(b"9 ")?;
    out.extend_from_slice(symbol.name.bytes())?;
    out.extend_from_slice(b";\n")?;
    push_layers(&mut out, symbol.boxes.as_slice())?;
    out.extend_from_slice(b"DF;\n")?;
    Ok(out)
}
