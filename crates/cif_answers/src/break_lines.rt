//! The text of a list of breaks.
ghost use Rattle.std.specs.Prelude.{◌≡◌, ◌<◌, ◌++◌, All, IfOk, OnOk, length, string_bytes};
ghost use Rattle.lam_geom.specs.Places.{IsPlace, IsPlacedBox};
ghost use Rattle.crossing_model.specs.Boxes.{AreSearchable, grains};
ghost use Rattle.rule_breaks.specs.declared.rule.Break.{Break};
ghost use Rattle.cif_answers.specs.BreakLines.{box_words, corner_words, count_line, key_of, line_of_break, microns};
ghost use Rattle.cif_answers.specs.BreakLines.{more_line, name_of, rule_words, text_of_breaks, width_key};

use crossings::in_grains;
use flat_check::least_of;
use lam_geom::{BoxXY, MaskBox, MaskLayer};
use rule_breaks::{Break, Rule};
use rule_table::Tech;
use std::alloc::{AllocError, Global};
use stick_lex::Text;

/// The text of the first breaks of some boxes: how many they are, a line for each, and one more line where there are
/// more. The only refusal is want of memory.
pub fn text_of_breaks(
    alloc: Global,
    tech: &Tech,
    boxes: &[MaskBox],
    list: &[Break],
    more: bool,
) -> Result<Text, AllocError>
    requires searchable { AreSearchable boxes.now }
    requires among { All (λ (x : Break). (x.a < length boxes.now) × (x.b < length boxes.now)) list.now }
    ensures { IfOk result (λ text. text ≡ text_of_breaks tech.now boxes.now list.now more) }
{
    let count = list.len();
    let head = format!(in alloc; "breaks {count}\n")?;
    let mut out = Vec::from_slice(alloc, head.as_bytes())?;
    for x in list {
        push_break(&mut out, alloc, tech, boxes, x)?;
    }
    if more {
        out.extend_from_slice(b"more\n")?;
    }
    Text::new(alloc, &out)
}

// Adds the line of a break: the rule, its box, and the other one where it is on two.
fn push_break(
    out: &mut Vec<u8>,
    alloc: Global,
    tech: &Tech,
    boxes: &[MaskBox],
    x: &Break,
) -> Result<(), AllocError>
    requires searchable { AreSearchable boxes.now }
    requires first { x.now.a < length boxes.now }
    requires second { x.now.b < length boxes.now }
    ensures { OnOk result (out.new.items ≡ out.old.items ++ line_of_break tech.now boxes.now x.now) }
{
    push_rule(out, alloc, tech, x.rule, boxes[x.a as usize].layer)?;
    push_box(out, alloc, boxes, x.a)?;
    if x.a != x.b {
        push_box(out, alloc, boxes, x.b)?;
    }
    out.extend_from_slice(b"\n")?;
    Ok(())
}

// Adds a rule: its number, its key, and the length that it asks for, if it asks for one.
fn push_rule(
    out: &mut Vec<u8>,
    alloc: Global,
    tech: &Tech,
    number: u32,
    layer: MaskLayer,
) -> Result<(), AllocError>
    ensures { OnOk result (out.new.items ≡ out.old.items ++ rule_words tech.now number layer) }
{
    let rule = Rule::of_number(number);
    let key = key_of(rule, layer);
    let words = format!(in alloc; "rule {number} {key}")?;
    out.extend_from_slice(words.as_bytes())?;
    if let Some(least) = least_of(tech, rule, layer) {
        push_length(out, alloc, " least ", in_grains(tech, least))?;
    }
    Ok(())
}

// The key of a technology by which a rule goes, at a box on a layer.
fn key_of(rule: Rule, layer: MaskLayer) -> &'static str
    ensures { result.now ≡ key_of rule layer }
{
    match rule {
        Rule::Width => width_key(layer),
        Rule::CutSize => "cut.size",
        Rule::ProperCrossing => "crossing",
        Rule::PolyToDiffusion => "spacing.poly_diffusion",
        Rule::CutCover => "cut.enclosure",
        Rule::MetalSpacing => "spacing.metal",
        Rule::PolySpacing => "spacing.poly",
        Rule::DiffusionSpacing => "spacing.diffusion",
        Rule::CutSpacing => "spacing.cut",
        Rule::CutToChannel => "spacing.cut_channel",
        Rule::ImplantToChannel => "spacing.implant_channel",
        Rule::WindowToChannel => "spacing.buried_channel",
    }
}

// The key of a layer's width.
fn width_key(layer: MaskLayer) -> &'static str
    ensures { result.now ≡ width_key layer }
{
    match layer {
        MaskLayer::ND => "width.diffusion",
        MaskLayer::NP => "width.poly",
        _ => "width.metal",
    }
}

// Adds a box: its number, its layer and its corners.
fn push_box(out: &mut Vec<u8>, alloc: Global, boxes: &[MaskBox], k: u32) -> Result<(), AllocError>
    requires searchable { AreSearchable boxes.now }
    requires among { k < length boxes.now }
    ensures { OnOk result (out.new.items ≡ out.old.items ++ box_words boxes.now k) }
{
    let own = boxes[k as usize];
    let name = name_of(own.layer);
    let words = format!(in alloc; " box {k} {name}")?;
    out.extend_from_slice(words.as_bytes())?;
    push_corners(out, alloc, &own.area)
}

fn name_of(layer: MaskLayer) -> &'static str
    ensures { result.now ≡ name_of layer }
{
    match layer {
        MaskLayer::ND => "ND",
        MaskLayer::NP => "NP",
        MaskLayer::NC => "NC",
        MaskLayer::NM => "NM",
        MaskLayer::NI => "NI",
        MaskLayer::NB => "NB",
    }
}

// Adds the low corner of an area and then the high one.
fn push_corners(out: &mut Vec<u8>, alloc: Global, area: &BoxXY) -> Result<(), AllocError>
    requires { IsPlacedBox area.now }
    ensures { OnOk result (out.new.items ≡ out.old.items ++ corner_words area.now) }
{
    push_length(out, alloc, " ", area.x.lo)?;
    push_length(out, alloc, " ", area.y.lo)?;
    push_length(out, alloc, " ", area.x.hi)?;
    push_length(out, alloc, " ", area.y.hi)
}

// Adds a word and then a length in microns.
fn push_length(
    out: &mut Vec<u8>,
    alloc: Global,
    word: &'static str,
    length: i64,
) -> Result<(), AllocError>
    requires { IsPlace length }
    ensures { OnOk result (out.new.items ≡ out.old.items ++ (word.now ++ microns length)) }
{
    let text = microns(alloc, length)?;
    out.extend_from_slice(word.as_bytes())?;
    out.extend_from_slice(text.as_bytes())?;
    Ok(())
}

// A length in microns with three decimals: a grain is five thousandths.
fn microns(alloc: Global, length: i64) -> Result<String, AllocError>
    requires { IsPlace length }
    ensures { IfOk result (λ text. string_bytes text ≡ microns length) }
{
    let thousandths = 5 * length.unsigned_abs();
    let whole = thousandths / 1000;
    let first = thousandths / 100 % 10;
    let second = thousandths / 10 % 10;
    let third = thousandths % 10;
    if length < 0 {
        format!(in alloc; "-{whole}.{first}{second}{third}")
    } else {
        format!(in alloc; "{whole}.{first}{second}{third}")
    }
}
