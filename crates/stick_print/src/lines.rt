//! One line for each form.
ghost use Rattle.std.specs.Prelude.{◌≡◌, ◌++◌, OnOk};
ghost use Rattle.stick_text.specs.declared.design.Form.TheVariants.{Joint, Contact, Buried, Fet, Port, Inst, Wire};
ghost use Rattle.stick_text.specs.declared.design.{Form.TheVariants.Limit, Statement.TheVariants.{Item, Row}};
ghost use Rattle.stick_print.specs.Canonical.{line_of};

use crate::words::{
    either_word, layer_word, put_count, put_number, put_pair, put_width, put_word, side_word,
};
use lam_geom::Side;
use std::alloc::AllocError;
use stick_lex::Text;
use stick_text::{Form, Layer};

#[tactic(auto, unfolding(crate::specs::Canonical::line_of))]
fn put_joint(
    out: &mut Vec<u8>,
    name: &Text,
    layer: Layer,
    col: u32,
    row: u32,
    width: Option<u32>,
) -> Result<(), AllocError>
    ensures { OnOk result (out.new.items ≡ out.old.items ++ line_of (Item (Joint name.now layer col row width))) }
{
    out.extend_from_slice(b"joint")?;
    put_word(out, name.bytes())?;
    put_word(out, layer_word(layer))?;
    put_count(out, col)?;
    put_count(out, row)?;
    put_width(out, width)?;
    out.push(b'\n')?;
    Ok(())
}

#[tactic(auto, unfolding(crate::specs::Canonical::line_of))]
fn put_contact(
    out: &mut Vec<u8>,
    name: &Text,
    lower: Layer,
    col: u32,
    row: u32,
) -> Result<(), AllocError>
    ensures { OnOk result (out.new.items ≡ out.old.items ++ line_of (Item (Contact name.now lower col row))) }
{
    out.extend_from_slice(b"contact")?;
    put_word(out, name.bytes())?;
    put_word(out, layer_word(lower))?;
    put_count(out, col)?;
    put_count(out, row)?;
    out.push(b'\n')?;
    Ok(())
}

#[tactic(auto, unfolding(crate::specs::Canonical::line_of))]
fn put_buried(out: &mut Vec<u8>, name: &Text, col: u32, row: u32) -> Result<(), AllocError>
    ensures { OnOk result (out.new.items ≡ out.old.items ++ line_of (Item (Buried name.now col row))) }
{
    out.extend_from_slice(b"buried")?;
    put_word(out, name.bytes())?;
    put_count(out, col)?;
    put_count(out, row)?;
    out.push(b'\n')?;
    Ok(())
}

#[tactic(auto, unfolding(crate::specs::Canonical::line_of))]
fn put_fet(
    out: &mut Vec<u8>,
    name: &Text,
    ways: (bool, bool),
    place: (u32, u32),
    size: (u32, u32),
) -> Result<(), AllocError>
    ensures { OnOk result (out.new.items
        ≡ out.old.items ++ line_of (Item (Fet name.now ways.0 ways.1 place.0 place.1 size.0 size.1))) }
{
    out.extend_from_slice(b"fet")?;
    put_word(out, name.bytes())?;
    put_word(out, either_word(b"enh", b"dep", ways.0))?;
    put_word(out, either_word(b"h", b"v", ways.1))?;
    put_pair(out, place)?;
    put_pair(out, size)?;
    out.push(b'\n')?;
    Ok(())
}

#[tactic(auto, unfolding(crate::specs::Canonical::line_of))]
fn put_port(
    out: &mut Vec<u8>,
    name: &Text,
    side: Side,
    layer: Layer,
    place: u32,
) -> Result<(), AllocError>
    ensures { OnOk result (out.new.items ≡ out.old.items ++ line_of (Item (Port name.now side layer place))) }
{
    out.extend_from_slice(b"port")?;
    put_word(out, name.bytes())?;
    put_word(out, side_word(side))?;
    put_word(out, layer_word(layer))?;
    put_count(out, place)?;
    out.push(b'\n')?;
    Ok(())
}

#[tactic(auto, unfolding(crate::specs::Canonical::line_of))]
fn put_use(
    out: &mut Vec<u8>,
    name: &Text,
    cell: &Text,
    col: u32,
    row: u32,
) -> Result<(), AllocError>
    ensures { OnOk result (out.new.items ≡ out.old.items ++ line_of (Item (Inst name.now cell.now col row))) }
{
    out.extend_from_slice(b"use")?;
    put_word(out, name.bytes())?;
    put_word(out, cell.bytes())?;
    put_count(out, col)?;
    put_count(out, row)?;
    out.push(b'\n')?;
    Ok(())
}

#[tactic(auto, unfolding(crate::specs::Canonical::line_of))]
fn put_wire(
    out: &mut Vec<u8>,
    layer: Layer,
    a: &Text,
    b: &Text,
    width: Option<u32>,
) -> Result<(), AllocError>
    ensures { OnOk result (out.new.items ≡ out.old.items ++ line_of (Item (Wire layer a.now b.now width))) }
{
    out.extend_from_slice(b"wire")?;
    put_word(out, layer_word(layer))?;
    put_word(out, a.bytes())?;
    put_word(out, b.bytes())?;
    put_width(out, width)?;
    out.push(b'\n')?;
    Ok(())
}

#[tactic(auto, unfolding(crate::specs::Canonical::line_of))]
fn put_limit(
    out: &mut Vec<u8>,
    vertical: bool,
    a: &Text,
    b: &Text,
    at_most: bool,
    n: i64,
) -> Result<(), AllocError>
    ensures { OnOk result (out.new.items ≡ out.old.items ++ line_of (Item (Limit vertical a.now b.now at_most n))) }
{
    out.extend_from_slice(b"limit")?;
    put_word(out, either_word(b"x", b"y", vertical))?;
    put_word(out, a.bytes())?;
    put_word(out, b.bytes())?;
    put_word(out, either_word(b">=", b"<=", at_most))?;
    put_number(out, n)?;
    out.push(b'\n')?;
    Ok(())
}

/// Adds the line of a form.
pub fn put_form(out: &mut Vec<u8>, form: &Form) -> Result<(), AllocError>
    ensures { OnOk result (out.new.items ≡ out.old.items ++ line_of (Item form.now)) }
{
    match form {
        Form::Joint {
            name,
            layer,
            col,
            row,
            width,
        } => { put_joint(out, name, *layer, *col, *row, *width) }
        Form::Contact {
            name,
            lower,
            col,
            row,
        } => put_contact(out, name, *lower, *col, *row),
        Form::Buried { name, col, row } => put_buried(out, name, *col, *row),
        Form::Fet {
            name,
            depletion,
            vertical,
            col,
            row,
            w,
            l,
        } => { put_fet(out, name, (*depletion, *vertical), (*col, *row), (*w, *l)) }
        Form::Port {
            name,
            side,
            layer,
            place,
        } => put_port(out, name, *side, *layer, *place),
        Form::Inst {
            name,
            cell,
            col,
            row,
        } => put_use(out, name, cell, *col, *row),
        Form::Wire { layer, a, b, width } => put_wire(out, *layer, a, b, *width),
        Form::Limit {
            vertical,
            a,
            b,
            at_most,
            n,
        } => { put_limit(out, *vertical, a, b, *at_most, *n) }
    }
}
