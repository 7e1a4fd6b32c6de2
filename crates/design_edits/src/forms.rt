//! The form of a line copied.
ghost use Rattle.std.specs.Prelude.{◌≡◌, IfOk};
ghost use Rattle.stick_text.specs.declared.design.Form.TheVariants as forms;

use lam_geom::Side;
use std::alloc::{AllocError, Global};
use stick_lex::Text;
use stick_text::{Form, Layer};

fn copy_joint(
    alloc: Global,
    name: &Text,
    layer: Layer,
    col: u32,
    row: u32,
    width: Option<u32>,
) -> Result<Form, AllocError>
    ensures { IfOk result (λ copy. copy ≡ forms.Joint name.now layer col row width) }
{
    let name = Text::new(alloc, name.bytes())?;
    Ok(Form::Joint {
        name,
        layer,
        col,
        row,
        width,
    })
}

fn copy_contact(
    alloc: Global,
    name: &Text,
    lower: Layer,
    col: u32,
    row: u32,
) -> Result<Form, AllocError>
    ensures { IfOk result (λ copy. copy ≡ forms.Contact name.now lower col row) }
{
    let name = Text::new(alloc, name.bytes())?;
    Ok(Form::Contact {
        name,
        lower,
        col,
        row,
    })
}

fn copy_buried(alloc: Global, name: &Text, col: u32, row: u32) -> Result<Form, AllocError>
    ensures { IfOk result (λ copy. copy ≡ forms.Buried name.now col row) }
{
    let name = Text::new(alloc, name.bytes())?;
    Ok(Form::Buried { name, col, row })
}

fn copy_fet(
    alloc: Global,
    name: &Text,
    depletion: bool,
    vertical: bool,
    col: u32,
    row: u32,
    w: u32,
    l: u32,
) -> Result<Form, AllocError>
    ensures { IfOk result (λ copy. copy ≡ forms.Fet name.now depletion vertical col row w l) }
{
    let name = Text::new(alloc, name.bytes())?;
    Ok(Form::Fet {
        name,
        depletion,
        vertical,
        col,
        row,
        w,
        l,
    })
}

fn copy_port(
    alloc: Global,
    name: &Text,
    side: Side,
    layer: Layer,
    place: u32,
) -> Result<Form, AllocError>
    ensures { IfOk result (λ copy. copy ≡ forms.Port name.now side layer place) }
{
    let name = Text::new(alloc, name.bytes())?;
    Ok(Form::Port {
        name,
        side,
        layer,
        place,
    })
}

fn copy_use(alloc: Global, name: &Text, cell: &Text, col: u32, row: u32) -> Result<Form, AllocError>
    ensures { IfOk result (λ copy. copy ≡ forms.Inst name.now cell.now col row) }
{
    let name = Text::new(alloc, name.bytes())?;
    let cell = Text::new(alloc, cell.bytes())?;
    Ok(Form::Inst {
        name,
        cell,
        col,
        row,
    })
}

fn copy_wire(
    alloc: Global,
    layer: Layer,
    a: &Text,
    b: &Text,
    width: Option<u32>,
) -> Result<Form, AllocError>
    ensures { IfOk result (λ copy. copy ≡ forms.Wire layer a.now b.now width) }
{
    let a = Text::new(alloc, a.bytes())?;
    let b = Text::new(alloc, b.bytes())?;
    Ok(Form::Wire { layer, a, b, width })
}

fn copy_limit(
    alloc: Global,
    vertical: bool,
    a: &Text,
    b: &Text,
    at_most: bool,
    n: i64,
) -> Result<Form, AllocError>
    ensures { IfOk result (λ copy. copy ≡ forms.Limit vertical a.now b.now at_most n) }
{
    let a = Text::new(alloc, a.bytes())?;
    let b = Text::new(alloc, b.bytes())?;
    Ok(Form::Limit {
        vertical,
        a,
        b,
        at_most,
        n,
    })
}

/// A copy of the form of a line. The only refusal is want of memory.
pub fn copy_form(alloc: Global, form: &Form) -> Result<Form, AllocError>
    ensures { IfOk result (λ copy. copy ≡ form.now) }
{
    match form {
        Form::Joint {
            name,
            layer,
            col,
            row,
            width,
        } => copy_joint(alloc, name, *layer, *col, *row, *width),
        Form::Contact {
            name,
            lower,
            col,
            row,
        } => copy_contact(alloc, name, *lower, *col, *row),
        Form::Buried { name, col, row } => copy_buried(alloc, name, *col, *row),
        Form::Fet {
            name,
            depletion,
            vertical,
            col,
            row,
            w,
            l,
        } => copy_fet(alloc, name, *depletion, *vertical, *col, *row, *w, *l),
        Form::Port {
            name,
            side,
            layer,
            place,
        } => copy_port(alloc, name, *side, *layer, *place),
        Form::Inst {
            name,
            cell,
            col,
            row,
        } => copy_use(alloc, name, cell, *col, *row),
        Form::Wire { layer, a, b, width } => copy_wire(alloc, *layer, a, b, *width),
        Form::Limit {
            vertical,
            a,
            b,
            at_most,
            n,
        } => copy_limit(alloc, *vertical, a, b, *at_most, *n),
    }
}
