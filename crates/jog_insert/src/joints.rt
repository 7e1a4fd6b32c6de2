//! The lines of the bent cell.
ghost use Rattle.std.specs.Prelude.{◌≡◌, ◌↔◌, ◌+◌, ◌<◌, ◌≤◌, ◌++◌, [], ◌∷◌, All, false, Some, IsTrue, IfOk, OnOk};
ghost use Rattle.std.specs.{Prelude.{MatchBool, MatchOption, drop, length, map, take}, List.AllByRecursion};
ghost use Rattle.stick_text.specs.declared.design.Form.TheVariants as forms;
ghost use Rattle.stick_text.specs.Writable.{IsLine};
ghost use Rattle.design_edits.specs.Cells.{unnumbered};
ghost use Rattle.jog_insert.specs.Jogs.{moved_line, is_wire, wires_in, IsNearForm, IsWireOf};
ghost use Rattle.jog_insert.specs.Building.{bend_of, forms_by, IsWireAt};

use crate::bending::Place;
use crate::naming::joint_name;
use checked_cells::MOST_PLACE;
use design_edits::copy_form;
use std::alloc::{AllocError, Global};
use stick_lex::Text;
use stick_text::{Form, Layer, Line};

/// What comes in place of a wire: the bend, the number of the jog, and of the wire its layer, its width in u, and the
/// names of the nodes at its ends.
#[derive(Clone, Copy)]
pub struct Joints<'a> {
    pub place: Place,
    pub number: u32,
    pub layer: Layer,
    pub width: u32,
    pub low: &'a [u8],
    pub high: &'a [u8],
}

// A line that gets its number later.
fn unnumbered(form: Form) -> Line
    ensures { result ≡ unnumbered form }
{
    Line { number: 0, form }
}

// Appends a joint.
fn push_joint(
    alloc: Global,
    name: &Text,
    layer: Layer,
    col: u32,
    row: u32,
    width: u32,
    lines: &mut Vec<Line>,
) -> Result<(), AllocError>
    ensures { OnOk result (lines.new.items
        ≡ lines.old.items ++ unnumbered (forms.Joint name.now layer col row (Some width)) ∷ []) }
{
    let name = Text::new(alloc, name.bytes())?;
    lines.push(unnumbered(Form::Joint {
        name,
        layer,
        col,
        row,
        width: Some(width),
    }))?;
    Ok(())
}

// Appends a wire.
fn push_wire(
    alloc: Global,
    layer: Layer,
    a: &[u8],
    b: &[u8],
    width: u32,
    lines: &mut Vec<Line>,
) -> Result<(), AllocError>
    ensures { OnOk result (lines.new.items
        ≡ lines.old.items ++ unnumbered (forms.Wire layer a.now b.now (Some width)) ∷ []) }
{
    let a = Text::new(alloc, a)?;
    let b = Text::new(alloc, b)?;
    lines.push(unnumbered(Form::Wire {
        layer,
        a,
        b,
        width: Some(width),
    }))?;
    Ok(())
}

// Appends the two joints and the three wires.
fn push_joints(alloc: Global, joints: Joints, lines: &mut Vec<Line>) -> Result<(), AllocError>
    requires col { joints.place.col ≤ 4095 }
    requires row { joints.place.row ≤ 4095 }
    ensures { OnOk result (lines.new.items ≡ lines.old.items ++ map unnumbered (forms_by joints.entry)) }
{
    let Joints {
        place,
        number,
        layer,
        width,
        low,
        high,
    } = joints;
    let lower = joint_name(alloc, number, b'a')?;
    let upper = joint_name(alloc, number, b'b')?;
    let row = place.row + 1;
    push_joint(
        alloc,
        &lower,
        layer,
        place.part_col(false),
        row,
        width,
        lines,
    )?;
    push_joint(
        alloc,
        &upper,
        layer,
        place.part_col(true),
        row,
        width,
        lines,
    )?;
    push_wire(alloc, layer, low, lower.bytes(), width, lines)?;
    push_wire(alloc, layer, lower.bytes(), upper.bytes(), width, lines)?;
    push_wire(alloc, layer, upper.bytes(), high, width, lines)
}

// Appends lines where the bend has them go.
fn push_moved(
    alloc: Global,
    place: Place,
    from: &[Line],
    lines: &mut Vec<Line>,
) -> Result<(), AllocError>
    requires { AllByRecursion IsLine from.now }
    ensures { OnOk result (lines.new.items ≡ lines.old.items ++ map (moved_line (bend_of place)) from.now) }
{
    for line in from {
        let mut form = copy_form(alloc, &line.form)?;
        place.move_form(&mut form);
        lines.push(unnumbered(form))?;
    }
    Ok(())
}

/// The lines of a cell with these joints in place of the line at `at`.
pub fn bent_lines(
    alloc: Global,
    joints: Joints,
    lines: &[Line],
    at: usize,
) -> Result<Vec<Line>, AllocError>
    requires col { joints.place.col ≤ 4095 }
    requires row { joints.place.row ≤ 4095 }
    requires written { AllByRecursion IsLine lines.now }
    requires within { at < length lines.now }
    ensures { IfOk result (λ bent. bent.items ≡ map (moved_line (bend_of joints.entry.place)) (take at lines.now)
        ++ (map unnumbered (forms_by joints.entry)
        ++ map (moved_line (bend_of joints.entry.place)) (drop (at + 1) lines.now))) }
{
    let mut bent = Vec::new(alloc);
    push_moved(alloc, joints.place, &lines[..at], &mut bent)?;
    push_joints(alloc, joints, &mut bent)?;
    push_moved(alloc, joints.place, &lines[at + 1..], &mut bent)?;
    Ok(bent)
}

fn wire_layer(form: &Form) -> Option<Layer>
    ensures { MatchOption result (is_wire form.now ≡ false) (λ layer. IsWireOf layer form.now) }
{
    match form {
        Form::Wire { layer, .. } => Some(*layer),
        _ => None,
    }
}

/// The place of the line of wire `k` among some lines, and its layer.
pub fn wire_line(lines: &[Line], k: u32) -> Option<(usize, Layer)>
    ensures { MatchOption result (wires_in lines.now ≤ k) (λ found. IsWireAt lines.now k found.0 found.1) }
{
    let mut left = k;
    for (at, line) in lines.iter().enumerate() {
        if let Some(layer) = wire_layer(&line.form) {
            if left == 0 {
                return Some((at, layer));
            }
            left -= 1;
        }
    }
    None
}

// No column, row or place of the form lies too far out.
fn is_near(form: &Form) -> bool
    ensures { MatchBool result (IsNearForm form.now) (IsNearForm form.now → ⊥) }
{
    match form {
        Form::Joint { col, row, .. }
        | Form::Contact { col, row, .. }
        | Form::Buried { col, row, .. }
        | Form::Fet { col, row, .. }
        | Form::Inst { col, row, .. } => *col <= MOST_PLACE && *row <= MOST_PLACE,
        Form::Port { place, .. } => *place <= MOST_PLACE,
        Form::Wire { .. } | Form::Limit { .. } => true,
    }
}

/// Whether none of the lines lies too far out.
pub fn are_near(lines: &[Line]) -> bool
    ensures { MatchBool result (All (λ line. IsNearForm line.form) lines.now)
        (All (λ line. IsNearForm line.form) lines.now → ⊥) }
{
    lines.iter().all(|line| is_near(&line.form))
}
