//! The text of an axis.

ghost use Rattle.std.specs.Prelude.{◌≡◌, ◌+◌, ◌≤◌, ◌++◌, length, drop, All, OnOk, IfOk};
ghost use Rattle.lam_geom.specs.Places.{IsPlace};
ghost use Rattle.cons_graph.specs.Solutions.{value_of};
ghost use Rattle.pitch_join.specs.{Joined.system_variables, Names.own_names};
ghost use Rattle.slack_text.specs.Slack.{size_line, slack_lines, axis_slack};

use crate::lines::{push_axis, push_nodes, push_size, push_wires, value};
use cell_model::Cell;
use expand::Master;
use lam_geom::Axis;
use std::alloc::{AllocError, Global};

// Adds the text of a cell whose far border is variable `far`. Gives the number of the variable after its own.
fn push_cell(
    text: &mut Vec<u8>,
    axis: Axis,
    cell: &Cell,
    far: usize,
    least: &[i64],
    most: &[i64],
) -> Result<usize, AllocError>
    requires in_least { far + length (own_names axis cell.now) ≤ length least.now }
    requires in_most { far + length (own_names axis cell.now) ≤ length most.now }
    requires least_places { All IsPlace least.now }
    requires most_places { All IsPlace most.now }
    ensures text { OnOk result
        (text.new.items ≡ text.old.items
        ++ (size_line cell.now.name (value_of least.now far) ++ slack_lines (drop 1 (own_names axis cell.now))
        (far + 1) least.now most.now)) }
    ensures next { IfOk result (λ next. next ≡ far + length (own_names axis cell.now)) }
{
    push_size(text, cell, value(least, far))?;
    push_nodes(text, cell, far + 1, least, most)?;
    let wires = far + 1 + cell.nodes.as_slice().len();
    push_wires(text, axis, cell, wires, least, most)
}

/// The text of an axis after the pass with this number, counted from 1: for each master its size, and for each of its
/// variables but the borders the least place, the greatest, and how far it could move, all in u. `least` and `most`
/// have a value for each joint variable of the axis, within 2^60 of 0. The only refusal is want of memory.
pub fn axis_slack(
    alloc: Global,
    axis: Axis,
    pass: u32,
    masters: &[Master],
    least: &[i64],
    most: &[i64],
) -> Result<Vec<u8>, AllocError>
    requires least_each { length least.now ≡ system_variables axis masters.now }
    requires most_each { length most.now ≡ system_variables axis masters.now }
    requires least_places { All IsPlace least.now }
    requires most_places { All IsPlace most.now }
    ensures { IfOk result (λ text. text.items ≡ axis_slack axis pass masters.now least.now most.now) }
{
    let mut text = Vec::new(alloc);
    push_axis(&mut text, axis, pass)?;
    let mut far = 1;
    for master in masters {
        far = push_cell(&mut text, axis, &master.cell, far, least, most)?;
    }
    Ok(text)
}
