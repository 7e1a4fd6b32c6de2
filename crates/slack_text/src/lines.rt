//! The lines of the text: that of the axis, that of a master's size, and those of its variables.

ghost use Rattle.std.specs.Prelude.{◌≡◌, ◌+◌, ◌<◌, ◌≤◌, ◌++◌, ◌∷◌, [], length, map, flat_map, decimal, All, OnOk, IfOk};
ghost use Rattle.std.specs.{List.range_with_len, Fmt.signed_decimal};
ghost use Rattle.lam_geom.specs.Places.{IsPlace};
ghost use Rattle.cons_graph.specs.Solutions.{value_of};
ghost use Rattle.cell_model.specs.{declared.cell.Node.Node as SomeNode, Sound.wire_at, Wiring.is_same_axis};
ghost use Rattle.expand.specs.Variables.{crossing};
ghost use Rattle.pitch_join.specs.Names.{within_cell, cross_name};
ghost use Rattle.slack_text.specs.Slack.{letter, axis_line, size_line, places_text, slack_line, slack_lines};

use cell_model::{Cell, Node};
use expand::crossing;
use lam_geom::Axis;
use std::alloc::AllocError;
use stick_lex::{push_decimal, push_signed_decimal};

// The letter of an axis.
fn letter(axis: Axis) -> u8
    ensures { letter axis ≡ result ∷ [] }
{
    match axis {
        Axis::X => b'x',
        Axis::Y => b'y',
    }
}

/// Adds the line of an axis and the number of its pass.
pub fn push_axis(text: &mut Vec<u8>, axis: Axis, pass: u32) -> Result<(), AllocError>
    ensures { OnOk result (text.new.items ≡ text.old.items ++ axis_line axis pass) }
{
    text.extend_from_slice(b"axis ")?;
    text.push(letter(axis))?;
    text.extend_from_slice(b" pass ")?;
    push_decimal(text, u64::from(pass))?;
    text.push(b'\n')?;
    Ok(())
}

// Adds a word and the length that comes after it, in u.
fn push_len(text: &mut Vec<u8>, word: &[u8], len: i64) -> Result<(), AllocError>
    ensures { OnOk result (text.new.items ≡ text.old.items ++ (word.now ++ signed_decimal len)) }
{
    text.extend_from_slice(word)?;
    push_signed_decimal(text, len)
}

/// Adds the line of the size of a cell, in u.
pub fn push_size(text: &mut Vec<u8>, cell: &Cell, size: i64) -> Result<(), AllocError>
    ensures { OnOk result (text.new.items ≡ text.old.items ++ size_line cell.now.name size) }
{
    text.extend_from_slice(b"cell ")?;
    text.extend_from_slice(cell.name.bytes())?;
    push_len(text, b" size ", size)?;
    text.push(b'\n')?;
    Ok(())
}

/// The value of variable `v`, in u.
pub fn value(values: &[i64], v: usize) -> i64
    requires among { v < length values.now }
    requires places { All IsPlace values.now }
    ensures value { result ≡ value_of values.now v }
    ensures place { IsPlace result }
{
    values[v]
}

// Adds the least and the greatest place of a part and how far it could move, in u, to the end of its line.
fn push_places(text: &mut Vec<u8>, least: i64, most: i64) -> Result<(), AllocError>
    requires least { IsPlace least }
    requires most { IsPlace most }
    ensures { OnOk result (text.new.items ≡ text.old.items ++ places_text least most) }
{
    push_len(text, b" least ", least)?;
    push_len(text, b" most ", most)?;
    push_len(text, b" slack ", most - least)?;
    text.push(b'\n')?;
    Ok(())
}

// Adds the line of a node, whose centre is at least at `least` and at most at `most`.
fn push_node(
    text: &mut Vec<u8>,
    cell: &Cell,
    node: &Node,
    least: i64,
    most: i64,
) -> Result<(), AllocError>
    requires least { IsPlace least }
    requires most { IsPlace most }
    ensures { OnOk result
        (text.new.items ≡ text.old.items ++ slack_line (within_cell cell.now node.now.name) least most) }
{
    text.extend_from_slice(cell.name.bytes())?;
    text.push(b':')?;
    text.extend_from_slice(node.name.bytes())?;
    push_places(text, least, most)
}

/// Adds the lines of the nodes of a cell, whose centres are the variables from `first` on.
pub fn push_nodes(
    text: &mut Vec<u8>,
    cell: &Cell,
    first: usize,
    least: &[i64],
    most: &[i64],
) -> Result<(), AllocError>
    requires in_least { first
        + length cell.now.nodes ≤ length least.now }
    requires in_most { first + length cell.now.nodes ≤ length most.now }
    requires least_places { All IsPlace least.now }
    requires most_places { All IsPlace most.now }
    ensures { OnOk result
        (text.new.items ≡ text.old.items ++ slack_lines
        (map (λ (node : SomeNode). within_cell cell.now node.name) cell.now.nodes) first least.now most.now) }
{
    let nodes = cell.nodes.as_slice();
    for k in 0..nodes.len() {
        let v = first + k;
        push_node(text, cell, &nodes[k], value(least, v), value(most, v))?;
    }
    Ok(())
}

// True where wire `k` has its cross coordinate on the axis.
fn crosses(axis: Axis, cell: &Cell, k: usize) -> bool
    requires { k < length cell.now.wires }
    ensures { result ≡ is_same_axis (wire_at cell.now.wires k).along (crossing axis) }
{
    cell.wires.as_slice()[k].along == crossing(axis)
}

// Adds the line of wire `k`, whose cross coordinate is at least `least` and at most `most`.
fn push_wire(
    text: &mut Vec<u8>,
    cell: &Cell,
    k: usize,
    least: i64,
    most: i64,
) -> Result<(), AllocError>
    requires least { IsPlace least }
    requires most { IsPlace most }
    ensures { OnOk result
        (text.new.items ≡ text.old.items ++ slack_line (within_cell cell.now (35 ∷ decimal k)) least most) }
{
    text.extend_from_slice(cell.name.bytes())?;
    text.extend_from_slice(b":#")?;
    push_decimal(text, k as u64)?;
    push_places(text, least, most)
}

// Adds the line of wire `k`, if it has its cross coordinate on the axis, which then is variable `v`. Gives the number
// of the next variable.
fn push_crossing(
    text: &mut Vec<u8>,
    axis: Axis,
    cell: &Cell,
    k: usize,
    v: usize,
    least: &[i64],
    most: &[i64],
) -> Result<usize, AllocError>
    requires wire { k < length cell.now.wires }
    requires in_least { v + length (cross_name axis cell.now k) ≤ length least.now }
    requires in_most { v + length (cross_name axis cell.now k) ≤ length most.now }
    requires least_places { All IsPlace least.now }
    requires most_places { All IsPlace most.now }
    ensures line { OnOk result
        (text.new.items ≡ text.old.items ++ slack_lines (cross_name axis cell.now k) v least.now most.now) }
    ensures next { IfOk result (λ next. next ≡ v + length (cross_name axis cell.now k)) }
{
    if !crosses(axis, cell, k) {
        return Ok(v);
    }
    push_wire(text, cell, k, value(least, v), value(most, v))?;
    Ok(v + 1)
}

/// Adds the lines of the wires of a cell that have their cross coordinates on an axis, which are the variables from
/// `first` on. Gives the number of the variable after them.
pub fn push_wires(
    text: &mut Vec<u8>,
    axis: Axis,
    cell: &Cell,
    first: usize,
    least: &[i64],
    most: &[i64],
) -> Result<usize, AllocError>
    requires in_least { first
        + length (flat_map (cross_name axis cell.now) (range_with_len 0 (length cell.now.wires))) ≤
        length least.now }
    requires in_most { first + length (flat_map (cross_name axis cell.now) (range_with_len 0 (length cell.now.wires))) ≤
        length most.now }
    requires least_places { All IsPlace least.now }
    requires most_places { All IsPlace most.now }
    ensures lines { OnOk result
        (text.new.items ≡ text.old.items ++ slack_lines
        (flat_map (cross_name axis cell.now) (range_with_len 0 (length cell.now.wires))) first least.now most.now) }
    ensures next { IfOk result
        (λ next. next ≡ first + length
        (flat_map (cross_name axis cell.now) (range_with_len 0 (length cell.now.wires)))) }
{
    let mut v = first;
    for k in 0..cell.wires.as_slice().len() {
        v = push_crossing(text, axis, cell, k, v, least, most)?;
    }
    Ok(v)
}
