//! The inequalities that hold in every layout of a cell, on one axis.

ghost use Rattle.std.specs.Prelude.{◌≡◌, ◌<◌, ◌^◌, ◌++◌, ◌∷◌, [], length, All, pos, neg_ℤ, ◌+ℤ◌, ◌-ℤ◌, ◌≤ℤ◌, OnOk};
ghost use Rattle.std.specs.{Prelude.IfOk, List.AllByRecursion};
ghost use Rattle.sym_items.specs.Transposed.{item_along};
ghost use Rattle.stick_lex.specs.Numbers.{IsNumber};
ghost use Rattle.cell_model.specs.Sound.{IsEnd, IsWithinPad, IsWire, IsLimit, IsSound, IsLight, node_at};
ghost use Rattle.cons_graph.specs.Constraints.{IsConstraintGraph};
ghost use Rattle.expand.specs.{Variables.{half, variables_of}, Masters.IsMaster, Structure.{between, extent_edges}};
ghost use Rattle.expand.specs.Structure.{margin_edges, tied, end_edges, wire_edges, limit_edge, is_limit_of, size_edge};
ghost use Rattle.expand.specs.Structure.{extents_of, overlaps_of, margins_of, limits_of, structure_of};
ghost use Rattle.expand.specs.Bounds.{IsSmall, IsNear, IsNearAlong, AreCrosses};

use crate::boxes::{centre, half, negated};
use crate::variables::{crosses, crossing};
use crate::wires::kind_at;
use cell_model::{Axis2, Cell, Limit, Wire, WireEnd};
use cons_graph::{Edge, Why};
use lam_geom::Axis;
use rule_table::Tech;
use std::alloc::{AllocError, Global};
use sym_items::{End, Item, Items};

/// The length between two variables, in u, that keeps so much between ends that lie past them.
pub fn between_variables(len: i64, low_off: i64, high_off: i64) -> i64
    requires len { IsNear len }
    requires low { IsNear low_off }
    requires high { IsNear high_off }
    ensures { result ≡ (len -ℤ high_off) +ℤ low_off }
{
    len - high_off + low_off
}

/// Adds that the high end lies at least so much past the low end, in u, unless both lie on one variable.
pub fn push_between(
    edges: &mut Vec<Edge>,
    low: End,
    high: End,
    len: i64,
    why: Why,
) -> Result<(), AllocError>
    requires len { IsNear len }
    requires low { IsNear low.off }
    requires high { IsNear high.off }
    ensures { OnOk result (edges.new.items ≡ edges.old.items ++ between low high len why) }
{
    if low.var == high.var {
        return Ok(());
    }
    edges.push(Edge {
        from: low.var,
        to: high.var,
        len: between_variables(len, low.off, high.off),
        why,
    })?;
    Ok(())
}

// Adds that an item has its least extent.
fn push_extent(edges: &mut Vec<Edge>, axis: Axis, item: &Item) -> Result<(), AllocError>
    requires { IsNearAlong axis item.now }
    ensures { OnOk result (edges.new.items ≡ edges.old.items ++ extent_edges (item_along axis item.now)) }
{
    let low = item.low(axis);
    let high = item.high(axis);
    push_between(edges, low, high, item.least(axis), Why::Extent)
}

// Adds that an item keeps its margins to both borders.
fn push_margin(
    edges: &mut Vec<Edge>,
    axis: Axis,
    tech: &Tech,
    item: &Item,
) -> Result<(), AllocError>
    requires { IsNearAlong axis item.now }
    ensures { OnOk result (edges.new.items ≡ edges.old.items ++ margin_edges tech.now (item_along axis item.now)) }
{
    let margin = tech.margin(item.class);
    let origin = End { var: 0, off: 0 };
    let far = End { var: 1, off: 0 };
    push_between(edges, origin, item.low(axis), margin, Why::Margin)?;
    push_between(edges, item.high(axis), far, margin, Why::Margin)?;
    Ok(())
}

// Adds that each item has its least extent.
fn push_extents(edges: &mut Vec<Edge>, axis: Axis, items: &[Item]) -> Result<(), AllocError>
    requires { All (IsNearAlong axis) items.now }
    ensures { OnOk result (edges.new.items ≡ edges.old.items ++ extents_of axis items.now) }
{
    for item in items {
        push_extent(edges, axis, item)?;
    }
    Ok(())
}

// Adds that each item keeps its margins to both borders.
fn push_margins(
    edges: &mut Vec<Edge>,
    axis: Axis,
    tech: &Tech,
    items: &[Item],
) -> Result<(), AllocError>
    requires { All (IsNearAlong axis) items.now }
    ensures { OnOk result (edges.new.items ≡ edges.old.items ++ margins_of axis tech.now items.now) }
{
    for item in items {
        push_margin(edges, axis, tech, item)?;
    }
    Ok(())
}

// Half of what a pad is wider than a wire, in u.
fn slack(pad: i64, width: i64) -> i64
    requires low { pos 0 ≤ℤ width }
    requires within { width ≤ℤ pad }
    requires high { pad ≤ℤ pos 12288 }
    ensures value { result ≡ half (pad -ℤ width) }
    ensures small { IsSmall result }
{
    half(pad - width)
}

// Adds that two variables differ by at most the slack.
fn push_tie(edges: &mut Vec<Edge>, terminal: u32, cross: u32, slack: i64) -> Result<(), AllocError>
    requires { IsSmall slack }
    ensures { OnOk result (edges.new.items ≡ edges.old.items ++ tied terminal cross slack) }
{
    let len = negated(slack);
    edges.push(Edge {
        from: terminal,
        to: cross,
        len,
        why: Why::Overlap,
    })?;
    edges.push(Edge {
        from: cross,
        to: terminal,
        len,
        why: Why::Overlap,
    })?;
    Ok(())
}

// Adds that a wire's cross coordinate stays on the pad of the node at which it ends.
fn push_end(
    edges: &mut Vec<Edge>,
    tech: &Tech,
    cell: &Cell,
    wire: &Wire,
    cross: u32,
    end: WireEnd,
) -> Result<(), AllocError>
    requires sound { IsSound tech.now cell.now }
    requires light { IsLight cell.now }
    requires width { pos 0 ≤ℤ wire.now.width }
    requires end { IsEnd cell.now end }
    requires within { IsWithinPad tech.now cell.now wire.now end }
    ensures { OnOk result (edges.new.items ≡ edges.old.items ++ end_edges tech.now cell.now wire.now cross end) }
{
    match end {
        WireEnd::Node(node) => {
            let pad = kind_at(cell, node).pad(tech, wire.layer);
            push_tie(edges, centre(node), cross, slack(pad, wire.width))
        }
        WireEnd::Port(_) => Ok(()),
    }
}

// Adds that a wire stays on the pads at its ends, if it has its cross coordinate on the axis.
fn push_wire_edges(
    edges: &mut Vec<Edge>,
    axis: Axis,
    tech: &Tech,
    cell: &Cell,
    wire: &Wire,
    cross: u32,
) -> Result<(), AllocError>
    requires sound { IsSound tech.now cell.now }
    requires light { IsLight cell.now }
    requires wire { IsWire tech.now cell.now wire.now }
    ensures { OnOk result (edges.new.items ≡ edges.old.items ++ wire_edges axis tech.now cell.now wire.now cross) }
{
    if !wire.along.is_same(crossing(axis)) {
        return Ok(());
    }
    push_end(edges, tech, cell, wire, cross, wire.low)?;
    push_end(edges, tech, cell, wire, cross, wire.high)?;
    Ok(())
}

// Adds that each wire that has its cross coordinate on the axis stays on the pads at its ends.
fn push_overlaps(
    edges: &mut Vec<Edge>,
    axis: Axis,
    tech: &Tech,
    cell: &Cell,
    crosses: &[u32],
) -> Result<(), AllocError>
    requires sound { IsSound tech.now cell.now }
    requires light { IsLight cell.now }
    requires crosses { AreCrosses cell.now (length cell.now.wires) crosses.now }
    ensures { OnOk result (edges.new.items ≡ edges.old.items ++ overlaps_of axis tech.now cell.now) }
{
    let wires = cell.wires.as_slice();
    for k in 0..wires.len() as u32 {
        let cross = crosses[k as usize];
        push_wire_edges(edges, axis, tech, cell, &wires[k as usize], cross)?;
    }
    Ok(())
}

// Whether a limit on this axis is one of the axis of the edges.
fn is_limit_of(axis: Axis, along: Axis2) -> bool
    ensures { result ≡ is_limit_of axis along }
{
    match axis {
        Axis::X => along.is_same(Axis2::Across),
        Axis::Y => along.is_same(Axis2::Up),
    }
}

// A limit's number to the other side.
fn opposite(n: i64) -> i64
    requires { IsNumber n }
    ensures { result ≡ neg_ℤ n }
{
    -n
}

// The inequality of a limit: at least `n` from the first node to the second, or at most `n`.
fn limit_edge(limit: &Limit) -> Edge
    requires a { limit.now.a < 65536 }
    requires b { limit.now.b < 65536 }
    requires number { IsNumber limit.now.n }
    ensures { result ≡ limit_edge limit.now }
{
    if limit.at_most {
        Edge {
            from: centre(limit.b),
            to: centre(limit.a),
            len: opposite(limit.n),
            why: Why::Limit,
        }
    } else {
        Edge {
            from: centre(limit.a),
            to: centre(limit.b),
            len: limit.n,
            why: Why::Limit,
        }
    }
}

// Adds the limits of the axis.
fn push_limits(edges: &mut Vec<Edge>, axis: Axis, cell: &Cell) -> Result<(), AllocError>
    requires light { IsLight cell.now }
    requires limits { AllByRecursion (IsLimit cell.now) cell.now.limits }
    ensures { OnOk result (edges.new.items ≡ edges.old.items ++ limits_of axis cell.now) }
{
    for limit in cell.limits.as_slice() {
        if is_limit_of(axis, limit.axis) {
            edges.push(limit_edge(limit))?;
        }
    }
    Ok(())
}

// The inequality that the cell is at least as wide as the widest spacing.
fn size_edge(tech: &Tech) -> Edge
    ensures { result ≡ size_edge tech.now }
{
    Edge {
        from: 0,
        to: 1,
        len: tech.widest(),
        why: Why::Size,
    }
}

/// The inequalities of a cell and its items on an axis, over the local variables of that axis: the cell's size, the
/// items' least extents, the wires on the pads at their ends, the items' margins to the borders, and the limits. The
/// only refusal is want of memory.
pub fn structure(
    alloc: Global,
    axis: Axis,
    tech: &Tech,
    cell: &Cell,
    items: &Items,
) -> Result<Vec<Edge>, AllocError>
    requires { IsMaster tech.now (record { cell = cell.now; items = items.now }) }
    ensures value { IfOk result (λ edges. edges.items ≡ structure_of axis tech.now cell.now items.now.list) }
    // a constraint graph can be made of them
    ensures shape { IfOk result
        (λ edges. IsConstraintGraph (record { vars = variables_of axis cell.now; edges = edges.items })) }
{
    let crosses = crosses(alloc, cell)?;
    let list = items.list.as_slice();
    let mut edges = Vec::new(alloc);
    edges.push(size_edge(tech))?;
    push_extents(&mut edges, axis, list)?;
    push_overlaps(&mut edges, axis, tech, cell, &crosses)?;
    push_margins(&mut edges, axis, tech, list)?;
    push_limits(&mut edges, axis, cell)?;
    Ok(edges)
}
