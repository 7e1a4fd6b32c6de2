//! The start layout of a cell.

ghost use Rattle.std.specs.Prelude.{◌≡◌, ◌≤◌, IfOk, All, length};
ghost use Rattle.cell_model.specs.Sound.{IsSound, IsEnd, line_at};
ghost use Rattle.coarse_grid.specs.Start.{node_line, last_line, place, start_values, start_of};
ghost use Rattle.coarse_grid.specs.Near.{IsNear, IsPitch, AreLinesNear};
ghost use Rattle.expand.specs.Variables.{variables_of};
ghost use Rattle.lam_geom.specs.declared.boxes.Axis.TheVariants.{X, Y};

use crate::extent::pitch;
use cell_model::{Axis2, Cell, Node, WireEnd};
use lam_list::Seq;
use rule_table::Tech;
use std::alloc::{AllocError, Global};
use sym_items::Coords;

/// The start layout of a cell: on each axis the origin, the far border, each node's centre, and the cross coordinate of
/// each wire that runs along the other axis. Columns and rows start a pitch apart, the first a pitch from the origin,
/// and the far border lies a pitch past the last of them. The only refusal is want of memory.
pub fn start(alloc: Global, tech: &Tech, cell: &Cell) -> Result<Coords, AllocError>
    requires { IsSound tech.now cell.now }
    ensures value { IfOk result (λ c. c ≡ start_of tech.now cell.now) }
    ensures near_x { IfOk result (λ c. All IsNear c.x) }
    ensures near_y { IfOk result (λ c. All IsNear c.y) }
    ensures counted_x { IfOk result (λ c. length c.x ≡ variables_of X cell.now) }
    ensures counted_y { IfOk result (λ c. length c.y ≡ variables_of Y cell.now) }
{
    let pitch = pitch(tech, cell);
    let x = values(alloc, cell, pitch, Axis2::Across)?;
    let y = values(alloc, cell, pitch, Axis2::Up)?;
    Ok(Coords {
        x: Seq::from_vec(x),
        y: Seq::from_vec(y),
    })
}

// The start value of each variable of an axis.
fn values(alloc: Global, cell: &Cell, pitch: i64, axis: Axis2) -> Result<Vec<i64>, AllocError>
    requires pitch { IsPitch pitch }
    requires lines { AreLinesNear cell.now }
    ensures value { IfOk result (λ values. values.items ≡ start_values pitch axis cell.now) }
{
    let mut values = Vec::new(alloc);
    values.push(0)?;
    values.push(place(pitch, last_line(axis, cell) + 1))?;
    for node in cell.nodes.as_slice() {
        values.push(place(pitch, node_line(axis, node)))?;
    }
    for wire in cell.wires.as_slice() {
        if !axis.is_same(wire.along) {
            values.push(place(pitch, line(cell, wire.along, wire.low)))?;
        }
    }
    Ok(values)
}

// Where a line starts, in u.
#[tactic(auto, unfolding(crate::specs::Start::place))]
fn place(pitch: i64, line: u32) -> i64
    requires pitch { IsPitch pitch }
    requires few { line ≤ 4096 }
    ensures value { result ≡ place pitch line }
    ensures near { IsNear result }
{
    pitch * (i64::from(line) + 1)
}

// The greatest line of a node or a port, 0 if there is none.
fn last_line(axis: Axis2, cell: &Cell) -> u32
    requires { AreLinesNear cell.now }
    ensures value { result ≡ last_line axis cell.now }
    ensures near { result ≤ 4095 }
{
    let mut last = 0;
    for node in cell.nodes.as_slice() {
        last = last.max(node_line(axis, node));
    }
    for port in cell.ports.as_slice() {
        if !axis.is_same(Axis2::of_side(port.side)) {
            last = last.max(port.place);
        }
    }
    last
}

// The column of a node on x, its row on y.
fn node_line(axis: Axis2, node: &Node) -> u32
    ensures { result ≡ node_line axis node.now }
{
    match axis {
        Axis2::Across => node.col,
        Axis2::Up => node.row,
    }
}

// The row of a terminal for a wire that runs across, its column for one that runs up.
fn line(cell: &Cell, along: Axis2, end: WireEnd) -> u32
    requires lines { AreLinesNear cell.now }
    requires end { IsEnd cell.now end }
    ensures value { result ≡ line_at cell.now along end }
    ensures near { result ≤ 4095 }
{
    match end {
        WireEnd::Port(k) => cell.ports.as_slice()[k as usize].place,
        WireEnd::Node(k) => {
            let node = &cell.nodes.as_slice()[k as usize];
            match along {
                Axis2::Across => node.row,
                Axis2::Up => node.col,
            }
        }
    }
}
