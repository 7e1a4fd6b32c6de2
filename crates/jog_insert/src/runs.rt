//! The wire that is bent, and whether another one reaches over the bend in its column.
ghost use Rattle.std.specs.Prelude.{◌≡◌, ◌↔◌, ◌≢◌, ℕ, ◌+◌, ◌<◌, ◌≤◌, pos, length, IsTrue, MatchBool, MatchOption};
ghost use Rattle.std.specs.List.{AllByRecursion};
ghost use Rattle.rule_table.specs.{Bounds.IsSize, declared.technology.Tech.Tech};
ghost use Rattle.cell_model.specs.declared.cell.Axis2.TheVariants.{Up};
ghost use Rattle.cell_model.specs.{Nets.HasEnds, Sound.{IsEnd, IsSound, line_at, wire_at}};
ghost use Rattle.cell_model.specs.declared.cell.WireEnd.TheVariants as ends;
ghost use Rattle.jog_insert.specs.{Jogs.{IsFromBelow, IsFromAbove, Crosses, IsBendable}, Building.IsRun};

use cell_model::{Axis2, Cell, Wire, WireEnd};

/// A wire that runs up between two nodes: its column, the numbers of the nodes at its ends, and its width in u.
#[derive(Clone, Copy)]
pub struct Run {
    pub col: u32,
    pub low: u32,
    pub high: u32,
    pub width: u32,
}

fn column_of(cell: &Cell, end: WireEnd) -> u32
    requires { IsEnd cell.now end }
    ensures { result ≡ line_at cell.now Up end }
{
    match end {
        WireEnd::Node(i) => cell.nodes.as_slice()[i as usize].col,
        WireEnd::Port(i) => cell.ports.as_slice()[i as usize].place,
    }
}

fn is_from_below(cell: &Cell, row: u32, end: WireEnd) -> bool
    requires { IsEnd cell.now end }
    ensures { IsTrue result ↔ IsFromBelow cell.now row end }
{
    match end {
        WireEnd::Node(i) => cell.nodes.as_slice()[i as usize].row <= row,
        WireEnd::Port(_) => true,
    }
}

fn is_from_above(cell: &Cell, row: u32, end: WireEnd) -> bool
    requires { IsEnd cell.now end }
    ensures { IsTrue result ↔ IsFromAbove cell.now row end }
{
    match end {
        WireEnd::Node(i) => row <= cell.nodes.as_slice()[i as usize].row,
        WireEnd::Port(_) => true,
    }
}

// Whether the wire runs up in the column and reaches both the row and the next one.
fn crosses(cell: &Cell, col: u32, row: u32, wire: Wire) -> bool
    requires ends { HasEnds cell.now wire }
    requires row { row ≤ 4095 }
    ensures { IsTrue result ↔ Crosses cell.now col row wire }
{
    wire.along == Axis2::Up
        && column_of(cell, wire.low) == col
        && is_from_below(cell, row, wire.low)
        && is_from_above(cell, row + 1, wire.high)
}

// Whether a wire other than number `k` does.
fn is_crossed(cell: &Cell, col: u32, row: u32, k: usize) -> bool
    requires ends { AllByRecursion (HasEnds cell.now) cell.now.wires }
    requires row { row ≤ 4095 }
    ensures { MatchBool result
        ((j : ℕ) × (j < length cell.now.wires) × (j ≢ k) × Crosses cell.now col row (wire_at cell.now.wires j))
        ((j : ℕ) → j < length cell.now.wires → j ≢ k → Crosses cell.now col row (wire_at cell.now.wires j) → ⊥) }
{
    for (j, wire) in cell.wires.as_slice().iter().enumerate() {
        if j != k && crosses(cell, col, row, *wire) {
            return true;
        }
    }
    false
}

fn node_of(end: WireEnd) -> Option<u32>
    ensures { MatchOption result ((i : ℕ) → end ≡ ends.Node i → ⊥) (λ i. end ≡ ends.Node i) }
{
    match end {
        WireEnd::Node(i) => Some(i),
        WireEnd::Port(_) => None,
    }
}

fn unsigned(size: i64) -> u32
    requires { IsSize size }
    ensures { size ≡ pos result }
{
    size as u32
}

/// Wire `k` of a cell, where it can be bent above a row.
pub fn run_of(cell: &Cell, k: u32, row: u32) -> Option<Run>
    requires sound { (tech : Tech) × IsSound tech cell.now }
    requires ends { AllByRecursion (HasEnds cell.now) cell.now.wires }
    ensures { MatchOption result (IsBendable cell.now k row → ⊥) (IsRun cell.now k row) }
{
    let wires = cell.wires.as_slice();
    if k as usize >= wires.len() {
        return None;
    }
    let wire = wires[k as usize];
    if wire.along != Axis2::Up {
        return None;
    }
    let low = node_of(wire.low)?;
    let high = node_of(wire.high)?;
    let nodes = cell.nodes.as_slice();
    let below = &nodes[low as usize];
    let above = &nodes[high as usize];
    if row < below.row || above.row <= row {
        return None;
    }
    if is_crossed(cell, below.col, row, k as usize) {
        return None;
    }
    Some(Run {
        col: below.col,
        low,
        high,
        width: unsigned(wire.width),
    })
}
