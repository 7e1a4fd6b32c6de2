//! What a plan is made of. A master is named by its position among the masters, from 0.

use lam_list::Seq;

/// A row of a grid: the master of each of its instances, from the left.
#[derive(Drop)]
pub struct PlanRow {
    pub cells: Seq<u32>,
}

/// A grid: its rows, from the bottom.
#[derive(Drop)]
pub struct PlanGrid {
    pub rows: Seq<PlanRow>,
}

/// Two masters whose far borders are equal.
#[derive(Clone, Copy, PartialEq, Eq)]
pub struct Same {
    pub a: u32,
    pub b: u32,
}

/// Two ports that meet on a border, by their masters and by the numbers of their wires: `a` is the master on the left
/// or below.
#[derive(Clone, Copy, PartialEq, Eq)]
pub struct Match {
    pub a: u32,
    pub a_wire: u32,
    pub b: u32,
    pub b_wire: u32,
}

/// The plan of all grids of a design.
#[derive(Drop)]
pub struct Plan {
    /// The masters, by their numbers among the cells of the design, in order of their first instances.
    pub masters: Seq<u32>,
    /// The grids, in order.
    pub grids: Seq<PlanGrid>,
    /// The masters that share a column, so have one width: each two once.
    pub pitch_x: Seq<Same>,
    /// The masters that share a row, so have one height: each two once.
    pub pitch_y: Seq<Same>,
    /// The ports that meet on bottom and top borders, so have one x: those of each two masters once.
    pub port_x: Seq<Match>,
    /// The ports that meet on left and right borders, so have one y.
    pub port_y: Seq<Match>,
}
