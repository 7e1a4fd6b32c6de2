//! What is recorded of a pass.

use lam_geom::Axis;
use lam_list::Seq;

/// A walk: the numbers of the inequalities in the list of its pass, in order.
#[derive(Drop)]
pub struct Walk {
    pub edges: Seq<u32>,
}

/// A pass that was made.
#[derive(Drop)]
pub struct Step {
    /// The axis that it was made on.
    pub axis: Axis,
    /// The value of each variable of the axis, in u.
    pub x: Seq<i64>,
    /// For each master the number of its kept pairs.
    pub kept: Seq<u32>,
    /// The number of inequalities in the list of the pass.
    pub edges: u32,
    /// How many of them are backward in order of the values before the pass.
    pub backward: u32,
    /// The number of Liao and Wong's rounds.
    pub rounds: u32,
    /// For each master the critical path: a walk from the origin to its far border, as long as the value there.
    pub walks: Seq<Walk>,
}
