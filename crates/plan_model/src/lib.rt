//! The plan of a design's grids: which masters stand where, which of them have to be equally wide or high, and which
//! ports meet.
//!
//! The definitions that the layers above share: rows and what stands beside and above what (`specs/Rows.antt`), the
//! ports of a side in order and what meets at a border (`specs/Borders.antt`), what a plan says of its rows and ports
//! (`specs/Plan.antt`), where each instance stands (`specs/Instances.antt`), and the nets over all instances
//! (`specs/GridNets.antt`). It has no code but the types.
#![tactic(auto)]

mod plan;

pub use plan::{Match, Plan, PlanGrid, PlanRow, Same};
