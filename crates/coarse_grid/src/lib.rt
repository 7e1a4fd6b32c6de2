//! The start layout of a cell on a coarse grid, and the first pair of items that are too near one another in a layout.
//!
//! Columns and rows start a pitch apart: twice the half extent of the cell, which is how far a part may reach from its
//! grid point, and the widest spacing. For the layer above: `pitch`, `start` and `find_clash` are their definitions,
//! and `first_clash` finds what `find_clash` does, faster; in the start layout each item of the cell has a box, and
//! items of parts that share no grid point lie at least the widest spacing apart. Lengths and coordinates are in u,
//! the grid unit.
#![tactic(auto)]

mod clash;
mod class_tree;
mod extent;
mod laws;
mod layout;
mod nearby;

pub use clash::find_clash;
pub use extent::pitch;
pub use laws::{near_share_a_point, start_gives_boxes, start_is_a_layout, start_keeps_apart};
pub use layout::start;
pub use nearby::first_clash;
