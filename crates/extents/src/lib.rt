//! The extent of layouts: how wide and how high their masters are, and all grids together.
//!
//! What the layer above uses: `width` and `height` tell a master's size in a list of layouts, and `judge_extent` sees
//! exactly whether the grids together are within 2^30 hundredths of a micron on both axes (`specs/Extents.antt`).
//! Sizes are in u, the grid unit. A sum is never formed past the most that may be, so nothing wraps. It takes time
//! linear in the rows of the plan, and no memory.
#![tactic(auto)]

mod extent;

pub use extent::{TooFar, check_extent, height, width};
