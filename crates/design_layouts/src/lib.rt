//! What a command does with a design once it is read: its masters and the plan of its grids, and their layouts.
//!
//! What the layer above uses: `masters_of` makes the masters, `check_starts` gives their start layouts or the first
//! clash in one, `lay_out` lays them out, and `layout_of` does all of it (`LaidOut`); or they say why the design is
//! refused.
#![tactic(auto)]

mod laid_out;
mod layout;
mod masters;

pub use laid_out::{LaidOut, layout_of};
pub use layout::{check_starts, lay_out};
pub use masters::masters_of;
