//! The cells of a design that have been checked: what is known of a cell, line by line, with every use replaced, and
//! what the code keeps of it. The definitions of the checks stand here, with what they imply; stick_cell makes the
//! checks.
//!
//! What the layers above use: `Cells` has a table of each cell of a design without a fault (`specs/Tables.antt`).
//! `find` gives the number of a cell, `weight`, `boxes` and `ports` tell of it without building it, and
//! `Cells::inline` is exactly the inlined cell of the definition (`specs/CheckedCell.antt`, `specs/Lines.antt`).
//! Columns, rows and places are coarse coordinates; widths and sizes are in u, the grid unit.
#![tactic(auto)]

mod cells;
mod checks;
mod inlining;
mod names;
mod parts;
mod sides;
mod steps;
mod table;

pub use cells::{Cells, place_of};
pub use checks::{MOST_PLACE, MOST_SIZE, axis_where, is_channel, is_place, layer_of, sized};
pub use names::{Binding, Copied, Found, NodePlace, Pin, Run, Terminal};
pub use sides::{SideMap, Sides, Taken};
pub use steps::Step;
pub use table::{NameMap, Table};
