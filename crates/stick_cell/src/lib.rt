//! The checks on the names and sizes of a design.
//!
//! What the layer above uses: `resolve` gives the cells exactly where the definition of the checks (`resolved_cells` of
//! checked_cells, `specs/Grids.antt`) finds no fault, each of them sound, and else the first fault. `resolve_in_shares`
//! does the same, and reads cells that use no other in threads. A line or a cell that is refused breaks the rule of its
//! kind in `specs/Refusals.antt`. Columns, rows and places are coarse coordinates; widths and sizes are in u, the grid
//! unit.
#![tactic(auto)]

mod builder;
mod counts;
mod grids;
mod leaving;
mod lines;
mod paths;
mod ports;
mod reading;
mod ready;
mod refusals;
mod resolving;
mod uses;
mod wire_lines;
mod wires;

pub use builder::MOST_ITEMS;
pub use ports::ports_are_seen;
pub use refusals::{a_refused_cell_breaks_a_rule, a_refused_line_breaks_a_rule};
pub use resolving::{resolve, resolve_in_shares};
pub use stick_text::ParseFault as ResolveFault;
pub use wires::a_refused_wire_breaks_a_rule;
