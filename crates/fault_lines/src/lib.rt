//! The lines that say why something is refused: what is wrong with a technology, a design, one of its grids, a script
//! or a CIF text, and which parts of a cell clash.
//!
//! What the layer above uses: each call gives exactly the line of `specs/` for its fault, with the end of the line.
#![tactic(auto)]

mod clash;
mod faults;
mod grid_lines;

pub use clash::clash_line;
pub use faults::{broken_line, cif_line, improper_line, script_line, stick_line, tech_line};
pub use grid_lines::{grid_line, push_count};
