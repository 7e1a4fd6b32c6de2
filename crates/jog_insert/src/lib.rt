//! Jogs: wires that run up are bent, so that what lies beside them can move.
//!
//! What the layer above uses: `insert` gives the design with a jog in a wire of a cell, or None exactly where none
//! can be put there (`specs/Jogs.antt`, over where the parts of a cell go, `specs/Bends.antt`); `jogs_are_determined`
//! is the law that a jog leads to one design. What it means that a jog leaves the nets of a cell as they were is in
//! `specs/Nets.antt`. Columns and rows are coarse coordinates; widths are in u, the grid unit.
#![tactic(auto)]

mod bending;
mod inserting;
mod joints;
mod laws;
mod naming;
mod runs;

pub use inserting::insert;
pub use laws::jogs_are_determined;
