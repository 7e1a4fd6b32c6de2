//! A cell whose uses are replaced by what they stand for: its nodes, wires, ports and limits, and what its nets are.
//!
//! The definitions that the layers above share: a sound cell (`specs/Sound.antt`), which wires a node takes on which
//! pads (`specs/Wiring.antt`), the nets of a cell (`specs/Nets.antt`), and how many items and mask boxes its parts
//! have (`specs/Counts.antt`). Columns, rows and places are coarse coordinates; widths and sizes are in u, the grid
//! unit.
#![tactic(auto)]

mod cell;
mod wiring;

pub use cell::{Axis2, Cell, CellPort, Limit, Nets, Node, NodeKind, NodeNets, Port, Wire, WireEnd};
pub use wiring::{buried_pad, is_low_side, is_same_layer};
