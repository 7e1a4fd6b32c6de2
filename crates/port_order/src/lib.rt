//! The order of the ports of a cell's side, in which those of neighbours meet.
//!
//! What the layer above uses: `side_ports` gives the ports on a side by place, and at one place by layer.
#![tactic(auto)]

mod sides;

pub use sides::side_ports;
