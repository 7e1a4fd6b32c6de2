//! Laws alone, with no code: a jog keeps the nets of its cell.
//!
//! Two designs that have been checked, of which the second is the first one with a jog in a wire: what is of one net
//! in the cell of the one is of one net in the cell of the other, and the joints and wires of the jog are of the net
//! of the wire that was bent.
#![tactic(auto)]

mod laws;

pub use laws::jogs_keep_nets;
