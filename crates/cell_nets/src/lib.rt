//! The nets of a cell: parts of nodes and wires that chains of attachments join.
//!
//! What the layer above uses: `nets` gives the only nets that the cell has.
#![tactic(auto)]

mod attaching;
mod netting;

pub use netting::{nets, nets_are_determined};
