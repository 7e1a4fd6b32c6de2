//! What a netlist of mask boxes is: the types of pieces, devices and netlists, what is linked
//! (`specs/Extraction.antt`), and which netlist pieces with nets have (`specs/Netlists.antt`). net_extract finds the
//! nets.
//!
//! What the layers above use: `netted` gives pieces their nets, and `devices_of` the transistors of some crossings.
//! Lengths are in grains, half hundredths of a micron.
#![tactic(auto)]

mod devices;
mod netlist;

pub use devices::{devices_of, netted};
pub use netlist::{Device, ExtractFault, Netlist, Piece};
