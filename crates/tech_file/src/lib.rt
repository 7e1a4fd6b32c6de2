//! Reads a technology file: a TOML table with exactly the numbers of a technology, seventeen in version 1 and
//! nineteen in version 2.
//!
//! For the layer above: `read_tech` gives the technology of exactly the texts that have one, and else the first fault
//! of the text, in one order; want of memory is told apart.
#![tactic(auto)]

mod faults;
mod numbers;
mod reading;
mod unknown;

pub use faults::{ReadTechFault, TechFileFault};
pub use reading::read_tech;
