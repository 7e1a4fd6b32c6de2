//! What a CIF text draws, and all its boxes, one by one.
//!
//! `read` is the one reader of CIF, with a dialect: in the plain one a call that mirrors or turns, or stands in a
//! definition, is a `BadCommand`; cif_foreign reads by the other. `read_in_shares` gives the same, and reads the
//! commands of a long text in portions beside each other. What the layer above uses besides: `read_cif` reads
//! a text in the plain dialect and gives what it means, or its first fault with its place, both ways exactly; and
//! `flatten` gives the boxes of the layers that are kept, in the order of the file. Lengths are in grains: a grain is
//! half a hundredth of a micron, so that nothing is rounded. `readings_are_determined` is the law that a text means
//! one hierarchy or has one first fault, and never both.
#![tactic(auto)]

mod ahead;
mod dialect;
mod fault;
mod file;
mod flattening;
mod laws;
mod numbers;
mod plain;
mod reading;
mod scale;
mod state;
mod steps;

pub use dialect::Dialect;
pub use fault::{CifFault, CifKind, CifReadFault, FlatFault, Stop, cause_at, fault_at};
pub use file::{CifFile, CifStep, CifSymbol, ForeignFile, ForeignStep, ForeignSymbol};
pub use flattening::{MOST_BOXES, flatten};
pub use laws::readings_are_determined;
pub use numbers::{is_bad_area, is_bad_call, is_bad_factor, is_bad_symbol, is_odd, scaled};
pub use plain::read_cif;
pub use reading::{read, read_in_shares};
pub use scale::Scale;
pub use state::MOST_DEPTH;
pub use steps::Steps;
