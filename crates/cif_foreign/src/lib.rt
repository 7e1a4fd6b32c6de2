//! What a CIF text of any tool draws, and all its boxes, one by one.
//!
//! What the layer above uses: `read_foreign` gives what the text means, or its first fault with its place, both ways
//! exactly. A call may mirror and turn along the axes, and may stand in a definition. `flatten_foreign` gives the
//! boxes of the layers that are kept, in the order of the file. Lengths are in grains: a grain is half a hundredth of
//! a micron, so that nothing is rounded. `foreign_readings_are_determined` is the law that a text means one hierarchy
//! or has one first fault, and never both, and `meanings_stay` that a text whose calls stand at the top and only
//! shift means here what it means to `cif_read`.
#![tactic(auto)]

mod flattening;
mod laws;
mod reading;

pub use cif_read::{ForeignFile, ForeignStep, ForeignSymbol, Steps};
pub use flattening::flatten_foreign;
pub use laws::{foreign_readings_are_determined, meanings_stay};
pub use reading::read_foreign;
