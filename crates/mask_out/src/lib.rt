//! Masks of a cell: the boxes that are written for it.
//!
//! What the layer above uses: `symbol` gives the cell's name and its mask boxes, layer by layer in the order ND, NP,
//! NC, NM, NI, NB and on each layer in the order of the items; there are as many as the nodes and wires of the cell
//! are counted to have. `calls_in` gives a call for each instance of a plan, `picture` these and the symbols of all
//! masters, and `flat` the boxes of a picture one by one. Lengths are in u, the grid unit.
#![tactic(auto)]

mod calls;
mod drawing;
mod flattening;
mod laws;
mod pictures;
mod sizes;
mod symbols;

pub use calls::calls_in;
pub use drawing::{Call, Picture, Symbol};
pub use flattening::flat;
pub use laws::{boxes_are_counted, flat_is_counted, wholes_bound_places};
pub use pictures::picture;
pub use symbols::{is_same_layer, symbol};
