//! The pieces into which mask boxes fall.
//!
//! What the layer above uses: `pieces_of` gives the pieces of some boxes with these crossings, in order. Diffusion
//! that a gate crosses has two, before and after the channel; other diffusion, poly and metal have one each, and
//! cuts, implants and windows none. Lengths are in grains, half hundredths of a micron.
#![tactic(auto)]

mod placing;

pub use placing::{Part, Pieces, Placed, pieces_of};
