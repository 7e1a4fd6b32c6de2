//! What crossings of poly and diffusion are: the type of a crossing, the definitions of crossings, buried pairs and
//! pairs that are neither (`specs/Crossings.antt`, over the boxes of `specs/Boxes.antt`), and that some boxes have one
//! list of them. The crate crossings finds them. Lengths are in grains, half hundredths of a micron.
#![tactic(auto)]

mod crossing;

pub use crossing::{Crossing, CrossingFault};
