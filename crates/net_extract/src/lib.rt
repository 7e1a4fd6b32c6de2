//! Nets and transistors of mask boxes.
//!
//! What the layer above uses: `extract` gives exactly the pieces of the boxes with their nets, numbered in order of
//! their first pieces, and the transistors, or the first pair of poly and diffusion that does not cross properly.
//! `nets_of`, the step that finds nets, can be had alone, and `metal_tree` gives the tree of metal that it takes. What
//! a netlist is stands in net_model. Lengths are in grains, half hundredths of a micron.
#![tactic(auto)]

mod cut_lists;
mod entries;
mod extraction;
mod ground;
mod laws;
mod listing;
mod lists;
mod metal;
mod nets;
mod over;
mod reaching;
mod searches;
mod touching;

pub use extraction::extract;
pub use laws::netlist_is_determined;
pub use metal::metal_tree;
pub use nets::nets_of;
pub use over::PieceTrees;
