//! What holds in all instances of a grid, spacings and nets: laws alone, with no code.
//!
//! What the layer above uses of sizes and spacings: `grids_are_aligned`, masters that share a column or a row have
//! one width or height; `all_keep_spacing`, every two items of all instances that are bound lie at least their
//! spacing apart, inside an instance, across a border, at a corner, with a cell between, and from grid to grid; and
//! `instances_meet`, what is asked of the joint variables is what all instances ask.
//!
//! And of what conducts: conducting items that touch, that one cut joins or that meet at a buried contact are of one
//! net of the sticks, and those of one net are joined by chains of such links; poly lies over diffusion in
//! transistors and at buried contacts alone; where the boxes of transistors, windows and implants lie; that the boxes
//! of a picture show the items of all instances one by one; and that what is extracted from such boxes is the netlist
//! of the sticks. Lengths are in u.
#![tactic(auto)]

mod chains;
mod laws;
mod meetings;
mod netlists;

pub use chains::nets_are_connected;
pub use laws::{all_keep_spacing, grids_are_aligned, instances_meet};
pub use meetings::{
    implants_tell_depletion, items_are_of_owners, links_keep_nets, poly_meets_diffusion,
    transistors_have_boxes,
};
pub use netlists::{extracted_nets_are_the_sticks, pictures_show_shapes};
