//! A scan along an axis: the candidates of an item, found without a walk over all items.
//!
//! The scan comes to items in order of where they begin, and of their numbers where they begin together. Across
//! the axis the layout is cut into lanes, and each lane lists the items of a group of classes that lie in it in
//! that order, so an item's candidates are found by going back in one lane.
//!
//! For the layer above: `begins_of` tells where the items begin, and `sort_order` gives their order by that;
//! `Lanes::candidates` gives all candidates that end at an item, and a `Scan` comes to one item after the other and
//! lends those that end there. Lengths are in u.
#![tactic(auto)]

mod candidates;
mod group;
mod lanes;
mod level;
mod scan;
mod sorting;
mod stretches;

pub use lanes::Lanes;
pub use scan::{Near, Scan};
pub use sorting::{begins_of, sort_order};
