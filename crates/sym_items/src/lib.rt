//! Symbolic items: the boxes of a cell before they have coordinates.
//!
//! Each end of an item lies so far past one variable of its axis; a layout gives each variable a value. For the layer
//! above: `at` is the value of an end in a layout, and `box_of` the box that an item has there. What is done along an
//! axis is said once for both: `low`, `high` and `least` of an item, `values` of a layout, `vars` of items, and
//! `box_along`, a box turned so that the axis lies where x lay. `stands_with` tells whether two items stand at one
//! buried contact. Lengths and coordinates are in u, the grid unit. No call takes memory.
#![tactic(auto)]

mod axes;
mod boxes;
mod items;
mod standing;

pub use boxes::{at, box_along, box_of, transposes_boxes};
pub use items::{Coords, End, Item, Items, NOWHERE};
