//! The numbers of a technology, and the design rules that follow from them.
//!
//! A `Tech` holds numbers that meet the eight conditions of `Tech::new`. For the layer above: the spacing of
//! two classes of boxes is a row of one table, the same for either order, and `margin`, `widest`, `width` and `pad` are
//! what their formulas make of the numbers. `key_parts` tells the table and the name of each number in a technology's
//! text, and `push_key` appends the dotted text of both. Only `push_key` and `push_dotted` take memory.
#![tactic(auto)]

mod classes;
mod faults;
mod keys;
mod table;
mod technology;

pub use classes::{Class, Layer, Rule};
pub use faults::TechFault;
pub use keys::{Numbers, key_parts, push_dotted, push_key};
pub use technology::Tech;
