//! Bars in a row, and which of them see each other past the others.
//!
//! A bar is an item seen from the side: it has a place in a row, and covers a stretch across it. Some bars of a row
//! are main ones, which may stand between others; the other ones keep something from main ones alone. Two bars see each
//! other where they face each other and no solid bar between them faces both: a bar visibility graph. The number of
//! a bar is its place in the row. For the layer above: `faces` and `screens` are the exact tests.
#![tactic(auto)]

mod bars;
mod facing;

pub use bars::{Bar, Contacts};
pub use facing::{faces, screens};
