//! Where poly crosses diffusion: transistors, and buried contacts.
//!
//! What the layer above uses: `crossings_by` gives all crossings with their channels, in order of their diffusion, or
//! the first pair of poly and diffusion that overlap and neither cross properly nor are a buried pair, by the trees that
//! `trees_of` makes; `add_improper` adds all such pairs of a box; `is_buried` tests one pair by a tree of the windows.
//! Lengths are in grains, half hundredths of a micron; `in_grains` gives those of a technology.
#![tactic(auto)]

mod bad_pairs;
mod entries;
mod finding;
mod lengths;
mod pair_tests;
mod pairs;
mod partner_lists;
mod partners;
mod standings;
mod unburied;
mod windows;

pub use bad_pairs::add_improper;
pub use entries::{Trees, entries_on, is_covered, trees_of};
pub use finding::crossings_by;
pub use lengths::in_grains;
pub use partners::Partners;
pub use windows::is_buried;
