//! Work on a list in shares, which run in threads of their own and take one block of the list after another.
//!
//! What the layer above uses: `map_split` gives what a function answers at each element, in order, whatever the
//! number of shares and whatever the gate that each share passes. They have nothing in common but what they borrow,
//! the gate, and the number of the next block. `map_numbers` does the same at the numbers below another.
//! `ranges_below` divides numbers into ranges, which are such a list, and `ranges_in_shares` into so many that a share
//! whose ranges are cheap takes more of them.
#![tactic(auto)]

mod blocks;
mod ranges;
mod split;

pub use ranges::{Range, ranges_below, ranges_in_shares};
pub use split::{map_numbers, map_split};
