//! The rules of a technology, checked on mask boxes. What they are stands in rule_breaks.
//!
//! What the layer above uses: `first_break` gives the first break of the rules over all boxes and pairs of boxes, or
//! finds that there is none; most of its work is done in shares that run beside each other. `breaks` lists the first
//! breaks. A rule on pairs is first asked of pairs of groups of boxes, whether it is broken at all. It knows boxes and
//! a technology alone; nets are those that the boxes make. Lengths are in grains, half hundredths of a micron.
#![tactic(auto)]

mod channels;
mod covers;
mod facing;
mod first;
mod flat_layout;
mod kept;
mod lengths;
mod listing;
mod nearness;
mod pairs;
mod partners;
mod ranges;
mod singles;
mod trees;

pub use first::first_break;
pub use lengths::least_of;
pub use listing::breaks;
