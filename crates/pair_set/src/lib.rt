//! A set of pairs of numbers, up to a limit, as a list that is sorted in the end.
//!
//! Whoever fills it may add a pair twice. It is cheap where this never happens: a pair is pushed, and the list is
//! sorted and freed of pairs that came twice only once it is longer than the limit, and when the pairs are taken
//! out.
#![tactic(auto)]

mod set;

pub use set::{PairSet, SetFault, pair_of};
