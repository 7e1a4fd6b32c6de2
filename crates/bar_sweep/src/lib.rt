//! The pairs of bars of a row that see each other, found by sweeps across the row.
//!
//! A sweep comes to the ends of all bars in order. At the end of a bar all that started before are there, and the bar
//! looks for those farther along the row that end behind it. A second sweep over the row turned round finds the
//! others, so each pair is found at the end of the bar that ends first. The time is that of a sort and of the
//! looks, of which there are few for each bar but for pairs that are screened by nothing that is still there.
#![tactic(auto)]

mod lasts;
mod places;
mod sweep;
mod turning;

pub use sweep::add_seen;
