//! The first pass of a plan, listed once, for masters whose limits are added and dropped over and over.
//!
//! What the layer above uses: `FirstPass::new` lists the first pass without the limits, and `FirstPass::layouts` gives
//! the layouts after it for masters that differ from those in their limits alone, through a session whose least
//! solution starts from the values so far. No limit moves a start layout, so items, start layouts and kept pairs stay.
//! What the session gives is taken only where a test, linear in the limits, shows it to be the least solution of the
//! pass; else there is no answer. Lengths are in u.
#![tactic(auto)]

mod bared;
mod compared;
mod first;
mod following;
mod limits;
mod shown;

pub use first::FirstPass;
