//! The passes of a plan: the least layouts of all its masters on one axis after another.
//!
//! What the layer above uses: `run_passes` gives after each pass the least values of its axis that meet the structure
//! of each master and what the plan asks of its neighbours, and keep every candidate of the layouts before it apart,
//! with the critical path of each master's size; or the text of a positive cycle exactly where there is one.
//! `passes_with_greatest` gives the same, and how far the variables could move after the last pass on each axis.
//! Lengths are in u.
//!
//! `starts` has the layouts before the first pass, and `start_clashes` the first clash in each of them, if there is
//! one.
//!
//! Where only the layouts are wanted, and nothing that is recorded of the passes: `list` has
//! the inequalities of a pass, which has the solutions of its system by the law `pruning_loses_nothing`,
//! `with_values` the layouts after a pass whose least values are known, and `further_passes` those to which further
//! passes lead. The law `passes_lead_to_one_place` says that these are the layouts that `run_passes` leaves.
#![tactic(auto)]

mod clashes;
mod edges;
mod finding;
mod laws;
mod layouts;
mod least;
mod pass;
mod passes;
mod ready;
mod step;
mod text;

pub use clashes::start_clashes;
pub use edges::{Listed, list};
pub use finding::unless_too_many;
pub use laws::{
    greatest_values_are_determined, meeting_stays_laid_out, passes_are_determined,
    passes_lead_to_one_place, pruning_loses_nothing, refusals_are_determined,
};
pub use layouts::starts;
pub use least::{further_passes, with_values};
pub use passes::{PassFault, Passes, passes_with_greatest, run_passes};
pub use step::{Step, Walk};
