//! The log of raises that Liao and Wong's rounds leave, and what it says of a constraint graph: at an end the least
//! solution and a longest walk to each variable, at a stop a cycle of positive length.
//!
//! What the layer above uses: `walk_to` reads out of the log a walk from the origin to a variable that is as long as
//! its value and meets no variable twice, and `cycle_of` the cycle that the chain of an entry closes, which meets no
//! variable twice and has a positive length; `walk_lines` and `cycle_lines` are their lines.
#![tactic(auto)]

mod laws;
mod lines;
mod log;
mod reading;
mod turning;
mod walk;
mod walking_back;

pub use laws::{
    implied_edges_change_no_cycle, rounds_come_out_one_way, rounds_do_not_end_and_stop,
};
pub use lines::cycle_lines;
pub use log::{Entry, Log};
pub use reading::cycle_of;
pub use walk::{walk_lines, walk_to};
