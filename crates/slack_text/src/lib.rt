//! The text of slacks: for each part of each master the least and the greatest place on an axis, and how far it could
//! move.
//!
//! What the layer above uses: `axis_slack` gives exactly the text of `specs/Slack.antt`. Lengths are in u, the grid
//! unit. It takes time linear in the masters and copies no list.
#![tactic(auto)]

mod lines;
mod text;

pub use text::axis_slack;
