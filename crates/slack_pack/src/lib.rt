//! How far each variable of a constraint graph could move while some far variables stay where they are.
//! The contract for the layer above: `most` gives the greatest solution that holds the far variables at their values; a
//! law says which variables it leaves where they are.
#![tactic(auto)]

mod laws;
mod lowering;
mod moving;

pub use laws::slack_is_none_on_critical_walks;
pub use moving::most;
