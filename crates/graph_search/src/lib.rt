//! Breadth-first search: numbers for parts, the same for all that chains of neighbours join.
//!
//! What the layer above uses: `numbers` over a list of neighbours for each part, and `visit`, a step of a search of
//! one's own. It knows nothing of what the parts are.
#![tactic(auto)]

mod laws;
mod search;

pub use laws::netting_is_determined;
pub use search::{numbers, visit};
