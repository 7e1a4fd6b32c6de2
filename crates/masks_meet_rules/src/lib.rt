//! That the masks of finished layouts keep the rules of the technology: laws alone, with no code.
//!
//! What the layer above uses: boxes that show the items of all instances of finished layouts keep every rule of the
//! checker. Lengths of items are in u, those of boxes in grains.
#![tactic(auto)]

mod boxes;
mod shapes;
mod spacings;

pub use boxes::boxes_keep_rules;
pub use shapes::items_have_shapes;
pub use spacings::items_keep_off;
