//! The kept pairs of a clean layout, found without a walk over all candidates.
//!
//! Whether two items are a candidate, and which items shadow it, is a matter of one family of classes: metal, diffusion
//! by the drawn rule, poly with the diffusion of the mask, cuts with channels, implants with channels, and windows
//! with channels. Seen from the side the items of a family are bars in a row, in order of where they begin: two of
//! them are a candidate where their bars face each other, and kept where these see each other. So a sweep across the
//! axis finds the kept pairs of each family.
#![tactic(auto)]

mod families;
mod keeping;

pub use keeping::{KeptFault, kept};
