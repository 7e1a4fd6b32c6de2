//! What the edits of a design's text stand on: a design with other lines in a cell.
//!
//! What the layers above use: `with_lines` copies a design with other lines in one of its cells, all lines numbered
//! anew (`laid_out` of stick_print); `is_unused` tells whether a cell is used by no cell (`specs/Cells.antt`).
#![tactic(auto)]

mod copying;
mod forms;
mod uses;

pub use copying::{is_short, with_lines};
pub use forms::copy_form;
pub use uses::is_unused;
