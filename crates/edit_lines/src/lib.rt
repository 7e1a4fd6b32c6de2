//! Scripts of edits, which add limits to the cells of a design and take limits away. Their lines and words are those of
//! stick texts.
//!
//! What the layers above use: `read_edits` gives the edits of a script in their order, or its first line that is none
//! (`specs/Scripts.antt`). limit_edits makes them in a design.
#![tactic(auto)]

mod reading;
mod script;

pub use reading::read_edits;
pub use script::EditLine;
