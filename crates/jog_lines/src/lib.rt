//! Scripts of jogs. Their lines and words are those of stick texts.
//!
//! What the layers above use: `read_jogs` gives the jogs of a script in their order, or its first line that is none
//! (`specs/Scripts.antt`). jog_insert puts them into a design.
#![tactic(auto)]

mod reading;
mod script;

pub use reading::read_jogs;
pub use script::JogLine;
