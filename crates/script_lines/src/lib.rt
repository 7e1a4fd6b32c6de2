//! Scripts, read line by line, for any type of lines that has a reader of its words. Their lines and words are those of
//! stick texts.
//!
//! What the layers above use: `read_script` gives what the lines say in their order, or the first line that says
//! nothing (`specs/Scripts.antt`); a `ScriptLine` is a line that is made from words.
#![tactic(auto)]

mod reading;
mod script;

pub use reading::read_script;
pub use script::{ScriptFault, ScriptLine};
