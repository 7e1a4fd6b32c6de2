//! Stick text as a design.
//! What the layer above uses: `parse` gives the design that the text says, or the text's first fault (stick_text has
//! what these are: `specs/Says.antt`, `specs/FirstFault.antt`). `design_of` there is the same as a function of the
//! text, and the laws here say that they agree. The code walks the text once.
#![tactic(auto)]

mod cursor;
mod forms;
mod laws;
mod lines;
mod parsing;

pub use laws::{has_one_answer, has_words_in_range, reads_what_is_said, refuses_first_fault};
pub use parsing::parse;
