//! The commands of Caltech Intermediate Form, one by one, as they stand in a text.
//!
//! What the layer above uses: `next` gives the command that comes next, where it begins and ends, or says why there
//! is none; `tail` says what stands after the end. Which commands may follow one another, and what they draw, is the
//! business of the layer above. `commands_are_determined` is the law that each place of a text has one answer.
#![tactic(auto)]

mod calls;
mod command;
mod forms;
mod gaps;
mod laws;
mod numbers;
mod placement;
mod reading;

pub use command::{Command, Next, Tail};
pub use laws::commands_are_determined;
pub use numbers::LARGEST;
pub use placement::{Placement, Transformation};
pub use reading::{next, tail};
