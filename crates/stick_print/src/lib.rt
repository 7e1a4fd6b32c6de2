//! The canonical text of a design. What the layer above uses: `print` gives exactly the text that
//! `specs/Canonical.antt` says of the design; a law says that this text says the design again.
#![tactic(auto)]

mod laws;
mod lines;
mod printing;
mod words;

pub use laws::{canonical_says_its_design, each_statement_has_its_words};
pub use printing::print;
