//! Caltech Intermediate Form 2.0, as it is written: one command a line, each line ended by a line feed.
//!
//! What the layer above uses: `symbol_text` gives exactly the text of a symbol. Its numbers are in units of half of
//! u, so that nothing is rounded, and a scale says how many hundredths of a micron such a unit has. `cif_chunks`
//! gives the text of a picture in chunks of whole lines, none longer than 65,536 bytes, and `write_cif` puts them,
//! with all memory taken before the first put.
#![tactic(auto)]

mod calls;
mod cutting;
mod laws;
mod numbers;
mod pictures;
mod symbols;
mod writing;

pub use laws::chunks_are_counted;
pub use pictures::cif_chunks;
pub use symbols::symbol_text;
pub use writing::{CifWriteFault, write_cif};
