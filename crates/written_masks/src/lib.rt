//! What the written masks mean, and how large they are: laws alone, with no code.
//!
//! What the layer above uses: the text of a picture means the picture, by the rules by which every CIF text is read,
//! and the boxes that it draws are those of the picture, one by one and in order; and so it does to the reader of the
//! texts of other tools. The CIF text of finished layouts means boxes that show the items of all instances one by
//! one, and what is extracted from these is the netlist of the sticks; these boxes are as many as the nodes and wires
//! of all instances are counted to have; and the text has 2^26 bytes at most, where names are short and parts are
//! few.
#![tactic(auto)]

mod counts;
mod meanings;
mod texts;
mod written;

pub use counts::boxes_are_few;
pub use meanings::{texts_mean_their_pictures, texts_mean_their_pictures_to_others};
pub use texts::texts_are_short;
pub use written::written_nets_are_the_sticks;
