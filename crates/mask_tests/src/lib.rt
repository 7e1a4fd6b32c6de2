//! Tests of calls on masks that the program does not make: the first break without pieces, the boxes of a picture, a
//! picture that is written into a sink, texts read by both readers, and streams that fail. There is no other code.
#![tactic(auto)]

#[cfg(test)]
mod boxes_of_tests;
#[cfg(test)]
mod cif_chunks_tests;
#[cfg(test)]
mod drawn_tests;
#[cfg(test)]
mod picture_tests;
#[cfg(test)]
mod stream_tests;
