//! Which edges leave each variable of a constraint graph: an index that is made once, in time of the edges and the
//! variables, and then gives each variable's edges as one slice, their numbers and their heads.
#![tactic(auto)]

mod index;

pub use index::{EdgeIndex, Head};
