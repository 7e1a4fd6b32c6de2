//! Which bars a bar of a row sees, found from the bar.
//!
//! A `Row` knows which of its bars have started, as a sweep across the row comes to them. At the end of a bar it is
//! asked for the bars farther along that the bar sees, of those that are still there. The way out passes what is out of
//! sight: from a bar that screens others it steps over all that started before that one ends, and it stops where what
//! was found screens all that lies behind.
#![tactic(auto)]

mod left;
mod looking;
mod mains;
mod others;
mod row;

pub use row::{Last, Row};
