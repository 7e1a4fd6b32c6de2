//! A constraint system that changes edge by edge, with its least solution always at hand.
//! The contract for the layer above: contracts see a session as its number of variables and its list of edges;
//! `least` gives the least solution of these edges, exactly where they have no positive cycle.
#![tactic(auto)]

mod links;
mod raising;
mod session;
mod solving;
mod waiting;

pub use session::{Session, SessionFault};
