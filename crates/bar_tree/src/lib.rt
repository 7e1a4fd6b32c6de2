//! A tree over the places of a row of bars: the first bar from a place on, of those that have started, that a search
//! asks for.
//!
//! A tree has levels: each node of a level stands for so many places, eight times as many as a node of the level
//! below. A node knows of the started bars at its places enough to tell that none of them is asked for. So a search
//! steps over nodes, and tests bars one by one only where a node tells nothing. Nodes only leave bars out: what is
//! found is tested itself.
#![tactic(auto)]

mod node;
mod tree;

pub use node::Query;
pub use tree::Tree;
