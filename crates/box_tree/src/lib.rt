//! Whether a box with a property lies among some boxes: a tree over a list of entries, which are areas with an owner
//! and a tag.
//!
//! What the layer above uses: `new` makes a tree, and `in_shares` makes it in several threads. `find` gives the number
//! of some entry that holds a query, or finds that there is none, without a list of all that lie near; `all` gives that
//! list, and `few` gives up where it is longer than is asked for. An `UnvisitedTree` is a tree from which what has been
//! visited is left out, and `with_tags` makes of a tree the same tree under other tags. A group of entries is left out
//! as a whole where its bounds show that none of them holds the query, so that heaps of equal boxes cost `find` no
//! more than one of them. How the entries are ordered matters for time alone.
#![tactic(auto)]

mod bounds;
mod entries;
mod grow;
mod keys;
mod query;
mod retagging;
mod search;
mod tree;
mod unvisited_trees;

pub use entries::{Ends, Entry, Group, Inner};
pub use query::{Query, Question, is_far, reach_of};
pub use tree::{BoxTree, OwnedParts, Parts};
pub use unvisited_trees::{UnvisitedTree, entry_in, group_of, new_unvisited_tree};
