//! Which items have to keep a spacing, and which of them face each other along an axis.
//!
//! Two items are bound where the spacing table has a rule for their classes and their owners differ, unless the rule
//! exempts items of one net and their nets are equal, or they are poly and diffusion that stand at one buried
//! contact. A layout is clean where every two bound items lie at least their spacing apart, by the Chebyshev distance
//! of their boxes. For the layer above: `facing` is the candidate relation, `all_pairs` the list of all candidates,
//! and a clean layout whose candidates of an axis keep their spacing on it stays clean, wherever else its items move
//! there.
//!
//! A candidate (i, j) is shadowed where some item k stands between, so that (i, k) and (k, j) are candidates whose
//! spacings, with the least extent of k, are at least that of (i, j). The kept pairs are those that no item shadows:
//! whatever meets the extents of the items and keeps these apart keeps all candidates apart, and a chain of them
//! stands for each candidate. Lengths are in u.
#![tactic(auto)]

mod bound;
mod candidates;
mod kept;
mod laws;
mod pairs;

pub use bound::{is_bound, is_joined};
pub use candidates::{facing, facing_spacing};
pub use kept::{chains_stand_for_candidates, pruning_loses_nothing};
pub use laws::stays_clean;
pub use pairs::{Pair, all_pairs, push_pairs_to};
