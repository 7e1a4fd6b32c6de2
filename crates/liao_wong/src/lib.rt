// Liao and Wong's longest-path rounds over forward and backward edges of a constraint graph.
// The contract for the layers above: `solve` gives the least solution, or a positive cycle exactly where there is one;
// `solve_reached` gives the same in the memory that the chains of its log need.
#![tactic(auto)]

mod laws;
mod looks;
mod marks;
mod raises;
mod rounds;
mod solver;
mod solving;
mod sorting;
mod sweeping;
mod worklist;

pub use laws::{one_answer, one_cycle, one_order};
pub use solving::{Solved, Unsolved, solve, solve_reached, solve_with_floor};
pub use sorting::sort_order;
