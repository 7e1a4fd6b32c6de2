// The longest-path view of difference constraints: an edge says that the value of its head is at least the value
// of its tail plus its length.
// The contract for the layers above: a graph is its list of edges, and `holds` is the test of all their inequalities.
#![tactic(auto)]

mod constraint_graph;
mod edges;
mod laws;
mod lines;
mod names;
mod walks;

pub use constraint_graph::{Graph, GraphFault, MAX_EDGES};
pub use edges::{Edge, Why};
pub use laws::one_least_solution;
pub use lines::edge_lines;
pub use names::Names;
