//! What a cell is for the compactor: its items, and the inequalities that hold in every layout of it.
//!
//! For the layer above: `items_of` gives the boxes of the cell's nodes and wires, each of four ends on the cell's local
//! variables, and `structure` the inequalities of one axis over these variables. On each axis variable 0 is the origin
//! border, 1 the far border; then follow the centre of each node, and the cross coordinate of each wire that runs along
//! the other axis. Lengths are in u, the grid unit. Each call takes time linear in the cell.
#![tactic(auto)]

mod boxes;
mod channel;
mod inequalities;
mod items;
mod laws;
mod master;
mod nodes;
mod variables;
mod wires;

pub use inequalities::{between_variables, push_between, structure};
pub use items::items_of;
pub use laws::{between_means, master_is_lawful};
pub use master::Master;
pub use variables::{crosses, crossing};
