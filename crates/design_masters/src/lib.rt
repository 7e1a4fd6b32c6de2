//! The masters of a design: the cells that its grids name, with their uses inlined, their items, and the plan of the
//! grids.
//!
//! What the layer above uses: `make_masters` gives the one plan and the one list of masters that a design has
//! (`AreMastersOf` of `specs/Plans.antt`), or exactly why it has none, the first cause in the order of the manual: a
//! name or a size, a grid, too many items, too many mask boxes. Nothing is laid out. It takes time linear in the
//! design, its masters and its instances.
#![tactic(auto)]

mod fault;
mod masters;
mod planning;

pub use fault::MastersFault;
pub use masters::{DesignMasters, make_masters};
