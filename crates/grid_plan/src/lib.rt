//! The plan of a design's grids: its masters, the rows of each grid, which masters share a column or a row, and which
//! ports meet; or the first fault of a grid.
//!
//! What the layer above uses: `plan` gives the plan that the definitions of plan_model speak of, exactly where no
//! grid has a fault (`specs/Faults.antt`), and else the first one. It takes time linear in the names of the rows,
//! each of which is looked up among at most 256 cells, and in the ports of the cells, but for the sort of each side's
//! ports: ports of two cells are compared once, however often they meet.
#![tactic(auto)]

mod borders;
mod fault;
mod judging;
mod laws;
mod masters;
mod names;
mod once;
mod pairs;
mod planning;
mod scan;
mod sides;

pub use fault::PlanFault;
pub use laws::plan_is_determined;
pub use plan_model::{Match, Plan, PlanGrid, PlanRow, Same};
pub use planning::plan;
