//! One system of inequalities for all masters of a plan.
//!
//! What the layer above uses: `join` gives the inequalities of an axis that hold whatever the layout, the structure
//! of each master and what its neighbours ask of it, over joint variables; `spaces_of` gives those of a master's kept
//! pairs, and `Joint::add_kept` adds them. Variable 0 is the one origin, and the other variables of each master
//! follow, master by master (`specs/Joined.antt`); `number` gives their numbers alone. The solutions are those values
//! of which each master's own part meets that master, with equal borders and ports (`specs/Meeting.antt`). Each call
//! takes time linear in the masters and the pairs, whatever the number of their instances.
#![tactic(auto)]

mod fixed;
mod joint;
mod laws;
mod names;
mod numbering;
mod spaces;

pub use expand::Master;
pub use joint::{Joint, join};
pub use laws::{joining_is_meeting, variables_are_joined};
pub use numbering::{Numbering, number};
pub use spaces::spaces_of;
