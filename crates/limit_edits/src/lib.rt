//! Edits of limits in a design: a limit more in a cell, or a limit less.
//!
//! What the layer above uses: `edited` gives the design after an edit, or None exactly where the edit's cell is no
//! master or is used by a cell, or has no limit with the number that is to be taken away (`specs/Edits.antt`);
//! `edits_are_determined` is the law that an edit leads to one design. Whether a limit that is added has a fault, as a
//! path that leads nowhere, is not asked here: the layer above resolves the new design as any other. By the law
//! `edits_are_at_fault_alone` (`specs/Faults.antt`) a fault that it finds there is that of the limit.
#![tactic(auto)]

mod editing;
mod laws;
mod limits;

pub use editing::edited;
pub use laws::{edits_are_at_fault_alone, edits_are_determined};
