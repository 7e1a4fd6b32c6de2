//! From a CIF text to its netlist, to the verdict on it, and to the list of its breaks.
//!
//! What the layer above uses: `netlist_of` gives the text of the nets and transistors of a CIF text, `verdict_of`
//! that its boxes keep the rules, and `breaks_of` the text of all places at which they do not; or the first cause why
//! not, each exactly. `netlists_are_determined`, `verdicts_are_determined` and `breaks_are_determined` say that no
//! two answers fit, and `breaks_tell_verdicts` that a list of breaks agrees with the verdict.
#![tactic(auto)]

mod break_lines;
mod checking;
mod fault;
mod laws;
mod listing;
mod netting;

pub use checking::verdict_of;
pub use fault::TextFault;
pub use laws::{
    breaks_are_determined, breaks_tell_verdicts, netlists_are_determined, verdicts_are_determined,
};
pub use listing::breaks_of;
pub use netting::netlist_of;
