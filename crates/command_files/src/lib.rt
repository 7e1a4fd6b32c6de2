// What the commands share: their files, fetched and read, why a command is refused, and what it writes. Its contract
// for the layer above is that of the readers, as `read_design`, over the lists of steps of `specs/StepLists.antt`: what
// a file says, or why the command ends over it; and that of `write` and `refuse`.
#![tactic(auto)]

mod delivery;
mod fetch;
mod output;
mod reading;
mod refusal;
mod short;
mod status;

pub use delivery::{refuse, write};
pub use output::{Output, in_one_chunk};
pub use reading::{read_cif, read_design, read_edit_script, read_jog_script, read_technology};
pub use refusal::Refusal;
pub use short::has_short_text;
pub use status::{File, Side2, Status, What};
