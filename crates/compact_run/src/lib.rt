// The top call of the program: from the words of a command line and the files that they name to masks, a report and a
// status. Its contract for the layer above is that of `run`; `answers_are_determined` says that no two answers fit,
// and `masks_pass_the_check` that the masks pass the program's own check.
#![tactic(auto)]

mod cif;
mod command;
mod laws;
mod top;

pub use command_files::{File, Side2, Status, What};
pub use laws::{
    answers_are_determined, breaks_are_those_of_check, edits_are_judged_as_texts,
    jogs_are_judged_as_texts, jogs_widen_no_cell, masks_pass_the_check, nets_tell_of_masks,
    splits_answer_alike,
};
pub use top::run;
