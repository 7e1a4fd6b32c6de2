//! What the program answers, case by case: tables of words, of texts and of answers, for run_tests; and what reads
//! them.
#![tactic(auto)]

mod cases;
mod commands;
mod faults;
mod grids;
mod layouts;
mod limits;
mod lists;
mod masks;
mod meeting;
mod splits;
mod technologies;
mod unfolding;

pub use cases::{COMMON, FAILURES, FMT, REFUSALS, SHIPPED, SHRUNK, TEXTS, WORDS};
pub use commands::{
    BENCH, BENCHES, BURIED, CHECK, CHECKS, EDIT, EDITS, EXTRACT, JOG, JOGS, LOAD, NETLISTS, SLACK,
    SLACKS,
};
pub use faults::{CHECKED, CONTACTS, READ};
pub use grids::{GRID_EXTENTS, GRID_FAULTS, GRID_WRITES, GRIDS, TWO_ROWS, WIDE};
pub use layouts::{CYCLES, LAYOUTS};
pub use limits::{BOXES, CUTS, EDGES, GENERATED, LONGEST, MOST, PARTS};
pub use lists::{BREAKS, LISTS, NAMED, NAMES};
pub use masks::{FOREIGN, OWN, VERDICTS};
pub use meeting::Meeting;
pub use splits::{CONTRADICTION, FOUR, METAL, PASSES, RULES, SPLITS, TWO};
pub use technologies::TECHNOLOGIES;
pub use unfolding::{unfolded, value_of};
