// Where texts come from and where they go.
//
// A `Shelf` gives files by their names, and a `Sink` takes chunks of text. What each was asked and
// what it took is known to proofs where the object tells it, and each counts its faults. The
// contract for the layer above is that of these two traits: a fetch gives the start of the file
// that the shelf tells, a put appends its chunk or, at a fault, a prefix of it, and a fault is
// answered only where the count of faults rose in that call. `put_all` puts the chunks of a text, one
// after another, with the same contract for the whole.
//
// A `Gate` is told where each share of split work begins, and answers nothing; `OpenGate` is the one that does
// nothing.
//
// `MemShelf` and `MemSink` are a shelf and a sink in memory, which fail where a `FailPlan` says.
// `FileShelf` and `StdSink` stand over the files and the streams of the operating system; `read_start` reads the start
// of any reader.
#![tactic(auto)]

mod fail_plan;
mod file_shelf;
mod gate;
mod mem_shelf;
mod mem_sink;
mod puts;
mod shelf;
mod sink;
mod std_sink;
mod tries;

pub use fail_plan::FailPlan;
pub use file_shelf::{FileShelf, read_start};
pub use gate::{Gate, OpenGate};
pub use mem_shelf::MemShelf;
pub use mem_sink::MemSink;
pub use puts::put_all;
pub use shelf::{Fetch, Shelf};
pub use sink::{PutFault, Sink};
pub use std_sink::StdSink;
