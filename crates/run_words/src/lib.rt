//! The command line of the program `sticks`: which command its words are.
//!
//! The contract for the layer above is that of `read_words`: an `Ok` is the command that the definition `command_of`
//! gives the words, and `Usage` comes only where it gives none. Want of memory is the one other refusal.
//!
//! The first word picks the command. The words after it are read by the crate `clap`, and the definition cites what
//! `clap` itself says that it finds in them. So its conventions hold:
//!
//! - `--tech FILE` and `--tech=FILE` mean the same, before or after the operand (the design or the CIF text). An
//!   option stands once at most. Names are not abbreviated, and none has a letter of its own.
//! - An operand, and a value that is a word of its own, does not begin with a dash, but may be a dash alone. After
//!   `=` a value may be anything: `--tech=` gives an empty name, and `--tech=-t` the name `-t`.
//! - `--` ends the options: what stands after it is an operand, whatever it begins with. So `fmt -- -d` formats the
//!   design `-d`, and `compact -- -d --tech t` is refused, since it has three operands and no technology.
//! - A request for help (`--help`, `-h`) is refused as any other word that is no argument.
//!
//! The law `plain_lines_are_read` says what the usual lines mean without a word of `clap`: those in which the operand
//! and the options stand in any order, and only a value after `=` begins with a dash.
#![tactic(auto)]

mod commands;
mod laws;
mod lines;
mod names;
mod values;
mod words;

pub use commands::{Command, WordsFault};
pub use laws::plain_lines_are_read;
pub use words::read_words;
