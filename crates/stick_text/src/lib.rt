//! What a stick text says: cells of joints, contacts, buried contacts, transistors, ports, uses, wires and limits, and
//! grids of cells: one without a name, or in version 2 one or more with names. Types, definitions and lemmas, with no
//! code that reads: stick_words reads the words of a line, and stick_parse a whole text. What the layers above use: a
//! text says a design (`specs/Says.antt`: the lines that a design has, one after the other), or has a first fault
//! (`specs/FirstFault.antt`: the first line after which no design can begin so). What one line says is in
//! `specs/Forms.antt`. `design_of` (`specs/Order.antt`) is the same as a function of the text, which they compute
//! with; laws of stick_parse say that they agree.
#![tactic(auto)]

mod design;
mod fault;

pub use design::{CellText, Design, Form, GridText, Layer, Line, RowText, Statement};
pub use fault::{GridFault, LineFault, ParseFault, StickFault, StickKind};
