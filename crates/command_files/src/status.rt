//! What the program answers.

ghost use Rattle.std.specs.Prelude.{◌≡◌};
ghost use Rattle.command_files.specs.Status.{code_of};

use cif_read::CifFault;
use stick_text::{GridFault, StickFault};
use tech_file::TechFileFault;

/// A file of the command.
#[derive(Clone, Copy)]
pub enum File {
    /// The design.
    Design,
    /// The technology.
    Technology,
    /// The CIF text.
    Cif,
    /// The script.
    Script,
}

/// A stream that the program writes.
#[derive(Clone, Copy)]
pub enum Side2 {
    /// The masks, a netlist, the text of a design, or what else the command writes.
    Output,
    /// What is told of the passes, or of a refusal.
    Report,
}

/// What there is too much of.
#[derive(Clone, Copy)]
pub enum What {
    /// Items of the masters, with limits and uses.
    Items,
    /// Mask boxes of all instances.
    Boxes,
    /// Inequalities of a pass.
    Edges,
    /// The width or the height of the grids.
    Extent,
}

/// How a call ended.
#[derive(Drop)]
pub enum Status {
    /// The whole output was written, and then the whole report.
    Done,
    /// Memory ran out. This may come at any call.
    OutOfMemory,
    /// The words are no command.
    Usage,
    /// A file could not be read: the shelf counted a fault in this call.
    ReadFault(File),
    /// A stream could not be written: its sink counted a fault in this call.
    WriteFault(Side2),
    /// A file has more bytes than it may have.
    TooLong(File),
    /// The technology's text is no technology: its first fault.
    BadTech(TechFileFault),
    /// The design's text is no design: its first fault.
    BadSticks(StickFault),
    /// A grid of the design has no plan.
    BadGrid {
        /// The first grid with a fault, counted from 0.
        grid: u32,
        /// Its first fault.
        fault: GridFault,
    },
    /// There is too much of something.
    TooLarge(What),
    /// Two items are too near in the start layout of a master, the first for which it is so: the least pair, by their
    /// numbers among the items of the cell.
    Clash {
        /// The cell's number among the masters.
        cell: u32,
        /// The lesser item.
        a: u32,
        /// The greater item.
        b: u32,
    },
    /// The inequalities of a pass have a positive cycle.
    Unsatisfiable {
        /// The pass, counted from 1.
        pass: u32,
    },
    /// The CIF text has no meaning: its first fault.
    BadCif(CifFault),
    /// The boxes of a CIF text do not keep the rules: the first break, the boxes by their numbers among the boxes of
    /// the text.
    RuleBroken {
        /// The rule's number, from 1 to 12.
        rule: u32,
        /// The lesser box.
        a: u32,
        /// The greater box; the same one where the rule is on single boxes.
        b: u32,
    },
    /// Two boxes of a CIF text, poly and diffusion, overlap and neither cross properly nor are a buried pair, or one
    /// of them overlaps a further box of the other's layer: the first pair, by their numbers among the boxes of the
    /// text.
    NotProper {
        /// The lesser box.
        a: u32,
        /// The greater box.
        b: u32,
    },
    /// The script has a line that is none: the first one.
    BadScript {
        /// The line, counted from 1.
        line: u32,
    },
}

impl Status {
    /// The number with which the program ends.
    pub fn code(&self) -> u8
        ensures { result ≡ code_of self.now }
    {
        match self {
            Status::Done => 0,
            Status::OutOfMemory => 1,
            Status::Usage => 2,
            Status::ReadFault(_) => 3,
            Status::WriteFault(_) => 4,
            Status::TooLong(_) => 5,
            Status::BadTech(_) => 6,
            Status::BadSticks(_) => 7,
            Status::BadGrid { .. } => 8,
            Status::TooLarge(_) => 9,
            Status::Clash { .. } => 10,
            Status::Unsatisfiable { .. } => 11,
            Status::BadCif(_) => 12,
            Status::RuleBroken { .. } => 13,
            Status::NotProper { .. } => 14,
            Status::BadScript { .. } => 16,
        }
    }
}
