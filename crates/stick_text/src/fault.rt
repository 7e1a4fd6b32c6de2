//! Why a text is no design, and what is wrong with a grid of a design.
ghost use Rattle.std.specs.Prelude.{◌≡◌};
ghost use Rattle.stick_text.specs.declared.fault.LineFault.TheVariants as line_faults;
ghost use Rattle.stick_text.specs.declared.fault.ParseFault.TheVariants as faults;

use std::alloc::{AllocError, AllocFailed};
use std::fmt;
use stick_lex::LexFault;
use thiserror::Error;

/// The kinds of faults of a stick text, numbered from 1 in this order. The first five are faults of syntax, which
/// `parse` tells; the others are faults of names and sizes, and the last that the technology lacks what a line asks
/// for.
#[derive(Clone, Copy, Debug, PartialEq, Eq)]
pub enum StickKind {
    /// A run of bytes that is no token.
    BadByte = 1,
    /// A number past 1,000,000 either side of 0.
    NumberTooLarge,
    /// The tokens form no line that may stand here.
    BadLine,
    /// The text ends before the first grid's `end`, or inside a grid. It is told at the last line, or at line 1 of an
    /// empty text.
    Unended,
    /// The 257th `cell` line.
    TooManyCells,
    RepeatedName,
    UnknownName,
    UseCycle,
    UseDepth,
    UsedPorts,
    FarPlace,
    BadSize,
    NarrowWire,
    WrongTerminal,
    NotStraight,
    WrongLayer,
    WrongSide,
    WideWire,
    PortWires,
    BadLimit,
    NoBuried,
}

impl StickKind {
    fn words(self) -> &'static str {
        match self {
            StickKind::BadByte => "not a token",
            StickKind::NumberTooLarge => "a number is too large",
            StickKind::BadLine => "no line that may stand here",
            StickKind::Unended => "the text ends before a grid does",
            StickKind::TooManyCells => "too many cells",
            StickKind::RepeatedName => "a name is repeated",
            StickKind::UnknownName => "a name is unknown",
            StickKind::UseCycle => "a cell uses itself",
            StickKind::UseDepth => "uses are nested too deep",
            StickKind::UsedPorts => "a cell with ports is used",
            StickKind::FarPlace => "a place is too far out",
            StickKind::BadSize => "a size is wrong",
            StickKind::NarrowWire => "narrower than its layer or its pad allows",
            StickKind::WrongTerminal => "a path ends at no terminal",
            StickKind::NotStraight => "a wire is not straight",
            StickKind::WrongLayer => "a terminal is on another layer",
            StickKind::WrongSide => "a wire leaves a part on the wrong side",
            StickKind::WideWire => "a wire is wider than a pad",
            StickKind::PortWires => "a port has no wire or several",
            StickKind::BadLimit => "a limit between wrong ends",
            StickKind::NoBuried => "the technology has no buried contacts",
        }
    }
}

impl fmt::Display for StickKind {
    fn fmt<W: fmt::Write>(&self, f: &mut fmt::Formatter<W>) -> fmt::Result {
        f.write_str(self.words())
    }
}

impl std::error::Error for StickKind {}

/// A fault, and the number of its line, from 1.
#[derive(Clone, Copy, Debug, PartialEq, Eq, Error)]
#[error("a line of the stick text is wrong")]
pub struct StickFault {
    pub line: u32,
    pub kind: StickKind,
}

/// Why `parse` gave no design.
#[derive(Clone, Copy, Debug, PartialEq, Eq, Error)]
pub enum ParseFault {
    /// The text is no design: its first fault.
    #[error("the stick text is no design")]
    Stick(StickFault),
    /// Memory ran out.
    #[error("out of memory")]
    OutOfMemory,
}

impl<T: Drop> From<AllocFailed<T>> for ParseFault {
    ghost from_gives = { λ _ e. e ≡ faults.OutOfMemory };

    fn from(_e: AllocFailed<T>) -> ParseFault {
        ParseFault::OutOfMemory
    }
}

/// Why one line says nothing.
#[derive(Clone, Copy, Debug, PartialEq, Eq, Error)]
pub enum LineFault {
    #[error("the line says nothing")]
    Kind(StickKind),
    #[error("out of memory")]
    OutOfMemory,
}

impl From<AllocError> for LineFault {
    ghost from_gives = { λ _ e. e ≡ line_faults.OutOfMemory };

    fn from(_e: AllocError) -> LineFault {
        LineFault::OutOfMemory
    }
}

impl<T: Drop> From<AllocFailed<T>> for LineFault {
    ghost from_gives = { λ _ e. e ≡ line_faults.OutOfMemory };

    fn from(_e: AllocFailed<T>) -> LineFault {
        LineFault::OutOfMemory
    }
}

impl From<StickKind> for LineFault {
    ghost from_gives = { λ kind e. e ≡ line_faults.Kind kind };

    fn from(kind: StickKind) -> LineFault {
        LineFault::Kind(kind)
    }
}

impl From<LexFault> for LineFault {
    ghost use Rattle.std.specs.Prelude.{◌≡◌};
    ghost use Rattle.stick_text.specs.Lexing.{line_fault_of};

    ghost from_gives = { λ fault e. e ≡ line_fault_of fault };

    fn from(fault: LexFault) -> LineFault {
        match fault {
            LexFault::BadByte(_) => LineFault::Kind(StickKind::BadByte),
            LexFault::NumberTooLarge(_) => LineFault::Kind(StickKind::NumberTooLarge),
            LexFault::OutOfMemory => LineFault::OutOfMemory,
        }
    }
}

/// What is wrong with a grid. Rows are counted from the bottom and columns from the left, both from 0.
#[derive(Clone, Copy, Debug, PartialEq, Eq)]
pub enum GridFault {
    /// It has no row.
    Empty,
    /// No cell has the name that stands here.
    UnknownCell {
        row: u32,
        col: u32,
    },
    /// The row is not as long as the first.
    RaggedRow {
        row: u32,
    },
    /// The ports on the right border of the instance here, or on its top border, are not those of its neighbour: in
    /// order, the ports of this number are of different layers or widths, or one side has no more.
    PortMismatch {
        row: u32,
        col: u32,
        top: bool,
        index: u32,
    },
}
