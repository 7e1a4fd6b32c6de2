//! Why a CIF text has no meaning.

ghost use Rattle.std.specs.Prelude.{◌≡◌, ◌≤◌, ◌^◌};
ghost use Rattle.cif_read.specs.declared.fault.CifReadFault.TheVariants as faults;
ghost use Rattle.cif_read.specs.Readers.{cause_of};
ghost use Rattle.cif_read.specs.declared.fault.Stop.TheVariants as stops;
ghost use Rattle.cif_read.specs.declared.fault.FlatFault.TheVariants as flats;

use std::alloc::{AllocError, AllocFailed};
use thiserror::Error;

/// What is wrong at a place of a text.
#[derive(Clone, Copy, Debug, PartialEq, Eq)]
pub enum CifKind {
    /// What stands here is no command, or one that may stand here never: a call in a definition, an end of a definition
    /// outside of one.
    BadCommand,
    /// A number that is too large, or too small for what it counts.
    BadNumber,
    /// A definition or the end of the text inside a definition.
    NestedDefinition,
    /// A second definition of one symbol.
    RepeatedSymbol,
    /// A call of a symbol that has not been defined before it.
    UnknownSymbol,
    /// A box before any layer was named.
    NoLayer,
    /// A number of a box, or of a shift of a call, that is no whole number of hundredths of a micron in its
    /// definition's scale.
    OddScale,
    /// Inside a definition, a call of a symbol that has calls 64 deep. A reader that knows no calls inside
    /// definitions never says so.
    TooDeep,
    /// The text ends before the letter E, or a command or a comment has no end.
    NoEnd,
    /// Something stands after the letter E.
    AfterEnd,
}

/// A fault and its place: bytes from the start of the text.
#[derive(Clone, Copy, Debug, PartialEq, Eq)]
pub struct CifFault {
    pub offset: u32,
    pub kind: CifKind,
}

/// Why a text could not be read: its first fault, or want of memory.
#[derive(Clone, Copy, Debug, PartialEq, Eq, Error)]
pub enum CifReadFault {
    #[error("the text has a fault")]
    Cif(CifFault),
    #[error("out of memory")]
    OutOfMemory,
}

impl From<AllocError> for CifReadFault {
    ghost from_gives = { λ _ fault. fault ≡ faults.OutOfMemory };

    fn from(_error: AllocError) -> CifReadFault {
        CifReadFault::OutOfMemory
    }
}

/// Why a command is not carried out: it is refused, or want of memory.
#[derive(Clone, Copy)]
pub enum Stop {
    Refused(CifKind),
    OutOfMemory,
}

impl<T: Drop> From<AllocFailed<T>> for Stop {
    ghost from_gives = { λ _ stop. stop ≡ stops.OutOfMemory };

    fn from(_failed: AllocFailed<T>) -> Stop {
        Stop::OutOfMemory
    }
}

/// Why a file could not be flattened: it has more than 1,048,576 boxes, or want of memory.
#[derive(Clone, Copy, Debug, PartialEq, Eq, Error)]
pub enum FlatFault {
    #[error("too many boxes")]
    TooMany,
    #[error("out of memory")]
    OutOfMemory,
}

impl From<AllocError> for FlatFault {
    ghost from_gives = { λ _ fault. fault ≡ flats.OutOfMemory };

    fn from(_error: AllocError) -> FlatFault {
        FlatFault::OutOfMemory
    }
}

impl<T: Drop> From<AllocFailed<T>> for FlatFault {
    ghost from_gives = { λ _ fault. fault ≡ flats.OutOfMemory };

    fn from(_failed: AllocFailed<T>) -> FlatFault {
        FlatFault::OutOfMemory
    }
}

/// The fault at a place of a text.
pub fn fault_at(offset: usize, kind: CifKind) -> CifReadFault
    requires { offset ≤ 2 ^ 26 }
    ensures { result ≡ faults.Cif (record { offset = offset; kind = kind }) }
{
    CifReadFault::Cif(CifFault {
        offset: offset as u32,
        kind,
    })
}

/// Why the command at this place is not carried out.
pub fn cause_at(begin: usize, stop: Stop) -> CifReadFault
    requires { begin ≤ 2 ^ 26 }
    ensures { result ≡ cause_of begin stop }
{
    match stop {
        Stop::Refused(kind) => fault_at(begin, kind),
        Stop::OutOfMemory => CifReadFault::OutOfMemory,
    }
}
