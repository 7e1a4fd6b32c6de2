//! Why a text is no technology.
ghost use Rattle.std.specs.Prelude.{◌≡◌};
ghost use Rattle.tech_file.specs.{Technology.fault_at, declared.faults.ReadTechFault.TheVariants.{File, OutOfMemory}};

use rule_table::TechFault;
use std::alloc::AllocError;
use std::fmt;
use stick_lex::Text;
use thiserror::Error;

/// The first fault of a text, in the order in which they are tested. A `u8` is the place of a key in the order of
/// `rule_table::Numbers`.
#[derive(Debug, Drop)]
pub enum TechFileFault {
    /// The text is no TOML.
    NotToml,
    /// The key, or the table that it stands in, is not there.
    Missing(u8),
    /// The key holds no integer, or its table's name holds no table.
    WrongType(u8),
    /// The least dotted key, in the order of bytes, that no technology has.
    Unknown(Text),
    /// The numbers are not those of a technology.
    Numbers(TechFault),
}

impl fmt::Display for TechFileFault {
    fn fmt<W: fmt::Write>(&self, f: &mut fmt::Formatter<W>) -> fmt::Result {
        f.write_str(match self {
            TechFileFault::NotToml => "not a TOML text",
            TechFileFault::Missing(_) => "a key is missing",
            TechFileFault::WrongType(_) => "a key has the wrong type",
            TechFileFault::Unknown(_) => "a key is not known",
            TechFileFault::Numbers(_) => "the numbers are not those of a technology",
        })
    }
}

impl std::error::Error for TechFileFault {}

// The fault of one key, which has this place.
#[derive(Clone, Copy)]
pub(crate) enum KeyFault {
    Missing(u8),
    WrongType(u8),
}

/// Why `read_tech` gave no technology.
#[derive(Debug, Drop, Error)]
pub enum ReadTechFault {
    /// The text has this fault.
    #[error("the technology file has a fault")]
    File(TechFileFault),
    /// Memory ran out, which says nothing of the text.
    #[error("out of memory")]
    OutOfMemory,
}

impl From<KeyFault> for ReadTechFault {
    ghost from_gives = { λ fault e. e ≡ File (fault_at fault) };

    fn from(fault: KeyFault) -> ReadTechFault {
        ReadTechFault::File(match fault {
            KeyFault::Missing(key) => TechFileFault::Missing(key),
            KeyFault::WrongType(key) => TechFileFault::WrongType(key),
        })
    }
}

impl From<AllocError> for ReadTechFault {
    ghost from_gives = { λ _ e. e ≡ OutOfMemory };

    fn from(_e: AllocError) -> ReadTechFault {
        ReadTechFault::OutOfMemory
    }
}
