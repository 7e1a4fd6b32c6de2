//! Why a text does not come to what is asked of it.
ghost use Rattle.std.specs.Prelude.{◌≡◌};
ghost use Rattle.cif_answers.specs.Causes.{by_extraction, by_flattening, by_reading};
ghost use Rattle.cif_answers.specs.declared.fault.TextFault.TheVariants.{OutOfMemory};

use cif_read::{CifFault, CifReadFault, FlatFault};
use net_model::ExtractFault;
use rule_breaks::Break;
use std::alloc::AllocError;
use thiserror::Error;

/// Why a text has no netlist, or does not keep the rules.
#[derive(Clone, Copy, Debug, PartialEq, Eq, Error)]
pub enum TextFault {
    /// It has no meaning: its first fault.
    #[error("the text has a fault")]
    Cif(CifFault),
    /// It has more than 1,048,576 boxes.
    #[error("too many boxes")]
    TooMany,
    /// It has no netlist: two of its boxes, poly and diffusion, overlap and do not cross properly. The first pair, by
    /// their numbers.
    #[error("two boxes do not cross properly")]
    NotProper(u32, u32),
    /// It does not keep the rules: the first break.
    #[error("a rule is broken")]
    Broken(Break),
    /// Memory ran out.
    #[error("out of memory")]
    OutOfMemory,
}

impl From<AllocError> for TextFault {
    ghost from_gives = { λ _ fault. fault ≡ OutOfMemory };

    fn from(_error: AllocError) -> TextFault {
        TextFault::OutOfMemory
    }
}

impl From<CifReadFault> for TextFault {
    ghost from_gives = { λ cause fault. fault ≡ by_reading cause };

    fn from(cause: CifReadFault) -> TextFault {
        match cause {
            CifReadFault::Cif(fault) => TextFault::Cif(fault),
            CifReadFault::OutOfMemory => TextFault::OutOfMemory,
        }
    }
}

impl From<FlatFault> for TextFault {
    ghost from_gives = { λ cause fault. fault ≡ by_flattening cause };

    fn from(cause: FlatFault) -> TextFault {
        match cause {
            FlatFault::TooMany => TextFault::TooMany,
            FlatFault::OutOfMemory => TextFault::OutOfMemory,
        }
    }
}

impl From<ExtractFault> for TextFault {
    ghost from_gives = { λ cause fault. fault ≡ by_extraction cause };

    fn from(cause: ExtractFault) -> TextFault {
        match cause {
            ExtractFault::NotProper(a, b) => TextFault::NotProper(a, b),
            ExtractFault::OutOfMemory => TextFault::OutOfMemory,
        }
    }
}
