//! Why a design has no masters.

ghost use Rattle.std.specs.Prelude.{◌≡◌};
ghost use Rattle.design_masters.specs.declared.fault.MastersFault.TheVariants.{OutOfMemory};

use std::alloc::{AllocError, AllocFailed};
use stick_text::{GridFault, StickFault};
use thiserror::Error;

/// Why a design has no masters.
#[derive(Debug, Drop, Error)]
pub enum MastersFault {
    /// The first fault of its names and sizes.
    #[error("a line has a fault")]
    Stick(StickFault),
    /// The first grid that has no plan, counted from 0, and its first fault.
    #[error("a grid has a fault")]
    Grid { grid: u32, fault: GridFault },
    /// All masters together have more than 65,536 items, limits and uses.
    #[error("too many items")]
    TooManyItems,
    /// All instances together have more than 1,048,576 mask boxes.
    #[error("too many boxes")]
    TooManyBoxes,
    /// Memory ran out. This may come at any call.
    #[error("out of memory")]
    OutOfMemory,
}

impl From<AllocError> for MastersFault {
    ghost from_gives = { λ _ fault. fault ≡ OutOfMemory };

    fn from(_error: AllocError) -> MastersFault {
        MastersFault::OutOfMemory
    }
}

impl<T: Drop> From<AllocFailed<T>> for MastersFault {
    ghost from_gives = { λ _ fault. fault ≡ OutOfMemory };

    fn from(_failed: AllocFailed<T>) -> MastersFault {
        MastersFault::OutOfMemory
    }
}
