//! Why there is no plan.

ghost use Rattle.std.specs.Prelude.{◌≡◌};
ghost use Rattle.grid_plan.specs.declared.fault.PlanFault.TheVariants.{OutOfMemory};

use std::alloc::AllocError;
use stick_text::GridFault;
use thiserror::Error;

/// Why a design has no plan.
#[derive(Debug, Drop, Error)]
pub enum PlanFault {
    /// The first grid that has a fault, counted from 0, and its first fault.
    #[error("a grid has a fault")]
    Grid { grid: u32, fault: GridFault },
    #[error("out of memory")]
    OutOfMemory,
}

impl From<AllocError> for PlanFault {
    ghost from_gives = { λ _ fault. fault ≡ OutOfMemory };

    fn from(_error: AllocError) -> PlanFault {
        PlanFault::OutOfMemory
    }
}
