//! A crossing.

ghost use Rattle.std.specs.Prelude.{◌≡◌};
ghost use Rattle.crossing_model.specs.declared.crossing.CrossingFault.TheVariants.{OutOfMemory};

use lam_geom::{Axis, BoxXY};
use std::alloc::AllocError;
use thiserror::Error;

/// Poly that crosses diffusion, by the numbers of their boxes.
#[derive(Clone, Copy, PartialEq, Eq)]
pub struct Crossing {
    pub poly: u32,
    pub diffusion: u32,
    /// The axis along which poly goes past diffusion: the gate runs along it.
    pub axis: Axis,
    /// What poly and diffusion have in common.
    pub channel: BoxXY,
    /// Whether an implant goes past the channel by its extension on all sides.
    pub depletion: bool,
}

/// Why there are no crossings: the first pair of poly and diffusion that overlap, are no buried pair and do not cross
/// properly, or of which one overlaps a further box of the other's layer; or want of memory.
#[derive(Clone, Copy, Debug, PartialEq, Eq, Error)]
pub enum CrossingFault {
    #[error("poly and diffusion do not cross properly")]
    NotProper(u32, u32),
    #[error("out of memory")]
    OutOfMemory,
}

impl From<AllocError> for CrossingFault {
    ghost from_gives = { λ _ fault. fault ≡ OutOfMemory };

    fn from(_error: AllocError) -> CrossingFault {
        CrossingFault::OutOfMemory
    }
}
