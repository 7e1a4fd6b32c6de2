//! A netlist.
ghost use Rattle.std.specs.Prelude.{◌≡◌};
ghost use Rattle.net_model.specs.{declared.netlist.ExtractFault.TheVariants.OutOfMemory, Faults.fault_of};

use box_pieces::Part;
use crossing_model::CrossingFault;
use lam_geom::BoxXY;
use lam_list::Seq;
use std::alloc::AllocError;
use thiserror::Error;

/// A piece of conducting material: the number of its box, its part of it, and its net.
#[derive(Clone, Copy, PartialEq, Eq)]
pub struct Piece {
    pub box_no: u32,
    pub part: Part,
    pub net: u32,
}

/// A transistor: the nets of its gate, its low and its high diffusion, its width and length and its channel in
/// grains, and whether it is a depletion one.
#[derive(Clone, Copy, PartialEq, Eq)]
pub struct Device {
    pub gate: u32,
    pub low: u32,
    pub high: u32,
    pub w: i64,
    pub l: i64,
    pub depletion: bool,
    pub channel: BoxXY,
}

/// Pieces in order of their boxes, low before high; how many nets there are; and devices in order of their diffusion.
#[derive(Drop)]
pub struct Netlist {
    pub pieces: Seq<Piece>,
    pub nets: u32,
    pub devices: Seq<Device>,
}

/// Why nothing was extracted: the first pair of poly and diffusion that overlap, are no buried pair and do not cross
/// properly, or of which one overlaps a further box of the other's layer; or want of memory.
#[derive(Clone, Copy, Debug, PartialEq, Eq, Error)]
pub enum ExtractFault {
    #[error("poly and diffusion do not cross properly")]
    NotProper(u32, u32),
    #[error("out of memory")]
    OutOfMemory,
}

impl From<AllocError> for ExtractFault {
    ghost from_gives = { λ _ fault. fault ≡ OutOfMemory };

    fn from(_error: AllocError) -> ExtractFault {
        ExtractFault::OutOfMemory
    }
}

impl From<CrossingFault> for ExtractFault {
    ghost from_gives = { λ fault extract. extract ≡ fault_of fault };

    fn from(fault: CrossingFault) -> ExtractFault {
        match fault {
            CrossingFault::NotProper(a, b) => ExtractFault::NotProper(a, b),
            CrossingFault::OutOfMemory => ExtractFault::OutOfMemory,
        }
    }
}
