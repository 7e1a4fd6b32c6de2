// What gives files by their names.
ghost use Rattle.std.specs.Prelude.{◌≡◌, ℕ, ◌^◌, ◌<◌, ◌≤◌, Option, IfOk};
ghost use Rattle.lam_io.specs.{declared.shelf.Fetch.TheVariants.OutOfMemory, Io.{Telling, Asks, IsFetched, Rose}};

use std::alloc::{AllocError, AllocFailed, Global};
use thiserror::Error;

/// Why a fetch gave nothing.
#[derive(Clone, Copy, Debug, PartialEq, Eq, Error)]
pub enum Fetch {
    /// The file is not there or could not be read. The shelf counted a fault in this call.
    #[error("the file could not be read")]
    Fault,
    /// Memory ran out.
    #[error("out of memory")]
    OutOfMemory,
}

impl From<AllocError> for Fetch {
    ghost from_gives = { λ _ answer. answer ≡ OutOfMemory };

    fn from(_error: AllocError) -> Fetch {
        Fetch::OutOfMemory
    }
}

impl<T: Drop> From<AllocFailed<T>> for Fetch {
    ghost from_gives = { λ _ answer. answer ≡ OutOfMemory };

    fn from(_failed: AllocFailed<T>) -> Fetch {
        Fetch::OutOfMemory
    }
}

/// Gives files by their names.
pub trait Shelf {
    ghost use Rattle.lam_io.specs.Fetch.{OnFault, OnOutOfMemory, UnlessOutOfMemory};

    // The files and the names asked for so far, where the shelf tells them.
    ghost told: { Self → Option Telling };

    // How often a fault was met so far. It stands still at 2 ^ 64 - 1.
    ghost faults: { Self → ℕ };

    /// The whole file of that name if it has at most `limit` + 1 bytes, and else its first
    /// `limit` + 1 bytes. `Fault` comes only where the shelf counted a fault in this call.
    fn fetch(&mut self, alloc: Global, name: &str, limit: u64) -> Result<Vec<u8>, Fetch>
        requires { limit < 2 ^ 32 }
        ensures found { IfOk result (λ v. IsFetched (told self.old) name.now limit v.items) }
        ensures asked { UnlessOutOfMemory result (Asks (told self.old) (told self.new) name.now) }
        ensures unasked { OnOutOfMemory result (told self.new ≡ told self.old) }
        ensures fault { OnFault result (Rose (faults self.old) (faults self.new)) }
        ensures counts { faults self.old ≤ faults self.new };
}
