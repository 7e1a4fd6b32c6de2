// What takes chunks of text.
ghost use Rattle.std.specs.Prelude.{◌≡◌, ℕ, ◌≤◌, Option, [], IsOk, OnOk, OnErr};
ghost use Rattle.lam_io.specs.Io.{Bytes, Appends, AppendsPrefix, Rose};

use thiserror::Error;

/// A put failed: the sink counted a fault in this call, and took a prefix of the chunk.
#[derive(Clone, Copy, Debug, PartialEq, Eq, Error)]
#[error("the text could not be put whole")]
pub struct PutFault;

/// Takes chunks of text, one after another.
pub trait Sink {
    // The bytes put so far, where the sink tells them.
    ghost told: { Self → Option Bytes };

    // How often a fault was met so far. It stands still at 2 ^ 64 - 1.
    ghost faults: { Self → ℕ };

    /// Appends the chunk. At a fault a prefix of it was appended. An empty chunk is no put: the
    /// sink answers `Ok` and does nothing.
    fn put(&mut self, chunk: &[u8]) -> Result<(), PutFault>
        ensures ok { OnOk result (Appends (told self.old) (told self.new) chunk.now) }
        ensures err { OnErr result (AppendsPrefix (told self.old) (told self.new) chunk.now) }
        ensures fault { OnErr result (Rose (faults self.old) (faults self.new)) }
        ensures counts { faults self.old ≤ faults self.new }
        ensures empty { chunk.now ≡ [] →
            IsOk result × (told self.new ≡ told self.old) × (faults self.new ≡ faults self.old) };
}
