// Texts that are put in chunks.
ghost use Rattle.std.specs.Prelude.{◌≤◌, flat_map, OnOk, OnErr};
ghost use Rattle.lam_io.specs.Io.{Appends, AppendsPrefix, Rose};

use crate::sink::{PutFault, Sink};

/// Puts the chunks of a text, one after another. At a fault a prefix of the text was put, and no chunk after it.
pub fn put_all<S: Sink>(out: &mut S, chunks: &[Vec<u8>]) -> Result<(), PutFault>
    ensures ok { OnOk result (Appends (S.told out.old) (S.told out.new) (flat_map (λ chunk. chunk.items) chunks.now)) }
    ensures err { OnErr result
        (AppendsPrefix (S.told out.old) (S.told out.new) (flat_map (λ chunk. chunk.items) chunks.now)) }
    ensures fault { OnErr result (Rose (S.faults out.old) (S.faults out.new)) }
    ensures counts { S.faults out.old ≤ S.faults out.new }
{
    for chunk in chunks {
        out.put(chunk)?;
    }
    Ok(())
}
