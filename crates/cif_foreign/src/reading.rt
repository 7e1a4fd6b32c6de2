//! From a text to what it draws.
ghost use Rattle.std.specs.Prelude.{◌^◌, ◌≤◌, IfOk, IfErr, length};
ghost use Rattle.cif_foreign.specs.{Meaning.Means, Files.{hierarchy_of, CanBeFlattened, IsCauseOf}};

use cif_read::{CifReadFault, Dialect, ForeignFile, read_in_shares};
use std::alloc::Global;
use std::thread::Threads;

/// What a text draws, or its first fault. The commands of a long text are read in so many shares. Linear in the text
/// and in the calls times the logarithm of the symbols.
pub fn read_foreign<H: Threads + Sync>(
    rt: &H,
    alloc: Global,
    bytes: &[u8],
    shares: u32,
) -> Result<ForeignFile, CifReadFault>
    requires few { length bytes.now ≤ 2 ^ 26 }
    requires shares { (1 ≤ shares) × (shares ≤ 64) }
    ensures means { IfOk result (λ file. Means bytes.now (hierarchy_of file)) }
    ensures flat { IfOk result CanBeFlattened }
    ensures fault { IfErr result (IsCauseOf bytes.now) }
{
    read_in_shares(rt, alloc, Dialect::Foreign, bytes, shares)
}
