//! Writing a picture.
ghost use Rattle.std.specs.Prelude.{◌≡◌, ◌≤◌, map, Err, OnOk, OnErr};
ghost use Rattle.lam_io.specs.Io.{Appends, AppendsPrefix, Rose};
ghost use Rattle.rule_table.specs.Technology.{numbers_of};
ghost use Rattle.mask_out.specs.Pictures.{drawing_of};
ghost use Rattle.cif_text.specs.declared.writing.CifWriteFault.TheVariants.{Fault, OutOfMemory};
ghost use Rattle.cif_text.specs.Calls.{cif_of, IsWritable};

use crate::pictures::cif_chunks;
use lam_io::{Gate, PutFault, Sink, put_all};
use mask_out::Picture;
use rule_table::Tech;
use std::alloc::{AllocError, Global};
use std::thread::Threads;
use thiserror::Error;

/// Why a picture was not written whole.
#[derive(Clone, Copy, Debug, PartialEq, Eq, Error)]
pub enum CifWriteFault {
    /// A put failed. The sink counted a fault in this call, and took a prefix of the text.
    #[error("the picture could not be written")]
    Fault,
    /// Memory ran out. Nothing was put.
    #[error("out of memory")]
    OutOfMemory,
}

impl From<AllocError> for CifWriteFault {
    ghost from_gives = { λ _ answer. answer ≡ OutOfMemory };

    fn from(_error: AllocError) -> CifWriteFault {
        CifWriteFault::OutOfMemory
    }
}

impl From<PutFault> for CifWriteFault {
    ghost from_gives = { λ _ answer. answer ≡ Fault };

    fn from(_fault: PutFault) -> CifWriteFault {
        CifWriteFault::Fault
    }
}

/// Puts the CIF text of a picture, in chunks, whose symbols are written in so many shares. All memory is taken before
/// the first put.
pub fn write_cif<H: Threads + Sync, S: Sink, G: Gate>(
    rt: &H,
    alloc: Global,
    gate: &G,
    tech: &Tech,
    picture: &Picture,
    shares: u32,
    out: &mut S,
) -> Result<(), CifWriteFault>
    requires writable { IsWritable picture.now }
    requires shares { (1 ≤ shares) × (shares ≤ 64) }
    ensures written { OnOk result
        (Appends (S.told out.old) (S.told out.new)
        (cif_of (numbers_of tech.now).unit (map drawing_of picture.now.symbols) picture.now.calls)) }
    ensures prefix { result ≡ Err Fault
        → AppendsPrefix (S.told out.old) (S.told out.new)
        (cif_of (numbers_of tech.now).unit (map drawing_of picture.now.symbols) picture.now.calls) }
    ensures fault { result ≡ Err Fault → Rose (S.faults out.old) (S.faults out.new) }
    ensures untouched { result ≡ Err OutOfMemory → out.new ≡ out.old }
    ensures counts { S.faults out.old ≤ S.faults out.new }
{
    let chunks = cif_chunks(rt, alloc, gate, tech, picture, shares)?;
    put_all(out, &chunks)?;
    Ok(())
}
