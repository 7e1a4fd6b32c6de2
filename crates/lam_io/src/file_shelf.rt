// A shelf over the files of the operating system.
ghost use Rattle.std.specs.Prelude.{◌≡◌, ℕ, ◌+◌, ◌^◌, ◌<◌, ◌≤◌, None, Option, IfOk, IfSome, OnErr, take, length};
ghost use Rattle.std.specs.Prelude.{vec_len};
ghost use Rattle.std.specs.Io.KnownBytes as known;
ghost use Rattle.lam_io.specs.Io.{Telling, Asks, IsFetched, Rose};

use crate::shelf::{Fetch, Shelf};
use crate::tries::MOST_TRIES;
use std::alloc::Global;
use std::fs;
use std::io::{ErrorKind, Read};
use std::rt::Files;

/// A shelf over the files that paths name. It tells nothing of what they hold. A fetch is a fault
/// where the file cannot be opened or read.
#[derive(Drop)]
pub struct FileShelf<'a, R> {
    files: &'a R,
    faults: u64,
}

impl<'a, R> FileShelf<'a, R> {
    ghost use Rattle.lam_io.specs.OverSystem.{file_faults};

    /// A shelf with no faults so far.
    pub fn new(files: &'a R) -> FileShelf<'a, R>
        ensures { file_faults result ≡ 0 }
    {
        FileShelf { files, faults: 0 }
    }
}

impl<R: Files> Shelf for FileShelf<'_, R> {
    ghost use Rattle.lam_io.specs.Fetch.{OnFault, OnOutOfMemory, UnlessOutOfMemory, count_after};
    ghost use Rattle.lam_io.specs.OverSystem.{file_faults};

    ghost told = { λ _. None };

    ghost faults = { file_faults };

    fn fetch(&mut self, alloc: Global, name: &str, limit: u64) -> Result<Vec<u8>, Fetch>
        requires { limit < 2 ^ 32 }
        ensures found { IfOk result (λ v. IsFetched None name.now limit v.items) }
        ensures asked { UnlessOutOfMemory result (Asks None None name.now) }
        ensures unasked { OnOutOfMemory result (◌≡◌ {A = Option Telling} None None) }
        ensures fault { OnFault result (Rose (file_faults self.old) (file_faults self.new)) }
        ensures counts { file_faults self.old ≤ file_faults self.new }

        // The count rises by one at a fault, and at no other answer.
        ensures count { file_faults self.new ≡ count_after result (file_faults self.old) }
        ensures length { IfOk result (λ v. vec_len v ≤ limit + 1) }
    {
        let answer = match fs::open(self.files, name) {
            Ok(mut file) => read_start(alloc, &mut file, limit),
            Err(_) => Err(Fetch::Fault),
        };
        if let Err(Fetch::Fault) = answer {
            self.faults = self.faults.saturating_add(1);
        }
        answer
    }
}

/// All that a reader still gives, or its first `limit` + 1 bytes if it gives more. A read that a signal interrupts is
/// tried again. It is a fault where the reader gives an error, or is interrupted a thousand times in a row.
pub fn read_start<R: Read>(alloc: Global, reader: &mut R, limit: u64) -> Result<Vec<u8>, Fetch>
    requires { limit < 2 ^ 32 }
    ensures start { IfOk result
        (λ v. IfSome (R.remaining reader.old) (λ rest. v.items ≡ take (limit + 1) rest)) }
    ensures length { IfOk result (λ v. vec_len v ≤ limit + 1) }
{
    let most = limit as usize + 1;
    let mut bytes = Vec::new(alloc);
    let mut chunk = [0u8; 4096];
    while bytes.len() < most {
        let wanted = chunk.len().min(most - bytes.len());
        let read = read_some(reader, &mut chunk[..wanted])?;
        if read == 0 {
            return Ok(bytes);
        }
        bytes.extend_from_slice(&chunk[..read])?;
    }
    Ok(bytes)
}

// One read, tried again where a signal interrupts it. Gives nothing only at the end of the file.
fn read_some<R: Read>(reader: &mut R, room: &mut [u8]) -> Result<usize, Fetch>
    requires { 0 < length room.old }
    ensures within { IfOk result (λ n. n ≤ length room.new) }
    ensures ok { IfOk result
        (λ n. known.Consumes (R.remaining reader.old) (R.remaining reader.new) (take n room.new)) }
    ensures end { IfOk result (λ n. n ≡ 0 → known.IsAtEnd (R.remaining reader.new)) }
    ensures err { result ≡ Err Fetch.OutOfMemory → ⊥ }
{
    for _ in 0..MOST_TRIES {
        match reader.read(room) {
            Ok(read) => return Ok(read),
            Err(error) => {
                if error.kind() != ErrorKind::Interrupted {
                    return Err(Fetch::Fault);
                }
            }
        }
    }
    Err(Fetch::Fault)
}
