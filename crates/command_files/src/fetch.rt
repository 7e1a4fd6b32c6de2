//! Fetching the files of a command.

ghost use Rattle.std.specs.Prelude.{◌≡◌, ◌≤◌, length, IfOk, IfErr};
ghost use Rattle.lam_io.specs.Io.{Telling};
ghost use Rattle.command_files.specs.Refusals.{status_of};
ghost use Rattle.command_files.specs.Fetches.{limit_of, IsRead, FailsToRead, IsCounted, IsUnread, AsksOnce};

use crate::refusal::Refusal;
use crate::status::{File, Status};
use lam_io::{Fetch, Shelf};
use std::alloc::Global;

/// The most bytes of a design's text.
pub const MOST_DESIGN: u64 = 1_048_576;

// The most bytes of a technology, of a CIF text, and of a script.
const MOST_TECHNOLOGY: u64 = 65_536;

const MOST_CIF: u64 = 67_108_864;

const MOST_SCRIPT: u64 = 65_536;

// The most bytes that a file may have.
fn limit_of(file: File) -> u64
    ensures { result ≡ limit_of file }
{
    match file {
        File::Design => MOST_DESIGN,
        File::Technology => MOST_TECHNOLOGY,
        File::Cif => MOST_CIF,
        File::Script => MOST_SCRIPT,
    }
}

/// The text of a file of the command.
pub fn fetch<S: Shelf>(
    alloc: Global,
    shelf: &mut S,
    file: File,
    name: &str,
) -> Result<Vec<u8>, Refusal>
    ensures read { IfOk result (λ text. IsRead (S.told shelf.old) file name.now text.items) }
    ensures short { IfOk result (λ text. length text.items ≤ limit_of file) }
    ensures asked { AsksOnce (status_of result) (S.told shelf.old) (S.told shelf.new) name.now }
    ensures refused { IfErr result (λ r. (t : Telling) → S.told shelf.old ≡ Some t
        → FailsToRead t.files file name.now r.status) }
    ensures over { IfErr result (λ r. IsUnread file r.status) }
    ensures counted { IsCounted (S.faults shelf.old) (S.faults shelf.new) (status_of result) }
    ensures counts { S.faults shelf.old ≤ S.faults shelf.new }
{
    let limit = limit_of(file);
    match shelf.fetch(alloc, name, limit) {
        Ok(text) => {
            if text.len() as u64 > limit {
                return Err(Refusal::from(Status::TooLong(file)));
            }
            Ok(text)
        }
        Err(Fetch::Fault) => Err(Refusal::from(Status::ReadFault(file))),
        Err(Fetch::OutOfMemory) => Err(Refusal::from(Status::OutOfMemory)),
    }
}
