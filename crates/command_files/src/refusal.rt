//! Why a command is refused, and the text that says so.

ghost use Rattle.std.specs.Prelude.{◌≡◌, ◌↔◌, IfOk, IsTrue};
ghost use Rattle.command_files.specs.declared.status.Status.TheVariants.{OutOfMemory, TooLarge};
ghost use Rattle.command_files.specs.{declared.status.What.TheVariants.Extent, Refusal.{line_of, message_text}};
ghost use Rattle.command_files.specs.Refusals.{plain, script_refusal};

use crate::status::{File, Status, What};
use extents::TooFar;
use fault_lines::script_line;
use script_lines::ScriptFault;
use std::alloc::{AllocError, AllocFailed, Global};
use stick_lex::Text;

/// Why a command is refused before anything is written.
#[derive(Drop)]
pub struct Refusal {
    /// The cause.
    pub status: Status,
    /// What is said of the cause, where that is not the same for all of its status.
    pub line: Option<Text>,
}

impl From<Status> for Refusal {
    ghost from_gives = { λ status r. r ≡ plain status };

    fn from(status: Status) -> Refusal {
        Refusal { status, line: None }
    }
}

impl From<AllocError> for Refusal {
    ghost from_gives = { λ _ r. r ≡ plain OutOfMemory };

    fn from(_error: AllocError) -> Refusal {
        Refusal::from(Status::OutOfMemory)
    }
}

impl<T: Drop> From<AllocFailed<T>> for Refusal {
    ghost from_gives = { λ _ r. r ≡ plain OutOfMemory };

    fn from(_failed: AllocFailed<T>) -> Refusal {
        Refusal::from(Status::OutOfMemory)
    }
}

impl From<TooFar> for Refusal {
    ghost from_gives = { λ _ r. r ≡ plain (TooLarge Extent) };

    fn from(_far: TooFar) -> Refusal {
        Refusal::from(Status::TooLarge(What::Extent))
    }
}

/// Why a script is refused.
pub fn script_refusal(alloc: Global, fault: ScriptFault) -> Result<Refusal, AllocError>
    ensures { IfOk result (λ r. r ≡ script_refusal fault) }
{
    match fault {
        ScriptFault::Line(line) => {
            let message = script_line(alloc, line)?;
            Ok(Refusal {
                status: Status::BadScript { line },
                line: Some(message),
            })
        }
        ScriptFault::OutOfMemory => Ok(Refusal::from(Status::OutOfMemory)),
    }
}

impl Refusal {
    /// Whether it is for want of memory.
    pub fn wants_memory(&self) -> bool
        ensures { IsTrue result ↔ (self.now.status ≡ OutOfMemory) }
    {
        match self.status {
            Status::OutOfMemory => true,
            _ => false,
        }
    }

    // The text that was made for the refusal.
    fn message(&self) -> &[u8]
        ensures { result.now ≡ message_text self.now.line }
    {
        match &self.line {
            Some(text) => text.bytes(),
            None => b"",
        }
    }

    /// The text of a refused command: a line, or the passes before a cycle and the cycle.
    pub fn text(&self) -> &[u8]
        ensures { result.now ≡ line_of self.now.status (message_text self.now.line) }
    {
        match &self.status {
            Status::OutOfMemory => b"sticks: out of memory\n",
            Status::Usage => b"sticks: usage\n",
            Status::ReadFault(File::Design) => b"sticks: cannot read design\n",
            Status::ReadFault(File::Technology) => b"sticks: cannot read technology\n",
            Status::ReadFault(File::Cif) => b"sticks: cannot read cif\n",
            Status::ReadFault(File::Script) => b"sticks: cannot read script\n",
            Status::TooLong(File::Design) => b"sticks: too long: design\n",
            Status::TooLong(File::Technology) => b"sticks: too long: technology\n",
            Status::TooLong(File::Cif) => b"sticks: too long: cif\n",
            Status::TooLong(File::Script) => b"sticks: too long: script\n",
            Status::TooLarge(What::Items) => b"sticks: too large: items\n",
            Status::TooLarge(What::Boxes) => b"sticks: too large: boxes\n",
            Status::TooLarge(What::Edges) => b"sticks: too large: edges\n",
            Status::TooLarge(What::Extent) => b"sticks: too large: extent\n",
            _ => self.message(),
        }
    }
}
