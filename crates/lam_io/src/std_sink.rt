// A sink over a writer, as the standard output of the operating system.
ghost use Rattle.std.specs.Prelude.{◌≡◌, ℕ, ◌<◌, ◌≤◌, [], None, Option, IsOk, IfOk, OnOk, OnErr, is_err, length, take};
ghost use Rattle.std.specs.Prelude.{if◌then◌else◌};
ghost use Rattle.std.specs.Io.KnownBytes as known;
ghost use Rattle.lam_io.specs.{Io.{Bytes, Appends, AppendsPrefix, Rose, raised}, Written.AppendsKnownPrefix};

use crate::sink::{PutFault, Sink};
use crate::tries::MOST_TRIES;
use std::io::{ErrorKind, Write};

/// A sink over a writer. It tells nothing of what it wrote. A put is a fault where the writer
/// gives an error, takes nothing of what is left, or cannot flush at the end of the chunk.
#[derive(Drop)]
pub struct StdSink<W> {
    writer: W,
    faults: u64,
}

impl<W> StdSink<W> {
    ghost use Rattle.lam_io.specs.OverSystem.{write_faults, writer_of};

    /// A sink with no faults so far.
    pub fn new(writer: W) -> StdSink<W>
        ensures writer { writer_of result ≡ writer }
        ensures faults { write_faults result ≡ 0 }
    {
        StdSink { writer, faults: 0 }
    }
}

impl<W: Write> Sink for StdSink<W> {
    ghost use Rattle.lam_io.specs.OverSystem.{write_faults, writer_of};

    ghost told = { λ _. None };

    ghost faults = { write_faults };

    fn put(&mut self, chunk: &[u8]) -> Result<(), PutFault>
        ensures ok { OnOk result (Appends None None chunk.now) }
        ensures err { OnErr result (AppendsPrefix None None chunk.now) }
        ensures fault { OnErr result (Rose (write_faults self.old) (write_faults self.new)) }
        ensures counts { write_faults self.old ≤ write_faults self.new }
        ensures empty { chunk.now ≡ [] → IsOk result
            × (◌≡◌ {A = Option Bytes} None None)
            × (write_faults self.new ≡ write_faults self.old) }

        // The count rises by one at a fault, and at no other answer.
        ensures count { write_faults self.new ≡
            (if is_err result then raised (write_faults self.old) else write_faults self.old) }

        // Where the writer knows what it holds, that grew by the chunk, or at a fault by a prefix of it.
        ensures written { OnOk result
            (known.Appends (W.contents (writer_of self.old)) (W.contents (writer_of self.new)) chunk.now) }
        ensures part { OnErr result
            (AppendsKnownPrefix (W.contents (writer_of self.old)) (W.contents (writer_of self.new)) chunk.now) }
        ensures untouched { chunk.now ≡ [] → self.new ≡ self.old }
    {
        if chunk.is_empty() {
            return Ok(());
        }
        let answer = write_whole(&mut self.writer, chunk);
        if answer.is_err() {
            self.faults = self.faults.saturating_add(1);
        }
        answer
    }
}

// Writes the chunk to its end, and then flushes.
fn write_whole<W: Write>(writer: &mut W, chunk: &[u8]) -> Result<(), PutFault>
    ensures ok { OnOk result (known.Appends (W.contents writer.old) (W.contents writer.new) chunk.now) }
    ensures err { OnErr result
        (AppendsKnownPrefix (W.contents writer.old) (W.contents writer.new) chunk.now) }
{
    let mut rest = chunk;
    while !rest.is_empty() {
        let taken = write_some(writer, rest)?;
        rest = &rest[taken..];
    }
    flush(writer)
}

// One write, tried again where a signal interrupts it. Takes a byte or more.
fn write_some<W: Write>(writer: &mut W, chunk: &[u8]) -> Result<usize, PutFault>
    ensures some { IfOk result (λ n. 0 < n) }
    ensures within { IfOk result (λ n. n ≤ length chunk.now) }
    ensures ok { IfOk result
        (λ n. known.Appends (W.contents writer.old) (W.contents writer.new) (take n chunk.now)) }
    ensures err { OnErr result (known.Keeps (W.contents writer.old) (W.contents writer.new)) }
{
    for _ in 0..MOST_TRIES {
        match writer.write(chunk) {
            Ok(0) => return Err(PutFault),
            Ok(taken) => return Ok(taken),
            Err(error) => {
                if error.kind() != ErrorKind::Interrupted {
                    return Err(PutFault);
                }
            }
        }
    }
    Err(PutFault)
}

// A flush, tried again where a signal interrupts it.
fn flush<W: Write>(writer: &mut W) -> Result<(), PutFault>
    ensures { known.Keeps (W.contents writer.old) (W.contents writer.new) }
{
    for _ in 0..MOST_TRIES {
        match writer.flush() {
            Ok(()) => return Ok(()),
            Err(error) => {
                if error.kind() != ErrorKind::Interrupted {
                    return Err(PutFault);
                }
            }
        }
    }
    Err(PutFault)
}
