//! The top call.

ghost use Rattle.std.specs.Prelude.{◌≡◌, ◌⊎◌, ℕ, ◌≤◌, List, Some};
ghost use Rattle.lam_io.specs.Io.{Telling, Rose};
ghost use Rattle.command_files.specs.declared.status.File.{File};
ghost use Rattle.compact_run.specs.Answers.{IsUsage, AsksFor, IsAnswer, NothingRefuses, Writes, Tells, IsUntouched};
ghost use Rattle.run_words.specs.Words.{command_of, texts_of};

use crate::command::answer;
use command_files::{Side2, Status, refuse, write};
use lam_io::{Gate, Shelf, Sink};
use std::alloc::Global;
use std::thread::Threads;

/// Does what the words say. A command is a list of steps, one after the other; the first that is refused ends it, and
/// none after that is taken.
///
/// - `compact DESIGN --tech FILE [--passes LIST] [--split N]`: technology, design, plan of its grids, masters, start
///   layouts, passes on the axes of the list (`xy` if there is none), extent; then the masks go into `out` and what is
///   told of the passes into `report`.
/// - `slack DESIGN --tech FILE [--passes LIST]`: the same up to the extent; then how far each part could move goes into
///   `out`.
/// - `jog DESIGN --tech FILE --script FILE [--passes LIST]`: the same up to the extent, and the script; then the design
///   with its jogs goes into `out` and a line on each of them into `report`.
/// - `edit DESIGN --tech FILE --script FILE [--passes LIST]`: technology, design, plan, masters, start layouts, script;
///   then what the design comes to after each line of the script goes into `out`.
/// - `check CIF --tech FILE [--split N]`: technology, CIF text, boxes, verdict; then `ok` goes into `out`.
/// - `breaks CIF --tech FILE [--most N]`: technology, CIF text, boxes; then their first breaks of the rules, no more
///   than N, go into `out`.
/// - `extract CIF --tech FILE`: technology, CIF text, boxes, netlist; then its text goes into `out`.
/// - `nets DESIGN --tech FILE`: technology, design, plan, masters; then their nets and transistors, with the names of
///   their parts, go into `out`.
/// - `fmt DESIGN`: design; then its canonical text goes into `out`.
/// - `bench N`: no file; a line on the design that is made from N goes into `out`.
///
/// A refusal puts its text into `report`, one line or the passes before a cycle and the cycle, and nothing into `out`.
pub fn run<'a, H: Threads + Sync, S: Shelf, C: Sink, R: Sink, G: Gate>(
    rt: &H,
    alloc: Global,
    words: &'a [&'a str],
    shelf: &mut S,
    out: &mut C,
    report: &mut R,
    gate: &G,
) -> Status
    // Where the shelf tells its files, the status, the output and the report are the answer to the words and the files.
    ensures answer { (t : Telling) → S.told shelf.old ≡ Some t →
        (output : List ℕ) × (line : List ℕ) × IsAnswer (texts_of words.now) t.files result output line
        × Writes result (C.told out.old) (C.told out.new) output
        × Tells result (R.told report.old) (R.told report.new) (R.faults report.old) (R.faults report.new) line }
    // A refused call has written nothing.
    ensures untouched { IsUntouched result out.old out.new }

    // The words are refused exactly where they are no command, unless memory runs out.
    ensures usage { IsUsage (command_of (texts_of words.now)) result }
    // Where a file could not be read, the shelf's count rose.
    ensures read_fault { (f : File) → result ≡ Status.ReadFault f → Rose (S.faults shelf.old) (S.faults shelf.new) }
    ensures write_fault { result ≡ Status.WriteFault Side2.Output → Rose (C.faults out.old) (C.faults out.new) }
    ensures report_fault { result ≡ Status.WriteFault Side2.Report → Rose (R.faults report.old) (R.faults report.new) }
    // The files are as they were, and those of the command were asked for, each once, in order, up to the one over
    // which it ended; a prefix of them where memory ran out.
    ensures asked { AsksFor (command_of (texts_of words.now)) result (S.told shelf.old) (S.told shelf.new) }

    // Where no cause refuses the words and no count rises, the call is done, unless memory runs out.
    ensures complete { (t : Telling) → S.told shelf.old ≡ Some t
        → NothingRefuses (command_of (texts_of words.now)) t.files
        → ¬ Rose (S.faults shelf.old) (S.faults shelf.new) → ¬ Rose (C.faults out.old) (C.faults out.new)
        → ¬ Rose (R.faults report.old) (R.faults report.new)
        → (result ≡ Status.Done) ⊎ (result ≡ Status.OutOfMemory) }

    // The counts of faults never fall.
    ensures shelf_counts { S.faults shelf.old ≤ S.faults shelf.new }
    ensures out_counts { C.faults out.old ≤ C.faults out.new }
    ensures report_counts { R.faults report.old ≤ R.faults report.new }
{
    match answer(rt, alloc, gate, words, shelf) {
        Ok(output) => write(out, report, &output),
        Err(refusal) => refuse(report, refusal),
    }
}
