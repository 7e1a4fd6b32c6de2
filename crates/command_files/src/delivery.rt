//! Writing what a command answers: all texts are there before the first put.

ghost use Rattle.std.specs.Prelude.{◌≡◌, ◌≤◌, ◌⊎◌};
ghost use Rattle.lam_io.specs.Io.{Appends, AppendsPrefix, Rose};
ghost use Rattle.command_files.specs.{Refusal.{line_of, message_text}, Outputs.{Reports, write_fault_line, text_of}};

use crate::output::Output;
use crate::refusal::Refusal;
use crate::status::{Side2, Status};
use lam_io::{Sink, put_all};

// Puts a line into the report; a fault there changes no status.
fn tell<R: Sink>(report: &mut R, text: &[u8])
    ensures line { Reports (R.told report.old) (R.told report.new) (R.faults report.old) (R.faults report.new)
        text.now }
    ensures counts { R.faults report.old ≤ R.faults report.new }
{
    let _ = report.put(text);
}

/// Writes the output of a command, and then its report.
pub fn write<C: Sink, R: Sink>(out: &mut C, report: &mut R, output: &Output) -> Status
    ensures answer { (result ≡ Status.Done)
        ⊎ ((result ≡ Status.WriteFault Side2.Output) ⊎ (result ≡ Status.WriteFault Side2.Report)) }
    ensures written { (result ≡ Status.WriteFault Side2.Output → ⊥)
        → Appends (C.told out.old) (C.told out.new) (text_of output.now) }
    ensures told { result ≡ Status.Done → Appends (R.told report.old) (R.told report.new) output.now.report }
    ensures prefix { result ≡ Status.WriteFault Side2.Output
        → AppendsPrefix (C.told out.old) (C.told out.new) (text_of output.now) }
    ensures fault { result ≡ Status.WriteFault Side2.Output → Rose (C.faults out.old) (C.faults out.new) }
    ensures line { result ≡ Status.WriteFault Side2.Output
        → Reports (R.told report.old) (R.told report.new) (R.faults report.old) (R.faults report.new)
        write_fault_line }
    ensures report_prefix { result ≡ Status.WriteFault Side2.Report
        → AppendsPrefix (R.told report.old) (R.told report.new) output.now.report }
    ensures report_fault { result ≡ Status.WriteFault Side2.Report → Rose (R.faults report.old) (R.faults report.new) }
    ensures counts { C.faults out.old ≤ C.faults out.new }
    ensures report_counts { R.faults report.old ≤ R.faults report.new }
{
    match put_all(out, &output.chunks) {
        Ok(()) => match report.put(output.report.bytes()) {
            Ok(()) => Status::Done,
            Err(_) => Status::WriteFault(Side2::Report),
        },
        Err(_) => {
            tell(report, b"sticks: cannot write output\n");
            Status::WriteFault(Side2::Output)
        }
    }
}

/// Says why a command is refused.
pub fn refuse<R: Sink>(report: &mut R, refusal: Refusal) -> Status
    ensures status { result ≡ refusal.status }
    ensures line { Reports (R.told report.old) (R.told report.new) (R.faults report.old) (R.faults report.new)
        (line_of refusal.status (message_text refusal.line)) }
    ensures counts { R.faults report.old ≤ R.faults report.new }
{
    tell(report, refusal.text());
    refusal.status
}
