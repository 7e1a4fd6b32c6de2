//! What is done with a CIF text: its nets and transistors are extracted, it is checked against the rules, or their
//! breaks are listed.

ghost use Rattle.std.specs.Prelude.{◌≡◌, ◌^◌, ◌≤◌, length, IfOk, IfErr};
ghost use Rattle.command_files.specs.Refusals.{Refused};
ghost use Rattle.compact_run.specs.Answers.{text_refusal, HasOutput, RefusesOutput, RefusesText};

use cif_answers::{TextFault, breaks_of, netlist_of, verdict_of};
use command_files::{Refusal, Status, What};
use fault_lines::{broken_line, cif_line, improper_line};
use lam_io::Gate;
use rule_breaks::Break;
use rule_table::Tech;
use std::alloc::{AllocError, Global};
use std::thread::Threads;
use stick_lex::Text;

/// What is asked of a CIF text.
#[derive(Clone, Copy)]
pub enum CifJob {
    /// Its nets and transistors.
    Extract,
    /// That it keeps the rules.
    Check,
    /// Its first breaks of the rules, no more than so many.
    Breaks(u32),
}

// The text that is asked for; a check works in so many shares.
fn output_text<H: Threads + Sync, G: Gate>(
    rt: &H,
    alloc: Global,
    gate: &G,
    job: CifJob,
    tech: &Tech,
    text: &[u8],
    shares: u32,
) -> Result<Text, TextFault>
    requires short { length text.now ≤ 2 ^ 26 }
    requires shares { (1 ≤ shares) × (shares ≤ 64) }
    ensures output { IfOk result (HasOutput job tech.now text.now) }
    ensures refused { IfErr result (RefusesOutput job tech.now text.now) }
{
    match job {
        CifJob::Extract => netlist_of(rt, alloc, tech, text),
        CifJob::Check => verdict_of(rt, alloc, gate, tech, text, shares),
        CifJob::Breaks(most) => breaks_of(rt, alloc, tech, text, most),
    }
}

// The refusal for a text's fault, and its line. That there are too many boxes takes no memory.
fn refusal_for(alloc: Global, fault: TextFault) -> Result<Refusal, AllocError>
    ensures { IfOk result (λ r. r ≡ text_refusal fault) }
{
    match fault {
        TextFault::Cif(fault) => Ok(Refusal {
            status: Status::BadCif(fault),
            line: Some(cif_line(alloc, fault)?),
        }),
        TextFault::TooMany => Ok(Refusal::from(Status::TooLarge(What::Boxes))),
        TextFault::NotProper(a, b) => Ok(Refusal {
            status: Status::NotProper { a, b },
            line: Some(improper_line(alloc, a, b)?),
        }),
        TextFault::Broken(Break { rule, a, b }) => Ok(Refusal {
            status: Status::RuleBroken { rule, a, b },
            line: Some(broken_line(alloc, rule, a, b)?),
        }),
        TextFault::OutOfMemory => Ok(Refusal::from(Status::OutOfMemory)),
    }
}

/// The output over a CIF text, or why there is none. A check works in so many shares, and says the same for every
/// number.
pub fn output_over<H: Threads + Sync, G: Gate>(
    rt: &H,
    alloc: Global,
    gate: &G,
    job: CifJob,
    tech: &Tech,
    text: &[u8],
    shares: u32,
) -> Result<Vec<u8>, Refusal>
    requires short { length text.now ≤ 2 ^ 26 }
    requires shares { (1 ≤ shares) × (shares ≤ 64) }
    ensures output { IfOk result (λ output. HasOutput job tech.now text.now output.items) }
    ensures refused { IfErr result (Refused (RefusesText job tech.now text.now)) }
{
    match output_text(rt, alloc, gate, job, tech, text, shares) {
        Ok(output) => Ok(Vec::from_slice(alloc, output.bytes())?),
        Err(fault) => Err(refusal_for(alloc, fault)?),
    }
}
