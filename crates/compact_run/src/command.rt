//! The commands, up to the writing of their texts.

ghost use Rattle.std.specs.Prelude.{◌≡◌, ℕ, ◌≤◌, ◌^◌, length, [], Option, IfOk};
ghost use Rattle.lam_io.specs.Io.{Telling};
ghost use Rattle.run_words.specs.Words.{bench, command_of, compact, edit, fmt, jog, nets, slack, texts_of};
ghost use Rattle.command_files.specs.{Outputs.{ComeTo, text_of}, Refusals.plain, Limits.most_passes, StepLists.reads};
ghost use Rattle.command_files.specs.{StepLists.writes, Readers.script_file};
ghost use Rattle.compact_run.specs.Answers.{alone, status_by, IsOutcome, cif_steps, steps_of};
ghost use Rattle.design_layouts.specs.Designs.{HasBothAxes, with_starts};
ghost use Rattle.design_sizes.specs.Sizes.{lines_in, names_in};
ghost use Rattle.edit_lines.specs.Scripts.{edits_of};
ghost use Rattle.edit_command.specs.Edits.{EditsTo};
ghost use Rattle.stick_text.specs.Writable.{IsWritable};
ghost use Rattle.stick_print.specs.Canonical.{canonical};

use crate::cif::{CifJob, output_over};
use bench_command::bench::bench;
use command_files::{
    Output, Refusal, Status, in_one_chunk, read_cif, read_design, read_edit_script,
    read_jog_script, read_technology,
};
use design_commands::compact::compact;
use design_commands::nets::nets;
use design_commands::slack::slack;
use edit_command::edit::{edit, started};
use jog_command::jog::{jog, sizes_of};
use lam_geom::Axis;
use lam_io::{Gate, Shelf};
use rule_table::Tech;
use run_words::{Command, WordsFault, read_words};
use std::alloc::{AllocError, AllocFailed, Global};
use std::thread::Threads;
use stick_print::print;
use stick_text::Design;

// What `compact` writes, or why it writes nothing. It is the same for every number of shares and every gate.
fn compact_files<H: Threads + Sync, S: Shelf, G: Gate>(
    rt: &H,
    alloc: Global,
    gate: &G,
    shelf: &mut S,
    design: &str,
    tech: &str,
    axes: &[Axis],
    shares: u32,
) -> Result<Output, Refusal>
    requires both { HasBothAxes axes.now }
    requires few { length axes.now ≤ most_passes }
    requires shares { (1 ≤ shares) × (shares ≤ 64) }
    ensures { ComeTo (steps_of (compact design.now tech.now axes.now shares)) (S.told shelf.old) (S.told shelf.new)
        (S.faults shelf.old) (S.faults shelf.new) result }
{
    let technology = read_technology(alloc, shelf, tech)?;
    let sticks = read_design(rt, alloc, gate, shelf, design, shares)?;
    compact(rt, alloc, gate, &technology, &sticks, axes, shares)
}

// What `slack` writes, or why it writes nothing.
fn slack_files<H: Threads + Sync, S: Shelf, G: Gate>(
    rt: &H,
    alloc: Global,
    gate: &G,
    shelf: &mut S,
    design: &str,
    tech: &str,
    axes: &[Axis],
) -> Result<Output, Refusal>
    requires both { HasBothAxes axes.now }
    requires few { length axes.now ≤ most_passes }
    ensures { ComeTo (steps_of (slack design.now tech.now axes.now)) (S.told shelf.old) (S.told shelf.new)
        (S.faults shelf.old) (S.faults shelf.new) result }
{
    let technology = read_technology(alloc, shelf, tech)?;
    let sticks = read_design(rt, alloc, gate, shelf, design, 1)?;
    let text = slack(rt, alloc, gate, &technology, &sticks, axes)?;
    Ok(in_one_chunk(alloc, text, b"")?)
}

// What `jog` writes, or why it writes nothing. The design is laid out before the script is fetched.
fn jog_files<H: Threads + Sync, S: Shelf, G: Gate>(
    rt: &H,
    alloc: Global,
    gate: &G,
    shelf: &mut S,
    design: &str,
    tech: &str,
    script: &str,
    axes: &[Axis],
) -> Result<Output, Refusal>
    requires both { HasBothAxes axes.now }
    requires few { length axes.now ≤ most_passes }
    ensures { ComeTo (steps_of (jog design.now tech.now script.now axes.now)) (S.told shelf.old) (S.told shelf.new)
        (S.faults shelf.old) (S.faults shelf.new) result }
{
    let technology = read_technology(alloc, shelf, tech)?;
    let sticks = read_design(rt, alloc, gate, shelf, design, 1)?;
    let sizes = sizes_of(rt, alloc, gate, &technology, &sticks, axes)?;
    let lines = read_jog_script(alloc, shelf, script)?;
    Ok(jog(rt, alloc, gate, &technology, axes, sticks, sizes, &lines)?)
}

// What `edit` writes of a design, or why it writes nothing. Starts are judged before the script is fetched.
fn edits_over<H: Threads + Sync, S: Shelf, G: Gate>(
    rt: &H,
    alloc: Global,
    gate: &G,
    shelf: &mut S,
    technology: &Tech,
    sticks: Design,
    script: &str,
    axes: &[Axis],
) -> Result<Output, Refusal>
    requires writable { IsWritable sticks }
    requires few_names { names_in sticks ≤ 2 ^ 19 }
    requires few_lines { lines_in sticks ≤ 2 ^ 20 }
    requires both { HasBothAxes axes.now }
    requires few { length axes.now ≤ most_passes }
    ensures { ComeTo
        (with_starts technology.now sticks
        (λ plan masters. reads (script_file edits_of) script.now
        (λ lines. writes (alone (EditsTo technology.now axes.now plan.masters sticks lines)))))
        (S.told shelf.old) (S.told shelf.new) (S.faults shelf.old) (S.faults shelf.new) result }
{
    let start = started(rt, alloc, gate, technology, &sticks)?;
    let lines = read_edit_script(alloc, shelf, script)?;
    let text = edit(rt, alloc, gate, technology, axes, sticks, start, &lines)?;
    Ok(in_one_chunk(alloc, text, b"")?)
}

// What `edit` writes, or why it writes nothing.
fn edit_files<H: Threads + Sync, S: Shelf, G: Gate>(
    rt: &H,
    alloc: Global,
    gate: &G,
    shelf: &mut S,
    design: &str,
    tech: &str,
    script: &str,
    axes: &[Axis],
) -> Result<Output, Refusal>
    requires both { HasBothAxes axes.now }
    requires few { length axes.now ≤ most_passes }
    ensures { ComeTo (steps_of (edit design.now tech.now script.now axes.now)) (S.told shelf.old) (S.told shelf.new)
        (S.faults shelf.old) (S.faults shelf.new) result }
{
    let technology = read_technology(alloc, shelf, tech)?;
    let sticks = read_design(rt, alloc, gate, shelf, design, 1)?;
    edits_over(rt, alloc, gate, shelf, &technology, sticks, script, axes)
}

// What `extract`, `check` or `breaks` writes, or why it writes nothing. It is the same for every number of shares.
fn cif_files<H: Threads + Sync, S: Shelf, G: Gate>(
    rt: &H,
    alloc: Global,
    gate: &G,
    shelf: &mut S,
    job: CifJob,
    cif: &str,
    tech: &str,
    shares: u32,
) -> Result<Output, Refusal>
    requires shares { (1 ≤ shares) × (shares ≤ 64) }
    ensures { ComeTo (cif_steps job cif.now tech.now) (S.told shelf.old) (S.told shelf.new) (S.faults shelf.old)
        (S.faults shelf.new) result }
{
    let rules = read_technology(alloc, shelf, tech)?;
    let text = read_cif(alloc, shelf, cif)?;
    let output = output_over(rt, alloc, gate, job, &rules, &text, shares)?;
    Ok(in_one_chunk(alloc, output, b"")?)
}

// What `nets` writes, or why it writes nothing. Nothing is laid out.
fn nets_files<H: Threads + Sync, S: Shelf, G: Gate>(
    rt: &H,
    alloc: Global,
    gate: &G,
    shelf: &mut S,
    design: &str,
    tech: &str,
) -> Result<Output, Refusal>
    ensures { ComeTo (steps_of (nets design.now tech.now)) (S.told shelf.old) (S.told shelf.new) (S.faults shelf.old)
        (S.faults shelf.new) result }
{
    let technology = read_technology(alloc, shelf, tech)?;
    let sticks = read_design(rt, alloc, gate, shelf, design, 1)?;
    let text = nets(rt, alloc, gate, &technology, &sticks)?;
    Ok(in_one_chunk(alloc, text, b"")?)
}

// The canonical text of a design, in one chunk.
fn formatted(alloc: Global, design: &Design) -> Result<Output, AllocError>
    ensures text { IfOk result (λ output. text_of output ≡ canonical design.now) }
    ensures no_report { IfOk result (λ output. output.report ≡ []) }
{
    let text = print(alloc, design)?;
    in_one_chunk(alloc, text, b"")
}

// What `fmt` writes, or why it writes nothing.
fn fmt_file<H: Threads + Sync, S: Shelf, G: Gate>(
    rt: &H,
    alloc: Global,
    gate: &G,
    shelf: &mut S,
    design: &str,
) -> Result<Output, Refusal>
    ensures { ComeTo (steps_of (fmt design.now)) (S.told shelf.old) (S.told shelf.new) (S.faults shelf.old)
        (S.faults shelf.new) result }
{
    let sticks = read_design(rt, alloc, gate, shelf, design, 1)?;
    Ok(formatted(alloc, &sticks)?)
}

// What `bench` writes, or why it writes nothing. It fetches nothing.
fn benched<H: Threads + Sync, G: Gate>(
    rt: &H,
    alloc: Global,
    gate: &G,
    n: u32,
) -> Result<Output, Refusal>
    requires some { 1 ≤ n }
    requires few { n ≤ 64 }
    ensures { (told : Option Telling) (faults : ℕ) → ComeTo (steps_of (bench n)) told told faults faults result }
{
    let line = bench(rt, alloc, gate, n)?;
    Ok(in_one_chunk(alloc, line, b"")?)
}

// The refusal of words that are no command, or that want memory.
fn words_refusal(fault: WordsFault) -> Refusal
    ensures { result ≡ plain (status_by fault) }
{
    match fault {
        WordsFault::Usage => Refusal::from(Status::Usage),
        WordsFault::OutOfMemory => Refusal::from(Status::OutOfMemory),
    }
}

/// The output that the words ask for, or why there is none. Nothing is written.
pub fn answer<'a, H: Threads + Sync, S: Shelf, G: Gate>(
    rt: &H,
    alloc: Global,
    gate: &G,
    words: &'a [&'a str],
    shelf: &mut S,
) -> Result<Output, Refusal>
    ensures { IsOutcome (command_of (texts_of words.now)) (S.told shelf.old) (S.told shelf.new) (S.faults shelf.old)
        (S.faults shelf.new) result }
{
    let command = match read_words(alloc, words) {
        Ok(command) => command,
        Err(fault) => return Err(words_refusal(fault)),
    };
    match command {
        Command::Compact {
            design,
            tech,
            passes,
            split,
        } => compact_files(
            rt,
            alloc,
            gate,
            shelf,
            design,
            tech,
            passes.as_slice(),
            split,
        ),
        Command::Slack {
            design,
            tech,
            passes,
        } => slack_files(rt, alloc, gate, shelf, design, tech, passes.as_slice()),
        Command::Jog {
            design,
            tech,
            script,
            passes,
        } => jog_files(
            rt,
            alloc,
            gate,
            shelf,
            design,
            tech,
            script,
            passes.as_slice(),
        ),
        Command::Edit {
            design,
            tech,
            script,
            passes,
        } => edit_files(
            rt,
            alloc,
            gate,
            shelf,
            design,
            tech,
            script,
            passes.as_slice(),
        ),
        Command::Check { cif, tech, split } => {
            cif_files(rt, alloc, gate, shelf, CifJob::Check, cif, tech, split)
        }
        Command::Breaks { cif, tech, most } => {
            cif_files(rt, alloc, gate, shelf, CifJob::Breaks(most), cif, tech, 1)
        }
        Command::Extract { cif, tech } => {
            cif_files(rt, alloc, gate, shelf, CifJob::Extract, cif, tech, 1)
        }
        Command::Nets { design, tech } => nets_files(rt, alloc, gate, shelf, design, tech),
        Command::Fmt { design } => fmt_file(rt, alloc, gate, shelf, design),
        Command::Bench { n } => benched(rt, alloc, gate, n),
    }
}
