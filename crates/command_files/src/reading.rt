//! Reading a technology, a design, the scripts and a CIF text, each from its file.

ghost use Rattle.std.specs.{Prelude.{◌≡◌, ◌≤◌, ◌^◌, length, Some, IfOk, IfErr}, List.AllByRecursion};
ghost use Rattle.lam_io.specs.Io.{Telling};
ghost use Rattle.design_sizes.specs.Sizes.{lines_in, names_in};
ghost use Rattle.stick_text.specs.Writable.{IsWritable};
ghost use Rattle.jog_lines.specs.Scripts.{jogs_of};
ghost use Rattle.edit_lines.specs.Scripts.{HasText, edits_of};
ghost use Rattle.command_files.specs.{Fetches.{IsCounted, IsRefused, AsksOnce}, Refusals.{Refused, status_of}};
ghost use Rattle.command_files.specs.Readers.{cif_file, design_file, script_file, technology_file};
ghost use Rattle.command_files.specs.StepLists.{EndsOver, RefusesFile, Says};

use crate::fetch::fetch;
use crate::refusal::{Refusal, script_refusal};
use crate::status::{File, Status};
use design_sizes::{lines_are_few, names_are_few};
use edit_lines::{EditLine, read_edits};
use fault_lines::{stick_line, tech_line};
use jog_lines::{JogLine, read_jogs};
use lam_io::{Gate, Shelf};
use rule_table::Tech;
use std::alloc::Global;
use std::thread::Threads;
use stick_parse::parse;
use stick_text::{Design, ParseFault};
use tech_file::{ReadTechFault, read_tech};

/// The technology of a file.
pub fn read_technology<S: Shelf>(alloc: Global, shelf: &mut S, name: &str) -> Result<Tech, Refusal>
    ensures technology { IfOk result (λ tech. (t : Telling) → S.told shelf.old ≡ Some t
        → Says technology_file t.files name.now tech) }
    ensures refused { IfErr result (λ r. (t : Telling) → S.told shelf.old ≡ Some t
        → Refused (RefusesFile technology_file name.now t.files) r) }
    ensures refusal { IfErr result (λ r. IsRefused r.status) }
    ensures over { IfErr result (λ r. EndsOver technology_file r.status) }
    ensures counted { IsCounted (S.faults shelf.old) (S.faults shelf.new) (status_of result) }
    ensures asked { AsksOnce (status_of result) (S.told shelf.old) (S.told shelf.new) name.now }
    ensures counts { S.faults shelf.old ≤ S.faults shelf.new }
{
    let text = fetch(alloc, shelf, File::Technology, name)?;
    match read_tech(alloc, &text) {
        Ok(tech) => Ok(tech),
        Err(ReadTechFault::File(fault)) => {
            let line = tech_line(alloc, &fault)?;
            Err(Refusal {
                status: Status::BadTech(fault),
                line: Some(line),
            })
        }
        Err(ReadTechFault::OutOfMemory) => Err(Refusal::from(Status::OutOfMemory)),
    }
}

/// The design of a file, whose lines are read in so many shares.
pub fn read_design<H: Threads + Sync, S: Shelf, G: Gate>(
    rt: &H,
    alloc: Global,
    gate: &G,
    shelf: &mut S,
    name: &str,
    shares: u32,
) -> Result<Design, Refusal>
    requires shares { (1 ≤ shares) × (shares ≤ 64) }
    ensures design { IfOk result (λ design. (t : Telling) → S.told shelf.old ≡ Some t
        → Says design_file t.files name.now design) }
    ensures writable { IfOk result IsWritable }
    ensures few { IfOk result (λ design. names_in design ≤ 2 ^ 19) }
    ensures few_lines { IfOk result (λ design. lines_in design ≤ 2 ^ 20) }
    ensures refused { IfErr result (λ r. (t : Telling) → S.told shelf.old ≡ Some t
        → Refused (RefusesFile design_file name.now t.files) r) }
    ensures refusal { IfErr result (λ r. IsRefused r.status) }
    ensures over { IfErr result (λ r. EndsOver design_file r.status) }
    ensures counted { IsCounted (S.faults shelf.old) (S.faults shelf.new) (status_of result) }
    ensures asked { AsksOnce (status_of result) (S.told shelf.old) (S.told shelf.new) name.now }
    ensures counts { S.faults shelf.old ≤ S.faults shelf.new }
{
    let text = fetch(alloc, shelf, File::Design, name)?;
    match parse(rt, alloc, gate, &text, shares) {
        Ok(design) => {
            names_are_few(&text, &design);
            lines_are_few(&text, &design);
            Ok(design)
        }
        Err(ParseFault::Stick(fault)) => {
            let line = stick_line(alloc, fault)?;
            Err(Refusal {
                status: Status::BadSticks(fault),
                line: Some(line),
            })
        }
        Err(ParseFault::OutOfMemory) => Err(Refusal::from(Status::OutOfMemory)),
    }
}

/// The lines of a script of jogs.
pub fn read_jog_script<S: Shelf>(
    alloc: Global,
    shelf: &mut S,
    name: &str,
) -> Result<Vec<JogLine>, Refusal>
    ensures script { IfOk result (λ lines. (t : Telling) → S.told shelf.old ≡ Some t
        → Says (script_file jogs_of) t.files name.now lines.items) }
    ensures refused { IfErr result (λ r. (t : Telling) → S.told shelf.old ≡ Some t
        → Refused (RefusesFile (script_file jogs_of) name.now t.files) r) }
    ensures refusal { IfErr result (λ r. IsRefused r.status) }
    ensures over { IfErr result (λ r. EndsOver (script_file jogs_of) r.status) }
    ensures counted { IsCounted (S.faults shelf.old) (S.faults shelf.new) (status_of result) }
    ensures asked { AsksOnce (status_of result) (S.told shelf.old) (S.told shelf.new) name.now }
    ensures counts { S.faults shelf.old ≤ S.faults shelf.new }
{
    let text = fetch(alloc, shelf, File::Script, name)?;
    match read_jogs(alloc, &text) {
        Ok(lines) => Ok(lines),
        Err(fault) => Err(script_refusal(alloc, fault)?),
    }
}

/// The lines of a script of edits.
pub fn read_edit_script<S: Shelf>(
    alloc: Global,
    shelf: &mut S,
    name: &str,
) -> Result<Vec<EditLine>, Refusal>
    ensures script { IfOk result (λ lines. (t : Telling) → S.told shelf.old ≡ Some t
        → Says (script_file edits_of) t.files name.now lines.items) }
    ensures written { IfOk result (λ lines. AllByRecursion HasText lines.items) }
    ensures few { IfOk result (λ lines. length lines.items ≤ 2 ^ 20) }
    ensures refused { IfErr result (λ r. (t : Telling) → S.told shelf.old ≡ Some t
        → Refused (RefusesFile (script_file edits_of) name.now t.files) r) }
    ensures refusal { IfErr result (λ r. IsRefused r.status) }
    ensures over { IfErr result (λ r. EndsOver (script_file edits_of) r.status) }
    ensures counted { IsCounted (S.faults shelf.old) (S.faults shelf.new) (status_of result) }
    ensures asked { AsksOnce (status_of result) (S.told shelf.old) (S.told shelf.new) name.now }
    ensures counts { S.faults shelf.old ≤ S.faults shelf.new }
{
    let text = fetch(alloc, shelf, File::Script, name)?;
    match read_edits(alloc, &text) {
        Ok(lines) => Ok(lines),
        Err(fault) => Err(script_refusal(alloc, fault)?),
    }
}

/// The CIF text of a file.
pub fn read_cif<S: Shelf>(alloc: Global, shelf: &mut S, name: &str) -> Result<Vec<u8>, Refusal>
    ensures text { IfOk result (λ text. (t : Telling) → S.told shelf.old ≡ Some t
        → Says cif_file t.files name.now text.items) }
    ensures short { IfOk result (λ text. length text.items ≤ 2 ^ 26) }
    ensures refused { IfErr result (λ r. (t : Telling) → S.told shelf.old ≡ Some t
        → Refused (RefusesFile cif_file name.now t.files) r) }
    ensures refusal { IfErr result (λ r. IsRefused r.status) }
    ensures over { IfErr result (λ r. EndsOver cif_file r.status) }
    ensures counted { IsCounted (S.faults shelf.old) (S.faults shelf.new) (status_of result) }
    ensures asked { AsksOnce (status_of result) (S.told shelf.old) (S.told shelf.new) name.now }
    ensures counts { S.faults shelf.old ≤ S.faults shelf.new }
{
    fetch(alloc, shelf, File::Cif, name)
}
