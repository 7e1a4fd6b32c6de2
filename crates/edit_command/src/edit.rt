//! An edit session: a script adds limits to the cells of a design and drops them, and after each line it is told what
//! the design comes to.

ghost use Rattle.std.specs.Prelude.{◌≡◌, ◌≢◌, ◌+◌, ◌<◌, ◌≤◌, ◌^◌, ◌↔◌, ◌++◌, [], All, List, length, codes, OnOk, IfOk};
ghost use Rattle.std.specs.{Prelude.{IfErr, IfSome, MatchOption, IsTrue, Ok}, Fmt.signed_decimal, List.AllByRecursion};
ghost use Rattle.design_sizes.specs.Sizes.{lines_in, names_in};
ghost use Rattle.stick_text.specs.{declared.design.Design.Design as SomeDesign, Writable.IsWritable};
ghost use Rattle.checked_cells.specs.{CheckedCell.CheckedCell, Grids.resolved_cells};
ghost use Rattle.edit_lines.specs.Scripts.{HasText};
ghost use Rattle.pitch_join.specs.Masters.{ArePlanned};
ghost use Rattle.pass_run.specs.{Laid.StartsClean, Layouts.starts_of};
ghost use Rattle.first_pass.specs.First.{IsFirstPass};
ghost use Rattle.command_files.specs.{declared.status.Status.TheVariants.OutOfMemory, Limits.most_passes};
ghost use Rattle.command_files.specs.Refusals.{Refused};
ghost use Rattle.design_layouts.specs.Designs.{HasBothAxes, RefusesStarts};
ghost use Rattle.edit_command.specs.Edits.{AreAnswered, Changes, EditsTo, IsAnswered, IsNextStep, code_word};
ghost use Rattle.edit_command.specs.Edits.{done_word, step_line, was_resolved};
ghost use Rattle.design_masters.specs.{Limits.most_boxes, Plans.AreMastersOf};
ghost use Rattle.master_counts.specs.Parts.{boxes_of_instances, AllStand, HasFewParts, HasPlainName};

use crate::least::{Started, first_of, kept_layouts};
use checked_cells::Cells;
use command_files::{File, Refusal, Status, has_short_text};
use design_layouts::{check_starts, lay_out, masters_of};
use design_masters::DesignMasters;
use edit_lines::EditLine;
use expand::Master;
use extents::{height, width};
use fault_lines::push_count;
use first_pass::FirstPass;
use lam_geom::Axis;
use lam_io::Gate;
use limit_edits::edited;
use plan_model::Plan;
use rule_table::Tech;
use std::alloc::{AllocError, Global};
use std::thread::Threads;
use stick_cell::{ResolveFault, resolve};
use stick_lex::push_signed_decimal;
use stick_text::Design;
use sym_items::Coords;

/// The steps so far: the design that they have made, what is written, and the first pass that is kept.
#[derive(Drop)]
pub struct Stepped {
    pub design: Design,
    pub text: Vec<u8>,
    pub first: Option<FirstPass>,
}

/// The masters of a design, and their start layouts, where all of these are clean.
pub fn started<H: Threads + Sync, G: Gate>(
    rt: &H,
    alloc: Global,
    gate: &G,
    tech: &Tech,
    design: &Design,
) -> Result<Started, Refusal>
    requires writable { IsWritable design.now }
    requires few_names { names_in design.now ≤ 2 ^ 19 }
    ensures of_design { IfOk result (λ made. AreMastersOf tech.now design.now made.plan made.masters.items) }
    ensures planned { IfOk result (λ made. ArePlanned tech.now made.plan made.masters.items) }
    ensures starts { IfOk result (λ made. made.starts.items ≡ starts_of tech.now made.masters.items) }
    ensures clean { IfOk result (λ made. All (StartsClean tech.now) made.masters.items) }
    ensures refused { IfErr result (Refused (RefusesStarts tech.now design.now)) }
{
    let made = masters_of(rt, alloc, gate, tech, design, 1)?;
    let starts = check_starts(rt, alloc, gate, tech, &made.masters, 1)?;
    let DesignMasters { plan, masters } = made;
    Ok(Started {
        plan,
        masters,
        starts,
    })
}

fn push_size(out: &mut Vec<u8>, name: &[u8], width: i64, height: i64) -> Result<(), AllocError>
    ensures { OnOk result
        (out.new.items ≡ out.old.items
        ++ (codes " "
        ++ (name.now ++ (codes " " ++ (signed_decimal width ++ (codes " " ++ signed_decimal height)))))) }
{
    out.push(b' ')?;
    out.extend_from_slice(name)?;
    out.push(b' ')?;
    push_signed_decimal(out, width)?;
    out.push(b' ')?;
    push_signed_decimal(out, height)?;
    Ok(())
}

// The word on masters in these layouts.
fn done_word(alloc: Global, masters: &[Master], layouts: &[Coords]) -> Result<Vec<u8>, AllocError>
    requires { length masters.now < 2 ^ 32 }
    ensures { IfOk result (λ word. word.items ≡ done_word masters.now layouts.now) }
{
    let mut word = Vec::from_slice(alloc, b"done")?;
    for m in 0..masters.len() {
        let name = masters[m].cell.name.bytes();
        push_size(
            &mut word,
            name,
            width(layouts, m as u32),
            height(layouts, m as u32),
        )?;
    }
    Ok(word)
}

// The word on a cause for which there are no masks.
fn code_word(alloc: Global, status: &Status) -> Result<Vec<u8>, AllocError>
    ensures { IfOk result (λ word. word.items ≡ code_word status.now) }
{
    let mut word = Vec::new(alloc);
    push_count(&mut word, b"code ", status.code() as usize)?;
    Ok(word)
}

// The word on a refusal. Want of memory has none.
fn refused_word(alloc: Global, refusal: &Refusal) -> Result<Vec<u8>, AllocError>
    ensures { IfOk result (λ word. (refusal.now.status ≢ OutOfMemory) × (word.items ≡ code_word refusal.now.status)) }
{
    if refusal.wants_memory() {
        return Err(AllocError);
    }
    code_word(alloc, &refusal.status)
}

// What masters come to, in a word, by passes from the start.
fn word_by_passes<H: Threads + Sync, G: Gate>(
    rt: &H,
    alloc: Global,
    gate: &G,
    tech: &Tech,
    plan: &Plan,
    masters: &[Master],
    axes: &[Axis],
) -> Result<Vec<u8>, AllocError>
    requires planned { ArePlanned tech.now plan.now masters.now }
    requires both { HasBothAxes axes.now }
    requires few { length axes.now ≤ most_passes }
    requires named { All HasPlainName masters.now }
    requires stand { AllStand plan.now masters.now }
    requires few_parts { HasFewParts plan.now masters.now }
    requires few_boxes { boxes_of_instances plan.now masters.now ≤ most_boxes }
    requires few_masters { length masters.now < 2 ^ 32 }
    ensures { IfOk result (λ word. AreAnswered tech.now plan.now masters.now axes.now word.items) }
{
    match lay_out(rt, alloc, gate, tech, plan, masters, axes, 1, false) {
        Ok(passes) => done_word(alloc, masters, passes.coords.as_slice()),
        Err(refusal) => refused_word(alloc, &refusal),
    }
}

// What masters come to, in a word: by the first pass that is kept, or else by passes from the start.
fn word_over<H: Threads + Sync, G: Gate>(
    rt: &H,
    alloc: Global,
    gate: &G,
    tech: &Tech,
    plan: &Plan,
    masters: &[Master],
    axes: &[Axis],
    first: &mut Option<FirstPass>,
) -> Result<Vec<u8>, AllocError>
    requires planned { ArePlanned tech.now plan.now masters.now }
    requires both { HasBothAxes axes.now }
    requires few { length axes.now ≤ most_passes }
    requires named { All HasPlainName masters.now }
    requires stand { AllStand plan.now masters.now }
    requires few_parts { HasFewParts plan.now masters.now }
    requires few_boxes { boxes_of_instances plan.now masters.now ≤ most_boxes }
    requires few_masters { length masters.now < 2 ^ 32 }
    requires first { IfSome first.old (IsFirstPass tech.now) }
    ensures answered { IfOk result (λ word. AreAnswered tech.now plan.now masters.now axes.now word.items) }
    ensures first { OnOk result (IfSome first.new (IsFirstPass tech.now)) }
{
    match kept_layouts(rt, alloc, gate, tech, plan, masters, axes, first)? {
        Some(layouts) => done_word(alloc, masters, &layouts),
        None => word_by_passes(rt, alloc, gate, tech, plan, masters, axes),
    }
}

// What a design comes to, in a word: by the first pass that is kept, or else by passes from the start.
fn word_on<H: Threads + Sync, G: Gate>(
    rt: &H,
    alloc: Global,
    gate: &G,
    tech: &Tech,
    axes: &[Axis],
    design: &Design,
    first: &mut Option<FirstPass>,
) -> Result<Vec<u8>, AllocError>
    requires writable { IsWritable design.now }
    requires few_names { names_in design.now ≤ 2 ^ 19 }
    requires both { HasBothAxes axes.now }
    requires few { length axes.now ≤ most_passes }
    requires first { IfSome first.old (IsFirstPass tech.now) }
    ensures answered { IfOk result (λ word. IsAnswered tech.now axes.now design.now word.items) }
    ensures first { OnOk result (IfSome first.new (IsFirstPass tech.now)) }
{
    if !has_short_text(alloc, design)? {
        return code_word(alloc, &Status::TooLong(File::Design));
    }
    match masters_of(rt, alloc, gate, tech, design, 1) {
        Ok(made) => word_over(
            rt,
            alloc,
            gate,
            tech,
            &made.plan,
            &made.masters,
            axes,
            first,
        ),
        Err(refusal) => refused_word(alloc, &refusal),
    }
}

// Whether a design was resolved; None where memory ran out. Takes no memory.
fn was_resolved(resolved: &Result<Cells, ResolveFault>) -> Option<bool>
    ensures { result ≡ was_resolved resolved.now }
{
    match resolved {
        Ok(_) => Some(true),
        Err(ResolveFault::Stick(_)) => Some(false),
        Err(ResolveFault::OutOfMemory) => None,
    }
}

// Whether the names and sizes of a design have no fault.
fn is_resolved(alloc: Global, tech: &Tech, design: &Design) -> Result<bool, AllocError>
    requires { IsWritable design.now }
    ensures { IfOk result
        (λ is. IsTrue is ↔ ((cells : List CheckedCell) × (resolved_cells tech.now design.now ≡ Ok cells))) }
{
    let resolved = resolve(alloc, design, tech);
    match was_resolved(&resolved) {
        Some(is) => Ok(is),
        None => Err(AllocError),
    }
}

// The design into which a line changes a design whose masters have these numbers, if it does.
fn changed(
    alloc: Global,
    tech: &Tech,
    design: &Design,
    numbers: &[u32],
    line: &EditLine,
) -> Result<Option<Design>, AllocError>
    requires writable { IsWritable design.now }
    requires written { HasText line.now }
    requires few_lines { lines_in design.now ≤ 2 ^ 30 }
    requires few_names { names_in design.now ≤ 2 ^ 19 }
    ensures changed { IfOk result (λ o. MatchOption o
        ((new : SomeDesign) → Changes tech.now design.now numbers.now line.now new → ⊥)
        (Changes tech.now design.now numbers.now line.now)) }
    ensures writable { IfOk result (λ o. IfSome o IsWritable) }
    ensures lines { IfOk result (λ o. IfSome o (λ new. lines_in new ≤ lines_in design.now + 1)) }
    ensures names { IfOk result (λ o. IfSome o (λ new. names_in new ≤ 2 ^ 19)) }
{
    let Some(new) = edited(alloc, design, numbers, line)? else {
        return Ok(None);
    };
    if !is_resolved(alloc, tech, &new)? {
        return Ok(None);
    }
    Ok(Some(new))
}

fn push_step(out: &mut Vec<u8>, i: usize, word: &[u8]) -> Result<(), AllocError>
    ensures { OnOk result (out.new.items ≡ out.old.items ++ step_line i word.now) }
{
    push_count(out, b"step ", i)?;
    out.push(b' ')?;
    out.extend_from_slice(word)?;
    out.push(b'\n')?;
    Ok(())
}

// One line more, which has this number.
fn next_line<H: Threads + Sync, G: Gate>(
    rt: &H,
    alloc: Global,
    gate: &G,
    tech: &Tech,
    axes: &[Axis],
    numbers: &[u32],
    so_far: &mut Stepped,
    i: usize,
    line: &EditLine,
) -> Result<(), AllocError>
    requires writable { IsWritable so_far.old.design }
    requires written { HasText line.now }
    requires few_lines { lines_in so_far.old.design ≤ 2 ^ 30 }
    requires few_names { names_in so_far.old.design ≤ 2 ^ 19 }
    requires both { HasBothAxes axes.now }
    requires few { length axes.now ≤ most_passes }
    requires first { IfSome so_far.old.first (IsFirstPass tech.now) }
    ensures step { OnOk result (IsNextStep tech.now axes.now numbers.now i line.now so_far.old so_far.new) }
    ensures writable { OnOk result (IsWritable so_far.new.design) }
    ensures lines { OnOk result (lines_in so_far.new.design ≤ lines_in so_far.old.design + 1) }
    ensures names { OnOk result (names_in so_far.new.design ≤ 2 ^ 19) }
    ensures first { OnOk result (IfSome so_far.new.first (IsFirstPass tech.now)) }
{
    match changed(alloc, tech, &so_far.design, numbers, line)? {
        Some(new) => {
            let word = word_on(rt, alloc, gate, tech, axes, &new, &mut so_far.first)?;
            push_step(&mut so_far.text, i, &word)?;
            so_far.design = new;
            Ok(())
        }
        None => {
            push_step(&mut so_far.text, i, b"refused")?;
            Ok(())
        }
    }
}

// Takes the lines of a script, one after another, where nothing is written yet. The masters have these numbers.
fn take_lines<H: Threads + Sync, G: Gate>(
    rt: &H,
    alloc: Global,
    gate: &G,
    tech: &Tech,
    axes: &[Axis],
    numbers: &[u32],
    so_far: &mut Stepped,
    lines: &[EditLine],
) -> Result<(), AllocError>
    requires writable { IsWritable so_far.old.design }
    requires few_names { names_in so_far.old.design ≤ 2 ^ 19 }
    requires few_lines { lines_in so_far.old.design ≤ 2 ^ 20 }
    requires none { so_far.old.text.items ≡ [] }
    requires first { IfSome so_far.old.first (IsFirstPass tech.now) }
    requires written { AllByRecursion HasText lines.now }
    requires few_steps { length lines.now ≤ 2 ^ 20 }
    requires both { HasBothAxes axes.now }
    requires few { length axes.now ≤ most_passes }
    ensures { OnOk result (EditsTo tech.now axes.now numbers.now so_far.old.design lines.now so_far.new.text.items) }
{
    for i in 0..lines.len() {
        next_line(rt, alloc, gate, tech, axes, numbers, so_far, i, &lines[i])?;
    }
    Ok(())
}

// What is written of the lines of a script over a design, whose masters have these numbers, with its first pass.
fn edited_by<H: Threads + Sync, G: Gate>(
    rt: &H,
    alloc: Global,
    gate: &G,
    tech: &Tech,
    axes: &[Axis],
    numbers: &[u32],
    design: Design,
    first: Option<FirstPass>,
    lines: &[EditLine],
) -> Result<Vec<u8>, AllocError>
    requires writable { IsWritable design }
    requires few_names { names_in design ≤ 2 ^ 19 }
    requires few_lines { lines_in design ≤ 2 ^ 20 }
    requires first { IfSome first (IsFirstPass tech.now) }
    requires written { AllByRecursion HasText lines.now }
    requires few_steps { length lines.now ≤ 2 ^ 20 }
    requires both { HasBothAxes axes.now }
    requires few { length axes.now ≤ most_passes }
    ensures { IfOk result (λ text. EditsTo tech.now axes.now numbers.now design lines.now text.items) }
{
    let mut so_far = Stepped {
        design,
        text: Vec::new(alloc),
        first,
    };
    take_lines(rt, alloc, gate, tech, axes, numbers, &mut so_far, lines)?;
    Ok(so_far.text)
}

/// What is written of the lines of a script of edits over a design, whose masters are these: after each line, what
/// the design so far comes to. A line costs the passes after the first; the whole compaction where the design is
/// refused, or where no first pass is kept.
pub fn edit<H: Threads + Sync, G: Gate>(
    rt: &H,
    alloc: Global,
    gate: &G,
    tech: &Tech,
    axes: &[Axis],
    design: Design,
    start: Started,
    lines: &[EditLine],
) -> Result<Vec<u8>, AllocError>
    requires writable { IsWritable design }
    requires few_names { names_in design ≤ 2 ^ 19 }
    requires few_lines { lines_in design ≤ 2 ^ 20 }
    requires planned { ArePlanned tech.now start.plan start.masters.items }
    requires starts { start.starts.items ≡ starts_of tech.now start.masters.items }
    requires clean { All (StartsClean tech.now) start.masters.items }
    requires written { AllByRecursion HasText lines.now }
    requires few_steps { length lines.now ≤ 2 ^ 20 }
    requires both { HasBothAxes axes.now }
    requires few { length axes.now ≤ most_passes }
    ensures { IfOk result (λ text. EditsTo tech.now axes.now start.plan.masters design lines.now text.items) }
{
    let numbers = Vec::from_slice(alloc, start.plan.masters.as_slice())?;
    let first = first_of(rt, alloc, gate, tech, start, axes)?;
    edited_by(rt, alloc, gate, tech, axes, &numbers, design, first, lines)
}
