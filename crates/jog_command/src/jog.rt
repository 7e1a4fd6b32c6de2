//! Jogs: a script bends wires of a design, and each bend is kept where it makes its cell narrower and no cell wider.

ghost use Rattle.std.specs.Prelude.{◌≡◌, ℕ, ℤ, ◌<◌, ◌≤◌, ◌==◌, ◌<ℤ◌, ◌^◌, ◌↔◌, ◌++◌, List, Ok, length, map, position};
ghost use Rattle.std.specs.{Prelude.{OnOk, IfOk, IfErr, IfSome, IfNone, IsTrue}, List.range_with_len};
ghost use Rattle.cons_graph.specs.Solutions.{value_of};
ghost use Rattle.lam_geom.specs.declared.boxes.Axis.TheVariants.{X};
ghost use Rattle.sym_items.specs.Layouts.{size_in};
ghost use Rattle.design_sizes.specs.Sizes.{lines_in, names_in};
ghost use Rattle.stick_text.specs.Writable.{IsWritable};
ghost use Rattle.checked_cells.specs.{Grids.resolved_cells, Tables.{IsResolved, known_of}};
ghost use Rattle.command_files.specs.{Limits.most_passes, Refusals.{Refused, plain}, Outputs.text_of};
ghost use Rattle.command_files.specs.declared.status.Status.TheVariants.{OutOfMemory};
ghost use Rattle.design_layouts.specs.Designs.{HasBothAxes, RefusesDesign};
ghost use Rattle.jog_command.specs.Jogs.{Accepts, IsKept, IsLaidOutAs, IsNoWider, IsRejected, IsNextJog};
ghost use Rattle.jog_command.specs.Jogs.{NamesMaster, JogsTo, accepted_line, jog_head, rejected_line};

use checked_cells::Cells;
use command_files::{Output, Refusal, has_short_text, in_one_chunk};
use design_layouts::{LaidOut, layout_of};
use design_sizes::lines_are_in_the_text;
use extents::width;
use fault_lines::push_count;
use jog_insert::insert;
use jog_lines::JogLine;
use lam_geom::Axis;
use lam_io::Gate;
use rule_table::Tech;
use std::alloc::{AllocError, AllocFailed, Global};
use std::thread::Threads;
use stick_cell::resolve;
use stick_lex::push_signed_decimal;
use stick_print::print;
use stick_text::Design;
use sym_items::Coords;

/// What a design is laid out as: the cells that are its masters, by number, and the width of each, in u.
#[derive(Drop)]
pub struct Sizes {
    pub numbers: Vec<u32>,
    pub widths: Vec<i64>,
}

/// A jog that is accepted: the new design, what it is laid out as, and the jog's master.
#[derive(Drop)]
pub struct Accepted {
    pub design: Design,
    pub sizes: Sizes,
    pub master: usize,
}

/// The jogs so far: the design that they have made, what it is laid out as, and what they report.
#[derive(Drop)]
pub struct Bent {
    pub design: Design,
    pub sizes: Sizes,
    pub report: Vec<u8>,
}

// The width of each master.
fn widths(alloc: Global, layouts: &[Coords], count: usize) -> Result<Vec<i64>, AllocError>
    requires { count < 2 ^ 32 }
    ensures { IfOk result (λ widths. widths.items ≡ map (size_in X layouts.now) (range_with_len 0 count)) }
{
    let mut widths = Vec::with_capacity(alloc, count)?;
    for m in 0..count {
        widths.push(width(layouts, m as u32))?;
    }
    Ok(widths)
}

// The masters of a design that is laid out, by number, and their widths.
fn sizes_in(alloc: Global, laid: &LaidOut) -> Result<Sizes, Refusal>
    requires { length laid.now.masters.items < 2 ^ 32 }
    ensures numbers { IfOk result (λ sizes. sizes.numbers.items ≡ laid.now.plan.masters) }
    ensures widths { IfOk result (λ sizes.
        sizes.widths.items
        ≡ map (size_in X laid.now.passes.coords) (range_with_len 0 (length laid.now.masters.items))) }
    ensures wanted { IfErr result (λ r. r ≡ plain OutOfMemory) }
{
    let numbers = Vec::from_slice(alloc, laid.plan.masters.as_slice())?;
    let widths = widths(alloc, laid.passes.coords.as_slice(), laid.masters.len())?;
    Ok(Sizes { numbers, widths })
}

/// What a design is laid out as by passes on these axes.
pub fn sizes_of<H: Threads + Sync, G: Gate>(
    rt: &H,
    alloc: Global,
    gate: &G,
    tech: &Tech,
    design: &Design,
    axes: &[Axis],
) -> Result<Sizes, Refusal>
    requires writable { IsWritable design.now }
    requires few_names { names_in design.now ≤ 2 ^ 19 }
    requires both { HasBothAxes axes.now }
    requires few { length axes.now ≤ most_passes }
    ensures laid_out { IfOk result
        (λ sizes. IsLaidOutAs tech.now axes.now design.now sizes.numbers.items sizes.widths.items) }
    ensures refused { IfErr result (Refused (RefusesDesign tech.now axes.now design.now)) }
{
    let laid = layout_of(rt, alloc, gate, tech, design, axes, 1, false)?;
    sizes_in(alloc, &laid)
}

// The width with a number, where there is one.
fn at(widths: &[i64], m: usize) -> i64
    ensures { result ≡ value_of widths.now m }
{
    match widths.get(m) {
        Some(width) => *width,
        None => 0,
    }
}

// Whether a master is narrower than it was.
fn is_narrower(widths: &[i64], after: &[i64], master: usize) -> bool
    ensures { IsTrue result ↔ (value_of after.now master <ℤ value_of widths.now master) }
{
    at(after, master) < at(widths, master)
}

// Whether no master is wider than it was.
fn is_no_wider(widths: &[i64], after: &[i64]) -> bool
    ensures { IsTrue result ↔ IsNoWider widths.now after.now }
{
    for m in 0..after.len().max(widths.len()) {
        if at(widths, m) < at(after, m) {
            return false;
        }
    }
    true
}

// Whether a master is narrower than it was, and none is wider.
fn is_better(widths: &[i64], after: &[i64], master: usize) -> bool
    ensures { IsTrue result ↔ ((value_of after.now master <ℤ value_of widths.now master)
        × IsNoWider widths.now after.now) }
{
    is_narrower(widths, after, master) && is_no_wider(widths, after)
}

// The new design of a jog, where it is kept: its text is not too long, it is laid out, and it makes the jog's master
// narrower and none wider.
fn judged<H: Threads + Sync, G: Gate>(
    rt: &H,
    alloc: Global,
    gate: &G,
    tech: &Tech,
    axes: &[Axis],
    before: &[i64],
    master: usize,
    design: Design,
) -> Result<Option<Accepted>, AllocError>
    requires writable { IsWritable design }
    requires few_names { names_in design ≤ 2 ^ 19 }
    requires both { HasBothAxes axes.now }
    requires few { length axes.now ≤ most_passes }
    ensures few_lines { IfOk result (λ o. IfSome o (λ a. lines_in a.design ≤ 2 ^ 20)) }
    ensures kept { IfOk result
        (λ o. IfSome o (λ a. (a.design ≡ design) × (a.master ≡ master)
        × IsKept tech.now axes.now before.now master design a.sizes.numbers.items a.sizes.widths.items)) }
    ensures dropped { IfOk result
        (λ o. IfNone o ((numbers : List ℕ) (after : List ℤ)
        → IsKept tech.now axes.now before.now master design numbers after → ⊥)) }
{
    if !has_short_text(alloc, &design)? {
        return Ok(None);
    }
    lines_are_in_the_text(&design);
    match sizes_of(rt, alloc, gate, tech, &design, axes) {
        Ok(sizes) => {
            if is_better(before, &sizes.widths, master) {
                Ok(Some(Accepted {
                    design,
                    sizes,
                    master,
                }))
            } else {
                Ok(None)
            }
        }
        Err(refusal) => {
            if refusal.wants_memory() {
                Err(AllocError)
            } else {
                Ok(None)
            }
        }
    }
}

// Which master a cell is, if it is one.
fn master_of(numbers: &[u32], cell: u32) -> Option<usize>
    ensures { result ≡ position (λ n. n == cell) numbers.now }
{
    numbers.iter().position(|n| *n == cell)
}

// The jog of a line in a design that is laid out so and has these cells, if it is accepted. Memory is wanted only
// where the line names a master.
fn tried_in<H: Threads + Sync, G: Gate>(
    rt: &H,
    alloc: Global,
    gate: &G,
    tech: &Tech,
    axes: &[Axis],
    design: &Design,
    cells: &Cells,
    sizes: &Sizes,
    line: &JogLine,
) -> Result<Option<Accepted>, AllocError>
    requires writable { IsWritable design.now }
    requires few_names { names_in design.now ≤ 2 ^ 19 }
    requires few_lines { lines_in design.now ≤ 2 ^ 20 }
    requires laid_out { IsLaidOutAs tech.now axes.now design.now sizes.now.numbers.items sizes.now.widths.items }
    requires both { HasBothAxes axes.now }
    requires few { length axes.now ≤ most_passes }
    requires cells { resolved_cells tech.now design.now ≡ Ok (known_of cells.now) }
    requires resolved { IsResolved cells.now }
    requires of { cells.now.design.now ≡ design.now }
    ensures accepted { IfOk result
        (λ o. IfSome o
        (λ a. Accepts tech.now axes.now design.now sizes.now.numbers.items sizes.now.widths.items line.now a.master
        a.design a.sizes.numbers.items a.sizes.widths.items)) }
    ensures writable { IfOk result (λ o. IfSome o (λ a. IsWritable a.design)) }
    ensures few_names { IfOk result (λ o. IfSome o (λ a. names_in a.design ≤ 2 ^ 19)) }
    ensures few_lines { IfOk result (λ o. IfSome o (λ a. lines_in a.design ≤ 2 ^ 20)) }
    ensures rejected { IfOk result
        (λ o. IfNone o
        (IsRejected tech.now axes.now design.now sizes.now.numbers.items sizes.now.widths.items line.now)) }
    ensures wanted { IfErr result (λ _. NamesMaster (known_of cells.now) sizes.now.numbers.items line.now) }
{
    let Some(cell) = cells.find(line.cell.bytes()) else {
        return Ok(None);
    };
    let Some(master) = master_of(&sizes.numbers, cell) else {
        return Ok(None);
    };
    match insert(
        alloc,
        design,
        cells,
        &sizes.numbers,
        cell,
        line.k,
        line.r,
        line.left,
    )? {
        Some(new) => judged(rt, alloc, gate, tech, axes, &sizes.widths, master, new),
        None => Ok(None),
    }
}

// The jog of a line in a design that is laid out so, if it is accepted.
fn tried<H: Threads + Sync, G: Gate>(
    rt: &H,
    alloc: Global,
    gate: &G,
    tech: &Tech,
    axes: &[Axis],
    design: &Design,
    sizes: &Sizes,
    line: &JogLine,
) -> Result<Option<Accepted>, AllocError>
    requires writable { IsWritable design.now }
    requires few_names { names_in design.now ≤ 2 ^ 19 }
    requires few_lines { lines_in design.now ≤ 2 ^ 20 }
    requires laid_out { IsLaidOutAs tech.now axes.now design.now sizes.now.numbers.items sizes.now.widths.items }
    requires both { HasBothAxes axes.now }
    requires few { length axes.now ≤ most_passes }
    ensures accepted { IfOk result
        (λ o. IfSome o
        (λ a. Accepts tech.now axes.now design.now sizes.now.numbers.items sizes.now.widths.items line.now a.master
        a.design a.sizes.numbers.items a.sizes.widths.items)) }
    ensures writable { IfOk result (λ o. IfSome o (λ a. IsWritable a.design)) }
    ensures few_names { IfOk result (λ o. IfSome o (λ a. names_in a.design ≤ 2 ^ 19)) }
    ensures few_lines { IfOk result (λ o. IfSome o (λ a. lines_in a.design ≤ 2 ^ 20)) }
    ensures rejected { IfOk result
        (λ o. IfNone o
        (IsRejected tech.now axes.now design.now sizes.now.numbers.items sizes.now.widths.items line.now)) }
{
    let Ok(cells) = resolve(alloc, design, tech) else {
        return Err(AllocError);
    };
    tried_in(rt, alloc, gate, tech, axes, design, &cells, sizes, line)
}

fn push_head(out: &mut Vec<u8>, i: usize, line: &JogLine) -> Result<(), AllocError>
    ensures { OnOk result (out.new.items ≡ out.old.items ++ jog_head i line.now) }
{
    push_count(out, b"jog ", i)?;
    out.push(b' ')?;
    out.extend_from_slice(line.cell.bytes())
}

fn push_accepted(
    out: &mut Vec<u8>,
    i: usize,
    line: &JogLine,
    before: i64,
    after: i64,
) -> Result<(), AllocError>
    ensures { OnOk result (out.new.items ≡ out.old.items ++ accepted_line i line.now before after) }
{
    push_head(out, i, line)?;
    out.extend_from_slice(b" accepted ")?;
    push_signed_decimal(out, before)?;
    out.extend_from_slice(b" -> ")?;
    push_signed_decimal(out, after)?;
    out.push(b'\n')?;
    Ok(())
}

fn push_rejected(out: &mut Vec<u8>, i: usize, line: &JogLine) -> Result<(), AllocError>
    ensures { OnOk result (out.new.items ≡ out.old.items ++ rejected_line i line.now) }
{
    push_head(out, i, line)?;
    out.extend_from_slice(b" rejected\n")
}

// The jogs so far and one more, which has this number.
fn with_jog(
    so_far: Bent,
    i: usize,
    line: &JogLine,
    accepted: Option<Accepted>,
) -> Result<Bent, AllocError>
    ensures accepted { IfOk result (λ next. IfSome accepted (λ a. (next.design ≡ a.design) × (next.sizes ≡ a.sizes)
        × (next.report.items ≡ so_far.report.items ++ accepted_line i line.now
        (value_of so_far.sizes.widths.items a.master) (value_of a.sizes.widths.items a.master)))) }
    ensures rejected { IfOk result (λ next. IfNone accepted ((next.design ≡ so_far.design) × (next.sizes ≡ so_far.sizes)
        × (next.report.items ≡ so_far.report.items ++ rejected_line i line.now))) }
{
    let Bent {
        design,
        sizes,
        mut report,
    } = so_far;
    match accepted {
        Some(next) => {
            let before = at(&sizes.widths, next.master);
            let after = at(&next.sizes.widths, next.master);
            push_accepted(&mut report, i, line, before, after)?;
            Ok(Bent {
                design: next.design,
                sizes: next.sizes,
                report,
            })
        }
        None => {
            push_rejected(&mut report, i, line)?;
            Ok(Bent {
                design,
                sizes,
                report,
            })
        }
    }
}

// Tries one more jog, which has this number.
fn next_line<H: Threads + Sync, G: Gate>(
    rt: &H,
    alloc: Global,
    gate: &G,
    tech: &Tech,
    axes: &[Axis],
    so_far: Bent,
    i: usize,
    line: &JogLine,
) -> Result<Bent, AllocError>
    requires writable { IsWritable so_far.design }
    requires few_names { names_in so_far.design ≤ 2 ^ 19 }
    requires few_lines { lines_in so_far.design ≤ 2 ^ 20 }
    requires laid_out { IsLaidOutAs tech.now axes.now so_far.design so_far.sizes.numbers.items
        so_far.sizes.widths.items }
    requires both { HasBothAxes axes.now }
    requires few { length axes.now ≤ most_passes }
    ensures step { IfOk result (λ next. IsNextJog tech.now axes.now i line.now so_far next) }
    ensures writable { IfOk result (λ next. IsWritable next.design) }
    ensures few_names { IfOk result (λ next. names_in next.design ≤ 2 ^ 19) }
    ensures few_lines { IfOk result (λ next. lines_in next.design ≤ 2 ^ 20) }
    ensures laid_out { IfOk result
        (λ next. IsLaidOutAs tech.now axes.now next.design next.sizes.numbers.items next.sizes.widths.items) }
{
    let accepted = tried(
        rt,
        alloc,
        gate,
        tech,
        axes,
        &so_far.design,
        &so_far.sizes,
        line,
    )?;
    with_jog(so_far, i, line, accepted)
}

/// The design after the jogs of some lines, and a line on each, where `sizes` is what it is laid out as. Each jog is
/// tried in the design that the ones before it have made; its cost is that of a compaction.
pub fn jog<H: Threads + Sync, G: Gate>(
    rt: &H,
    alloc: Global,
    gate: &G,
    tech: &Tech,
    axes: &[Axis],
    design: Design,
    sizes: Sizes,
    lines: &[JogLine],
) -> Result<Output, AllocError>
    requires writable { IsWritable design }
    requires few_names { names_in design ≤ 2 ^ 19 }
    requires few_lines { lines_in design ≤ 2 ^ 20 }
    requires laid_out { IsLaidOutAs tech.now axes.now design sizes.numbers.items sizes.widths.items }
    requires both { HasBothAxes axes.now }
    requires few { length axes.now ≤ most_passes }
    ensures { IfOk result (λ output. JogsTo tech.now axes.now design lines.now (text_of output) output.report) }
{
    let mut so_far = Bent {
        design,
        sizes,
        report: Vec::new(alloc),
    };
    for i in 0..lines.len() {
        so_far = next_line(rt, alloc, gate, tech, axes, so_far, i, &lines[i])?;
    }
    let text = print(alloc, &so_far.design)?;
    in_one_chunk(alloc, text, &so_far.report)
}
