//! The compaction of a design that is made from a number, and the line on it.

ghost use Rattle.std.specs.{Prelude.{◌≡◌, ◌≤◌, ◌++◌, All, length, IsOk, OnOk, IfOk, IfErr}, Fmt.signed_decimal};
ghost use Rattle.lam_geom.specs.declared.boxes.Axis.TheVariants.{X, Y};
ghost use Rattle.rule_table.specs.Technology.{widest_of};
ghost use Rattle.sym_items.specs.Layouts.{size_in};
ghost use Rattle.stick_text.specs.Writable.{IsWritable};
ghost use Rattle.checked_cells.specs.Grids.{resolved_cells};
ghost use Rattle.plan_model.specs.Plan.{grids_of};
ghost use Rattle.pitch_join.specs.Masters.{ArePlanned, master_at};
ghost use Rattle.mask_out.specs.Pictures.{HaveBoxes, IsDrawable};
ghost use Rattle.instance_laws.specs.{Rules.AreFinished, Sticks.IsSticksNetlist};
ghost use Rattle.net_model.specs.declared.netlist.Netlist.{Netlist as SomeNetlist};
ghost use Rattle.master_counts.specs.Parts.{boxes_of_instances, AllStand, HasFewParts, HasPlainName};
ghost use Rattle.design_gen.specs.Made.{made};
ghost use Rattle.design_masters.specs.Limits.{most_boxes};
ghost use Rattle.bench_command.specs.Bench.{IsBenched, IsLaidLine, IsShipped, RefusesBench, bench_line, head_words};
ghost use Rattle.bench_command.specs.Bench.{kept_in, kept_words, net_words, size_words, tally_of, x_then_y};
ghost use Rattle.design_layouts.specs.Designs.{RefusesMasters};
ghost use Rattle.command_files.specs.{declared.status.Status.TheVariants.OutOfMemory, Refusals.Refused};

use command_files::Refusal;
use design_gen::make;
use design_layouts::{lay_out, masters_of};
use design_nets::stick_netlist;
use expand::Master;
use extents::{height, width};
use fault_lines::push_count;
use lam_geom::Axis;
use lam_io::Gate;
use made_designs::{made_designs_have_no_fault, made_designs_stay_small};
use net_model::Netlist;
use pass_run::{Passes, Step};
use plan_model::Plan;
use rule_table::Tech;
use std::alloc::{AllocError, Global};
use std::thread::Threads;
use stick_lex::push_signed_decimal;
use stick_text::Design;

/// What is told of a design with one cell that is laid out by two passes.
#[derive(Clone, Copy)]
pub struct Tally {
    /// The number of items of the cell.
    pub items: usize,
    /// The number of its kept pairs in the first pass, which is on x.
    pub kept_x: u32,
    /// The number of its kept pairs in the second pass, which is on y.
    pub kept_y: u32,
    /// The width of the cell, in u.
    pub width: i64,
    /// The height of the cell, in u.
    pub height: i64,
    /// The number of nets of the sticks.
    pub nets: u32,
    /// The number of transistors of the sticks.
    pub devices: usize,
}

// The kept pairs of the first master in a pass, counted from 0.
fn kept_in(steps: &[Step], pass: usize) -> u32
    ensures { result ≡ kept_in steps.now pass }
{
    match steps.get(pass) {
        Some(step) => match step.kept.as_slice().first() {
            Some(kept) => *kept,
            None => 0,
        },
        None => 0,
    }
}

fn items_in(masters: &[Master]) -> usize
    ensures { result ≡ length (master_at masters.now 0).items.list }
{
    match masters.first() {
        Some(master) => master.items.list.as_slice().len(),
        None => 0,
    }
}

fn tally_of(masters: &[Master], passes: &Passes, list: &Netlist) -> Tally
    ensures { result ≡ tally_of masters.now passes.now.steps passes.now.coords list.now }
{
    let (steps, layouts) = (passes.steps.as_slice(), passes.coords.as_slice());
    Tally {
        items: items_in(masters),
        kept_x: kept_in(steps, 0),
        kept_y: kept_in(steps, 1),
        width: width(layouts, 0),
        height: height(layouts, 0),
        nets: list.nets,
        devices: list.devices.as_slice().len(),
    }
}

// Adds words and the length after them.
fn push_length(out: &mut Vec<u8>, words: &[u8], length: i64) -> Result<(), AllocError>
    ensures { OnOk result (out.new.items ≡ out.old.items ++ (words.now ++ signed_decimal length)) }
{
    out.extend_from_slice(words)?;
    push_signed_decimal(out, length)
}

fn push_head(out: &mut Vec<u8>, n: u32, tally: Tally) -> Result<(), AllocError>
    ensures { OnOk result (out.new.items ≡ out.old.items ++ head_words n tally) }
{
    push_count(out, b"bench ", n as usize)?;
    push_count(out, b" items ", tally.items)
}

fn push_kept(out: &mut Vec<u8>, tally: Tally) -> Result<(), AllocError>
    ensures { OnOk result (out.new.items ≡ out.old.items ++ kept_words tally) }
{
    push_count(out, b" kept ", tally.kept_x as usize)?;
    push_count(out, b" ", tally.kept_y as usize)
}

fn push_size(out: &mut Vec<u8>, tally: Tally) -> Result<(), AllocError>
    ensures { OnOk result (out.new.items ≡ out.old.items ++ size_words tally) }
{
    push_length(out, b" size ", tally.width)?;
    push_length(out, b" ", tally.height)
}

fn push_nets(out: &mut Vec<u8>, tally: Tally) -> Result<(), AllocError>
    ensures { OnOk result (out.new.items ≡ out.old.items ++ net_words tally) }
{
    push_count(out, b" nets ", tally.nets as usize)?;
    push_count(out, b" devices ", tally.devices)
}

// The line on the design that is made from `n`.
fn bench_line(alloc: Global, n: u32, tally: Tally) -> Result<Vec<u8>, AllocError>
    ensures { IfOk result (λ line. line.items ≡ bench_line n tally) }
{
    let mut out = Vec::new(alloc);
    push_head(&mut out, n, tally)?;
    push_kept(&mut out, tally)?;
    push_size(&mut out, tally)?;
    push_nets(&mut out, tally)?;
    out.push(b'\n')?;
    Ok(out)
}

// The line on masters in the layouts that passes leave. The only refusal is want of memory.
fn line_on(
    alloc: Global,
    n: u32,
    tech: &Tech,
    plan: &Plan,
    masters: &[Master],
    passes: &Passes,
) -> Result<Vec<u8>, Refusal>
    requires planned { ArePlanned tech.now plan.now masters.now }
    requires counted { length passes.now.coords ≡ length masters.now }
    requires boxes { HaveBoxes passes.now.coords masters.now }
    requires finished { AreFinished tech.now plan.now masters.now passes.now.coords }
    requires drawable { IsDrawable (size_in X passes.now.coords) (size_in Y passes.now.coords) (widest_of tech.now)
        (grids_of plan.now) }
    requires few_boxes { boxes_of_instances plan.now masters.now ≤ most_boxes }
    ensures line { IfOk result (λ line. (list : SomeNetlist)
        × IsSticksNetlist tech.now plan.now masters.now passes.now.coords list
        × (line.items ≡ bench_line n (tally_of masters.now passes.now.steps passes.now.coords list))) }
    ensures refused { IfErr result (λ r. r.status ≡ OutOfMemory) }
{
    let layouts = passes.coords.as_slice();
    let list = stick_netlist(alloc, tech, plan, masters, layouts)?;
    Ok(bench_line(alloc, n, tally_of(masters, passes, &list))?)
}

// The line on masters, laid out by a pass on each axis.
fn laid_line<H: Threads + Sync, G: Gate>(
    rt: &H,
    alloc: Global,
    gate: &G,
    n: u32,
    tech: &Tech,
    plan: &Plan,
    masters: &[Master],
) -> Result<Vec<u8>, Refusal>
    requires planned { ArePlanned tech.now plan.now masters.now }
    requires named { All HasPlainName masters.now }
    requires stand { AllStand plan.now masters.now }
    requires few_parts { HasFewParts plan.now masters.now }
    requires few_boxes { boxes_of_instances plan.now masters.now ≤ most_boxes }
    ensures line { IfOk result (λ line. IsLaidLine n tech.now plan.now masters.now line.items) }
    ensures refused { IfErr result (Refused (RefusesMasters tech.now plan.now masters.now x_then_y)) }
{
    let passes = lay_out(
        rt,
        alloc,
        gate,
        tech,
        plan,
        masters,
        &[Axis::X, Axis::Y],
        1,
        false,
    )?;
    line_on(alloc, n, tech, plan, masters, &passes)
}

// The line on a design that is made from `n`, under the technology that the program ships with.
fn made_line<H: Threads + Sync, G: Gate>(
    rt: &H,
    alloc: Global,
    gate: &G,
    n: u32,
    tech: &Tech,
    design: &Design,
) -> Result<Vec<u8>, Refusal>
    requires few { n ≤ 64 }
    requires is_made { design.now ≡ made n }
    requires writable { IsWritable design.now }
    requires shipped { IsShipped tech.now }
    requires checked { IsOk (resolved_cells tech.now (made n)) }
    ensures line { IfOk result (λ line. IsBenched n line.items) }
    ensures refused { IfErr result (Refused (RefusesBench n)) }
{
    let made = masters_of(rt, alloc, gate, tech, design, 1)?;
    let (plan, masters) = (&made.plan, made.masters.as_slice());
    made_designs_stay_small(n, tech, plan, masters);
    laid_line(rt, alloc, gate, n, tech, plan, masters)
}

/// The line on the design that is made from `n`, laid out by a pass on each axis under the technology that the
/// program ships with. Its extent is never too large: inequalities of a pass are too short and too few for that.
pub fn bench<H: Threads + Sync, G: Gate>(
    rt: &H,
    alloc: Global,
    gate: &G,
    n: u32,
) -> Result<Vec<u8>, Refusal>
    requires some { 1 ≤ n }
    requires few { n ≤ 64 }
    ensures line { IfOk result (λ line. IsBenched n line.items) }
    ensures refused { IfErr result (Refused (RefusesBench n)) }
{
    let tech = Tech::shipped();
    let design = make(alloc, n)?;
    made_designs_have_no_fault(n);
    made_line(rt, alloc, gate, n, &tech, &design)
}
