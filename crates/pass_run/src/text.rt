//! The texts of a report.

ghost use Rattle.std.specs.Prelude.{◌≡◌, ◌<◌, ◌≤◌, ◌^◌, ◌++◌, ◌∷◌, [], codes, length, decimal, slice_index, All, OnOk};
ghost use Rattle.std.specs.{Prelude.IfOk, Fmt.signed_decimal};
ghost use Rattle.cons_graph.specs.{SimpleWalks.{length_of, IsSimplePositiveCycle}, Solutions.value_of};
ghost use Rattle.pitch_join.specs.{Masters.master_at, Names.system_names, Joined.bases_of};
ghost use Rattle.pass_run.specs.{declared.step.Walk.Walk as SomeWalk, Report.{letter, pass_head, count_line}};
ghost use Rattle.pass_run.specs.Report.{size_line, walk_at, size_at, master_text, pass_text, cycle_text};

use crate::edges::Listed;
use crate::step::Step;
use cell_model::Cell;
use cons_graph::Graph;
use expand::Master;
use lam_geom::Axis;
use round_log::{cycle_lines, walk_lines};
use std::alloc::{AllocError, Global};
use stick_lex::{push_decimal, push_signed_decimal};

// Adds a word and the number that comes after it.
fn push_count(text: &mut Vec<u8>, word: &[u8], count: u32) -> Result<(), AllocError>
    ensures { OnOk result (text.new.items ≡ text.old.items ++ (word.now ++ decimal count)) }
{
    text.extend_from_slice(word)?;
    push_decimal(text, u64::from(count))
}

// Adds a word and the length that comes after it, in u.
fn push_len(text: &mut Vec<u8>, word: &[u8], len: i64) -> Result<(), AllocError>
    ensures { OnOk result (text.new.items ≡ text.old.items ++ (word.now ++ signed_decimal len)) }
{
    text.extend_from_slice(word)?;
    push_signed_decimal(text, len)
}

// The letter of an axis.
fn letter(axis: Axis) -> u8
    ensures { letter axis ≡ result ∷ [] }
{
    match axis {
        Axis::X => b'x',
        Axis::Y => b'y',
    }
}

// Adds what each line of a pass begins with: its number and its axis.
fn push_head(text: &mut Vec<u8>, pass: u32, axis: Axis) -> Result<(), AllocError>
    ensures { OnOk result (text.new.items ≡ text.old.items ++ pass_head pass axis) }
{
    push_count(text, b"pass ", pass)?;
    text.push(b' ')?;
    text.push(letter(axis))?;
    Ok(())
}

// Adds the numbers of a pass, to the end of their line.
fn push_counts(text: &mut Vec<u8>, edges: u32, backward: u32, rounds: u32) -> Result<(), AllocError>
    ensures { OnOk result (text.new.items ≡ text.old.items ++ count_line edges backward rounds) }
{
    push_count(text, b" edges ", edges)?;
    push_count(text, b" backward ", backward)?;
    push_count(text, b" rounds ", rounds)?;
    text.push(b'\n')?;
    Ok(())
}

// A value after a pass, in u.
fn value(step: &Step, var: u32) -> i64
    ensures { result ≡ value_of step.now.x var }
{
    match step.x.as_slice().get(var as usize) {
        Some(value) => *value,
        None => 0,
    }
}

// The number of kept pairs of master `m` in a pass.
fn kept(step: &Step, m: u32) -> u32
    ensures { result ≡ slice_index step.now.kept m }
{
    match step.kept.as_slice().get(m as usize) {
        Some(kept) => *kept,
        None => 0,
    }
}

// Adds the line of the size of a cell after a pass, which is the value of its far border, and of its number of kept
// pairs.
fn push_size(
    text: &mut Vec<u8>,
    cell: &Cell,
    step: &Step,
    far: u32,
    m: u32,
) -> Result<(), AllocError>
    ensures { OnOk result
        (text.new.items ≡ text.old.items ++ size_line cell.now (value_of step.now.x far)
        (slice_index step.now.kept m)) }
{
    text.extend_from_slice(b"cell ")?;
    text.extend_from_slice(cell.name.bytes())?;
    push_len(text, b" size ", value(step, far))?;
    push_count(text, b" kept ", kept(step, m))?;
    text.push(b'\n')?;
    Ok(())
}

// The inequalities of a pass' walk to the far border of master `m`.
fn walk_at(step: &Step, m: u32) -> &[u32]
    ensures { result.now ≡ (walk_at step.now m).edges }
{
    match step.walks.as_slice().get(m as usize) {
        Some(walk) => walk.edges.as_slice(),
        None => &[],
    }
}

// Adds the text of master `m` in a pass.
fn push_master(
    text: &mut Vec<u8>,
    alloc: Global,
    masters: &[Master],
    listed: &Listed,
    step: &Step,
    m: u32,
) -> Result<(), AllocError>
    requires among { m < length masters.now }
    requires bases { listed.now.base ≡ bases_of step.now.axis masters.now }
    requires names { listed.now.names ≡ system_names step.now.axis masters.now }
    requires named { length listed.now.names ≡ listed.now.graph.vars }
    requires walk { All (λ k. k < length listed.now.graph.edges) (walk_at step.now m).edges }
    ensures { OnOk result
        (text.new.items ≡ text.old.items ++ master_text masters.now listed.now.graph.edges step.now m) }
{
    let master = &masters[m as usize];
    let far = listed.base.as_slice()[m as usize];
    let lines = walk_lines(alloc, &listed.graph, &listed.names, walk_at(step, m))?;
    push_size(text, &master.cell, step, far, m)?;
    text.extend_from_slice(lines.bytes())?;
    Ok(())
}

/// The text of a pass with this number: its counts, and for each master its size and the lines of its critical path.
/// The only refusal is want of memory.
pub fn pass_text(
    alloc: Global,
    masters: &[Master],
    listed: &Listed,
    pass: u32,
    step: &Step,
) -> Result<Vec<u8>, AllocError>
    requires few { length masters.now < 2 ^ 32 }
    requires bases { listed.now.base ≡ bases_of step.now.axis masters.now }
    requires names { listed.now.names ≡ system_names step.now.axis masters.now }
    requires named { length listed.now.names ≡ listed.now.graph.vars }
    requires walks { All (λ (walk : SomeWalk). All (λ k. k < length listed.now.graph.edges) walk.edges) step.now.walks }
    ensures { IfOk result (λ text. text.items ≡ pass_text masters.now listed.now.graph.edges pass step.now) }
{
    let mut text = Vec::new(alloc);
    push_head(&mut text, pass, step.axis)?;
    push_counts(&mut text, step.edges, step.backward, step.rounds)?;
    for m in 0..masters.len() as u32 {
        push_master(&mut text, alloc, masters, listed, step, m)?;
    }
    Ok(text)
}

// Adds the length of a cycle, in u, to the end of its line.
fn push_cycle_len(text: &mut Vec<u8>, graph: &Graph, cycle: &[u32]) -> Result<(), AllocError>
    requires in_range { All (λ k. k < length graph.now.edges) cycle.now }
    requires few { length cycle.now ≤ 2 ^ 17 }
    ensures { OnOk result
        (text.new.items ≡ text.old.items
        ++ (codes " unsatisfiable length " ++ (signed_decimal (length_of graph.now.edges cycle.now) ++ codes "\n"))) }
{
    push_len(text, b" unsatisfiable length ", graph.walk_len(cycle))?;
    text.push(b'\n')?;
    Ok(())
}

/// The text of a positive cycle of a pass: its length in u, and the lines of its edges. The only refusal is want of
/// memory.
pub fn cycle_text(
    alloc: Global,
    listed: &Listed,
    pass: u32,
    axis: Axis,
    cycle: &[u32],
) -> Result<Vec<u8>, AllocError>
    requires named { length listed.now.names ≡ listed.now.graph.vars }
    requires passes { IsSimplePositiveCycle listed.now.graph.edges cycle.now }
    requires few { length cycle.now ≤ 2 ^ 17 }
    ensures { IfOk result
        (λ text. text.items ≡ cycle_text listed.now.names listed.now.graph.edges pass axis cycle.now) }
{
    let lines = cycle_lines(alloc, &listed.graph, &listed.names, cycle)?;
    let mut text = Vec::new(alloc);
    push_head(&mut text, pass, axis)?;
    push_cycle_len(&mut text, &listed.graph, cycle)?;
    text.extend_from_slice(lines.bytes())?;
    Ok(text)
}
