//! The tables of cells that use no other, which need no table before them, made in shares.
ghost use Rattle.std.specs.Prelude.{◌≡◌, ◌≤◌, ◌<◌, IfOk, MatchBool, MatchOption, None, length, slice_index_or};
ghost use Rattle.std.specs.{Prelude.slice_set, List.AllByRecursion};
ghost use Rattle.stick_text.specs.Writable.{IsCell};
ghost use Rattle.stick_cell.specs.Ready.{IsUse, HasNoUse, IsReady, IsReadyAt, AreReady};

use crate::reading::read_cell;
use checked_cells::Table;
use lam_io::OpenGate;
use par_phase::map_numbers;
use rule_table::Tech;
use std::alloc::{AllocError, Global};
use std::thread::Threads;
use stick_text::{CellText, Form, Line as TextLine, ParseFault as ResolveFault};

/// The table of a cell, or its fault, found before any other cell is read; whether its name is new is not tested yet.
/// None where the cell is still to be read.
pub type EarlyTable<'a> = Option<Result<Table<'a>, ResolveFault>>;

fn is_use(form: &Form) -> bool
    ensures { MatchBool result (IsUse form.now) (IsUse form.now → ⊥) }
{
    matches!(form, Form::Inst { .. })
}

// Whether none of the lines is a use.
fn has_no_use(lines: &[TextLine]) -> bool
    ensures { MatchBool result (HasNoUse lines.now) (HasNoUse lines.now → ⊥) }
{
    lines.iter().all(|line| !is_use(&line.form))
}

// The table of a cell, or its fault, if the cell uses no other.
fn ready_of<'a>(alloc: Global, tech: &Tech, text: &'a CellText) -> EarlyTable<'a>
    requires { IsCell text.now }
    ensures told { IsReady tech.now text.now result }
    ensures ready_exactly { MatchOption result (HasNoUse text.now.lines → ⊥) (λ _. HasNoUse text.now.lines) }
{
    if !has_no_use(text.lines.as_slice()) {
        return None;
    }
    Some(read_cell(alloc, tech, &[], text))
}

/// What is ready of each cell, found in so many shares. The only refusal is want of memory.
pub fn ready_cells<'a, H: Threads + Sync>(
    rt: &H,
    alloc: Global,
    tech: &Tech,
    texts: &'a [CellText],
    shares: u32,
) -> Result<Vec<EarlyTable<'a>>, AllocError>
    requires cells { AllByRecursion IsCell texts.now }
    requires few { length texts.now ≤ 256 }
    requires shares { (1 ≤ shares) × (shares ≤ 64) }
    ensures { IfOk result (λ ready. AreReady tech.now texts.now ready.items) }
{
    let find = |k: &u32| -> Result<EarlyTable, AllocError>
        requires { (k.now < length texts.now) × AllByRecursion IsCell texts.now }
        ensures { IfOk result (IsReadyAt tech.entry.now texts.entry.now k.entry.now) }
    { Ok(ready_of(alloc, tech, &texts[*k as usize])) };
    map_numbers(rt, alloc, &OpenGate, texts.len() as u32, shares, &find)
}

/// What is ready of cell number `k`, which is taken from the list; none where the list has no such place.
pub fn take_ready<'a>(ready: &mut [EarlyTable<'a>], k: usize) -> EarlyTable<'a>
    ensures value { result ≡ slice_index_or ready.old k None }
    ensures rest { ready.new ≡ slice_set ready.old k None }
{
    if k < ready.len() {
        ready[k].take()
    } else {
        None
    }
}
