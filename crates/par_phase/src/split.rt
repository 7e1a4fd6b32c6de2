//! What a function answers at each element of a list, found block by block.

ghost use Rattle.std.specs.Prelude.{◌≡◌, ◌+◌, ◌<◌, ◌≤◌, length, All, IfOk, None};
ghost use Rattle.std.specs.List.{range_with_len};
ghost use Rattle.par_phase.specs.Answers.{AcceptsBelow, AcceptsEach, AnswersBelow, AnswersEach, ArePutTogether};
ghost use Rattle.par_phase.specs.Blocks.{block_of};
ghost use Rattle.par_phase.specs.Taken.{ArePlaced, IsTaken};

use crate::blocks::block_of;
use lam_io::Gate;
use std::alloc::{AllocError, Global};
use std::sync::atomic::{AtomicU32, Ordering};
use std::thread;
use std::thread::Threads;

/// How many blocks a list has for each share, if it has so many elements.
pub(crate) const BLOCKS_PER_SHARE: u32 = 32;

// A block, with the answers at its elements.
#[derive(Drop)]
struct Taken<U> {
    block: u32,
    answers: Vec<U>,
}

// What `f` answers at each of some elements, one after another.
fn map_in_turn<T, U: Drop, F: Fn(&T) -> Result<U, AllocError>>(
    alloc: Global,
    items: &[T],
    f: &F,
) -> Result<Vec<U>, AllocError>
    requires { AcceptsEach F.Fn f.now items.now }
    ensures { IfOk result (λ answers. AnswersEach F.Fn f.now items.now answers.items) }
{
    let mut answers = Vec::with_capacity(alloc, items.len())?;
    for item in items {
        answers.push(f(item)?)?;
    }
    Ok(answers)
}

// The blocks that one share takes, each the next one that no share has taken, until there is none.
fn take_blocks<T, U: Drop, F: Fn(&T) -> Result<U, AllocError>>(
    alloc: Global,
    items: &[T],
    blocks: u32,
    next: &AtomicU32,
    f: &F,
) -> Result<Vec<Taken<U>>, AllocError>
    requires { AcceptsEach F.Fn f.now items.now }
    ensures { IfOk result (λ taken. All (IsTaken F.Fn f.now items.now blocks) taken.items) }
{
    let mut taken = Vec::new(alloc);
    for _ in 0..blocks {
        let block = next.fetch_add(1, Ordering::Relaxed);
        if block >= blocks {
            break;
        }
        let answers = map_in_turn(alloc, block_of(items, blocks, block), f)?;
        taken.push(Taken { block, answers })?;
    }
    Ok(taken)
}

// What all shares have, one share after another, if each share has its own.
fn put_together<U: Drop>(
    alloc: Global,
    parts: Vec<Result<Vec<U>, AllocError>>,
) -> Result<Vec<U>, AllocError>
    ensures { IfOk result (λ all. ArePutTogether parts.items all.items) }
{
    let mut all = Vec::new(alloc);
    for part in parts {
        all.append(&mut part?)?;
    }
    Ok(all)
}

// A place for the answers of each block, where nothing stands yet.
fn empty_places<U: Drop>(alloc: Global, blocks: u32) -> Result<Vec<Option<Vec<U>>>, AllocError>
    ensures count { IfOk result (λ places. length places.items ≡ blocks) }
    ensures empty { IfOk result (λ places. All (λ place. place ≡ None) places.items) }
{
    let mut places = Vec::with_capacity(alloc, blocks as usize)?;
    for _ in 0..blocks {
        places.push(None)?;
    }
    Ok(places)
}

// The answers at all elements, in order, out of those of the blocks that were taken, in any order.
fn in_order<T, U: Drop, F: Fn(&T) -> Result<U, AllocError>>(
    alloc: Global,
    items: &[T],
    blocks: u32,
    taken: Vec<Taken<U>>,
    f: &F,
) -> Result<Vec<U>, AllocError>
    requires some { 1 ≤ blocks }
    requires accepts { AcceptsEach F.Fn f.now items.now }
    requires taken { All (IsTaken F.Fn f.now items.now blocks) taken.items }
    ensures { IfOk result (λ answers. AnswersEach F.Fn f.now items.now answers.items) }
{
    let mut places = empty_places(alloc, blocks)?;
    for one in taken {
        places[one.block as usize] = Some(one.answers);
    }
    join_places(alloc, items, places, f)
}

// The answers at all elements, block after block. A block in whose place nothing stands is answered now.
fn join_places<T, U: Drop, F: Fn(&T) -> Result<U, AllocError>>(
    alloc: Global,
    items: &[T],
    mut places: Vec<Option<Vec<U>>>,
    f: &F,
) -> Result<Vec<U>, AllocError>
    requires some { (1 ≤ length places.items) × (length places.items ≤ 4294967295) }
    requires accepts { AcceptsEach F.Fn f.now items.now }
    requires placed { ArePlaced F.Fn f.now items.now (length places.items) places.items }
    ensures { IfOk result (λ answers. AnswersEach F.Fn f.now items.now answers.items) }
{
    let blocks = places.len() as u32;
    let mut all = Vec::with_capacity(alloc, items.len())?;
    for block in 0..blocks {
        let mut answers = match places[block as usize].take() {
            Some(answers) => answers,
            None => map_in_turn(alloc, block_of(items, blocks, block), f)?,
        };
        all.append(&mut answers)?;
    }
    Ok(all)
}

/// What `f` answers at each element, in order, whatever the number of shares and whatever the gate. The shares run in
/// threads of their own where these can be made. Each passes the gate once before its first element, also where it
/// has none. The list is in `BLOCKS_PER_SHARE` blocks for each share, or as many as it has elements where these are
/// fewer, and each share takes one block after another, so that one with cheap elements takes more of them. The only
/// refusal is want of memory, here or in `f`.
pub fn map_split<
    H: Threads + Sync,
    T: Sync,
    U: Send + Drop,
    G: Gate,
    F: Fn(&T) -> Result<U, AllocError> + Sync,
>(rt: &H, alloc: Global, gate: &G, items: &[T], shares: u32, f: &F) -> Result<Vec<U>, AllocError>
    requires shares { (1 ≤ shares) × (shares ≤ 64) }
    requires accepts { AcceptsEach F.Fn f.now items.now }
    ensures answers { IfOk result (λ answers. AnswersEach F.Fn f.now items.now answers.items) }
    ensures one_each { IfOk result (λ answers. length answers.items ≡ length items.now) }
{
    if shares == 1 {
        gate.arrive(0);
        return map_in_turn(alloc, items, f);
    }
    let blocks = items.len().min((BLOCKS_PER_SHARE * shares) as usize).max(1) as u32;
    let next = AtomicU32::new(0);
    let part = |p: usize| -> Result<Vec<Taken<U>>, AllocError>
        requires { (p < 64) × AcceptsEach F.Fn f.now items.now }
        ensures { IfOk result (λ taken. All (IsTaken F.Fn f.entry.now items.entry.now blocks) taken.items) }
    {
        gate.arrive(p as u32);
        take_blocks(alloc, items, blocks, &next, f)
    };
    let parts = thread::map_indices(rt, alloc, shares as usize, &part)?;
    let taken = put_together(alloc, parts)?;
    in_order(alloc, items, blocks, taken, f)
}

// The numbers below a number.
fn numbers_below(alloc: Global, count: u32) -> Result<Vec<u32>, AllocError>
    ensures { IfOk result (λ numbers. numbers.items ≡ range_with_len 0 count) }
{
    (0..count).collect(alloc)
}

/// What `f` answers at each number below `count`, in order, found as `map_split` finds it. The only refusal is want of
/// memory, here or in `f`.
pub fn map_numbers<
    H: Threads + Sync,
    U: Send + Drop,
    G: Gate,
    F: Fn(&u32) -> Result<U, AllocError> + Sync,
>(rt: &H, alloc: Global, gate: &G, count: u32, shares: u32, f: &F) -> Result<Vec<U>, AllocError>
    requires shares { (1 ≤ shares) × (shares ≤ 64) }
    requires accepts { AcceptsBelow F.Fn f.now count }
    ensures answers { IfOk result (λ answers. AnswersBelow F.Fn f.now count answers.items) }
{
    let numbers = numbers_below(alloc, count)?;
    map_split(rt, alloc, gate, &numbers, shares, f)
}
