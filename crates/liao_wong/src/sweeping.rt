ghost use Rattle.std.specs.Prelude.{◌≡◌, ◌<◌, length, All, IfOk};
ghost use Rattle.round_log.{specs.{Kept.{KeepsChains, kept_part}, Logs.raises_of}, proofs.Entries.array_of};
ghost use Rattle.liao_wong.specs.{Held.AreArraysOf, Sweeping.{keeps_of, AreEntriesOf, AreNewNumbers, AreRenumbered}};

use round_log::Entry;
use std::alloc::{AllocError, Global};

// Which entries the chains of the latest ones reach.
pub fn reached(alloc: Global, entries: &[Entry], last: &[u64]) -> Result<Vec<bool>, AllocError>
    requires { AreArraysOf (length last.now) entries.now last.now (raises_of entries.now) }
    ensures one_each { IfOk result (λ keeps. length keeps.items ≡ length entries.now) }
    ensures chains { IfOk result (λ keeps. KeepsChains (keeps_of keeps.items) (raises_of entries.now)) }
{
    let mut keeps = vec![in alloc; false; entries.len()]?;
    keeps[0] = true;
    for latest in last {
        keeps[*latest as usize] = true;
    }
    let mut n = entries.len() - 1;
    while n > 0 {
        if keeps[n] {
            keeps[entries[n].prev as usize] = true;
        }
        n -= 1;
    }
    Ok(keeps)
}

// The new number of each entry: how many are kept up to it, without the origin's.
pub fn new_numbers(alloc: Global, keeps: &[bool]) -> Result<Vec<u64>, AllocError>
    ensures { IfOk result (λ numbers. AreNewNumbers keeps.now numbers.items) }
{
    let mut numbers = vec![in alloc; 0u64; keeps.len()]?;
    for n in 1..keeps.len() {
        let before = numbers[n - 1];
        numbers[n] = if keeps[n] { before + 1 } else { before };
    }
    Ok(numbers)
}

// Moves the entries that are kept to the front, under their new numbers, and drops the others.
pub fn keep_entries(entries: &mut Vec<Entry>, keeps: &[bool], numbers: &[u64])
    requires entries { AreEntriesOf entries.old.items }
    requires one_each { length keeps.now ≡ length entries.old.items }
    requires numbers { AreNewNumbers keeps.now numbers.now }
    ensures { entries.new.items ≡ array_of (kept_part (keeps_of keeps.now) (raises_of entries.old.items)) }
{
    let mut kept = 1;
    for n in 1..entries.len() {
        if keeps[n] {
            let mut entry = entries[n];
            entry.prev = numbers[entry.prev as usize];
            entries[kept] = entry;
            kept += 1;
        }
    }
    entries.truncate(kept);
}

// The new numbers in the place of the old ones.
pub fn renumbered(alloc: Global, old: &[u64], numbers: &[u64]) -> Result<Vec<u64>, AllocError>
    requires { All (λ n. n < length numbers.now) old.now }
    ensures { IfOk result (λ new. AreRenumbered numbers.now old.now new.items) }
{
    let mut new = Vec::new(alloc);
    for number in old {
        new.push(numbers[*number as usize])?;
    }
    Ok(new)
}
