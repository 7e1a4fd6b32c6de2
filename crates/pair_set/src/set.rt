//! The set.

ghost use Rattle.std.specs.Prelude.{◌≡◌, ◌≤◌, ◌⊎◌, ◌↔◌, ℕ, [], length, map, AllPairs, Contains, OnOk, IfErr};
ghost use Rattle.pair_set.specs.Sets.{pair_of, pairs_of, limit_of, IsBefore, RefusesPair};
ghost use Rattle.pair_set.specs.declared.set.SetFault.TheVariants.{OutOfMemory};

use std::alloc::{AllocError, AllocFailed, Global};
use thiserror::Error;

/// Why a set does not take a pair.
#[derive(Debug, Drop, Error)]
pub enum SetFault {
    /// There are more pairs than the limit.
    #[error("too many pairs")]
    TooMany,
    #[error("out of memory")]
    OutOfMemory,
}

impl From<AllocError> for SetFault {
    ghost from_gives = { λ _ fault. fault ≡ OutOfMemory };

    fn from(_error: AllocError) -> SetFault {
        SetFault::OutOfMemory
    }
}

impl<T: Drop> From<AllocFailed<T>> for SetFault {
    ghost from_gives = { λ _ fault. fault ≡ OutOfMemory };

    fn from(_failed: AllocFailed<T>) -> SetFault {
        SetFault::OutOfMemory
    }
}

/// A set of pairs of numbers, each as one number: so they are sorted in less time.
#[derive(Drop)]
pub struct PairSet {
    keys: Vec<u64>,
    limit: u32,
}

// A pair as one number: first numbers count before second ones.
fn key_of(pair: (u32, u32)) -> u64
    ensures { pair_of result ≡ pair }
{
    ((pair.0 as u64) << 32) | pair.1 as u64
}

/// The pair that a number stands for.
pub fn pair_of(key: u64) -> (u32, u32)
    ensures { result ≡ pair_of key }
{
    ((key >> 32) as u32, (key & 0xffff_ffff) as u32)
}

impl PairSet {
    /// A set with no pairs, for at most `limit`. It takes no memory.
    pub fn new(alloc: Global, limit: u32) -> PairSet
        ensures empty { pairs_of result ≡ [] }
        ensures limit { limit_of result ≡ limit }
    {
        PairSet {
            keys: Vec::new(alloc),
            limit,
        }
    }

    /// Adds a pair. After a refusal for too many pairs the set has more than its limit, each once.
    pub fn insert(&mut self, pair: (u32, u32)) -> Result<(), SetFault>
        requires few { length (pairs_of self.old) ≤ limit_of self.old }
        ensures few { OnOk result (length (pairs_of self.new) ≤ limit_of self.new) }
        ensures limit { limit_of self.new ≡ limit_of self.old }
        ensures there { OnOk result (Contains (pairs_of self.new) pair) }
        ensures kept { (p : ℕ × ℕ) → Contains (pairs_of self.old) p → Contains (pairs_of self.new) p }
        ensures others { (p : ℕ × ℕ) → Contains (pairs_of self.new) p → Contains (pairs_of self.old) p ⊎ (p ≡ pair) }
        ensures fault { IfErr result (RefusesPair self.new) }
    {
        self.keys.push(key_of(pair))?;
        if self.keys.len() > self.limit as usize {
            self.sort();
            if self.keys.len() > self.limit as usize {
                return Err(SetFault::TooMany);
            }
        }
        Ok(())
    }

    // Puts the pairs in order, each once.
    fn sort(&mut self)
        ensures in_order { AllPairs IsBefore (pairs_of self.new) }
        ensures same { (p : ℕ × ℕ) → Contains (pairs_of self.new) p ↔ Contains (pairs_of self.old) p }
        ensures few { length (pairs_of self.new) ≤ length (pairs_of self.old) }
        ensures limit { limit_of self.new ≡ limit_of self.old }
    {
        self.keys.sort_unstable();
        self.keys.dedup();
    }

    /// The pairs as numbers (`pair_of`), in order of their first numbers, and of their second ones, each once.
    pub fn into_sorted(mut self) -> Vec<u64>
        ensures in_order { AllPairs IsBefore (map pair_of result.items) }
        ensures same { (p : ℕ × ℕ) → Contains (map pair_of result.items) p ↔ Contains (pairs_of self) p }
        ensures few { length result.items ≤ length (pairs_of self) }
    {
        self.sort();
        self.keys
    }
}
