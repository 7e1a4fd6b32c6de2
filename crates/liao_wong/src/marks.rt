ghost use Rattle.std.specs.Prelude.{◌≡◌, ℕ, ◌^◌, ◌<◌, ◌≤◌, true, false, length, slice_set, MatchOption, IfOk};
ghost use Rattle.liao_wong.specs.Marked.{AreUnmarked, IsNextMark, AreBlocksOf, is_marked};

use std::alloc::{AllocError, Global};
use std::marker::Model;

// How many numbers a block has.
const BLOCK: usize = 256;

// A set of numbers below a bound: a flag for each number, and one for each block of them. The block of a marked number
// is marked, so a search for the next one passes over the other blocks.
#[derive(Drop)]
pub struct Marks {
    flags: Vec<bool>,
    blocks: Vec<bool>,
}

impl Model for Marks {
    ghost use Rattle.std.specs.Prelude.{List, Bool};
    ghost use Rattle.liao_wong.specs.Marked.{AreBlocksOf};

    ghost Value = { List Bool };

    ghost view = { λ m. m.flags.items };

    ghost invariant = { λ m. AreBlocksOf m.blocks.items m.flags.items };
}

impl Marks {
    // The numbers below a bound, all of them marked or none.
    pub fn new(alloc: Global, bound: usize, marked: bool) -> Result<Marks, AllocError>
        requires { bound ≤ 2 ^ 32 }
        ensures len { IfOk result (λ m. length m ≡ bound) }
        ensures all { IfOk result (λ m. (n : ℕ) → n < bound → is_marked m n ≡ marked) }
    {
        let flags = vec![in alloc; marked; bound]?;
        let blocks = vec![in alloc; marked; bound / BLOCK + 1]?;
        Ok(Marks { flags, blocks })
    }

    // Whether a number is marked.
    pub fn has(&self, n: usize) -> bool
        requires { n < length self.now }
        ensures { result ≡ is_marked self.now n }
    {
        self.flags[n]
    }

    // Marks a number.
    pub fn set(&mut self, n: usize)
        requires { n < length self.old }
        ensures { self.new ≡ slice_set self.old n true }
    {
        self.flags[n] = true;
        self.blocks[n / BLOCK] = true;
    }

    // Takes the mark of a number away.
    pub fn clear(&mut self, n: usize)
        requires { n < length self.old }
        ensures { self.new ≡ slice_set self.old n false }
    {
        self.flags[n] = false;
    }

    // The least marked number from `start` on, if there is one.
    pub fn next(&mut self, start: usize) -> Option<usize>
        ensures same { self.new ≡ self.old }
        ensures next { MatchOption result (AreUnmarked self.old start (length self.old))
            (IsNextMark self.old start (length self.old)) }
    {
        next_marked(&self.flags, &mut self.blocks, start)
    }
}

// The least marked number from `start` on. A block that turns out to have none is no longer marked.
fn next_marked(flags: &[bool], blocks: &mut [bool], start: usize) -> Option<usize>
    requires { AreBlocksOf blocks.old flags.now }
    ensures blocks { AreBlocksOf blocks.new flags.now }
    ensures next { MatchOption result (AreUnmarked flags.now start (length flags.now))
        (IsNextMark flags.now start (length flags.now)) }
{
    let mut at = start;
    while at < flags.len() {
        let block = at / BLOCK;
        let end = (block * BLOCK + BLOCK).min(flags.len());
        if blocks[block] {
            if let Some(n) = first_marked(flags, at, end) {
                return Some(n);
            }
            if at == block * BLOCK {
                blocks[block] = false;
            }
        }
        at = end;
    }
    None
}

// The least marked number from `start` on and below `end`.
fn first_marked(flags: &[bool], start: usize, end: usize) -> Option<usize>
    requires { end ≤ length flags.now }
    ensures { MatchOption result (AreUnmarked flags.now start end) (IsNextMark flags.now start end) }
{
    for n in start..end {
        if flags[n] {
            return Some(n);
        }
    }
    None
}
