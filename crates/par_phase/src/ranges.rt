//! Numbers in ranges, one after another.

ghost use Rattle.std.specs.Prelude.{◌≡◌, ◌≤◌, IfOk, length};
ghost use Rattle.par_phase.specs.Ranges.{AreRanges};

use crate::blocks::block_start;
use crate::split::BLOCKS_PER_SHARE;
use std::alloc::{AllocError, Global};

/// Numbers, from one up to before another.
#[derive(Clone, Copy)]
pub struct Range {
    pub from: u32,
    pub to: u32,
}

/// The numbers below `len` in so many ranges, one after another, of which some may be empty. The only refusal is want
/// of memory.
pub fn ranges_below(alloc: Global, len: u32, count: u32) -> Result<Vec<Range>, AllocError>
    requires { 1 ≤ count }
    ensures ranges { IfOk result (λ ranges. AreRanges 0 ranges.items len) }
    ensures one_each { IfOk result (λ ranges. length ranges.items ≡ count) }
{
    let mut ranges = Vec::with_capacity(alloc, count as usize)?;
    for k in 0..count {
        let from = block_start(len as usize, count, k) as u32;
        let to = block_start(len as usize, count, k + 1) as u32;
        ranges.push(Range { from, to })?;
    }
    Ok(ranges)
}

/// The same in ranges that so many shares may take one after another: one range for one share, and else
/// `BLOCKS_PER_SHARE` for each.
pub fn ranges_in_shares(alloc: Global, len: u32, shares: u32) -> Result<Vec<Range>, AllocError>
    requires { (1 ≤ shares) × (shares ≤ 64) }
    ensures ranges { IfOk result (λ ranges. AreRanges 0 ranges.items len) }
    ensures some { IfOk result (λ ranges. 1 ≤ length ranges.items) }
{
    if shares == 1 {
        return ranges_below(alloc, len, 1);
    }
    ranges_below(alloc, len, BLOCKS_PER_SHARE * shares)
}
