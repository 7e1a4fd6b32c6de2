//! The first break of a rule, found in ranges of boxes that run beside each other.
ghost use Rattle.std.specs.Prelude.{◌≡◌, ◌≤◌, IfOk, length};
ghost use Rattle.rule_breaks.specs.Breaks.{ShapesHold};
ghost use Rattle.flat_check.specs.Ranges.{IsFirstIn, IsFirstUnlessBefore, first_some};
ghost use Rattle.flat_check.specs.{FlatLayouts.{IsOnNets, IsFlatLayout}, Trees.AreRuleTreesOf};

use crate::flat_layout::FlatLayout;
use crate::kept::is_kept;
use crate::partners::first_in;
use crate::trees::Trees;
use lam_io::Gate;
use par_phase::{Range, map_split, ranges_below};
use rule_breaks::{Break, Rule};
use std::alloc::{AllocError, Global};
use std::thread::Threads;

/// The first break of a rule, or None where it is kept, found in so many shares. The only refusal is
/// want of memory.
pub fn first_in_shares<H: Threads + Sync, G: Gate>(
    rt: &H,
    alloc: Global,
    gate: &G,
    flat: &FlatLayout,
    rule: Rule,
    trees: &Trees,
    shares: u32,
) -> Result<Option<Break>, AllocError>
    requires flat { IsFlatLayout flat.now }
    requires shapes { IsOnNets rule → ShapesHold flat.now.tech.now flat.now.boxes.now }
    requires trees { AreRuleTreesOf flat.now trees.now }
    requires shares { (1 ≤ shares) × (shares ≤ 64) }
    ensures { IfOk result (IsFirstIn flat.now.tech.now flat.now.boxes.now rule 0 (length flat.now.boxes.now)) }
{
    if is_kept(rt, alloc, flat, rule, trees, shares)? {
        return Ok(None);
    }
    let ranges = ranges_below(alloc, flat.boxes.len() as u32, shares)?;
    let find = |range: &Range| -> Result<Option<Break>, AllocError>
        requires { IsFlatLayout flat.now × (IsOnNets rule → ShapesHold flat.now.tech.now flat.now.boxes.now)
            × AreRuleTreesOf flat.now trees.now × (range.now.to ≤ length flat.now.boxes.now) }
        ensures { IfOk result
            (IsFirstUnlessBefore flat.entry.now.tech.now flat.entry.now.boxes.now rule range.entry.now.from
            range.entry.now.to) }
    { first_in(alloc, flat, rule, trees, range) };
    let found = map_split(rt, alloc, gate, &ranges, shares, &find)?;
    Ok(first_of_all(&found))
}

// The first break of those found one range after another. A range ends early only where one before it has a break.
fn first_of_all(found: &[Option<Break>]) -> Option<Break>
    ensures { result ≡ first_some found.now }
{
    for first in found {
        if first.is_some() {
            return *first;
        }
    }
    None
}
