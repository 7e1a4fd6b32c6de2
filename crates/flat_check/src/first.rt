//! The first break of all rules.
ghost use Rattle.std.specs.Prelude.{◌≤◌, IfOk, MatchOption};
ghost use Rattle.crossing_model.specs.Boxes.{AreSearchable};
ghost use Rattle.rule_breaks.specs.Breaks.{IsFirstBreak, KeepRules};
ghost use Rattle.flat_check.specs.{FlatLayouts.IsFlatLayout, Trees.AreRuleTreesOf};

use crate::flat_layout::FlatLayout;
use crate::ranges::first_in_shares;
use crate::trees::{Trees, known_trees};
use lam_geom::MaskBox;
use lam_io::Gate;
use rule_breaks::{Break, Rule};
use rule_table::Tech;
use std::alloc::{AllocError, Global};
use std::thread::Threads;

/// The first break of the rules: the least rule that is broken, then the least first box, then the least second; or
/// None where the boxes keep all rules; whatever the number of shares and whatever the gate. In so many shares, which
/// run in threads of their own where these can be made, trees of pieces are made, and lists of what touches and of
/// what lies over cuts, it is found how many boxes each overlaps, and rules are asked of pairs of trees. Under a rule
/// that is not found to be kept so, each share has a range of boxes, and passes the gate once. The only refusal is
/// want of memory.
pub fn first_break<H: Threads + Sync, G: Gate>(
    rt: &H,
    alloc: Global,
    gate: &G,
    tech: &Tech,
    boxes: &[MaskBox],
    shares: u32,
) -> Result<Option<Break>, AllocError>
    requires searchable { AreSearchable boxes.now }
    requires shares { (1 ≤ shares) × (shares ≤ 64) }
    ensures { IfOk result (λ first.
        MatchOption first (KeepRules tech.now boxes.now) (IsFirstBreak tech.now boxes.now)) }
{
    let known = known_trees(rt, alloc, tech, boxes, shares)?;
    first_by_trees(rt, alloc, gate, &known.flat, &known.trees, shares)
}

// The first break of all rules, by trees, in so many shares.
fn first_by_trees<H: Threads + Sync, G: Gate>(
    rt: &H,
    alloc: Global,
    gate: &G,
    flat: &FlatLayout,
    trees: &Trees,
    shares: u32,
) -> Result<Option<Break>, AllocError>
    requires flat { IsFlatLayout flat.now }
    requires trees { AreRuleTreesOf flat.now trees.now }
    requires shares { (1 ≤ shares) × (shares ≤ 64) }
    ensures { IfOk result (λ first.
        MatchOption first (KeepRules flat.now.tech.now flat.now.boxes.now)
        (IsFirstBreak flat.now.tech.now flat.now.boxes.now)) }
{
    let mut next = Some(Rule::Width);
    while let Some(rule) = next {
        if let Some(first) = first_in_shares(rt, alloc, gate, flat, rule, trees, shares)? {
            return Ok(Some(first));
        }
        next = rule.next();
    }
    Ok(None)
}
