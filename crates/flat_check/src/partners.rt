//! The boxes with which a box breaks a rule, and the first break in a range of boxes.
ghost use Rattle.std.specs.Prelude.{◌≡◌, ◌↔◌, ◌<◌, ◌≤◌, All, Contains, IfOk, IfSome, IsNone, OnOk, [], length};
ghost use Rattle.rule_breaks.specs.Breaks.{ShapesHold};
ghost use Rattle.flat_check.specs.{Partners.ArePartners, Ranges.IsFirstUnlessBefore, FlatLayouts.IsOnNets};
ghost use Rattle.flat_check.specs.{FlatLayouts.IsFlatLayout, Trees.AreRuleTreesOf};

use crate::facing::add_partners;
use crate::flat_layout::FlatLayout;
use crate::trees::Trees;
use par_phase::Range;
use rule_breaks::{Break, Rule};
use std::alloc::{AllocError, Global};

/// The boxes with which a box breaks a rule, in order, each once, in place of what was in `found`. The only refusal
/// is want of memory.
pub fn partners(
    alloc: Global,
    flat: &FlatLayout,
    rule: Rule,
    trees: &Trees,
    a: u32,
    found: &mut Vec<u32>,
) -> Result<(), AllocError>
    requires flat { IsFlatLayout flat.now }
    requires shapes { IsOnNets rule → ShapesHold flat.now.tech.now flat.now.boxes.now }
    requires trees { AreRuleTreesOf flat.now trees.now }
    requires among { a < length flat.now.boxes.now }
    ensures { OnOk result (ArePartners flat.now.tech.now flat.now.boxes.now rule a found.new.items) }
{
    found.clear();
    add_partners(alloc, flat, rule, trees, a, found)?;
    if found.len() < 2 {
        return Ok(());
    }
    found.sort_unstable();
    found.dedup();
    Ok(())
}

/// The first break of a rule at a first box in a range, unless the rule is broken before the range. Reads a box's
/// neighbours in a tree alone, up to the first box that breaks the rule with another: where the least of these stands
/// before it, it stands before the range, and the search ends. The only refusal is want of memory.
pub fn first_in(
    alloc: Global,
    flat: &FlatLayout,
    rule: Rule,
    trees: &Trees,
    range: &Range,
) -> Result<Option<Break>, AllocError>
    requires flat { IsFlatLayout flat.now }
    requires shapes { IsOnNets rule → ShapesHold flat.now.tech.now flat.now.boxes.now }
    requires trees { AreRuleTreesOf flat.now trees.now }
    requires within { range.now.to ≤ length flat.now.boxes.now }
    ensures { IfOk result (IsFirstUnlessBefore flat.now.tech.now flat.now.boxes.now rule range.now.from range.now.to) }
{
    let mut found = Vec::new(alloc);
    for a in range.from..range.to {
        add_partners(alloc, flat, rule, trees, a, &mut found)?;
        if let Some(b) = least(&found) {
            if b < a {
                return Ok(None);
            }
            return Ok(Some(Break {
                rule: rule.number(),
                a,
                b,
            }));
        }
    }
    Ok(None)
}

// The least of some numbers.
fn least(numbers: &[u32]) -> Option<u32>
    ensures none { IsNone result ↔ (numbers.now ≡ []) }
    ensures least { IfSome result (λ b. All (λ c. b ≤ c) numbers.now × Contains numbers.now b) }
{
    if numbers.is_empty() {
        return None;
    }
    numbers.iter().copied().min()
}
