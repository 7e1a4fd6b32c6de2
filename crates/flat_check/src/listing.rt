//! The first breaks of all rules.
ghost use Rattle.std.specs.Prelude.{◌+◌, ◌<◌, ◌≤◌, IfOk, MatchBool, Some, length};
ghost use Rattle.crossing_model.specs.Boxes.{AreSearchable};
ghost use Rattle.rule_breaks.specs.{Breaks.ShapesHold, Lists.{AreFirstBreaks, BeginsAfter, IsListed, ListBefore}};
ghost use Rattle.rule_breaks.specs.{Lists.{place, place_of}, Order.next_of};
ghost use Rattle.flat_check.specs.{Partners.ArePartners, FlatLayouts.{IsOnNets, IsFlatLayout}, Trees.AreRuleTreesOf};

use crate::flat_layout::FlatLayout;
use crate::kept::is_kept;
use crate::partners::partners;
use crate::trees::{Trees, known_trees};
use lam_geom::MaskBox;
use lam_list::Seq;
use rule_breaks::{Break, Breaks, Rule};
use rule_table::Tech;
use std::alloc::{AllocError, Global};
use std::thread::Threads;

/// The first breaks of the rules, at most so many, in order of rule, first box and second box; and whether there are
/// more. Nets are looked at only where no rule before those on nets is broken, and channels only where poly and
/// diffusion cross properly. In the time of `first_break`, and of what is listed: of a box that breaks a rule with
/// very many, all of these are gathered once. The only refusal is want of memory.
pub fn breaks<H: Threads + Sync>(
    rt: &H,
    alloc: Global,
    tech: &Tech,
    boxes: &[MaskBox],
    most: u32,
) -> Result<Breaks, AllocError>
    requires { AreSearchable boxes.now }
    ensures { IfOk result (λ found. AreFirstBreaks tech.now boxes.now most found.list found.more) }
{
    let known = known_trees(rt, alloc, tech, boxes, 1)?;
    list_all(rt, alloc, &known.flat, &known.trees, most)
}

// The first breaks of all rules, by trees.
fn list_all<H: Threads + Sync>(
    rt: &H,
    alloc: Global,
    flat: &FlatLayout,
    trees: &Trees,
    most: u32,
) -> Result<Breaks, AllocError>
    requires flat { IsFlatLayout flat.now }
    requires trees { AreRuleTreesOf flat.now trees.now }
    ensures { IfOk result (λ found. AreFirstBreaks flat.now.tech.now flat.now.boxes.now most found.list found.more) }
{
    let mut list = Vec::new(alloc);
    let mut next = Some(Rule::Width);
    while let Some(rule) = next {
        if is_looked_at(rule, list.as_slice())
            && list_rule(rt, alloc, flat, rule, trees, most, &mut list)?
        {
            let list = Seq::from_vec(list);
            return Ok(Breaks { list, more: true });
        }
        next = rule.next();
    }
    let list = Seq::from_vec(list);
    Ok(Breaks { list, more: false })
}

// Whether a rule is looked at after the breaks of those before it: one on nets only where none of rules 1 to 5 is
// broken.
fn is_looked_at(rule: Rule, list: &[Break]) -> bool
    ensures { MatchBool result
        (IsOnNets rule → BeginsAfter 5 list.now)
        (IsOnNets rule × (BeginsAfter 5 list.now → ⊥)) }
{
    match rule {
        Rule::MetalSpacing | Rule::PolySpacing | Rule::DiffusionSpacing => {
            list.is_empty() || list[0].rule > 5
        }
        _ => true,
    }
}

// Lists the breaks of a rule after those of the rules before it. Whether there are more than are to be listed.
fn list_rule<H: Threads + Sync>(
    rt: &H,
    alloc: Global,
    flat: &FlatLayout,
    rule: Rule,
    trees: &Trees,
    most: u32,
    list: &mut Vec<Break>,
) -> Result<bool, AllocError>
    requires flat { IsFlatLayout flat.now }
    requires shapes { IsOnNets rule → ShapesHold flat.now.tech.now flat.now.boxes.now }
    requires trees { AreRuleTreesOf flat.now trees.now }
    requires few { length list.old.items ≤ most }
    requires listed { ListBefore flat.now.tech.now flat.now.boxes.now (place_of (Some rule)) list.old.items }
    ensures { IfOk result
        (λ cut. IsListed flat.now.tech.now flat.now.boxes.now most (place_of (next_of rule)) cut list.new.items) }
{
    if is_kept(rt, alloc, flat, rule, trees, 1)? {
        return Ok(false);
    }
    let mut found = Vec::new(alloc);
    for a in 0..flat.boxes.len() as u32 {
        partners(alloc, flat, rule, trees, a, &mut found)?;
        if list_at(flat, rule, a, &found, most, list)? {
            return Ok(true);
        }
    }
    Ok(false)
}

// Lists the breaks of a rule with a first box, by all boxes with which it breaks the rule.
fn list_at(
    flat: &FlatLayout,
    rule: Rule,
    a: u32,
    found: &[u32],
    most: u32,
    list: &mut Vec<Break>,
) -> Result<bool, AllocError>
    requires partners { ArePartners flat.now.tech.now flat.now.boxes.now rule a found.now }
    requires few { length list.old.items ≤ most }
    requires listed { ListBefore flat.now.tech.now flat.now.boxes.now (place rule a 0) list.old.items }
    ensures { IfOk result
        (λ cut. IsListed flat.now.tech.now flat.now.boxes.now most (place rule (a + 1) 0) cut list.new.items) }
{
    for b in found {
        if *b < a {
            continue;
        }
        if list.len() == most as usize {
            return Ok(true);
        }
        list.push(Break {
            rule: rule.number(),
            a,
            b: *b,
        })?;
    }
    Ok(false)
}
