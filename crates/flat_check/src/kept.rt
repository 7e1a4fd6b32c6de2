//! Whether it is plain that a rule is broken nowhere.
ghost use Rattle.std.specs.Prelude.{◌≤◌, IfOk, IsTrue};
ghost use Rattle.flat_check.specs.{Clear.AreClear, Partners.{net_question, question_of}, FlatLayouts.IsFlatLayout};
ghost use Rattle.flat_check.specs.Trees.{AreRuleTreesOf};
ghost use Rattle.rule_breaks.specs.Order.{IsKept};

use crate::facing::question;
use crate::flat_layout::FlatLayout;
use crate::lengths::reach;
use crate::pairs::are_clear;
use crate::trees::Trees;
use box_tree::{BoxTree, Question};
use rule_breaks::Rule;
use std::alloc::{AllocError, Global};
use std::thread::Threads;

/// Whether it is found out soon that a rule is broken nowhere, in so many shares. Where the answer is no, it may be
/// kept. The only refusal is want of memory.
pub fn is_kept<H: Threads + Sync>(
    rt: &H,
    alloc: Global,
    flat: &FlatLayout,
    rule: Rule,
    trees: &Trees,
    shares: u32,
) -> Result<bool, AllocError>
    requires flat { IsFlatLayout flat.now }
    requires trees { AreRuleTreesOf flat.now trees.now }
    requires shares { (1 ≤ shares) × (shares ≤ 64) }
    ensures { IfOk result (λ kept. IsTrue kept → IsKept flat.now.tech.now flat.now.boxes.now rule) }
{
    let (poly, channels) = (&trees.poly, &trees.channels);
    match rule {
        Rule::ProperCrossing => Ok(trees.proper),
        Rule::PolyToDiffusion => {
            is_clear(rt, alloc, flat, rule, poly, &trees.boxes.diffusion, shares)
        }
        Rule::MetalSpacing => are_nets_clear(rt, alloc, flat, rule, &trees.metal, shares),
        Rule::PolySpacing => are_nets_clear(rt, alloc, flat, rule, poly, shares),
        Rule::DiffusionSpacing => are_nets_clear(rt, alloc, flat, rule, &trees.pieces, shares),
        Rule::CutSpacing => is_clear(rt, alloc, flat, rule, &trees.cuts, &trees.cuts, shares),
        Rule::CutToChannel => is_clear(rt, alloc, flat, rule, &trees.cuts, channels, shares),
        Rule::ImplantToChannel => {
            is_clear(
                rt,
                alloc,
                flat,
                rule,
                &trees.boxes.implants,
                channels,
                shares,
            )
        }
        Rule::WindowToChannel => {
            is_clear(
                rt,
                alloc,
                flat,
                rule,
                &trees.boxes.windows,
                channels,
                shares,
            )
        }
        Rule::Width | Rule::CutSize | Rule::CutCover => Ok(false),
    }
}

// Whether it is found out soon that what a rule asks beside a box of one tree is answered by none of another.
fn is_clear<H: Threads + Sync>(
    rt: &H,
    alloc: Global,
    flat: &FlatLayout,
    rule: Rule,
    from: &BoxTree,
    to: &BoxTree,
    shares: u32,
) -> Result<bool, AllocError>
    requires { (1 ≤ shares) × (shares ≤ 64) }
    ensures { IfOk result (λ clear. IsTrue clear → AreClear (question_of flat.now.tech.now rule 0) from.now to.now) }
{
    let question = question(flat.tech, rule, 0);
    are_clear(
        rt,
        alloc,
        from,
        to,
        question,
        reach(flat.tech, rule),
        shares,
    )
}

// The same of pieces of different nets on a layer.
fn are_nets_clear<H: Threads + Sync>(
    rt: &H,
    alloc: Global,
    flat: &FlatLayout,
    rule: Rule,
    tree: &BoxTree,
    shares: u32,
) -> Result<bool, AllocError>
    requires { (1 ≤ shares) × (shares ≤ 64) }
    ensures { IfOk result (λ clear. IsTrue clear → AreClear (net_question flat.now.tech.now rule) tree.now tree.now) }
{
    let reach = reach(flat.tech, rule);
    let question = Question::NearOfOtherTag {
        reach,
        owner: 0,
        tag: 0,
    };
    are_clear(rt, alloc, tree, tree, question, reach, shares)
}
