//! With which boxes a box breaks a rule on pairs: a row for each rule, asked of trees.
ghost use Rattle.std.specs.Prelude.{◌≡◌, ◌<◌, IsTrue, OnOk, length};
ghost use Rattle.box_tree.specs.{Found.AreGathered, Queries.{IsQuery, IsQuestion}};
ghost use Rattle.crossing_model.specs.Crossings.{AreProper};
ghost use Rattle.rule_breaks.specs.{Breaks.{ArePiecesTooNear, ShapesHold}, Reaches.spacing_of_rule};
ghost use Rattle.flat_check.specs.{FlatLayouts.{IsOnNets, IsFlatLayout}, Trees.{ArePiecesOn, AreRuleTreesOf}};
ghost use Rattle.flat_check.specs.Partners.{BreakTogether, HasNearPiece, IsBesideBox, IsBesideChannel, IsOwner};
ghost use Rattle.flat_check.specs.Partners.{WithOther, channel_question_of, question_of};

use crate::channels::channel_at;
use crate::covers::is_uncovered;
use crate::flat_layout::FlatLayout;
use crate::lengths::{extension, reach};
use crate::nearness::numbered;
use crate::singles::{is_narrow, is_odd_cut};
use crate::trees::{Trees, entry_of_piece};
use box_tree::{BoxTree, Query, Question};
use crossings::add_improper;
use lam_geom::MaskLayer;
use rule_breaks::Rule;
use rule_table::Tech;
use std::alloc::{AllocError, Global};

/// Adds the boxes with which a box breaks a rule, those with a lesser number too; where it breaks a rule on single
/// boxes, itself. In no order, and one with two pieces perhaps twice. The only refusal is want of memory, which is
/// taken only where there are some.
pub fn add_partners(
    alloc: Global,
    flat: &FlatLayout,
    rule: Rule,
    trees: &Trees,
    a: u32,
    found: &mut Vec<u32>,
) -> Result<(), AllocError>
    requires flat { IsFlatLayout flat.now }
    requires shapes { IsOnNets rule → ShapesHold flat.now.tech.now flat.now.boxes.now }
    requires trees { AreRuleTreesOf flat.now trees.now }
    requires among { a < length flat.now.boxes.now }
    ensures { OnOk result
        (AreGathered (BreakTogether flat.now.tech.now flat.now.boxes.now rule a) found.old.items found.new.items) }
{
    match rule {
        Rule::Width => add_itself(is_narrow(flat.tech, flat.boxes, a), a, found),
        Rule::CutSize => add_itself(is_odd_cut(flat.tech, flat.boxes, a), a, found),
        Rule::ProperCrossing => add_improper(flat.tech, flat.boxes, &trees.boxes, a, found),
        Rule::CutCover => add_itself(is_uncovered(flat, trees, a), a, found),
        Rule::PolyToDiffusion => {
            add_beside_box(
                alloc,
                flat,
                rule,
                MaskLayer::NP,
                &trees.boxes.diffusion,
                a,
                found,
            )?;
            add_beside_box(alloc, flat, rule, MaskLayer::ND, &trees.poly, a, found)
        }
        Rule::MetalSpacing => {
            add_near_nets(alloc, flat, rule, MaskLayer::NM, &trees.metal, a, found)
        }
        Rule::PolySpacing => {
            add_near_nets(alloc, flat, rule, MaskLayer::NP, &trees.poly, a, found)
        }
        Rule::DiffusionSpacing => add_near_nets(
            alloc,
            flat,
            rule,
            MaskLayer::ND,
            &trees.pieces,
            a,
            found,
        ),
        Rule::CutSpacing => {
            add_beside_box(alloc, flat, rule, MaskLayer::NC, &trees.cuts, a, found)
        }
        Rule::CutToChannel => {
            add_beside_box(alloc, flat, rule, MaskLayer::NC, &trees.channels, a, found)?;
            add_beside_channel(alloc, flat, rule, &trees.cuts, a, found)
        }
        Rule::ImplantToChannel => {
            add_beside_box(alloc, flat, rule, MaskLayer::NI, &trees.channels, a, found)?;
            add_beside_channel(alloc, flat, rule, &trees.boxes.implants, a, found)
        }
        Rule::WindowToChannel => {
            if !flat.tech.has_buried() {
                return Ok(());
            }
            add_beside_box(alloc, flat, rule, MaskLayer::NB, &trees.channels, a, found)?;
            add_beside_channel(alloc, flat, rule, &trees.boxes.windows, a, found)
        }
    }
}

// Adds a box that breaks a rule by itself.
fn add_itself(broken: bool, a: u32, found: &mut Vec<u32>) -> Result<(), AllocError>
    ensures { OnOk result (AreGathered (λ b. IsTrue broken × (b ≡ a)) found.old.items found.new.items) }
{
    if broken {
        found.push(a)?;
    }
    Ok(())
}

// Adds the owners of the entries that hold a query, an owner once for each of its entries.
fn add_owners(
    alloc: Global,
    tree: &BoxTree,
    query: &Query,
    found: &mut Vec<u32>,
) -> Result<(), AllocError>
    requires { IsQuery query.now }
    ensures { OnOk result (AreGathered (IsOwner tree.now query.now) found.old.items found.new.items) }
{
    let mut places = Vec::new(alloc);
    tree.all(query, &mut places)?;
    let entries = tree.entries();
    for place in places.as_slice() {
        found.push(entries[*place as usize].owner)?;
    }
    Ok(())
}

// Of a box on a layer, the owners of the entries that answer a rule's question beside it.
fn add_beside_box(
    alloc: Global,
    flat: &FlatLayout,
    rule: Rule,
    layer: MaskLayer,
    tree: &BoxTree,
    a: u32,
    found: &mut Vec<u32>,
) -> Result<(), AllocError>
    requires flat { IsFlatLayout flat.now }
    requires among { a < length flat.now.boxes.now }
    ensures { OnOk result (AreGathered
        (IsBesideBox flat.now.boxes.now layer (question_of flat.now.tech.now rule a) tree.now a)
        found.old.items found.new.items) }
{
    let own = numbered(flat.boxes, a);
    if own.layer != layer {
        return Ok(());
    }
    let question = question(flat.tech, rule, a);
    let area = own.area;
    add_owners(alloc, tree, &Query { area, question }, found)
}

/// What a rule asks of the boxes and channels beside a box.
pub fn question(tech: &Tech, rule: Rule, a: u32) -> Question
    ensures value { result ≡ question_of tech.now rule a }
    ensures asked { IsQuestion result }
{
    let reach = reach(tech, rule);
    match rule {
        Rule::PolyToDiffusion => Question::NearApart { reach },
        Rule::ImplantToChannel => Question::NearOutside {
            reach,
            margin: extension(tech),
        },
        _ => Question::NearOfOther { reach, owner: a },
    }
}

// Of a box with a channel, the owners of the entries that answer a rule's question beside this.
fn add_beside_channel(
    alloc: Global,
    flat: &FlatLayout,
    rule: Rule,
    tree: &BoxTree,
    a: u32,
    found: &mut Vec<u32>,
) -> Result<(), AllocError>
    requires flat { IsFlatLayout flat.now }
    requires among { a < length flat.now.boxes.now }
    ensures { OnOk result (AreGathered
        (IsBesideChannel flat.now.tech.now flat.now.boxes.now
        (channel_question_of flat.now.tech.now rule a) tree.now a) found.old.items found.new.items) }
{
    let Some(area) = channel_at(flat, a) else {
        return Ok(());
    };
    let question = channel_question(flat.tech, rule, a);
    add_owners(alloc, tree, &Query { area, question }, found)
}

// What a rule asks of the boxes beside a channel.
fn channel_question(tech: &Tech, rule: Rule, a: u32) -> Question
    ensures value { result ≡ channel_question_of tech.now rule a }
    ensures asked { IsQuestion result }
{
    let reach = reach(tech, rule);
    match rule {
        Rule::ImplantToChannel => Question::NearShort {
            reach,
            margin: extension(tech),
        },
        _ => Question::NearOfOther { reach, owner: a },
    }
}

// Of a box on a layer, those with a piece of another net that lies too near one of its own.
fn add_near_nets(
    alloc: Global,
    flat: &FlatLayout,
    rule: Rule,
    layer: MaskLayer,
    tree: &BoxTree,
    a: u32,
    found: &mut Vec<u32>,
) -> Result<(), AllocError>
    requires flat { IsFlatLayout flat.now }
    requires proper { AreProper flat.now.tech.now flat.now.boxes.now }
    requires pieces { ArePiecesOn flat.now layer tree.now }
    requires among { a < length flat.now.boxes.now }
    ensures { OnOk result (AreGathered
        (WithOther
        (ArePiecesTooNear flat.now.tech.now flat.now.boxes.now layer (spacing_of_rule flat.now.tech.now rule)) a)
        found.old.items found.new.items) }
{
    if numbered(flat.boxes, a).layer != layer {
        return Ok(());
    }
    let starts = flat.pieces.starts.as_slice();
    let first = starts[a as usize];
    let end = starts[a as usize + 1];
    for i in first..end {
        add_near_pieces(alloc, flat, rule, layer, tree, i, found)?;
    }
    Ok(())
}

// The other boxes with a piece of another net that lies too near piece number i.
fn add_near_pieces(
    alloc: Global,
    flat: &FlatLayout,
    rule: Rule,
    layer: MaskLayer,
    tree: &BoxTree,
    i: u32,
    found: &mut Vec<u32>,
) -> Result<(), AllocError>
    requires flat { IsFlatLayout flat.now }
    requires pieces { ArePiecesOn flat.now layer tree.now }
    requires among { i < length flat.now.nets.items }
    ensures { OnOk result
        (AreGathered (HasNearPiece flat.now layer (spacing_of_rule flat.now.tech.now rule) i) found.old.items
        found.new.items) }
{
    let entry = entry_of_piece(flat, i);
    let query = Query {
        area: entry.area,
        question: Question::NearOfOtherTag {
            reach: reach(flat.tech, rule),
            owner: entry.owner,
            tag: entry.tag,
        },
    };
    add_owners(alloc, tree, &query, found)
}
