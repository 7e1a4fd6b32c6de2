//! What the boxes of poly and diffusion overlap on the other's layer, found for all boxes of a group at once.
ghost use Rattle.std.specs.Prelude.{◌≡◌, ◌+◌, ◌<◌, ◌≤◌, All, IfOk, List, OnOk, length};
ghost use Rattle.lam_geom.specs.declared.boxes.{MaskBox.MaskBox, MaskLayer.TheVariants.{ND, NP}};
ghost use Rattle.crossing_model.specs.Boxes.{AreSearchable};
ghost use Rattle.crossings.specs.{declared.partner_lists.BoxPartners.BoxPartners, Pairs.{DoOverlap, HowMany}};
ghost use Rattle.crossings.specs.Entries.{AreBoxesOn, AreEntriesFacing, ArePartnersOf};
ghost use Rattle.crossings.specs.PartnerLists.{HaveOverlapped, IsFound, AreLayerTrees};

use crate::partners::Partners;
use box_tree::{BoxTree, Entry, Parts, Query, Question};
use lam_geom::{MaskBox, overlaps};
use lam_io::OpenGate;
use par_phase::{Range, map_split, ranges_in_shares};
use std::alloc::{AllocError, Global};
use std::thread::Threads;

// Where more boxes than this lie over those of a group, nothing is found of the boxes of that group.
const NEAR: usize = 64;

// How many boxes a box overlaps.
#[derive(Clone, Copy)]
struct BoxPartners {
    number: u32,
    partners: Partners,
}

// The tree of a layer as it stands, and that of the layer that crosses it.
#[derive(Clone, Copy)]
struct LayerTrees<'a> {
    own: Parts<'a>,
    facing: &'a BoxTree,
}

/// What each box of poly or diffusion overlaps on the other's layer, by one search for each of the lowest groups of the
/// two trees, in so many shares. Nothing is known of the boxes of a group over which many lie. The only refusal is want
/// of memory.
pub fn partner_lists<H: Threads + Sync>(
    rt: &H,
    alloc: Global,
    boxes: &[MaskBox],
    poly: &BoxTree,
    diffusion: &BoxTree,
    shares: u32,
) -> Result<Vec<Option<Partners>>, AllocError>
    requires searchable { AreSearchable boxes.now }
    requires poly { AreBoxesOn boxes.now NP poly.now }
    requires diffusion { AreBoxesOn boxes.now ND diffusion.now }
    requires shares { (1 ≤ shares) × (shares ≤ 64) }
    ensures { IfOk result (λ known. ArePartnersOf boxes.now known.items) }
{
    let lower = LayerTrees {
        own: diffusion.parts(),
        facing: poly,
    };
    let upper = LayerTrees {
        own: poly.parts(),
        facing: diffusion,
    };
    let groups = lower.own.groups.len() + upper.own.groups.len();
    let ranges = ranges_in_shares(alloc, groups as u32, shares)?;
    let look = |range: &Range| -> Result<Vec<BoxPartners>, AllocError>
        requires { AreSearchable boxes.now × AreLayerTrees boxes.now lower × AreLayerTrees boxes.now upper
            × (range.now.to ≤ length lower.own.groups.now + length upper.own.groups.now) }
        ensures { IfOk result (λ found. All (IsFound boxes.entry.now) found.items) }
    { found_in(alloc, boxes, &lower, &upper, range) };
    let lists = map_split(rt, alloc, &OpenGate, &ranges, shares, &look)?;
    let mut known = vec![in alloc; None; boxes.len()]?;
    for list in &lists {
        note(list, &mut known);
    }
    Ok(known)
}

// Notes what was found.
fn note(found: &[BoxPartners], known: &mut Vec<Option<Partners>>)
    requires { All (λ (own : BoxPartners). own.number < length known.old.items) found.now }
    ensures { (boxes : List MaskBox) → All (IsFound boxes) found.now → ArePartnersOf boxes known.old.items
        → ArePartnersOf boxes known.new.items }
{
    for own in found {
        known[own.number as usize] = Some(own.partners);
    }
}

// What is found of the boxes of a range of groups: those of the first layer, and after them those of the second.
fn found_in(
    alloc: Global,
    boxes: &[MaskBox],
    first: &LayerTrees,
    second: &LayerTrees,
    range: &Range,
) -> Result<Vec<BoxPartners>, AllocError>
    requires searchable { AreSearchable boxes.now }
    requires first { AreLayerTrees boxes.now first.now }
    requires second { AreLayerTrees boxes.now second.now }
    requires within { range.now.to ≤ length first.now.own.groups.now + length second.now.own.groups.now }
    ensures { IfOk result (λ found. All (IsFound boxes.now) found.items) }
{
    let mut found = Vec::new(alloc);
    let mut nearby = Vec::new(alloc);
    let firsts = first.own.groups.len();
    for at in range.from as usize..range.to as usize {
        if at < firsts {
            add_run(boxes, first, at, &mut nearby, &mut found)?;
        } else {
            add_run(boxes, second, at - firsts, &mut nearby, &mut found)?;
        }
    }
    Ok(found)
}

// Adds what is found of the boxes of a group, if it is one of the lowest and not too many lie over them. What was in
// `nearby` is replaced.
fn add_run(
    boxes: &[MaskBox],
    trees: &LayerTrees,
    at: usize,
    nearby: &mut Vec<u32>,
    found: &mut Vec<BoxPartners>,
) -> Result<(), AllocError>
    requires searchable { AreSearchable boxes.now }
    requires trees { AreLayerTrees boxes.now trees.now }
    requires among { at < length trees.now.own.groups.now }
    requires found { All (IsFound boxes.now) found.old.items }
    ensures { OnOk result (All (IsFound boxes.now) found.new.items) }
{
    let group = &trees.own.groups[at];
    if group.inside > 0 {
        return Ok(());
    }
    // No box has this number, so that all are found that overlap the group.
    let query = Query {
        area: group.outer,
        question: Question::NearOfOther {
            reach: -1,
            owner: boxes.len() as u32,
        },
    };
    if !trees.facing.few(&query, NEAR, nearby)? {
        return Ok(());
    }
    for place in group.start..group.start + group.count {
        let number = trees.own.entries[place as usize].owner;
        let partners = partners_among(boxes, trees.facing.entries(), number, nearby);
        found.push(BoxPartners { number, partners })?;
    }
    Ok(())
}

// How many boxes a box overlaps, out of those of some entries of the other's layer.
fn partners_among(boxes: &[MaskBox], entries: &[Entry], number: u32, nearby: &[u32]) -> Partners
    requires searchable { AreSearchable boxes.now }
    requires entries { AreEntriesFacing boxes.now number entries.now }
    requires nearby { HaveOverlapped boxes.now number entries.now nearby.now }
    ensures { HowMany (DoOverlap boxes.now number) result }
{
    let own = &boxes[number as usize].area;
    let mut partners = Partners::Nothing;
    for &near in nearby {
        let other = &entries[near as usize];
        if overlaps(own, &other.area) {
            match partners {
                Partners::Nothing => partners = Partners::One(other.owner),
                Partners::One(known) => {
                    if known != other.owner {
                        return Partners::Several;
                    }
                }
                Partners::Several => return Partners::Several,
            }
        }
    }
    partners
}
