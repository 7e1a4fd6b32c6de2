//! Trees of the boxes on a layer, and what lies over an area.
ghost use Rattle.std.specs.Prelude.{◌≡◌, ◌↔◌, ℕ, ◌<◌, ◌≤◌, IfOk, IsTrue, List, MatchOption, length};
ghost use Rattle.lam_geom.specs.{Places.IsPlacedBox, declared.boxes.{MaskBox.MaskBox, MaskLayer.MaskLayer}};
ghost use Rattle.lam_geom.specs.declared.boxes.MaskLayer.TheVariants.{NB, ND, NI, NP};
ghost use Rattle.box_tree.specs.Queries.{IsMargin};
ghost use Rattle.crossing_model.specs.Boxes.{AreSearchable, IsCovered};
ghost use Rattle.crossings.specs.{Pairs.DoOverlap, Entries.{AreBoxesOn, AreEntriesFacing, AreTreesOf}};
ghost use Rattle.crossings.specs.Entries.{AreTwoTrees};

use crate::partner_lists::partner_lists;
use crate::partners::Partners;
use box_tree::{BoxTree, Entry, Query, Question};
use lam_geom::{BoxXY, MaskBox, MaskLayer};
use std::alloc::{AllocError, Global};
use std::thread::{Threads, join};

/// Trees of the boxes on the layers that make crossings, and what was found by them of each box.
#[derive(Drop)]
pub struct Trees {
    pub poly: BoxTree,
    pub diffusion: BoxTree,
    pub windows: BoxTree,
    pub implants: BoxTree,
    /// What is known of the boxes that each box overlaps: None where nothing is, so that the trees are asked.
    pub partners: Vec<Option<Partners>>,
}

/// The boxes on a layer as entries, in order of their numbers, which are their owners; their tags are 0. The only
/// refusal is want of memory.
pub fn entries_on(
    alloc: Global,
    boxes: &[MaskBox],
    layer: MaskLayer,
) -> Result<Vec<Entry>, AllocError>
    requires { AreSearchable boxes.now }
    ensures { IfOk result (λ entries. AreBoxesOn boxes.now layer entries.items) }
{
    let mut entries = Vec::new(alloc);
    for number in 0..boxes.len() {
        let own = boxes[number];
        if own.layer == layer {
            let owner = number as u32;
            entries.push(Entry {
                area: own.area,
                owner,
                tag: 0,
            })?;
        }
    }
    Ok(entries)
}

// A tree of the boxes on a layer. The only refusal is want of memory.
fn tree_on(alloc: Global, boxes: &[MaskBox], layer: MaskLayer) -> Result<BoxTree, AllocError>
    requires { AreSearchable boxes.now }
    ensures { IfOk result (AreBoxesOn boxes.now layer) }
{
    let entries = entries_on(alloc, boxes, layer)?;
    BoxTree::new(alloc, entries)
}

/// The trees of the search for crossings, with what is found of partners in so many shares, 1 to 64. The trees take some
/// 70 bytes a box, and the list of what is found some 10 more and twice that while it is made. Where there are several
/// shares, the trees of poly and windows are made by one thread, beside those of diffusion and implants. The only
/// refusal is want of memory.
pub fn trees_of<H: Threads + Sync>(
    rt: &H,
    alloc: Global,
    boxes: &[MaskBox],
    shares: u32,
) -> Result<Trees, AllocError>
    requires searchable { AreSearchable boxes.now }
    requires shares { (1 ≤ shares) × (shares ≤ 64) }
    ensures { IfOk result (AreTreesOf boxes.now) }
{
    let (poly_and_windows, diffusion_and_implants) = layer_trees(rt, alloc, boxes, shares);
    let (poly, windows) = poly_and_windows?;
    let (diffusion, implants) = diffusion_and_implants?;
    let partners = partner_lists(rt, alloc, boxes, &poly, &diffusion, shares)?;
    Ok(Trees {
        poly,
        diffusion,
        windows,
        implants,
        partners,
    })
}

// The trees of poly and of windows, and those of diffusion and of implants, made beside each other where there are
// several shares.
fn layer_trees<H: Threads + Sync>(
    rt: &H,
    alloc: Global,
    boxes: &[MaskBox],
    shares: u32,
) -> (
    Result<(BoxTree, BoxTree), AllocError>,
    Result<(BoxTree, BoxTree), AllocError>,
)
    requires { AreSearchable boxes.now }
    ensures poly_and_windows { IfOk result.0 (AreTwoTrees boxes.now NP NB) }
    ensures diffusion_and_implants { IfOk result.1 (AreTwoTrees boxes.now ND NI) }
{
    if shares == 1 {
        return (
            trees_on(alloc, boxes, MaskLayer::NP, MaskLayer::NB),
            trees_on(alloc, boxes, MaskLayer::ND, MaskLayer::NI),
        );
    }
    join(
        rt,
        || -> Result<(BoxTree, BoxTree), AllocError>
            requires { AreSearchable boxes.now }
            ensures { IfOk result (AreTwoTrees boxes.entry.now NP NB) }
        { trees_on(alloc, boxes, MaskLayer::NP, MaskLayer::NB) },
        || -> Result<(BoxTree, BoxTree), AllocError>
            requires { AreSearchable boxes.now }
            ensures { IfOk result (AreTwoTrees boxes.entry.now ND NI) }
        { trees_on(alloc, boxes, MaskLayer::ND, MaskLayer::NI) },
    )
}

// The trees of the boxes on two layers. The only refusal is want of memory.
fn trees_on(
    alloc: Global,
    boxes: &[MaskBox],
    first: MaskLayer,
    second: MaskLayer,
) -> Result<(BoxTree, BoxTree), AllocError>
    requires { AreSearchable boxes.now }
    ensures { IfOk result (AreTwoTrees boxes.now first second) }
{
    let trees = (
        tree_on(alloc, boxes, first)?,
        tree_on(alloc, boxes, second)?,
    );
    Ok(trees)
}

/// The tree of the layer that crosses a box's layer, or None where it overlaps none, since its layer is crossed by
/// none.
pub fn facing_tree<'a>(boxes: &[MaskBox], trees: &'a Trees, number: u32) -> Option<&'a BoxTree>
    requires trees { AreTreesOf boxes.now trees.now }
    requires among { number < length boxes.now }
    ensures { MatchOption result
        ((k : ℕ) → DoOverlap boxes.now number k → ⊥)
        (λ tree. AreEntriesFacing boxes.now number tree.now) }
{
    match boxes[number as usize].layer {
        MaskLayer::ND => Some(&trees.poly),
        MaskLayer::NP => Some(&trees.diffusion),
        _ => None,
    }
}

/// Whether a box of a layer, whose boxes the tree has, goes past an area by a margin on all sides.
pub fn is_covered(tree: &BoxTree, area: &BoxXY, margin: i64) -> bool
    requires area { IsPlacedBox area.now }
    requires margin { IsMargin margin }
    ensures { (boxes : List MaskBox) (layer : MaskLayer) → AreBoxesOn boxes layer tree.now
        → IsTrue result ↔ IsCovered boxes layer area.now margin }
{
    tree.any(&Query {
        area: *area,
        question: Question::Covers { margin },
    })
}
