//! The trees by which it is found out fast whether a box breaks a rule.
ghost use Rattle.std.specs.Prelude.{◌≡◌, ◌<◌, ◌≤◌, IfOk, length, map};
ghost use Rattle.lam_geom.specs.{Places.IsPlacedBox, declared.boxes.MaskLayer.TheVariants.{ND, NP, NM, NC}};
ghost use Rattle.box_tree.specs.{Retagged.with_tag, UnvisitedTrees.{AreTagsWithin, AreTreeParts}};
ghost use Rattle.crossing_model.specs.Boxes.{AreSearchable};
ghost use Rattle.crossings.specs.Entries as crossing;
ghost use Rattle.net_extract.specs.CutLists.{ShowPieces};
ghost use Rattle.flat_check.specs.{FlatLayouts.IsFlatLayout, Trees.{AreChannels, ArePerhapsProper}};
ghost use Rattle.flat_check.specs.Trees.{AreRuleTreesOf, ArePiecesOn, piece_entry};

use crate::flat_layout::{Crossed, FlatLayout, metal_and_crossed};
use box_tree::{BoxTree, Entry, UnvisitedTree};
use crossings::Trees as CrossingTrees;
use lam_geom::MaskBox;
use net_extract::{PieceTrees, nets_of};
use rule_table::Tech;
use std::alloc::{AllocError, Global};
use std::thread::Threads;

/// The trees that the rules need, each built once: those by which crossings were found, of the boxes of diffusion, of
/// implants and of windows; of the pieces of metal, of poly and of diffusion, with their nets; of the cuts; and of the
/// channels. Boxes of metal and poly are pieces as a whole, so that their pieces stand for them.
#[derive(Drop)]
pub struct Trees {
    pub boxes: CrossingTrees,
    /// Whether poly and diffusion cross properly everywhere.
    pub proper: bool,
    pub metal: BoxTree,
    pub poly: BoxTree,
    pub pieces: BoxTree,
    pub cuts: BoxTree,
    pub channels: BoxTree,
}

/// Boxes with what is known of them, and the trees for all rules.
#[derive(Drop)]
pub struct Known<'a> {
    pub flat: FlatLayout<'a>,
    pub trees: Trees,
}

/// What is known of boxes before the rules are asked, found in so many shares. The only refusal is want of memory.
pub fn known_trees<'a, H: Threads + Sync>(
    rt: &H,
    alloc: Global,
    tech: &'a Tech,
    boxes: &'a [MaskBox],
    shares: u32,
) -> Result<Known<'a>, AllocError>
    requires searchable { AreSearchable boxes.now }
    requires shares { (1 ≤ shares) × (shares ≤ 64) }
    ensures tech { IfOk result (λ known. known.flat.tech.now ≡ tech.now) }
    ensures boxes { IfOk result (λ known. known.flat.boxes.now ≡ boxes.now) }
    ensures flat { IfOk result (λ known. IsFlatLayout known.flat) }
    ensures trees { IfOk result (λ known. AreRuleTreesOf known.flat known.trees) }
{
    let (metal, crossed) = metal_and_crossed(rt, alloc, tech, boxes, shares);
    let Crossed {
        trees,
        pieces,
        proper,
    } = crossed?;
    let windows = &trees.windows;
    let (nets, _, layers, cuts) = nets_of(
        rt, alloc, tech, boxes, windows, metal?, &pieces, shares,
    )?;
    let flat = FlatLayout {
        tech,
        boxes,
        pieces,
        nets,
    };
    let trees = trees_of(alloc, &flat, trees, layers, cuts, proper)?;
    Ok(Known { flat, trees })
}

/// The trees for all rules: those by which crossings and nets were found, the latter with the nets in place of the
/// pieces' numbers, that of cuts, and one of channels. The only refusal is want of memory.
pub fn trees_of(
    alloc: Global,
    flat: &FlatLayout,
    boxes: CrossingTrees,
    layers: PieceTrees,
    cuts: BoxTree,
    proper: bool,
) -> Result<Trees, AllocError>
    requires flat { IsFlatLayout flat.now }
    requires boxes { crossing.AreTreesOf flat.now.boxes.now boxes }
    requires layers { ShowPieces flat.now.boxes.now flat.now.pieces.placed.items layers }
    requires cuts { crossing.AreBoxesOn flat.now.boxes.now NC cuts }
    requires proper { ArePerhapsProper flat.now.tech.now flat.now.boxes.now proper }
    ensures { IfOk result (AreRuleTreesOf flat.now) }
{
    let channels = channels(alloc, flat)?;
    let (metal, poly, pieces) = net_trees(alloc, flat, layers)?;
    Ok(Trees {
        boxes,
        proper,
        metal,
        poly,
        pieces,
        cuts,
        channels,
    })
}

// The trees of the pieces of metal, of poly and of diffusion, with the nets in place of the pieces' numbers.
fn net_trees(
    alloc: Global,
    flat: &FlatLayout,
    layers: PieceTrees,
) -> Result<(BoxTree, BoxTree, BoxTree), AllocError>
    requires flat { IsFlatLayout flat.now }
    requires layers { ShowPieces flat.now.boxes.now flat.now.pieces.placed.items layers }
    ensures metal { IfOk result (λ trees. ArePiecesOn flat.now NM trees.0) }
    ensures poly { IfOk result (λ trees. ArePiecesOn flat.now NP trees.1) }
    ensures pieces { IfOk result (λ trees. ArePiecesOn flat.now ND trees.2) }
{
    let PieceTrees {
        diffusion,
        poly,
        metal,
    } = layers;
    let metal = with_nets(alloc, flat, metal)?;
    let poly = with_nets(alloc, flat, poly)?;
    let pieces = with_nets(alloc, flat, diffusion)?;
    Ok((metal, poly, pieces))
}

// One of them.
fn with_nets(alloc: Global, flat: &FlatLayout, tree: UnvisitedTree) -> Result<BoxTree, AllocError>
    requires parts { AreTreeParts tree.parts }
    requires tags { AreTagsWithin (length flat.now.nets.items) tree.parts.entries.items }
    ensures { IfOk result (λ entries. entries ≡ map (with_tag flat.now.nets.items) tree.parts.entries.items) }
{
    BoxTree::with_tags(alloc, tree.parts, &flat.nets)
}

/// A piece by its number, with those of its box and its net.
pub fn entry_of_piece(flat: &FlatLayout, number: u32) -> Entry
    requires flat { IsFlatLayout flat.now }
    requires among { number < length flat.now.nets.items }
    ensures value { result ≡ piece_entry flat.now number }
    ensures placed { IsPlacedBox result.area }
    ensures of_box { result.owner < length flat.now.boxes.now }
{
    let piece = flat.pieces.placed.as_slice()[number as usize];
    Entry {
        area: piece.area,
        owner: piece.box_no,
        tag: flat.nets[number as usize],
    }
}

// The channels, by the numbers of their diffusion.
fn channels(alloc: Global, flat: &FlatLayout) -> Result<BoxTree, AllocError>
    requires { IsFlatLayout flat.now }
    ensures { IfOk result (AreChannels flat.now.tech.now flat.now.boxes.now) }
{
    let crossings = flat.pieces.crossings.as_slice();
    let mut entries = Vec::with_capacity(alloc, crossings.len())?;
    for crossing in crossings {
        entries.push(Entry {
            area: crossing.channel,
            owner: crossing.diffusion,
            tag: 0,
        })?;
    }
    BoxTree::new(alloc, entries)
}
