//! The pieces over each cut, in lists, and the cuts over each piece.
ghost use Rattle.std.specs.Prelude.{◌≡◌, ℕ, ◌+◌, ◌^◌, ◌<◌, ◌≤◌, ◌↔◌, [], All, IfOk, IsTrue, OnOk, length};
ghost use Rattle.box_tree.specs.Found.{AreGathered};
ghost use Rattle.crossings.specs.Entries.{AreBoxesOn};
ghost use Rattle.lam_geom.specs.declared.boxes.MaskLayer.TheVariants.{NC};
ghost use Rattle.net_extract.specs.CutLists.{AreChains, AreCrowdedEntries, AreCutLists, IsCrowded, IsListedBefore};
ghost use Rattle.net_extract.specs.{CutLists.{IsListedOver, IsTold}, Entries.{AreEntries, cut_entry}};
ghost use Rattle.net_extract.specs.{declared.lists.Lists.Lists, Grounds.{IsGround, placed_on}};
ghost use Rattle.net_extract.specs.Lists.{AreWithin, IsListed};
ghost use Rattle.net_extract.specs.Nearby.{AreLayerTrees, conducting};

use crate::ground::Ground;
use crate::listing::{Sides, put_lists};
use crate::lists::{Kind, Lists, list_of, no_lists};
use crate::over::{Vicinity, find_near, is_of_two};
use box_tree::{BoxTree, Entry, OwnedParts};
use lam_geom::MaskLayer;
use lam_io::OpenGate;
use par_phase::map_numbers;
use std::alloc::{AllocError, Global};
use std::thread::Threads;

/// The cuts over each piece, as a chain of entries from the last one back: `heads` has for each piece one more than the
/// number of its last entry, `nexts` for each entry one more than the number of the entry of its piece before it, and
/// `cuts` its cut. There is none where a 0 stands, so that each takes four bytes.
#[derive(Drop)]
pub struct Chains {
    pub heads: Vec<u32>,
    pub nexts: Vec<u32>,
    pub cuts: Vec<u32>,
}

/// The pieces over each cut that joins and is not crowded, and the same cuts over each piece.
#[derive(Drop)]
pub struct CutLists {
    pub over: Lists,
    pub chains: Chains,
}

/// The lists of all cuts over which not too many pieces lie, found in so many shares. The only refusal is want of
/// memory.
pub fn cut_lists<H: Threads + Sync>(
    rt: &H,
    alloc: Global,
    ground: &Ground,
    facing: &[&OwnedParts],
    cuts: &BoxTree,
    shares: u32,
) -> Result<CutLists, AllocError>
    requires ground { IsGround ground.now }
    requires facing { AreLayerTrees ground.now.boxes.now (placed_on ground.now) conducting facing.now }
    requires cuts { AreBoxesOn ground.now.boxes.now NC cuts.now }
    requires shares { (1 ≤ shares) × (shares ≤ 64) }
    ensures { IfOk result (AreCutLists ground.now.boxes.now (placed_on ground.now)) }
{
    let mut over = no_lists(alloc, ground.boxes.len())?;
    let sides = Sides {
        ground: *ground,
        kind: Kind::Over,
        own: cuts.parts(),
        facing,
    };
    put_lists(rt, alloc, &sides, shares, &mut over)?;
    let chains = chains_of(alloc, ground.pieces.placed.len(), &over)?;
    Ok(CutLists { over, chains })
}

// The chains of so many pieces.
fn chains_of(alloc: Global, count: usize, over: &Lists) -> Result<Chains, AllocError>
    requires within { AreWithin over.now }
    requires below { (k a : ℕ) → IsListed over.now k a → a < count }
    requires few { length over.now.runs.items ≤ 2 ^ 20 }
    ensures { IfOk result (AreChains (IsListed over.now) count) }
{
    let mut chains = Chains {
        heads: vec![in alloc; 0u32; count]?,
        nexts: Vec::with_capacity(alloc, over.nodes.len())?,
        cuts: Vec::with_capacity(alloc, over.nodes.len())?,
    };
    for k in 0..over.runs.len() {
        if let Some(pieces) = list_of(over, k as u32) {
            add_entries(k as u32, pieces, &mut chains)?;
        }
    }
    Ok(chains)
}

// Adds the entries of a cut.
fn add_entries(cut: u32, pieces: &[u32], chains: &mut Chains) -> Result<(), AllocError>
    requires pieces { All (λ a. a < length chains.old.heads.items) pieces.now }
    requires few { length chains.old.cuts.items + length pieces.now < 2 ^ 32 }
    ensures counted { OnOk result (length chains.new.cuts.items ≡ length chains.old.cuts.items + length pieces.now) }
    ensures chains { (over : Lists) (count : ℕ) → AreGathered (IsListed over cut) [] pieces.now
        → AreChains (IsListedBefore over cut) count chains.old
        → OnOk result (AreChains (IsListedBefore over (cut + 1)) count chains.new) }
{
    for &a in pieces {
        let next = chains.heads[a as usize];
        chains.nexts.push(next)?;
        chains.cuts.push(cut)?;
        chains.heads[a as usize] = chains.cuts.len() as u32;
    }
    Ok(())
}

/// The nodes of the cuts over a piece that have a list, in place of what was in `found`, where so many pieces stand
/// before the cuts. The only refusal is want of memory.
pub fn cuts_of(lists: &CutLists, count: u32, a: u32, found: &mut Vec<u32>) -> Result<(), AllocError>
    requires chains { AreChains (IsListed lists.now.over) count lists.now.chains }
    requires few { count + length lists.now.over.runs.items < 2 ^ 32 }
    requires in_range { a < count }
    ensures { OnOk result (AreGathered (IsListedOver lists.now.over count a) [] found.new.items) }
{
    let chains = &lists.chains;
    found.clear();
    let mut at = chains.heads[a as usize];
    while at > 0 {
        let entry = at as usize - 1;
        found.push(count + chains.cuts[entry])?;
        at = chains.nexts[entry];
    }
    Ok(())
}

/// The entries of the cuts that join and have no list, found in so many shares. The only refusal is want of memory.
pub fn crowded_entries<H: Threads + Sync>(
    rt: &H,
    alloc: Global,
    ground: &Ground,
    facing: &[&OwnedParts],
    lists: &Lists,
    shares: u32,
) -> Result<Vec<Entry>, AllocError>
    requires ground { IsGround ground.now }
    requires facing { AreLayerTrees ground.now.boxes.now (placed_on ground.now) conducting facing.now }
    requires counted { length lists.now.runs.items ≡ length ground.now.boxes.now }
    requires lists { AreWithin lists.now }
    requires shares { (1 ≤ shares) × (shares ≤ 64) }
    ensures { let boxes = ground.now.boxes.now in
        IfOk result (λ entries. AreCrowdedEntries boxes (placed_on ground.now) lists.now (length boxes) entries.items) }
{
    let test = |k: &u32| -> Result<bool, AllocError>
        requires { IsGround ground.now
            × AreLayerTrees ground.now.boxes.now (placed_on ground.now) conducting facing.now
            × (length lists.now.runs.items ≡ length ground.now.boxes.now) × AreWithin lists.now
            × (k.now < length ground.now.boxes.now) }
        ensures { IfOk result (λ crowded. IsTrue crowded
            ↔ IsCrowded ground.entry.now.boxes.now (placed_on ground.entry.now) lists.entry.now k.entry.now) }
    { is_crowded(alloc, ground, facing, lists, *k) };
    let count = ground.boxes.len() as u32;
    let crowded = map_numbers(rt, alloc, &OpenGate, count, shares, &test)?;
    entries_of(alloc, ground, &crowded)
}

// Whether a box is a cut that joins and has no list.
fn is_crowded(
    alloc: Global,
    ground: &Ground,
    facing: &[&OwnedParts],
    lists: &Lists,
    k: u32,
) -> Result<bool, AllocError>
    requires ground { IsGround ground.now }
    requires facing { AreLayerTrees ground.now.boxes.now (placed_on ground.now) conducting facing.now }
    requires counted { length lists.now.runs.items ≡ length ground.now.boxes.now }
    requires lists { AreWithin lists.now }
    requires in_range { k < length ground.now.boxes.now }
    ensures { IfOk result (λ crowded. IsTrue crowded
        ↔ IsCrowded ground.now.boxes.now (placed_on ground.now) lists.now k) }
{
    let cut = ground.boxes[k as usize];
    if cut.layer != MaskLayer::NC || list_of(lists, k).is_some() {
        return Ok(false);
    }
    let near = Vicinity {
        area: cut.area,
        reach: -1,
        owner: k,
    };
    let mut found = Vec::new(alloc);
    find_near(facing, &near, 1, &mut found)?;
    Ok(is_of_two(&found))
}

// The entries of the boxes of which it is told that they are crowded cuts.
fn entries_of(alloc: Global, ground: &Ground, crowded: &[bool]) -> Result<Vec<Entry>, AllocError>
    requires ground { IsGround ground.now }
    requires counted { length crowded.now ≡ length ground.now.boxes.now }
    ensures { let boxes = ground.now.boxes.now in IfOk result (λ entries.
        AreEntries (length boxes) (IsTold crowded.now) (cut_entry boxes (placed_on ground.now)) entries.items) }
{
    let mut entries = Vec::new(alloc);
    for k in 0..ground.boxes.len() {
        if crowded[k] {
            let owner = k as u32;
            let tag = ground.pieces.placed.len() as u32 + owner;
            let area = ground.boxes[k].area;
            entries.push(Entry { area, owner, tag })?;
        }
    }
    Ok(entries)
}
