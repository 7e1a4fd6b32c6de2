//! Lists of the pieces near the entries of a tree, by one walk for each of its lowest groups.
ghost use Rattle.std.specs.Prelude.{◌≡◌, ◌<◌, ◌≤◌, [], All, Contains, IfOk, OnOk, length};
ghost use Rattle.box_tree.specs.{declared.entries.Entry.Entry};
ghost use Rattle.net_extract.specs.{Lists.{AreLists, IsNoted, IsPortion}, Nearby.{AreFound, IsInSome, query_of}};
ghost use Rattle.net_extract.specs.Listing.{AreNearGroup, AreSides, IsInOf, count_in, near_in, number_of, reach_in};

use crate::ground::Ground;
use crate::lists::{Kind, Lists, Portion, add_list, put_in};
use crate::over::{Vicinity, find_near, is_of_two, push_near};
use box_tree::{Entry, OwnedParts, Parts};
use lam_geom::BoxXY;
use lam_io::OpenGate;
use par_phase::{Range, map_split, ranges_in_shares};
use std::alloc::{AllocError, Global};
use std::thread::Threads;

// Where more pieces than this lie near a group, each of its entries looks for its own.
const NEAR: usize = 64;

// At most so many pieces are in a list.
const LISTED: usize = 16;

/// For which entries there are lists, of what kind, and the trees of the pieces that may be in them.
#[derive(Clone, Copy)]
pub struct Sides<'a> {
    pub ground: Ground<'a>,
    pub kind: Kind,
    pub own: Parts<'a>,
    pub facing: &'a [&'a OwnedParts],
}

/// Puts in the lists of the entries near which not too many pieces lie, found in so many shares. The only refusal is
/// want of memory.
pub fn put_lists<H: Threads + Sync>(
    rt: &H,
    alloc: Global,
    sides: &Sides,
    shares: u32,
    lists: &mut Lists,
) -> Result<(), AllocError>
    requires sides { AreSides sides.now }
    requires shares { (1 ≤ shares) × (shares ≤ 64) }
    requires lists { AreLists (IsInOf sides.now) (count_in sides.now) lists.old }
    ensures { OnOk result (AreLists (IsInOf sides.now) (count_in sides.now) lists.new) }
{
    let ranges = ranges_in_shares(alloc, sides.own.groups.len() as u32, shares)?;
    let make = |range: &Range| -> Result<Portion, AllocError>
        requires { AreSides sides.now × (range.now.to ≤ length sides.now.own.groups.now) }
        ensures { IfOk result (λ portion. All (IsNoted (count_in sides.entry.now)) portion.lists.items
            × IsPortion (IsInOf sides.entry.now) portion) }
    { portion_of(alloc, sides, range) };
    let portions = map_split(rt, alloc, &OpenGate, &ranges, shares, &make)?;
    for portion in &portions {
        put_in(portion, lists)?;
    }
    Ok(())
}

// The lists of the entries of a range of groups.
fn portion_of(alloc: Global, sides: &Sides, range: &Range) -> Result<Portion, AllocError>
    requires sides { AreSides sides.now }
    requires within { range.now.to ≤ length sides.now.own.groups.now }
    ensures noted { IfOk result (λ portion. All (IsNoted (count_in sides.now)) portion.lists.items) }
    ensures portion { IfOk result (IsPortion (IsInOf sides.now)) }
{
    let mut portion = Portion {
        lists: Vec::new(alloc),
        nodes: Vec::new(alloc),
    };
    let mut nearby = Vec::new(alloc);
    let mut found = Vec::new(alloc);
    for at in range.from as usize..range.to as usize {
        if sides.own.groups[at].inside == 0 {
            add_group(sides, at, &mut nearby, &mut found, &mut portion)?;
        }
    }
    Ok(portion)
}

// Adds the lists of the entries of a group. What was in `nearby` and `found` is replaced.
fn add_group(
    sides: &Sides,
    at: usize,
    nearby: &mut Vec<Entry>,
    found: &mut Vec<Entry>,
    portion: &mut Portion,
) -> Result<(), AllocError>
    requires sides { AreSides sides.now }
    requires among { at < length sides.now.own.groups.now }
    requires noted { All (IsNoted (count_in sides.now)) portion.old.lists.items }
    requires portion { IsPortion (IsInOf sides.now) portion.old }
    ensures noted { OnOk result (All (IsNoted (count_in sides.now)) portion.new.lists.items) }
    ensures portion { OnOk result (IsPortion (IsInOf sides.now) portion.new) }
{
    let Parts { entries, groups } = sides.own;
    let group = &groups[at];
    // No box has this number, so that all are found that are near the group.
    let near = beside(sides.kind, &group.outer, sides.ground.boxes.len() as u32);
    nearby.clear();
    let few = find_near(sides.facing, &near, NEAR, nearby)?;
    for place in group.start..group.start + group.count {
        let own = &entries[place as usize];
        let all = find_own(sides, own, few, nearby, found)?;
        add_own(sides, own, all, found, portion)?;
    }
    Ok(())
}

// Puts what is near an entry in place of what was in `found`: out of what is near its group, if these are all that are.
// Whether this is all.
fn find_own(
    sides: &Sides,
    own: &Entry,
    few: bool,
    nearby: &[Entry],
    found: &mut Vec<Entry>,
) -> Result<bool, AllocError>
    requires sides { AreSides sides.now }
    requires own { Contains sides.now.own.entries.now own.now }
    requires nearby { AreNearGroup sides.now own.now few nearby.now }
    ensures { IfOk result (λ all. AreFound (IsInSome sides.now.facing.now)
        (query_of (near_in sides.now.kind own.now)) all [] found.new.items) }
{
    let near = beside(sides.kind, &own.area, own.owner);
    found.clear();
    if few {
        push_near(&near, nearby, found)?;
        Ok(true)
    } else {
        find_near(sides.facing, &near, LISTED, found)
    }
}

// Adds the list of an entry, of what was found near it; where that is not all, or too much, it has none. A cut that
// joins nothing has an empty list.
fn add_own(
    sides: &Sides,
    own: &Entry,
    all: bool,
    found: &[Entry],
    portion: &mut Portion,
) -> Result<(), AllocError>
    requires sides { AreSides sides.now }
    requires own { Contains sides.now.own.entries.now own.now }
    requires found { AreFound (IsInSome sides.now.facing.now) (query_of (near_in sides.now.kind own.now)) all []
        found.now }
    requires noted { All (IsNoted (count_in sides.now)) portion.old.lists.items }
    requires portion { IsPortion (IsInOf sides.now) portion.old }
    ensures noted { OnOk result (All (IsNoted (count_in sides.now)) portion.new.lists.items) }
    ensures portion { OnOk result (IsPortion (IsInOf sides.now) portion.new) }
{
    let owner = number_of(sides.kind, own);
    if sides.kind == Kind::Over && !is_of_two(found) {
        add_list(portion, owner, &[])
    } else if all && found.len() <= LISTED {
        add_list(portion, owner, found)
    } else {
        Ok(())
    }
}

// What may be listed beside an area of an owner.
fn beside(kind: Kind, area: &BoxXY, owner: u32) -> Vicinity
    ensures { result ≡ record { area = area.now; reach = reach_in kind; owner = owner } }
{
    match kind {
        Kind::Touching => Vicinity {
            area: *area,
            reach: 0,
            owner,
        },
        Kind::Over => Vicinity {
            area: *area,
            reach: -1,
            owner,
        },
    }
}

// The number whose list is that of an entry.
fn number_of(kind: Kind, own: &Entry) -> u32
    ensures { result ≡ number_of kind own.now }
{
    match kind {
        Kind::Touching => own.tag,
        Kind::Over => own.owner,
    }
}
