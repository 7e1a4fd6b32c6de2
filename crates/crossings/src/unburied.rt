//! The boxes that a box overlaps and is no buried pair with.
ghost use Rattle.std.specs.Prelude.{◌≡◌, ◌↔◌, ℕ, ◌+◌, ◌<◌, ◌≤◌, pos, All, Contains, IsTrue, IfOk, MatchBool, length};
ghost use Rattle.lam_geom.specs.{declared.boxes.MaskLayer.TheVariants.NB, Gaps.Encloses, Places.IsPlacedBox};
ghost use Rattle.box_tree.specs.Tree.{entry_of};
ghost use Rattle.crossing_model.specs.Boxes.{AreSearchable, area_at};
ghost use Rattle.crossings.specs.Pairs.{AreFacing, IsBelow, Least, Meets};
ghost use Rattle.crossings.specs.Entries.{AreBoxesOn, AreEntriesFacing, AreTreesOf};

use crate::entries::{Trees, facing_tree, is_covered};
use crate::pair_tests::common_box;
use crate::pairs::meets;
use crate::windows::window_margin;
use box_tree::{BoxTree, Entry, Group, Parts};
use lam_geom::{BoxXY, MaskBox, overlaps};
use rule_table::Tech;

/// Whether a box overlaps some box of the other's layer and is no buried pair with it. Boxes under one window are
/// left out together. Takes no memory.
pub fn meets_some(tech: &Tech, boxes: &[MaskBox], trees: &Trees, number: u32) -> bool
    requires searchable { AreSearchable boxes.now }
    requires trees { AreTreesOf boxes.now trees.now }
    requires among { number < length boxes.now }
    ensures { IsTrue result ↔ ((k : ℕ) × Meets tech.now boxes.now number k) }
{
    match facing_tree(boxes, trees, number) {
        Some(tree) => meets_in(tech, boxes, &trees.windows, tree, number),
        None => false,
    }
}

// The same by trees of the windows and of the boxes of the other's layer.
fn meets_in(tech: &Tech, boxes: &[MaskBox], windows: &BoxTree, tree: &BoxTree, number: u32) -> bool
    requires searchable { AreSearchable boxes.now }
    requires windows { AreBoxesOn boxes.now NB windows.now }
    requires tree { AreEntriesFacing boxes.now number tree.now }
    ensures { IsTrue result ↔ ((k : ℕ) × Meets tech.now boxes.now number k) }
{
    let parts = tree.parts();
    let mut at = 0;
    while at < parts.groups.len() {
        let group = &parts.groups[at];
        at += 1;
        if meets_none_inside(tech, boxes, windows, number, &group.outer) {
            at += group.inside as usize;
        } else if group.inside == 0 && meets_entry(tech, boxes, windows, number, &parts, group) {
            return true;
        }
    }
    false
}

/// Whether it is plain that a box meets none that lies inside an area: it does not overlap the area, or one window
/// goes past all that they have in common. Where the answer is no, it may meet none all the same.
pub fn meets_none_inside(
    tech: &Tech,
    boxes: &[MaskBox],
    windows: &BoxTree,
    number: u32,
    outer: &BoxXY,
) -> bool
    requires searchable { AreSearchable boxes.now }
    requires windows { AreBoxesOn boxes.now NB windows.now }
    requires among { number < length boxes.now }
    requires outer { IsPlacedBox outer.now }
    ensures { IsTrue result → (k : ℕ) → Encloses outer.now (area_at boxes.now k) (pos 0)
        → Meets tech.now boxes.now number k → ⊥ }
{
    let own = &boxes[number as usize].area;
    if !overlaps(own, outer) {
        return true;
    }
    tech.has_buried() && is_covered(windows, &common_box(own, outer), window_margin(tech))
}

// Whether a box meets one of the entries of a group.
fn meets_entry(
    tech: &Tech,
    boxes: &[MaskBox],
    windows: &BoxTree,
    number: u32,
    parts: &Parts<'_>,
    group: &Group,
) -> bool
    requires searchable { AreSearchable boxes.now }
    requires windows { AreBoxesOn boxes.now NB windows.now }
    requires tree { AreEntriesFacing boxes.now number parts.now.entries.now }
    requires within { group.now.start + group.now.count ≤ length parts.now.entries.now }
    ensures { MatchBool result
        ((k : ℕ) × Meets tech.now boxes.now number k)
        ((p : ℕ) → group.now.start ≤ p → p < group.now.start + group.now.count
        → Meets tech.now boxes.now number (entry_of parts.now.entries.now p).owner → ⊥) }
{
    let start = group.start as usize;
    for place in start..start + group.count as usize {
        let entry = &parts.entries[place];
        if meets(tech, boxes, windows, number, entry.owner) {
            return true;
        }
    }
    false
}

/// The least of the boxes that a box overlaps and is no buried pair with. In the time of a walk over all boxes of the
/// other's layer. Takes no memory.
pub fn least_unburied(tech: &Tech, boxes: &[MaskBox], trees: &Trees, number: u32) -> Option<u32>
    requires searchable { AreSearchable boxes.now }
    requires trees { AreTreesOf boxes.now trees.now }
    requires among { number < length boxes.now }
    ensures { Least (Meets tech.now boxes.now number) result }
{
    match facing_tree(boxes, trees, number) {
        Some(tree) => least_among(tech, boxes, &trees.windows, number, tree.entries()),
        None => None,
    }
}

// The least of the boxes of some entries that a box meets.
fn least_among(
    tech: &Tech,
    boxes: &[MaskBox],
    windows: &BoxTree,
    number: u32,
    entries: &[Entry],
) -> Option<u32>
    requires searchable { AreSearchable boxes.now }
    requires windows { AreBoxesOn boxes.now NB windows.now }
    requires entries { AreEntriesFacing boxes.now number entries.now }
    ensures { Least (Meets tech.now boxes.now number) result }
{
    let mut least = None;
    for entry in entries {
        if is_below(entry.owner, least) && meets(tech, boxes, windows, number, entry.owner) {
            least = Some(entry.owner);
        }
    }
    least
}

fn is_below(number: u32, least: Option<u32>) -> bool
    ensures { IsTrue result ↔ IsBelow number least }
{
    match least {
        Some(least) => number < least,
        None => true,
    }
}
