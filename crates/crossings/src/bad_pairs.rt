//! All pairs that do not cross properly.
ghost use Rattle.std.specs.Prelude.{◌<◌, ◌+◌, ◌≤◌, All, OnOk, length};
ghost use Rattle.lam_geom.specs.declared.boxes.MaskLayer.TheVariants.{NB};
ghost use Rattle.box_tree.specs.Found.{AreGathered};
ghost use Rattle.crossing_model.specs.Boxes.{AreSearchable};
ghost use Rattle.crossings.specs.Pairs.{IsBadWith, IsMetAt, Meets};
ghost use Rattle.crossings.specs.Entries.{AreBoxesOn, AreEntriesFacing, AreTreesOf};

use crate::entries::{Trees, facing_tree};
use crate::pairs::meets;
use crate::partners::{Partners, partners_of};
use crate::standings::{Standing, standing_with};
use crate::unburied::meets_none_inside;
use box_tree::{BoxTree, Group, Parts};
use lam_geom::MaskBox;
use rule_table::Tech;
use std::alloc::AllocError;

/// Adds the boxes with which a box is poly and diffusion that overlap, are no buried pair and do not cross properly,
/// or of which one overlaps a further box of the other's layer. In no order. Boxes under one window are left out
/// together. The only refusal is want of memory.
pub fn add_improper(
    tech: &Tech,
    boxes: &[MaskBox],
    trees: &Trees,
    number: u32,
    found: &mut Vec<u32>,
) -> Result<(), AllocError>
    requires searchable { AreSearchable boxes.now }
    requires trees { AreTreesOf boxes.now trees.now }
    requires among { number < length boxes.now }
    ensures { OnOk result (AreGathered (IsBadWith tech.now boxes.now number) found.old.items found.new.items) }
{
    match partners_of(boxes, trees, number) {
        Partners::Nothing => Ok(()),
        Partners::One(partner) => {
            if let Standing::Bad(other) = standing_with(tech, boxes, trees, number, partner) {
                found.push(other)?;
            }
            Ok(())
        }
        Partners::Several => match facing_tree(boxes, trees, number) {
            Some(tree) => add_met(tech, boxes, &trees.windows, tree, number, found),
            None => Ok(()),
        },
    }
}

// Adds the boxes of the other's layer, of which the tree is, that a box overlaps and is no buried pair with.
fn add_met(
    tech: &Tech,
    boxes: &[MaskBox],
    windows: &BoxTree,
    tree: &BoxTree,
    number: u32,
    found: &mut Vec<u32>,
) -> Result<(), AllocError>
    requires searchable { AreSearchable boxes.now }
    requires windows { AreBoxesOn boxes.now NB windows.now }
    requires tree { AreEntriesFacing boxes.now number tree.now }
    ensures { OnOk result (AreGathered (Meets tech.now boxes.now number) found.old.items found.new.items) }
{
    let parts = tree.parts();
    let mut at = 0;
    while at < parts.groups.len() {
        let group = &parts.groups[at];
        at += 1;
        if meets_none_inside(tech, boxes, windows, number, &group.outer) {
            at += group.inside as usize;
        } else if group.inside == 0 {
            add_met_entries(tech, boxes, windows, number, &parts, group, found)?;
        }
    }
    Ok(())
}

// Adds those of the entries of a group.
fn add_met_entries(
    tech: &Tech,
    boxes: &[MaskBox],
    windows: &BoxTree,
    number: u32,
    parts: &Parts<'_>,
    group: &Group,
    found: &mut Vec<u32>,
) -> Result<(), AllocError>
    requires searchable { AreSearchable boxes.now }
    requires windows { AreBoxesOn boxes.now NB windows.now }
    requires tree { AreEntriesFacing boxes.now number parts.now.entries.now }
    requires within { group.now.start + group.now.count ≤ length parts.now.entries.now }
    ensures { OnOk result (AreGathered
        (IsMetAt tech.now boxes.now number parts.now.entries.now group.now.start
        (group.now.start + group.now.count))
        found.old.items found.new.items) }
{
    let start = group.start as usize;
    for place in start..start + group.count as usize {
        let entry = &parts.entries[place];
        if meets(tech, boxes, windows, number, entry.owner) {
            found.push(entry.owner)?;
        }
    }
    Ok(())
}
