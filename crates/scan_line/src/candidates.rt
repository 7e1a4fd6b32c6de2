//! The candidates that end at an item.

ghost use Rattle.std.specs.Prelude.{◌≡◌, ◌<◌, ◌^◌, ◌++◌, length, All, OnOk};
ghost use Rattle.sym_items.specs.Boxes.{HasBox};
ghost use Rattle.pair_rules.specs.Candidates.{candidates_to, pairs_at};
ghost use Rattle.scan_line.specs.{Lanes.AreLanesOf, Lines.IsLineTo};

use crate::lanes::Lanes;
use lam_geom::Axis;
use pair_rules::{Pair, facing_spacing};
use rule_table::Tech;
use std::alloc::AllocError;
use sym_items::{Coords, Item};

impl Lanes {
    /// All candidates that end at item `j`, in order of their first items, in place of what was in `found`. The
    /// only refusal is want of memory.
    pub fn candidates(
        &self,
        axis: Axis,
        tech: &Tech,
        items: &[Item],
        coords: &Coords,
        j: u32,
        found: &mut Vec<Pair>,
    ) -> Result<(), AllocError>
        requires few { length items.now < 2 ^ 32 }
        requires boxes { All (HasBox coords.now) items.now }
        requires lanes { AreLanesOf axis coords.now items.now self.now }
        requires among { j < length items.now }
        ensures { OnOk result (found.new.items ≡ candidates_to axis tech.now coords.now items.now j) }
    {
        found.clear();
        for i in self.line_facing(axis, tech, items, coords, j) {
            push_candidate(found, axis, tech, items, coords, *i, j)?;
        }
        found.sort_unstable_by_key(|pair| pair.i);
        Ok(())
    }

    // Items in the order of the scan, among them all that are a candidate with item `j`.
    fn line_facing(
        &self,
        axis: Axis,
        tech: &Tech,
        items: &[Item],
        coords: &Coords,
        j: u32,
    ) -> &[u32]
        requires few { length items.now < 2 ^ 32 }
        requires boxes { All (HasBox coords.now) items.now }
        requires lanes { AreLanesOf axis coords.now items.now self.now }
        requires among { j < length items.now }
        ensures { IsLineTo axis tech.now coords.now items.now j result.now }
    {
        self.line_to(axis, items, coords, tech.widest(), j)
    }
}

// Adds the items number `i` and `j` if they are a candidate.
fn push_candidate(
    found: &mut Vec<Pair>,
    axis: Axis,
    tech: &Tech,
    items: &[Item],
    coords: &Coords,
    i: u32,
    j: u32,
) -> Result<(), AllocError>
    requires boxes { All (HasBox coords.now) items.now }
    requires i_among { i < length items.now }
    requires j_among { j < length items.now }
    ensures { OnOk result (found.new.items ≡ found.old.items ++ pairs_at axis tech.now coords.now items.now j i) }
{
    if let Some(s) = facing_spacing(axis, tech, coords, &items[i as usize], &items[j as usize]) {
        found.push(Pair { i, j, s })?;
    }
    Ok(())
}
