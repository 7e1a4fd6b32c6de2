//! All pairs of items that face each other along an axis.

ghost use Rattle.std.specs.Prelude.{◌≡◌, ◌<◌, ◌^◌, ◌++◌, length, All, OnOk, OnErr, IfOk};
ghost use Rattle.sym_items.specs.Boxes.{HasBox};
ghost use Rattle.pair_rules.specs.Candidates.{AddsFirst, candidates_to, candidates_of};

use crate::candidates::facing_spacing;
use lam_geom::Axis;
use rule_table::Tech;
use std::alloc::{AllocError, Global};
use sym_items::{Coords, Item};

/// A candidate of an axis: item `i` ends before item `j` begins, and they keep the spacing `s`, in u.
#[derive(Clone, Copy, Debug, PartialEq, Eq)]
pub struct Pair {
    pub i: u32,
    pub j: u32,
    pub s: i64,
}

/// Adds the candidates of an axis that end at item `j`, in order of `i`. It looks at each item. After a refusal the
/// first of them are there.
pub fn push_pairs_to(
    pairs: &mut Vec<Pair>,
    axis: Axis,
    tech: &Tech,
    items: &[Item],
    coords: &Coords,
    j: u32,
) -> Result<(), AllocError>
    requires few { length items.now < 2 ^ 32 }
    requires boxes { All (HasBox coords.now) items.now }
    requires j_among { j < length items.now }
    ensures ok { OnOk result (pairs.new.items ≡ pairs.old.items ++ candidates_to axis tech.now coords.now items.now j) }
    ensures err { OnErr result
        (AddsFirst (candidates_to axis tech.now coords.now items.now j) pairs.old.items pairs.new.items) }
{
    for i in 0..items.len() as u32 {
        let spacing = facing_spacing(axis, tech, coords, &items[i as usize], &items[j as usize]);
        if let Some(s) = spacing {
            pairs.push(Pair { i, j, s })?;
        }
    }
    Ok(())
}

/// All candidates of an axis, in order of (j, i). It looks at each pair of items, so its time grows with the square of
/// their number.
pub fn all_pairs(
    alloc: Global,
    axis: Axis,
    tech: &Tech,
    items: &[Item],
    coords: &Coords,
) -> Result<Vec<Pair>, AllocError>
    requires few { length items.now < 2 ^ 32 }
    requires boxes { All (HasBox coords.now) items.now }
    ensures { IfOk result (λ pairs. pairs.items ≡ candidates_of axis tech.now coords.now items.now) }
{
    let mut pairs = Vec::new(alloc);
    for j in 0..items.len() as u32 {
        push_pairs_to(&mut pairs, axis, tech, items, coords, j)?;
    }
    Ok(pairs)
}
