//! The kept pairs of a layout.

ghost use Rattle.std.specs.Prelude.{◌≡◌, ◌<◌, ◌≤◌, ◌^◌, ◌⊎◌, ℕ, pos, ◌≤ℤ◌, length, flat_map, All, IsTrue, false};
ghost use Rattle.std.specs.{Prelude.{OnOk, IfOk, IfErr}, List.Contains};
ghost use Rattle.sym_items.specs.{Boxes.HasBox, Values.value_of, Transposed.values_along};
ghost use Rattle.pair_rules.specs.{declared.pairs.Pair.Pair, Candidates.Keeps, Clean.IsClean, Kept.{IsKept, kept_of}};
ghost use Rattle.scan_line.specs.Begins.{begins_of, IsOrderOf};
ghost use Rattle.pair_set.specs.Sets.{pair_of, pairs_of, limit_of, RefusesPair};
ghost use Rattle.bar_rows.specs.Rows.{IsSeen};
ghost use Rattle.shadow_prune.specs.declared.keeping.KeptFault.TheVariants as faults;
ghost use Rattle.shadow_prune.specs.{KeptFaults.{RefusesKept, no_list_by}, Families.{has_self_rule, has_rule, bars_of}};
ghost use Rattle.shadow_prune.specs.KeptNumbers.{IsKeptNumbers, pairs_of_numbers};

use crate::families::{FAMILIES, Family};
use bar_sweep::add_seen;
use lam_geom::Axis;
use pair_rules::{Pair, is_bound};
use pair_set::{PairSet, SetFault, pair_of};
use rule_table::Tech;
use scan_line::{begins_of, sort_order};
use std::alloc::{AllocError, AllocFailed, Global};
use sym_items::{Coords, Item};
use thiserror::Error;

/// Why there is no list of kept pairs.
#[derive(Debug, Drop, Error)]
pub enum KeptFault {
    /// There are more kept pairs than the limit.
    #[error("too many kept pairs")]
    TooMany,
    #[error("out of memory")]
    OutOfMemory,
}

impl From<AllocError> for KeptFault {
    ghost from_gives = { λ _ fault. fault ≡ faults.OutOfMemory };

    fn from(_error: AllocError) -> KeptFault {
        KeptFault::OutOfMemory
    }
}

impl<T: Drop> From<AllocFailed<T>> for KeptFault {
    ghost from_gives = { λ _ fault. fault ≡ faults.OutOfMemory };

    fn from(_failed: AllocFailed<T>) -> KeptFault {
        KeptFault::OutOfMemory
    }
}

// Why there is no list, by why a set did not take a pair.
fn no_list(fault: SetFault) -> KeptFault
    ensures { result ≡ no_list_by fault }
{
    match fault {
        SetFault::TooMany => KeptFault::TooMany,
        SetFault::OutOfMemory => KeptFault::OutOfMemory,
    }
}

// Adds the kept pairs of a family, by the order in which its items begin.
fn add_family(
    alloc: Global,
    axis: Axis,
    tech: &Tech,
    items: &[Item],
    coords: &Coords,
    order: &[u32],
    family: Family,
    found: &mut PairSet,
) -> Result<(), SetFault>
    requires few { length items.now < 2 ^ 32 }
    requires boxes { All (HasBox coords.now) items.now }
    requires clean { IsClean tech.now coords.now items.now }
    requires order { IsOrderOf (begins_of axis coords.now items.now) order.now }
    requires room { length (pairs_of found.old) ≤ limit_of found.old }
    ensures few { OnOk result (length (pairs_of found.new) ≤ limit_of found.new) }
    ensures limit { limit_of found.new ≡ limit_of found.old }
    ensures kept { (pair : ℕ × ℕ) → Contains (pairs_of found.old) pair → Contains (pairs_of found.new) pair }
    ensures added { (pair : ℕ × ℕ) → Contains (pairs_of found.new) pair
        → Contains (pairs_of found.old) pair ⊎ IsKeptNumbers axis tech.now coords.now items.now pair }
    ensures all { OnOk result ((pair : ℕ × ℕ) → IsTrue (has_rule tech.now family)
        → IsSeen (has_self_rule tech.now family) false
        (bars_of axis tech.now coords.now items.now family order.now) pair
        → Contains (pairs_of found.new) pair) }
    ensures fault { IfErr result (RefusesPair found.new) }
{
    if !family.has_rule(tech) {
        return Ok(());
    }
    let bars = family.bars(alloc, axis, tech, items, coords, order)?;
    add_seen(alloc, bars, family.has_self_rule(tech), found)
}

// The pairs of these numbers of kept pairs, the later one first, with their spacings: what such items are bound with.
fn with_spacings(
    alloc: Global,
    axis: Axis,
    tech: &Tech,
    items: &[Item],
    coords: &Coords,
    keys: &[u64],
) -> Result<Vec<Pair>, AllocError>
    requires among { All (λ k. ((pair_of k).0 < length items.now) × ((pair_of k).1 < length items.now)) keys.now }
    requires kept { All (λ k. IsKeptNumbers axis tech.now coords.now items.now (pair_of k)) keys.now }
    ensures { IfOk result (λ pairs. pairs.items ≡
        flat_map (λ k. pairs_of_numbers axis tech.now coords.now items.now (pair_of k)) keys.now) }
{
    let mut pairs = Vec::with_capacity(alloc, keys.len())?;
    for key in keys {
        let (j, i) = pair_of(*key);
        if let Some(s) = is_bound(tech, &items[i as usize], &items[j as usize]) {
            pairs.push(Pair { i, j, s })?;
        }
    }
    Ok(pairs)
}

/// All kept pairs of an axis in a clean layout, in order of (j, i), if there are at most `limit`.
pub fn kept(
    alloc: Global,
    axis: Axis,
    tech: &Tech,
    items: &[Item],
    coords: &Coords,
    limit: u32,
) -> Result<Vec<Pair>, KeptFault>
    requires few { length items.now < 2 ^ 32 }
    requires boxes { All (HasBox coords.now) items.now }
    requires clean { IsClean tech.now coords.now items.now }
    ensures value { IfOk result (λ pairs. pairs.items ≡ kept_of axis tech.now coords.now items.now) }
    ensures few { IfOk result (λ pairs. length pairs.items ≤ limit) }
    ensures each { IfOk result (λ pairs. All (IsKept axis tech.now coords.now items.now) pairs.items) }
    ensures all { IfOk result (λ pairs. (p : Pair) → IsKept axis tech.now coords.now items.now p
        → Contains pairs.items p) }
    ensures spacings { IfOk result (λ pairs. All (λ p. (pos 1 ≤ℤ p.s) × (p.s ≤ℤ pos 4096)) pairs.items) }
    ensures apart { IfOk result (λ pairs. All (Keeps axis (value_of (values_along axis coords.now)) items.now)
        pairs.items) }
    ensures fault { IfErr result (RefusesKept limit (length (kept_of axis tech.now coords.now items.now))) }
{
    let begins = begins_of(alloc, axis, items, coords)?;
    let order = sort_order(alloc, &begins)?;
    let mut found = PairSet::new(alloc, limit);
    for family in FAMILIES {
        let added = add_family(alloc, axis, tech, items, coords, &order, family, &mut found);
        if let Err(fault) = added {
            return Err(no_list(fault));
        }
    }
    let keys = found.into_sorted();
    Ok(with_spacings(alloc, axis, tech, items, coords, &keys)?)
}
