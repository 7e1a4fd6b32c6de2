//! Pruning loses nothing.

ghost use Rattle.pair_rules.specs.{Chains.LeavesChains, Pruning.LosesNothing};

use lam_geom::Axis;
use rule_table::Tech;
use sym_items::{Coords, Item};

/// A law, with nothing to run: in a layout that gives each item a box, values that give each item its least extent on
/// an axis and keep its kept pairs apart keep all its candidates apart.
pub fn pruning_loses_nothing(axis: Axis, tech: &Tech, items: &[Item], coords: &Coords)
    ensures { LosesNothing axis tech.now coords.now items.now }
{}

/// A law, with nothing to run: in a layout that gives each item a box, a chain of kept pairs, and of candidates whose
/// ends lie on one variable, leads along each candidate and reaches, with the least extents of the items between, at
/// least its spacing.
pub fn chains_stand_for_candidates(axis: Axis, tech: &Tech, items: &[Item], coords: &Coords)
    ensures { LeavesChains axis tech.now coords.now items.now }
{}
