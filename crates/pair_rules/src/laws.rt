//! What holds of clean layouts.

ghost use Rattle.pair_rules.specs.Laws.{StaysClean};

use lam_geom::Axis;
use rule_table::Tech;
use sym_items::{Coords, Item};

/// A law, with nothing to run: a clean layout stays clean where its values of one axis move to any that keep the
/// inequality of every candidate of that axis, and those of the other axis stay.
pub fn stays_clean(axis: Axis, tech: &Tech, items: &[Item], coords: &Coords)
    ensures { StaysClean axis tech.now coords.now items.now }
{}
