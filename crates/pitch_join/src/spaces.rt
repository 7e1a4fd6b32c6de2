//! The inequalities of kept pairs.

ghost use Rattle.std.specs.Prelude.{◌≡◌, ◌+◌, ◌<◌, ◌≤◌, ◌^◌, pos, ◌≤ℤ◌, length, map, All, IfOk};
ghost use Rattle.expand.specs.Bounds.{IsNearAlong};
ghost use Rattle.sym_items.specs.Transposed.{item_along};
ghost use Rattle.pair_rules.specs.declared.pairs.Pair.{Pair as SomePair};
ghost use Rattle.pitch_join.specs.{Joined.{shifted, space_edge}, Spaces.{EndsBelow, IsPairAmong}};

use crate::numbering::joined;
use cons_graph::{Edge, Why};
use expand::between_variables;
use lam_geom::Axis;
use pair_rules::Pair;
use std::alloc::{AllocError, Global};
use sym_items::Item;

// The inequality of a kept pair, over the joint variables of a master: the low end of the second item lies the spacing
// past the high end of the first.
fn space_edge(base: u32, axis: Axis, items: &[Item], pair: &Pair) -> Edge
    requires near { All (IsNearAlong axis) items.now }
    requires below { All (EndsBelow base axis) items.now }
    requires among { IsPairAmong items.now pair.now }
    ensures { result ≡ shifted base (space_edge axis items.now pair.now) }
{
    let before = items[pair.i as usize].high(axis);
    let after = items[pair.j as usize].low(axis);
    Edge {
        from: joined(base, before.var),
        to: joined(base, after.var),
        len: between_variables(pair.s, before.off, after.off),
        why: Why::Space,
    }
}

/// The inequality of each kept pair, in order, over the joint variables of a master, of which the first beside the
/// origin is number `base`. The only refusal is want of memory.
pub fn spaces_of(
    alloc: Global,
    base: u32,
    axis: Axis,
    items: &[Item],
    pairs: &[Pair],
) -> Result<Vec<Edge>, AllocError>
    requires near { All (IsNearAlong axis) items.now }
    requires below { All (EndsBelow base axis) items.now }
    requires among { All (IsPairAmong items.now) pairs.now }
    ensures { IfOk result
        (λ edges. edges.items ≡ map (λ (p : SomePair). shifted base (space_edge axis items.now p)) pairs.now) }
{
    let mut edges = Vec::with_capacity(alloc, pairs.len())?;
    for pair in pairs {
        edges.push(space_edge(base, axis, items, pair))?;
    }
    Ok(edges)
}
