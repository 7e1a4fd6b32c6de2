//! Lanes over stretches of one length.

ghost use Rattle.std.specs.Prelude.{◌≡◌, ℕ, ◌-◌, ◌<◌, ◌≤◌, ◌≢◌, [], ◌∷◌, ◌++◌, ◌&&◌, nat_le, if◌then◌else◌, length};
ghost use Rattle.std.specs.Prelude.{List, OnOk, IfOk, IfSome};
ghost use Rattle.lam_geom.specs.declared.boxes.Axis.{Axis};
ghost use Rattle.sym_items.specs.declared.items.{Item.Item, Coords.Coords};
ghost use Rattle.scan_line.specs.Stretches.{stretch_of, IsCut};
ghost use Rattle.scan_line.specs.Levels.{list_at, ArePlaces, IsLevel, IsLevelOf, IsLaneOver};

use crate::stretches::Stretches;
use lam_geom::Span;
use std::alloc::{AllocError, Global};

/// For each two neighbouring stretches a lane: a list of the items that meet one of them, in the order of a
/// scan. The lane of a number is that stretch and the next.
#[derive(Drop)]
pub struct Level {
    stretches: Stretches,
    lists: Vec<Vec<u32>>,
}

impl Level {
    /// The lanes of items over some stretches; `across` has the place of each across the axis. The time and the
    /// memory are those of the entries of all lists: an item has one for each stretch that it meets, and one more.
    /// The only refusal is want of memory.
    pub fn new(
        alloc: Global,
        stretches: Stretches,
        order: &[u32],
        across: &[Span],
    ) -> Result<Level, AllocError>
        requires cut { IsCut stretches }
        requires each { length across.now ≡ length order.now }
        ensures { IfOk result (λ level. (axis : Axis) (coords : Coords) (items : List Item)
            → ArePlaces axis coords items order.now across.now → IsLevelOf axis coords items order.now level) }
    {
        let mut lists = empty_lists(alloc, stretches.count())?;
        for (p, i) in order.iter().enumerate() {
            let (first, last) = lanes_met(&stretches, across[p]);
            push_to_each(&mut lists, first, last, *i)?;
        }
        Ok(Level { stretches, lists })
    }

    /// The list of the lane that holds all between two places, if there is one.
    pub fn lane_over(&self, low: i64, high: i64) -> Option<&[u32]>
        requires { IsLevel self.now }
        ensures { IfSome result (λ list. IsLaneOver self.now low high list.now) }
    {
        let lane = self.stretches.number_of(low);
        if self.stretches.number_of(high) > lane + 1 {
            return None;
        }
        Some(self.lists[lane].as_slice())
    }
}

// So many lists with nothing in them.
fn empty_lists(alloc: Global, count: usize) -> Result<Vec<Vec<u32>>, AllocError>
    ensures counted { IfOk result (λ lists. length lists.items ≡ count) }
    ensures empty { IfOk result (λ lists. (t : ℕ) → list_at lists.items t ≡ []) }
{
    let mut lists = Vec::with_capacity(alloc, count)?;
    for _ in 0..count {
        lists.push(Vec::new(alloc))?;
    }
    Ok(lists)
}

// The first and the last lane that a span across the axis meets.
fn lanes_met(stretches: &Stretches, span: Span) -> (usize, usize)
    requires { IsCut stretches.now }
    ensures first { result.0 ≡ stretch_of stretches.now span.lo - 1 }
    ensures last { result.1 ≡ stretch_of stretches.now span.hi }
    ensures among { result.1 ≤ stretches.now.last }
{
    let first = stretches.number_of(span.lo).saturating_sub(1);
    (first, stretches.number_of(span.hi))
}

// Puts an item at the end of each list from a first one to a last one.
fn push_to_each(
    lists: &mut Vec<Vec<u32>>,
    first: usize,
    last: usize,
    item: u32,
) -> Result<(), AllocError>
    requires { last < length lists.old.items }
    ensures counted { OnOk result (length lists.new.items ≡ length lists.old.items) }
    ensures each { OnOk result ((t : ℕ) → list_at lists.new.items t ≡ list_at lists.old.items t ++ (if nat_le
        first t && nat_le t last then item ∷ [] else [])) }
{
    for t in first..last + 1 {
        push_to(lists, t, item)?;
    }
    Ok(())
}

// Puts an item at the end of a list.
fn push_to(lists: &mut Vec<Vec<u32>>, t: usize, item: u32) -> Result<(), AllocError>
    requires { t < length lists.old.items }
    ensures counted { OnOk result (length lists.new.items ≡ length lists.old.items) }
    ensures grown { OnOk result (list_at lists.new.items t ≡ list_at lists.old.items t ++ item ∷ []) }
    ensures kept { OnOk result ((u : ℕ) → u ≢ t → list_at lists.new.items u ≡ list_at lists.old.items u) }
{
    let list = &mut lists[t];
    list.push(item)?;
    Ok(())
}
