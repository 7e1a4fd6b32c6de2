//! Groups of classes that keep spacings among themselves.

ghost use Rattle.std.specs.Prelude.{◌≡◌, ◌<◌, ◌^◌, pos, ◌≤ℤ◌, ◌==◌, List, length, filter, All, IfOk};
ghost use Rattle.sym_items.specs.{declared.items.Item.Item, Boxes.HasBox};
ghost use Rattle.pair_rules.specs.{Bound.item_at, Candidates.sides_at};
ghost use Rattle.scan_line.specs.{Order.IsScanOrder, Levels.{ArePlaces, IsLevelOf}, Lanes.IsListNear};
ghost use Rattle.scan_line.specs.Groups.{group_of, is_of_group, classes_of, IsGroupOf};

use crate::level::Level;
use crate::stretches::Stretches;
use lam_geom::{Axis, Span};
use rule_table::Class;
use std::alloc::{AllocError, Global};
use sym_items::{Coords, Item, box_along};

/// The items of a group of classes in the order of a scan along an axis, and which of them lie where across it.
#[derive(Drop)]
pub struct Group {
    order: Vec<u32>,
    levels: Vec<Level>,
}

// How many levels there are, and how many times as long as those of the level before the stretches of a level are.
const LEVELS: usize = 4;

const LONGER: u64 = 4;

impl Group {
    /// The items of the group of a class; `classes` has the class of each in the order of the scan. The only
    /// refusal is want of memory.
    pub fn new(
        alloc: Global,
        class: Class,
        order: &[u32],
        classes: &[Class],
        axis: Axis,
        items: &[Item],
        coords: &Coords,
    ) -> Result<Group, AllocError>
        requires few { length items.now < 2 ^ 32 }
        requires boxes { All (HasBox coords.now) items.now }
        requires order { IsScanOrder axis coords.now items.now order.now }
        requires classes { classes.now ≡ classes_of items.now order.now }
        ensures { IfOk result (IsGroupOf axis coords.now items.now class) }
    {
        let members = members_of(alloc, class, order, classes)?;
        let levels = levels_of(alloc, &members, axis, items, coords)?;
        Ok(Group {
            order: members,
            levels,
        })
    }

    /// Items of the group of item `j` in the order of the scan, among them all that lie nearer to `j` than `reach`
    /// across the axis.
    pub fn list_near(
        &self,
        axis: Axis,
        items: &[Item],
        coords: &Coords,
        reach: i64,
        j: u32,
    ) -> &[u32]
        requires boxes { All (HasBox coords.now) items.now }
        requires group { IsGroupOf axis coords.now items.now (item_at items.now j).class self.now }
        requires among { j < length items.now }
        requires reach { (pos 0 ≤ℤ reach) × (reach ≤ℤ pos 4096) }
        ensures { IsListNear axis coords.now items.now (item_at items.now j).class (sides_at axis
            coords.now (item_at items.now j)) reach result.now }
    {
        let across = box_along(axis, &items[j as usize], coords).y;
        let (low, high) = (across.lo - reach, across.hi + reach);
        for level in &self.levels {
            if let Some(list) = level.lane_over(low, high) {
                return list;
            }
        }
        &self.order
    }
}

// The number of the group of a class.
fn group_of(class: Class) -> usize
    ensures { result ≡ group_of class }
{
    match class {
        Class::M => 0,
        Class::Dc => 1,
        Class::P | Class::Dm => 2,
        Class::C | Class::I | Class::G | Class::B => 3,
    }
}

// Whether two classes are of one group.
fn are_of_one_group(a: Class, b: Class) -> bool
    ensures { result ≡ (group_of a == group_of b) }
{
    group_of(a) == group_of(b)
}

/// The class of each of some items, in their order. The only refusal is want of memory.
pub fn classes_of(alloc: Global, order: &[u32], items: &[Item]) -> Result<Vec<Class>, AllocError>
    requires { All (λ k. k < length items.now) order.now }
    ensures { IfOk result (λ classes. classes.items ≡ classes_of items.now order.now) }
{
    let mut classes = Vec::with_capacity(alloc, order.len())?;
    for k in order {
        classes.push(items[*k as usize].class)?;
    }
    Ok(classes)
}

// Those of some items that are of the group of a class, in their order; `classes` has the class of each.
fn members_of(
    alloc: Global,
    class: Class,
    order: &[u32],
    classes: &[Class],
) -> Result<Vec<u32>, AllocError>
    requires { length classes.now ≡ length order.now }
    ensures { IfOk result (λ members. (items : List Item) → classes.now ≡ classes_of items order.now
        → members.items ≡ filter (λ k. is_of_group class (item_at items k)) order.now) }
{
    let mut members = Vec::new(alloc);
    for (p, k) in order.iter().enumerate() {
        if are_of_one_group(classes[p], class) {
            members.push(*k)?;
        }
    }
    Ok(members)
}

// The lanes of items over shorter and longer stretches.
fn levels_of(
    alloc: Global,
    order: &[u32],
    axis: Axis,
    items: &[Item],
    coords: &Coords,
) -> Result<Vec<Level>, AllocError>
    requires few { length items.now < 2 ^ 32 }
    requires boxes { All (HasBox coords.now) items.now }
    requires among { All (λ k. k < length items.now) order.now }
    ensures { IfOk result (λ levels. All (IsLevelOf axis coords.now items.now order.now) levels.items) }
{
    let across = places_of(alloc, order, axis, items, coords)?;
    let mut levels = Vec::with_capacity(alloc, LEVELS)?;
    let mut stretches = Stretches::across(&across);
    for _ in 0..LEVELS {
        levels.push(Level::new(alloc, stretches, order, &across)?)?;
        stretches = stretches.longer(LONGER);
    }
    Ok(levels)
}

// The place of each of some items across an axis, in their order.
fn places_of(
    alloc: Global,
    order: &[u32],
    axis: Axis,
    items: &[Item],
    coords: &Coords,
) -> Result<Vec<Span>, AllocError>
    requires boxes { All (HasBox coords.now) items.now }
    requires among { All (λ k. k < length items.now) order.now }
    ensures { IfOk result (λ places. ArePlaces axis coords.now items.now order.now places.items) }
{
    let mut places = Vec::with_capacity(alloc, order.len())?;
    for k in order {
        places.push(box_along(axis, &items[*k as usize], coords).y)?;
    }
    Ok(places)
}
