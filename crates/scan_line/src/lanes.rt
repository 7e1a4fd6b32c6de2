//! The lanes of a layout.

ghost use Rattle.std.specs.Prelude.{◌≡◌, ℕ, ◌<◌, ◌^◌, ℤ, pos, ◌≤ℤ◌, ◌<ℤ◌, length, All, AllPairs, Contains, IfOk, List};
ghost use Rattle.lam_geom.specs.declared.boxes.Axis.{Axis};
ghost use Rattle.sym_items.specs.{declared.items.{Item.Item, Coords.Coords}, Boxes.HasBox, Sides.gap_on_y};
ghost use Rattle.pair_rules.specs.{Bound.item_at, Candidates.sides_at};
ghost use Rattle.scan_line.specs.{Order.{ComesBefore, IsScanOrder}, Lanes.AreLanesOf, Groups.AreOfOneGroup};
ghost use Rattle.scan_line.specs.Groups.{IsGroupOf};

use crate::group::{Group, classes_of};
use crate::sorting::{begins_of, part_before, sort_order};
use lam_geom::Axis;
use rule_table::Class;
use std::alloc::{AllocError, Global};
use sym_items::{Coords, Item};

/// The items of a layout in the order of a scan along an axis, and which of them lie where across it.
#[derive(Drop)]
pub struct Lanes {
    order: Vec<u32>,
    begins: Vec<i64>,
    metal: Group,
    diffusion: Group,
    poly: Group,
    channels: Group,
}

impl Lanes {
    /// The lanes of items in a layout, in the time of a sort and some tens of bytes an item. The only refusal
    /// is want of memory.
    pub fn new(
        alloc: Global,
        axis: Axis,
        items: &[Item],
        coords: &Coords,
    ) -> Result<Lanes, AllocError>
        requires few { length items.now < 2 ^ 32 }
        requires boxes { All (HasBox coords.now) items.now }
        ensures { IfOk result (AreLanesOf axis coords.now items.now) }
    {
        let begins = begins_of(alloc, axis, items, coords)?;
        let order = sort_order(alloc, &begins)?;
        let classes = classes_of(alloc, &order, items)?;
        let metal = Group::new(alloc, Class::M, &order, &classes, axis, items, coords)?;
        let diffusion = Group::new(alloc, Class::Dc, &order, &classes, axis, items, coords)?;
        let poly = Group::new(alloc, Class::P, &order, &classes, axis, items, coords)?;
        let channels = Group::new(alloc, Class::C, &order, &classes, axis, items, coords)?;
        Ok(Lanes {
            order,
            begins,
            metal,
            diffusion,
            poly,
            channels,
        })
    }

    /// The numbers of all items in the order of the scan.
    pub fn order(&self) -> &[u32]
        ensures value { result.now ≡ self.now.order.items }
        ensures in_order { (axis : Axis) (coords : Coords) (items : List Item)
            → AreLanesOf axis coords items self.now → IsScanOrder axis coords items result.now }
    {
        &self.order
    }

    /// Items to which the scan comes before item `j`, in its order: all of its group that lie nearer to it than
    /// `reach` across the axis, and perhaps others. It is a search in a list, and takes no memory.
    pub(crate) fn line_to(
        &self,
        axis: Axis,
        items: &[Item],
        coords: &Coords,
        reach: i64,
        j: u32,
    ) -> &[u32]
        requires few { length items.now < 2 ^ 32 }
        requires boxes { All (HasBox coords.now) items.now }
        requires lanes { AreLanesOf axis coords.now items.now self.now }
        requires among { j < length items.now }
        requires reach { (pos 0 ≤ℤ reach) × (reach ≤ℤ pos 4096) }
        ensures in_range { All (λ i. i < length items.now) result.now }
        ensures in_order { AllPairs (ComesBefore axis coords.now items.now) result.now }
        ensures before { All (λ i. ComesBefore axis coords.now items.now i j) result.now }
        ensures all { (i : ℕ) → i < length items.now → AreOfOneGroup (item_at items.now i).class (item_at
            items.now j).class → ComesBefore axis coords.now items.now i j
            → gap_on_y (sides_at axis coords.now (item_at items.now i)) (sides_at axis coords.now (item_at
            items.now j)) <ℤ reach → Contains result.now i }
    {
        let group = self.group(items[j as usize].class);
        let list = group.list_near(axis, items, coords, reach, j);
        part_before(&self.begins, list, j)
    }

    // The group of a class.
    fn group(&self, class: Class) -> &Group
        ensures { (axis : Axis) (coords : Coords) (items : List Item) → AreLanesOf axis coords items self.now
            → IsGroupOf axis coords items class result.now }
    {
        match class {
            Class::M => &self.metal,
            Class::Dc => &self.diffusion,
            Class::P | Class::Dm => &self.poly,
            Class::C | Class::I | Class::G | Class::B => &self.channels,
        }
    }
}
