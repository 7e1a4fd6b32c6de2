//! The items of a class as a tree of their boxes.

ghost use Rattle.std.specs.Prelude.{◌≡◌, ◌^◌, ◌+◌, ◌<◌, ◌≤◌, ◌↔◌, IfOk, IsTrue, All, length};
ghost use Rattle.box_tree.specs.declared.{entries.Group.Group, tree.OwnedParts.OwnedParts};
ghost use Rattle.sym_items.specs.Boxes.{HasBox};
ghost use Rattle.coarse_grid.specs.Nearby.{AreAlike, AreFlagged, AreParts, AreItemEntries, IsClassTree, IsRunAlike};
ghost use Rattle.coarse_grid.specs.Nearby.{item_in};

use box_tree::{BoxTree, Entry, Group, OwnedParts, entry_in};
use rule_table::Class;
use std::alloc::{AllocError, Global};
use sym_items::{Coords, Item, box_of};

/// A tree of the items of a class, and of each of its groups whether its items are alike.
#[derive(Drop)]
pub struct ClassTree {
    pub class: Class,
    pub parts: OwnedParts,
    pub alike: Vec<bool>,
}

/// The tree of the items of a class. The only refusal is want of memory.
pub fn class_tree(
    alloc: Global,
    items: &[Item],
    coords: &Coords,
    class: Class,
) -> Result<ClassTree, AllocError>
    requires few { length items.now ≤ 2 ^ 20 }
    requires boxes { All (HasBox coords.now) items.now }
    ensures class { IfOk result (λ tree. tree.class ≡ class) }
    ensures tree { IfOk result (IsClassTree coords.now items.now) }
{
    let entries = entries_of(alloc, items, coords, class)?;
    let parts = BoxTree::new(alloc, entries)?.into_parts();
    let alike = alike_of(alloc, items, &parts)?;
    Ok(ClassTree {
        class,
        parts,
        alike,
    })
}

// The entries of the items of a class: the owner is the item's number, the tag its net.
fn entries_of(
    alloc: Global,
    items: &[Item],
    coords: &Coords,
    class: Class,
) -> Result<Vec<Entry>, AllocError>
    requires few { length items.now ≤ 2 ^ 20 }
    requires boxes { All (HasBox coords.now) items.now }
    ensures { IfOk result (λ entries. AreItemEntries coords.now items.now class (length items.now) entries.items) }
{
    let mut entries = Vec::new(alloc);
    for i in 0..items.len() as u32 {
        let item = &items[i as usize];
        if is_of(item, class) {
            let area = box_of(item, coords);
            entries.push(Entry {
                area,
                owner: i,
                tag: item.net,
            })?;
        }
    }
    Ok(entries)
}

// Whether an item is of a class.
fn is_of(item: &Item, class: Class) -> bool
    ensures { IsTrue result ↔ (item.now.class ≡ class) }
{
    item.class == class
}

// Of each group whether its items are alike.
fn alike_of(alloc: Global, items: &[Item], parts: &OwnedParts) -> Result<Vec<bool>, AllocError>
    requires parts { AreParts items.now parts.now }
    ensures { IfOk result (λ alike. AreFlagged items.now parts.now (length parts.now.groups.items) alike.items) }
{
    let mut alike = Vec::with_capacity(alloc, parts.groups.len())?;
    for at in 0..parts.groups.len() {
        alike.push(are_alike(items, parts, &parts.groups[at]))?;
    }
    Ok(alike)
}

// Whether a group has items, and these are alike.
fn are_alike(items: &[Item], parts: &OwnedParts, group: &Group) -> bool
    requires parts { AreParts items.now parts.now }
    requires within { group.now.start + group.now.count ≤ length parts.now.entries.items }
    ensures { IsTrue result → IsRunAlike items.now parts.now group.now }
{
    let start = group.start as usize;
    for place in start..start + group.count as usize {
        let first = item_in(items, parts, start);
        if !is_alike(item_in(items, parts, place), first) {
            return false;
        }
    }
    group.count > 0
}

// Whether two items are alike.
fn is_alike(a: &Item, b: &Item) -> bool
    ensures { IsTrue result ↔ AreAlike a.now b.now }
{
    a.class == b.class && a.net == b.net && a.at_low == b.at_low && a.at_high == b.at_high
}

/// The item at a place of the tree's order.
pub fn item_in<'a>(items: &'a [Item], parts: &OwnedParts, place: usize) -> &'a Item
    requires parts { AreParts items.now parts.now }
    requires among { place < length parts.now.entries.items }
    ensures { result.now ≡ item_in items.now parts.now place }
{
    &items[entry_in(parts, place).owner as usize]
}
