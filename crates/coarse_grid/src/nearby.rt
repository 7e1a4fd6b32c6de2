//! The first pair of items that are too near one another in a layout, found by trees of the items of each class.

ghost use Rattle.std.specs.Prelude.{◌≡◌, ◌+◌, ◌<◌, ◌≤◌, ◌^◌, ℕ, pos, ◌≤ℤ◌, true, None, length, All, IsTrue, MatchBool};
ghost use Rattle.std.specs.Prelude.{IfOk, IfNone, IfSome};
ghost use Rattle.box_tree.specs.{declared.entries.Entry.Entry, UnvisitedTrees.{IsInRun, group_at}, Queries.Holds};
ghost use Rattle.box_tree.specs.Queries.{IsQuery, IsQuestion};
ghost use Rattle.sym_items.specs.Boxes.{HasBox};
ghost use Rattle.pair_rules.specs.{Bound.{item_at, bound_spacing}, Clean.IsClean};
ghost use Rattle.coarse_grid.specs.Clash.{is_near_at, IsFirstClash};
ghost use Rattle.coarse_grid.specs.Nearby.{AreParts, HasNear, IsClassTree, IsFarRun, IsFirstNear, IsFirstOf, IsNearOf};
ghost use Rattle.coarse_grid.specs.Nearby.{IsRunAlike, IsItemEntry, item_in, question_of};

use crate::clash::{first_near, is_near};
use crate::class_tree::{ClassTree, class_tree, item_in};
use box_tree::{Group, OwnedParts, Query, Question, entry_in};
use pair_rules::is_bound;
use rule_table::{Class, Rule, Tech};
use std::alloc::{AllocError, Global};
use sym_items::{Coords, Item, box_of};

// What the entries of a class hold whose items are too near to item `i`; none where the two classes have no rule.
fn query_of(tech: &Tech, items: &[Item], coords: &Coords, class: Class, i: u32) -> Option<Query>
    requires boxes { All (HasBox coords.now) items.now }
    requires among { i < length items.now }
    ensures none { IfNone result ((k : ℕ) → IsNearOf tech.now coords.now items.now class i k → ⊥) }
    ensures query { IfSome result IsQuery }
    ensures some { IfSome result (λ query. (entry : Entry) → IsItemEntry coords.now items.now class entry
        → is_near_at tech.now coords.now items.now i entry.owner ≡ true → Holds query entry) }
{
    let item = &items[i as usize];
    let rule = tech.spacing(item.class, class)?;
    Some(Query {
        area: box_of(item, coords),
        question: question_of(rule, i, item.net),
    })
}

// What is asked of the entries of a class that has this rule with the class of item `i`, which is of this net.
fn question_of(rule: Rule, i: u32, net: u32) -> Question
    requires spacing { (pos 1 ≤ℤ rule.s) × (rule.s ≤ℤ pos 4096) }
    ensures value { result ≡ question_of rule i net }
    ensures question { IsQuestion result }
{
    let reach = rule.s - 1;
    if rule.net_exempt {
        Question::NearOfOtherTag {
            reach,
            owner: i,
            tag: net,
        }
    } else {
        Question::NearOfOther { reach, owner: i }
    }
}

// Whether no item of a group is bound to item `i`, as the first one is not, and all are alike. Where the answer is no,
// none may be bound all the same.
fn is_unbound(tech: &Tech, items: &[Item], parts: &OwnedParts, group: &Group, i: u32) -> bool
    requires parts { AreParts items.now parts.now }
    requires within { group.now.start + group.now.count ≤ length parts.now.entries.items }
    requires alike { IsRunAlike items.now parts.now group.now }
    requires among { i < length items.now }
    ensures { IsTrue result → (p : ℕ) → IsInRun group.now p
        → bound_spacing tech.now (item_at items.now i) (item_in items.now parts.now p) ≡ None }
{
    let item = &items[i as usize];
    let first = item_in(items, parts, group.start as usize);
    item.owner != first.owner && is_bound(tech, item, first).is_none()
}

// Whether it is plain that no item of a group is too near to item `i`: the bounds of the group lie too far off, or none
// is bound to it. Where the answer is no, none may be too near all the same.
fn is_left_out(
    tech: &Tech,
    items: &[Item],
    coords: &Coords,
    tree: &ClassTree,
    at: usize,
    query: &Query,
    i: u32,
) -> bool
    requires tree { IsClassTree coords.now items.now tree.now }
    requires there { at < length tree.now.parts.groups.items }
    requires among { i < length items.now }
    requires query { IsQuery query.now }
    requires asked { (entry : Entry) → IsItemEntry coords.now items.now tree.now.class entry
        → is_near_at tech.now coords.now items.now i entry.owner ≡ true → Holds query.now entry }
    ensures { IsTrue result
        → IsFarRun tech.now coords.now items.now tree.now.parts (group_at tree.now.parts.groups.items at) i }
{
    let group = &tree.parts.groups[at];
    !group.may_hold(query) || tree.alike[at] && is_unbound(tech, items, &tree.parts, group, i)
}

// Whether an item of a group is too near to item `i`.
fn has_near_in(
    tech: &Tech,
    items: &[Item],
    coords: &Coords,
    tree: &ClassTree,
    group: &Group,
    query: &Query,
    i: u32,
) -> bool
    requires boxes { All (HasBox coords.now) items.now }
    requires tree { IsClassTree coords.now items.now tree.now }
    requires within { group.now.start + group.now.count ≤ length tree.now.parts.entries.items }
    requires among { i < length items.now }
    requires query { IsQuery query.now }
    requires asked { (entry : Entry) → IsItemEntry coords.now items.now tree.now.class entry
        → is_near_at tech.now coords.now items.now i entry.owner ≡ true → Holds query.now entry }
    ensures { MatchBool result
        (HasNear tech.now coords.now items.now i)
        (IsFarRun tech.now coords.now items.now tree.now.parts group.now i) }
{
    let start = group.start as usize;
    for place in start..start + group.count as usize {
        let entry = entry_in(&tree.parts, place);
        if query.holds(entry)
            && is_near(
                tech,
                coords,
                &items[i as usize],
                &items[entry.owner as usize],
            )
        {
            return true;
        }
    }
    false
}

// Whether an item of a class is too near to item `i`. Groups whose bounds lie too far off, or of which no item is bound
// to item `i`, are left out whole.
fn has_near(tech: &Tech, items: &[Item], coords: &Coords, tree: &ClassTree, i: u32) -> bool
    requires boxes { All (HasBox coords.now) items.now }
    requires tree { IsClassTree coords.now items.now tree.now }
    requires among { i < length items.now }
    ensures { MatchBool result
        (HasNear tech.now coords.now items.now i)
        ((k : ℕ) → IsNearOf tech.now coords.now items.now tree.now.class i k → ⊥) }
{
    let Some(query) = query_of(tech, items, coords, tree.class, i) else {
        return false;
    };
    let parts = &tree.parts;
    let mut at = 0;
    while at < parts.groups.len() {
        let group = &parts.groups[at];
        let left_out = is_left_out(tech, items, coords, tree, at, &query, i);
        at += 1;
        if left_out {
            at += group.inside as usize;
        } else if group.inside == 0 && has_near_in(tech, items, coords, tree, group, &query, i) {
            return true;
        }
    }
    false
}

// The first item before the item `end` to which one of a class is too near, or `end`. The only refusal is want of
// memory.
fn first_of(
    alloc: Global,
    tech: &Tech,
    items: &[Item],
    coords: &Coords,
    class: Class,
    end: u32,
) -> Result<u32, AllocError>
    requires few { length items.now ≤ 2 ^ 20 }
    requires boxes { All (HasBox coords.now) items.now }
    requires within { end ≤ length items.now }
    ensures { IfOk result (IsFirstOf tech.now coords.now items.now class end) }
{
    let tree = class_tree(alloc, items, coords, class)?;
    for i in 0..end {
        if has_near(tech, items, coords, &tree, i) {
            return Ok(i);
        }
    }
    Ok(end)
}

// The first pair of items that are too near one another, by the first item to which some item is.
fn pair_of(tech: &Tech, items: &[Item], coords: &Coords, first: u32) -> Option<(u32, u32)>
    requires few { length items.now ≤ 2 ^ 20 }
    requires boxes { All (HasBox coords.now) items.now }
    requires first { IsFirstNear tech.now coords.now items.now first }
    ensures none { IfNone result (IsClean tech.now coords.now items.now) }
    ensures clean { IsClean tech.now coords.now items.now → result ≡ None }
    ensures clash { IfSome result (λ p. IsFirstClash tech.now coords.now items.now p.0 p.1) }
{
    if first as usize == items.len() {
        return None;
    }
    let other = first_near(tech, items, coords, first)?;
    Some((first, other))
}

/// What `find_clash` finds, in about the time of a sort. The only refusal is want of memory.
pub fn first_clash(
    alloc: Global,
    tech: &Tech,
    items: &[Item],
    coords: &Coords,
) -> Result<Option<(u32, u32)>, AllocError>
    requires few { length items.now ≤ 2 ^ 20 }
    requires boxes { All (HasBox coords.now) items.now }
    ensures none { IfOk result (λ found. IfNone found (IsClean tech.now coords.now items.now)) }
    ensures clean { IfOk result (λ found. IsClean tech.now coords.now items.now → found ≡ None) }
    ensures clash { IfOk result (λ found. IfSome found (λ p. IsFirstClash tech.now coords.now items.now p.0 p.1)) }
{
    let mut first = items.len() as u32;
    for class in [
        Class::M,
        Class::P,
        Class::Dc,
        Class::Dm,
        Class::C,
        Class::I,
        Class::G,
        Class::B,
    ] {
        first = first_of(alloc, tech, items, coords, class, first)?;
    }
    Ok(pair_of(tech, items, coords, first))
}
