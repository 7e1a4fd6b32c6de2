//! New tags for the entries of a tree and its groups.
ghost use Rattle.std.specs.Prelude.{◌≡◌, ◌+◌, ◌^◌, ◌<◌, ◌≤◌, All, IfOk, OnOk, length, map};
ghost use Rattle.box_tree.specs.{declared.entries.Group.Group, UnvisitedTrees.AreTagsWithin};
ghost use Rattle.box_tree.specs.Retagged.{AreAlikeFrom, retagged, run_tag, with_tag};

use crate::entries::{Entry, Group};
use std::alloc::{AllocError, Global};

/// Gives each entry the tag that stands in a list at its own. The result has for each place of their order one from
/// which on all up to it have its new tag: the first, to serve `retag_groups` best.
pub fn retag_entries(
    alloc: Global,
    entries: &mut Vec<Entry>,
    tags: &[u32],
) -> Result<Vec<u32>, AllocError>
    requires tags { AreTagsWithin (length tags.now) entries.old.items }
    requires few { length entries.old.items ≤ 2 ^ 21 }
    ensures retagged { OnOk result (entries.new.items ≡ map (with_tag tags.now) entries.old.items) }
    ensures alike { IfOk result
        (λ firsts. AreAlikeFrom entries.new.items (length entries.new.items) firsts.items) }
{
    let mut firsts = Vec::with_capacity(alloc, entries.len())?;
    let mut first = 0;
    let mut tag = 0;
    for place in 0..entries.len() {
        let entry = entries[place];
        let own = tags[entry.tag as usize];
        entries[place] = Entry { tag: own, ..entry };
        if own != tag {
            first = place as u32;
            tag = own;
        }
        firsts.push(first)?;
    }
    Ok(firsts)
}

/// Gives each group the tag of its entries, where all have one.
pub fn retag_groups(groups: &mut Vec<Group>, firsts: &[u32], entries: &[Entry])
    requires within { All (λ (group : Group). group.start + group.count ≤ length entries.now) groups.old.items }
    requires one_each { length firsts.now ≡ length entries.now }
    requires few { length entries.now ≤ 2 ^ 21 }
    ensures { groups.new.items ≡ map (retagged firsts.now entries.now) groups.old.items }
{
    for k in 0..groups.len() {
        let group = groups[k];
        groups[k] = Group {
            tag: tag_of(&group, firsts, entries),
            ..group
        };
    }
}

// The tag of all entries of a group, if it is one.
fn tag_of(group: &Group, firsts: &[u32], entries: &[Entry]) -> Option<u32>
    requires within { group.now.start + group.now.count ≤ length entries.now }
    requires one_each { length firsts.now ≡ length entries.now }
    requires few { length entries.now ≤ 2 ^ 21 }
    ensures { result ≡ run_tag firsts.now entries.now group.now }
{
    if group.count == 0 {
        return None;
    }
    let last = (group.start + group.count - 1) as usize;
    if firsts[last] > group.start {
        return None;
    }
    Some(entries[last].tag)
}
