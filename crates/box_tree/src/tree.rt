//! The tree: the entries that it is of, and the groups in which one with a property is found.
ghost use Rattle.std.specs.Prelude.{◌≡◌, ◌↔◌, ℕ, ◌^◌, ◌<◌, ◌≤◌, All, IfOk, IsFalse, IsTrue, MatchOption, OnOk, length};
ghost use Rattle.std.specs.Prelude.{map};
ghost use Rattle.lam_geom.specs.Places.{IsPlacedBox};
ghost use Rattle.box_tree.specs.{declared.entries.Entry.Entry, Found.{AreHolding, AreSomeHolding}};
ghost use Rattle.box_tree.specs.Queries.{HoldsAt, IsQuery};
ghost use Rattle.box_tree.specs.{Orders.AreReordered, Tree.IsTreeOf, Retagged.with_tag};
ghost use Rattle.box_tree.specs.UnvisitedTrees.{AreTagsWithin, AreTreeParts};

use crate::entries::{Entry, Group};
use crate::grow::{LONG, grown, grown_in_shares};
use crate::keys::{in_order, ordered, ordered_in_shares};
use crate::query::Query;
use crate::retagging::{retag_entries, retag_groups};
use crate::search::{search, search_few};
use std::alloc::{AllocError, Global};
use std::marker::Model;
use std::thread::Threads;

/// Some entries, with a tree by which it is found out fast whether one with a property is there. As a value it is the
/// list of the entries, in the order in which the groups have them.
#[derive(Drop)]
pub struct BoxTree {
    entries: Vec<Entry>,
    groups: Vec<Group>,
}

/// A tree as it stands: its entries in the order in which the groups have them, and the groups, each before what is
/// inside it.
#[derive(Clone, Copy)]
pub struct Parts<'a> {
    pub entries: &'a [Entry],
    pub groups: &'a [Group],
}

/// A tree that is taken apart: its entries in the order in which the groups have them, and the groups, each before
/// what is inside it.
#[derive(Drop)]
pub struct OwnedParts {
    pub entries: Vec<Entry>,
    pub groups: Vec<Group>,
}

impl Model for BoxTree {
    ghost use Rattle.std.specs.Prelude.{List};
    ghost use Rattle.box_tree.specs.declared.entries.Entry.{Entry};
    ghost use Rattle.box_tree.specs.Tree.{IsTreeOf};

    ghost Value = { List Entry };

    ghost view = { λ tree. tree.entries.items };

    ghost invariant = { λ tree. IsTreeOf tree.entries.items tree.groups.items };
}

impl BoxTree {
    /// A tree of some entries, in the time of a sort and about 30 bytes of memory an entry, beside the entries. While
    /// it is made, these stand twice, in 40 bytes more an entry. The only refusal is want of memory.
    pub fn new(alloc: Global, entries: Vec<Entry>) -> Result<BoxTree, AllocError>
        requires few { length entries.items ≤ 2 ^ 21 }
        requires placed { All (λ (entry : Entry). IsPlacedBox entry.area) entries.items }
        ensures { IfOk result (AreReordered entries.items) }
    {
        let keys = ordered(alloc, &entries)?;
        let entries = in_order(alloc, &entries, &keys)?;
        let groups = grown(alloc, &entries, &keys)?;
        Ok(BoxTree { entries, groups })
    }

    /// The same, made in so many shares, which run in threads of their own where these can be made. With one share, or
    /// where there are not many entries, no thread is started. The entries are sorted in as many threads as there are
    /// processors for. For a while about half of the groups stand twice. The only refusal is want of memory.
    pub fn in_shares<H: Threads + Sync>(
        rt: &H,
        alloc: Global,
        entries: Vec<Entry>,
        shares: u32,
    ) -> Result<BoxTree, AllocError>
        requires few { length entries.items ≤ 2 ^ 21 }
        requires placed { All (λ (entry : Entry). IsPlacedBox entry.area) entries.items }
        requires shares { (1 ≤ shares) × (shares ≤ 64) }
        ensures { IfOk result (AreReordered entries.items) }
    {
        if shares == 1 || entries.len() < LONG as usize {
            return BoxTree::new(alloc, entries);
        }
        let keys = ordered_in_shares(rt, alloc, &entries, shares)?;
        let entries = in_order(alloc, &entries, &keys)?;
        let groups = grown_in_shares(rt, alloc, &entries, &keys, shares)?;
        Ok(BoxTree { entries, groups })
    }

    /// The entries, in the order of the tree.
    pub fn entries(&self) -> &[Entry]
        ensures { result.now ≡ self.now }
    {
        self.entries.as_slice()
    }

    /// The tree as it stands, for a walk of one's own.
    pub fn parts(&self) -> Parts<'_>
        ensures entries { result.entries.now ≡ self.now }
        ensures tree { IsTreeOf self.now result.groups.now }
    {
        Parts {
            entries: &self.entries,
            groups: &self.groups,
        }
    }

    /// The same as a tree no more, with nothing copied.
    pub fn into_parts(self) -> OwnedParts
        ensures entries { result.entries.items ≡ self }
        ensures tree { IsTreeOf self result.groups.items }
    {
        OwnedParts {
            entries: self.entries,
            groups: self.groups,
        }
    }

    /// The tree of the same entries under other tags: in place of each tag, what stands in a list at it. In the time
    /// of a walk over the entries. The only refusal is want of memory.
    pub fn with_tags(alloc: Global, parts: OwnedParts, tags: &[u32]) -> Result<BoxTree, AllocError>
        requires parts { AreTreeParts parts }
        requires tags { AreTagsWithin (length tags.now) parts.entries.items }
        ensures { IfOk result (λ tree. tree ≡ map (with_tag tags.now) parts.entries.items) }
    {
        let OwnedParts {
            mut entries,
            mut groups,
        } = parts;
        let firsts = retag_entries(alloc, &mut entries, tags)?;
        retag_groups(&mut groups, &firsts, &entries);
        Ok(BoxTree { entries, groups })
    }

    /// The number of some entry that holds a query, or None where no entry does. Takes no memory.
    pub fn find(&self, query: &Query) -> Option<u32>
        requires { IsQuery query.now }
        ensures { MatchOption result
            ((k : ℕ) → HoldsAt self.now query.now k → ⊥)
            (HoldsAt self.now query.now) }
    {
        search(&self.entries, &self.groups, query)
    }

    /// The numbers of all entries that hold a query, in no order, in place of what was in `found`. The only refusal
    /// is want of memory.
    pub fn all(&self, query: &Query, found: &mut Vec<u32>) -> Result<(), AllocError>
        requires { IsQuery query.now }
        ensures { OnOk result (AreHolding self.now query.now found.new.items) }
    {
        self.few(query, usize::MAX, found)?;
        Ok(())
    }

    /// Whether at most so many entries hold a query. If so, their numbers stand in `found`, in no order, in place of
    /// what was there; if not, those of some of them, more than `most`. The only refusal is want of memory.
    pub fn few(&self, query: &Query, most: usize, found: &mut Vec<u32>) -> Result<bool, AllocError>
        requires { IsQuery query.now }
        ensures all { IfOk result
            (λ few. IsTrue few → AreHolding self.now query.now found.new.items × (length found.new.items ≤ most)) }
        ensures more { IfOk result
            (λ few. IsFalse few → AreSomeHolding self.now query.now found.new.items × (most < length found.new.items)) }
    {
        found.clear();
        search_few(&self.entries, &self.groups, query, most, found)
    }

    /// Whether some entry holds a query. Takes no memory.
    pub fn any(&self, query: &Query) -> bool
        requires { IsQuery query.now }
        ensures { IsTrue result ↔ ((k : ℕ) × HoldsAt self.now query.now k) }
    {
        self.find(query).is_some()
    }
}
