//! A look from one bar at another.

ghost use Rattle.std.specs.Prelude.{◌≡◌, ◌≢◌, ◌≤◌, ◌<◌, ◌↔◌, ℕ, length, Contains, OnOk, IfErr, IfOk, MatchOption, Some};
ghost use Rattle.std.specs.Prelude.{◌+ℤ◌, pos, IsTrue, false};
ghost use Rattle.pair_set.specs.Sets.{pairs_of, limit_of, RefusesPair};
ghost use Rattle.bar_rows.specs.{Rows.{bar_at, Sees, Varies, numbers_of}, Facing.Faces};
ghost use Rattle.bar_tree.specs.Trees.{IsTreeOf, IsAskedFor};
ghost use Rattle.bar_sight.specs.Sight.{IsRow, AllBegun, AddsFrom, IsScreen};
ghost use Rattle.bar_sight.specs.declared.row.Row.{Row};
ghost use Rattle.bar_sight.specs.Looks.{IsFree, IsClear, key_of, contacts_of};

use crate::row::Row;
use bar_rows::{Bar, Contacts, screens};
use bar_tree::{Query, Tree};
use pair_set::{PairSet, SetFault};
use sym_items::NOWHERE;

/// Before all places.
pub(crate) const LOW: i64 = i64::MIN;

/// No contacts.
pub(crate) const FREE: Contacts = Contacts {
    low: NOWHERE,
    high: NOWHERE,
};

/// What is known of bars that may screen: a search among the main bars that have started found none that it asks for,
/// behind a bar and before a place.
#[derive(Clone, Copy)]
pub(crate) struct Clear {
    pub query: Query,
    pub to: usize,
}

/// Nothing is known yet of the bars behind a place.
pub(crate) fn clear_from(place: usize) -> Clear
    ensures { (row : Row) → IsClear row place result }
{
    Clear {
        query: Query {
            above: LOW,
            from: LOW,
            key: None,
            other: None,
            contacts: FREE,
        },
        to: 0,
    }
}

/// The key of a main bar; none of another.
pub(crate) fn key_of(bar: &Bar) -> Option<u32>
    ensures { result ≡ key_of bar.now }
{
    bar.is_main.then_some(bar.key)
}

/// The contacts of a bar that is not a main one; none of a main one.
pub(crate) fn contacts_of(bar: &Bar) -> Contacts
    ensures { result ≡ contacts_of bar.now }
{
    if bar.is_main { FREE } else { bar.contacts }
}

/// Whether a bar has no contact.
pub(crate) fn is_free(bar: &Bar) -> bool
    ensures { IsTrue result ↔ IsFree bar.now }
{
    bar.contacts.low == NOWHERE && bar.contacts.high == NOWHERE
}

/// Whether a number is there, and another one than this.
pub(crate) fn is_other(there: Option<u32>, number: u32) -> bool
    ensures { IsTrue result → (k : ℕ) × (there ≡ Some k) × (k ≢ number) }
{
    match there {
        Some(k) => k != number,
        None => false,
    }
}

impl Row {
    // The first bar of a tree from one place on and before another that screens two bars from each other, of those that
    // are asked for; none before the first place is.
    fn screen_in(
        &self,
        tree: &Tree,
        query: &Query,
        from: usize,
        place: usize,
        far: usize,
    ) -> Option<usize>
        requires tree { IsTreeOf self.now.bars.items tree.now }
        requires after { place < from }
        requires none { (k : ℕ) → place < k → k < from → IsAskedFor self.now.bars.items tree.now query.now k → ⊥ }
        requires among { far < length self.now.bars.items }
        ensures { MatchOption result
            ((k : ℕ) → IsAskedFor self.now.bars.items tree.now query.now k → IsScreen self.now place far k → ⊥)
            (IsScreen self.now place far) }
    {
        let bars = self.bars.as_slice();
        let mut from = from;
        while let Some(k) = tree.find(bars, query, from, far) {
            if screens(self.self_rule, &bars[place], &bars[far], &bars[k]) {
                return Some(k);
            }
            from = k + 1;
        }
        None
    }

    // What asks for all main bars that may screen two others.
    fn main_query(&self, place: usize, far: usize) -> Query
        requires row { IsRow self.now }
        requires in_order { place < far }
        requires among { far < length self.now.bars.items }
        requires begun { AllBegun self.now (bar_at self.now.bars.items place).end }
        ensures asks { (k : ℕ) → IsTrue (bar_at self.now.bars.items k).is_main → IsScreen self.now place far k
            → IsAskedFor self.now.bars.items self.now.mains result k }
        ensures not_far { IsAskedFor self.now.bars.items self.now.mains result far → ⊥ }
    {
        let bars = self.bars.as_slice();
        let (first, second) = (&bars[place], &bars[far]);
        let contacts = if first.is_main {
            contacts_of(second)
        } else {
            first.contacts
        };
        Query {
            above: first.start.max(second.start),
            from: LOW,
            key: key_of(first),
            other: key_of(second),
            contacts,
        }
    }

    // A place behind another before which no main bar is asked for, by what a search found.
    fn first_to_ask(&self, query: &Query, place: usize, clear: &Clear) -> usize
        requires row { IsRow self.now }
        requires among { place < length self.now.bars.items }
        requires clear { IsClear self.now place clear.now }
        ensures after { place < result }
        ensures none { (k : ℕ) → place < k → k < result
            → IsAskedFor self.now.bars.items self.now.mains query.now k → ⊥ }
    {
        if clear.to > place && clear.query.asks_for_all_of(query) {
            return clear.to;
        }
        place + 1
    }

    // A main bar that screens two bars that face each other, if there is one.
    fn main_screen(&self, place: usize, far: usize, clear: &mut Clear) -> Option<usize>
        requires row { IsRow self.now }
        requires in_order { place < far }
        requires among { far < length self.now.bars.items }
        requires faces { Faces self.now.self_rule (bar_at self.now.bars.items place) (bar_at self.now.bars.items far) }
        requires begun { AllBegun self.now (bar_at self.now.bars.items place).end }
        requires clear { IsClear self.now place clear.old }
        ensures clear { IsClear self.now place clear.new }
        ensures screen { MatchOption result
            ((k : ℕ) → IsTrue (bar_at self.now.bars.items k).is_main → IsScreen self.now place far k → ⊥)
            (IsScreen self.now place far) }
    {
        if !self.self_rule {
            return None;
        }
        let query = self.main_query(place, far);
        let from = self.first_to_ask(&query, place, clear);
        let Some(first) = self.mains.find(self.bars.as_slice(), &query, from, far) else {
            // The query does not ask for the bar farther along itself.
            *clear = Clear { query, to: far + 1 };
            return None;
        };
        self.screen_in(&self.mains, &query, first, place, far)
    }

    // A bar that is not a main one and screens two bars that face each other, if there is one.
    fn other_screen(&self, place: usize, far: usize) -> Option<usize>
        requires row { IsRow self.now }
        requires in_order { place < far }
        requires among { far < length self.now.bars.items }
        requires begun { AllBegun self.now (bar_at self.now.bars.items place).end }
        ensures { MatchOption result
            ((k : ℕ) → (bar_at self.now.bars.items k).is_main ≡ false → IsScreen self.now place far k → ⊥)
            (IsScreen self.now place far) }
    {
        let bars = self.bars.as_slice();
        let (first, second) = (&bars[place], &bars[far]);
        if !first.is_main || !second.is_main {
            return None;
        }
        let query = Query {
            above: first.start.max(second.start),
            from: LOW,
            key: None,
            other: None,
            contacts: FREE,
        };
        self.screen_in(&self.others, &query, place + 1, place, far)
    }

    // A bar that screens two bars that face each other, if there is one.
    fn screen(&self, place: usize, far: usize, clear: &mut Clear) -> Option<usize>
        requires row { IsRow self.now }
        requires in_order { place < far }
        requires among { far < length self.now.bars.items }
        requires faces { Faces self.now.self_rule (bar_at self.now.bars.items place) (bar_at self.now.bars.items far) }
        requires begun { AllBegun self.now (bar_at self.now.bars.items place).end }
        requires clear { IsClear self.now place clear.old }
        ensures clear { IsClear self.now place clear.new }
        ensures screen { MatchOption result (Sees self.now.self_rule self.now.bars.items place far)
            (IsScreen self.now place far) }
    {
        let found = self.main_screen(place, far, clear);
        if found.is_some() {
            return found;
        }
        self.other_screen(place, far)
    }

    /// Adds the pair of two bars that face each other, if they see each other and their ends stand on different
    /// variables; gives a bar that screens them, if they do not.
    pub(crate) fn look(
        &self,
        place: usize,
        far: usize,
        clear: &mut Clear,
        found: &mut PairSet,
    ) -> Result<Option<usize>, SetFault>
        requires row { IsRow self.now }
        requires in_order { place < far }
        requires among { far < length self.now.bars.items }
        requires faces { Faces self.now.self_rule (bar_at self.now.bars.items place) (bar_at self.now.bars.items far) }
        requires begun { AllBegun self.now (bar_at self.now.bars.items place).end }
        requires clear { IsClear self.now place clear.old }
        requires few { length (pairs_of found.old) ≤ limit_of found.old }
        ensures clear { IsClear self.now place clear.new }
        ensures adds { AddsFrom self.now place found.old found.new }
        ensures few { OnOk result (length (pairs_of found.new) ≤ limit_of found.new) }
        ensures screen { IfOk result (λ screen. MatchOption screen
            (Varies self.now.bars.items place far
            → Contains (pairs_of found.new) (numbers_of self.now.turned self.now.bars.items place far))
            (IsScreen self.now place far)) }
        ensures fault { IfErr result (RefusesPair found.new) }
    {
        let screen = self.screen(place, far, clear);
        if screen.is_some() {
            return Ok(screen);
        }
        let bars = self.bars.as_slice();
        if bars[place].high != bars[far].low {
            found.insert(self.numbers(place, far))?;
        }
        Ok(None)
    }

    /// The place just before the end of a bar: what ends behind it is still there when the bar ends.
    pub(crate) fn before_end(&self, place: usize) -> i64
        requires row { IsRow self.now }
        requires among { place < length self.now.bars.items }
        ensures { (result +ℤ pos 1) ≡ (bar_at self.now.bars.items place).end }
    {
        self.bars[place].end - 1
    }

    // The numbers of the items of two bars, the one that is later on the axis first.
    fn numbers(&self, place: usize, far: usize) -> (u32, u32)
        requires in_order { place < length self.now.bars.items }
        requires among { far < length self.now.bars.items }
        ensures { result ≡ numbers_of self.now.turned self.now.bars.items place far }
    {
        let (first, second) = (self.bars[place].item, self.bars[far].item);
        if self.turned {
            (first, second)
        } else {
            (second, first)
        }
    }
}
