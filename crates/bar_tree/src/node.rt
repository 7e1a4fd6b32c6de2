//! What a search asks for, and what a node knows of its bars.

ghost use Rattle.std.specs.Prelude.{◌↔◌, ◌≡◌, ◌≢◌, ◌≤ℤ◌, ℕ, IsTrue, Some, true};
ghost use Rattle.bar_rows.specs.{declared.bars.Bar.Bar, Contacts.HasContact};
ghost use Rattle.bar_tree.specs.Nodes.{Fits, Covers, EndsWithin, IsNode, HasLeastRest, IsAlike};

use bar_rows::{Bar, Contacts};
use sym_items::NOWHERE;

/// What a search asks for: a bar that ends behind `above` and starts at `from` or later, whose key is none of two, and
/// that shares none of these contacts.
#[derive(Clone, Copy)]
pub struct Query {
    pub above: i64,
    pub from: i64,
    pub key: Option<u32>,
    pub other: Option<u32>,
    pub contacts: Contacts,
}

impl Query {
    /// Whether all bars are asked for that another query asks for. A bar may be asked for all the same where this says
    /// no.
    pub fn asks_for_all_of(&self, other: &Query) -> bool
        ensures { IsTrue result → (b : Bar) → Fits other.now b → Fits self.now b }
    {
        if self.above > other.above || self.from > other.from {
            return false;
        }
        if !is_same(self.key, other.key) || !is_same(self.other, other.other) {
            return false;
        }
        are_same(self.contacts, other.contacts)
    }

    /// Whether a bar is asked for.
    #[inline(always)]
    pub(crate) fn fits(&self, bar: &Bar) -> bool
        ensures { IsTrue result ↔ Fits self.now bar.now }
    {
        if bar.end <= self.above || bar.start < self.from {
            return false;
        }
        if !is_other(self.key, bar.key) || !is_other(self.other, bar.key) {
            return false;
        }
        !self.contacts.share(bar.contacts)
    }
}

// Whether two keys that are left out are the same, or none is in either.
#[inline(always)]
fn is_same(a: Option<u32>, b: Option<u32>) -> bool
    ensures { IsTrue result → a ≡ b }
{
    match (a, b) {
        (Some(a), Some(b)) => a == b,
        (None, None) => true,
        _ => false,
    }
}

// Whether contacts are the same.
#[inline(always)]
fn are_same(a: Contacts, b: Contacts) -> bool
    ensures { IsTrue result → a ≡ b }
{
    a.low == b.low && a.high == b.high
}

// Whether a key is not the one that is left out.
#[inline(always)]
fn is_other(left_out: Option<u32>, key: u32) -> bool
    ensures { IsTrue result ↔ (left_out ≢ Some key) }
{
    match left_out {
        Some(out) => out != key,
        None => true,
    }
}

/// What is known of some bars: the two keys whose bars end last, each with its greatest end, and the greatest end of
/// all others; the latest start; and the contacts that all of them have.
#[derive(Clone, Copy)]
pub(crate) struct Node {
    pub first_key: u32,
    pub second_key: u32,
    pub first: i64,
    pub second: i64,
    pub rest: i64,
    pub late: i64,
    pub contacts: Contacts,
    pub is_empty: bool,
}

// Before all places.
const LOW: i64 = i64::MIN;

impl Node {
    /// A node of no bars.
    pub(crate) fn empty() -> Node
        ensures { IsNode result }
    {
        Node {
            first_key: 0,
            second_key: 0,
            first: LOW,
            second: LOW,
            rest: LOW,
            late: LOW,
            contacts: Contacts {
                low: NOWHERE,
                high: NOWHERE,
            },
            is_empty: true,
        }
    }

    /// With one bar more.
    pub(crate) fn with(self, bar: &Bar) -> Node
        requires node { IsNode self }
        ensures node { IsNode result }
        ensures one { Covers result bar.now }
        ensures others { (b : Bar) → Covers self b → Covers result b }
    {
        let node = Node {
            late: self.late.max(bar.start),
            contacts: self.contacts_with(bar.contacts),
            is_empty: false,
            ..self
        };
        node.with_end(bar.key, bar.end).in_order()
    }

    // The contacts that one bar more has too.
    fn contacts_with(&self, contacts: Contacts) -> Contacts
        ensures one { (k : ℕ) → HasContact result k → HasContact contacts k }
        ensures others { self.now.is_empty ≢ true → (k : ℕ) → HasContact result k → HasContact self.now.contacts k }
    {
        if self.is_empty {
            contacts
        } else {
            common(self.contacts, contacts)
        }
    }

    // With the end of one bar more.
    fn with_end(self, key: u32, end: i64) -> Node
        requires { IsNode self }
        ensures kept { IsAlike self result }
        ensures ordered { HasLeastRest result }
        ensures one { (b : Bar) → b.key ≡ key → b.end ≡ end → EndsWithin result b }
        ensures others { (b : Bar) → EndsWithin self b → EndsWithin result b }
    {
        if key == self.first_key {
            return Node {
                first: self.first.max(end),
                ..self
            };
        }
        if key == self.second_key {
            return Node {
                second: self.second.max(end),
                ..self
            };
        }
        if end <= self.second {
            return Node {
                rest: self.rest.max(end),
                ..self
            };
        }
        Node {
            second_key: key,
            second: end,
            rest: self.second,
            ..self
        }
    }

    // With the key whose bars end last as the first.
    fn in_order(self) -> Node
        requires { HasLeastRest self }
        ensures node { IsNode result }
        ensures kept { IsAlike self result }
        ensures others { (b : Bar) → EndsWithin self b → EndsWithin result b }
    {
        if self.second <= self.first {
            return self;
        }
        Node {
            first_key: self.second_key,
            second_key: self.first_key,
            first: self.second,
            second: self.first,
            ..self
        }
    }

    /// Whether some of its bars may be asked for.
    #[inline(always)]
    pub(crate) fn may_fit(&self, query: &Query) -> bool
        requires node { IsNode self.now }
        ensures { (b : Bar) → Covers self.now b → Fits query.now b → IsTrue result }
    {
        if self.first <= query.above {
            return false;
        }
        if self.end_beside(query) <= query.above || self.late < query.from {
            return false;
        }
        !self.contacts.share(query.contacts)
    }

    // An end that no bar passes whose key is none of the two that are left out.
    #[inline(always)]
    fn end_beside(&self, query: &Query) -> i64
        requires { IsNode self.now }
        ensures { (b : Bar) → EndsWithin self.now b → query.now.key ≢ Some b.key → query.now.other ≢ Some b.key
            → b.end ≤ℤ result }
    {
        if is_other(query.key, self.first_key) && is_other(query.other, self.first_key) {
            self.first
        } else if is_other(query.key, self.second_key) && is_other(query.other, self.second_key) {
            self.second
        } else {
            self.rest
        }
    }
}

// The contacts of one bar that are another's too.
fn common(a: Contacts, b: Contacts) -> Contacts
    ensures first { (k : ℕ) → HasContact result k → HasContact a k }
    ensures second { (k : ℕ) → HasContact result k → HasContact b k }
{
    Contacts {
        low: if a.low == b.low || a.low == b.high {
            a.low
        } else {
            NOWHERE
        },
        high: if a.high == b.low || a.high == b.high {
            a.high
        } else {
            NOWHERE
        },
    }
}
