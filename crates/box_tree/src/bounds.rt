//! The bounds of groups, and what they say of the entries.
ghost use Rattle.std.specs.Prelude.{◌≡◌, ℕ, ◌+◌, ◌^◌, ◌≤◌, ◌↔◌, pos, ◌<ℤ◌, IsFalse, IsTrue, Some};
ghost use Rattle.lam_geom.specs.{Places.{IsPlacedBox, IsPlacedSpan}, Gaps.{Encloses, EnclosesSpan, Overlaps, gap_of}};
ghost use Rattle.lam_geom.specs.declared.boxes.{BoxXY.BoxXY, Span.Span};
ghost use Rattle.box_tree.specs.{declared.entries.Entry.Entry, Queries.{Holds, IsMargin, IsQuery}, Tree.ArePlacedEnds};
ghost use Rattle.box_tree.specs.Tree.{ArePlacedInner, IsBounded, IsOneTag, IsPlacedGroup, Reaches, ReachesBoth};

use crate::entries::{Ends, Entry, Group, Inner};
use crate::query::{Query, Question, is_far, reach_of};
use lam_geom::{BoxXY, Span, contains_by};

impl Group {
    /// Whether an entry within the bounds of the group may hold a query: where not, none does. Where the answer is
    /// yes, there need not be one.
    #[inline(always)]
    pub fn may_hold(&self, query: &Query) -> bool
        requires group { IsPlacedGroup self.now }
        requires query { IsQuery query.now }
        ensures { IsFalse result → (entry : Entry) → IsBounded self.now entry → Holds query.now entry → ⊥ }
    {
        if is_far(&query.area, &self.outer, reach_of(query.question)) {
            return false;
        }
        self.may_answer(query)
    }

    // The same beside what is asked of the entry's distance.
    #[inline(never)]
    fn may_answer(&self, query: &Query) -> bool
        requires group { IsPlacedGroup self.now }
        requires query { IsQuery query.now }
        ensures { IsFalse result → (entry : Entry) → IsBounded self.now entry → Holds query.now entry → ⊥ }
    {
        let area = &query.area;
        match query.question {
            Question::NearOfOther { .. } => true,
            Question::NearOfOtherTag { tag, .. } => !is_tag(self.tag, tag),
            Question::NearApart { .. } => !all_overlap(&self.inner, area),
            Question::Covers { margin } => contains_by(&self.outer, area, margin),
            Question::NearShort { margin, .. } => !all_cover(&self.inner, area, margin),
            Question::NearOutside { margin, .. } => !contains_by(area, &self.outer, margin),
        }
    }
}

// Whether all entries of a group have this tag.
fn is_tag(one: Option<u32>, tag: u32) -> bool
    ensures { IsTrue result ↔ (one ≡ Some tag) }
{
    one == Some(tag)
}

// Whether all areas with these ends overlap an area.
fn all_overlap(inner: &Inner, area: &BoxXY) -> bool
    ensures { IsTrue result → (own : BoxXY) → ReachesBoth inner.now own → Overlaps area.now own }
{
    all_meet(inner.x, area.x) && all_meet(inner.y, area.y)
}

// The same on one axis.
fn all_meet(ends: Ends, span: Span) -> bool
    ensures { IsTrue result → (own : Span) → Reaches ends own → gap_of span own <ℤ pos 0 }
{
    ends.lo < span.hi && span.lo < ends.hi
}

// Whether all areas with these ends go past an area by a margin on all sides.
fn all_cover(inner: &Inner, area: &BoxXY, margin: i64) -> bool
    requires area { IsPlacedBox area.now }
    requires inner { ArePlacedInner inner.now }
    requires margin { IsMargin margin }
    ensures { IsTrue result → (own : BoxXY) → ReachesBoth inner.now own → Encloses own area.now margin }
{
    all_enclose(inner.x, area.x, margin) && all_enclose(inner.y, area.y, margin)
}

// The same on one axis.
fn all_enclose(ends: Ends, span: Span, margin: i64) -> bool
    requires span { IsPlacedSpan span }
    requires ends { ArePlacedEnds ends }
    requires margin { IsMargin margin }
    ensures { IsTrue result → (own : Span) → Reaches ends own → EnclosesSpan own span margin }
{
    ends.lo + margin <= span.lo && span.hi + margin <= ends.hi
}

/// A group of one entry.
pub fn of_entry(entry: &Entry, start: u32) -> Group
    requires { IsPlacedBox entry.now.area }
    ensures placed { IsPlacedGroup result }
    ensures bounded { IsBounded result entry.now }
    ensures run { (result.start ≡ start) × (result.count ≡ 1) × (result.inside ≡ 0) }
{
    Group {
        outer: entry.area,
        inner: Inner {
            x: ends_of(entry.area.x),
            y: ends_of(entry.area.y),
        },
        tag: Some(entry.tag),
        start,
        count: 1,
        inside: 0,
    }
}

/// A group of the entries of two groups of which one stands after the other, with no groups inside yet.
pub fn joined(a: &Group, b: &Group) -> Group
    requires first { IsPlacedGroup a.now }
    requires second { IsPlacedGroup b.now }
    requires few { a.now.count + b.now.count ≤ 2 ^ 21 }
    ensures placed { IsPlacedGroup result }
    ensures first { (entry : Entry) → IsBounded a.now entry → IsBounded result entry }
    ensures second { (entry : Entry) → IsBounded b.now entry → IsBounded result entry }
    ensures run { (result.start ≡ a.now.start) × (result.count ≡ a.now.count + b.now.count) × (result.inside ≡ 0) }
{
    Group {
        outer: enclosing(&a.outer, &b.outer),
        inner: common(&a.inner, &b.inner),
        tag: one_tag(a.tag, b.tag),
        start: a.start,
        count: a.count + b.count,
        inside: 0,
    }
}

// The least box that encloses two.
fn enclosing(a: &BoxXY, b: &BoxXY) -> BoxXY
    requires first { IsPlacedBox a.now }
    requires second { IsPlacedBox b.now }
    ensures placed { IsPlacedBox result }
    ensures first { Encloses result a.now (pos 0) }
    ensures second { Encloses result b.now (pos 0) }
{
    BoxXY {
        x: spanning(a.x, b.x),
        y: spanning(a.y, b.y),
    }
}

// The least span that encloses two.
fn spanning(a: Span, b: Span) -> Span
    requires first { IsPlacedSpan a }
    requires second { IsPlacedSpan b }
    ensures placed { IsPlacedSpan result }
    ensures first { EnclosesSpan result a (pos 0) }
    ensures second { EnclosesSpan result b (pos 0) }
{
    Span {
        lo: a.lo.min(b.lo),
        hi: a.hi.max(b.hi),
    }
}

// The ends of the areas of both.
fn common(a: &Inner, b: &Inner) -> Inner
    requires first { ArePlacedInner a.now }
    requires second { ArePlacedInner b.now }
    ensures placed { ArePlacedInner result }
    ensures first { (own : BoxXY) → ReachesBoth a.now own → ReachesBoth result own }
    ensures second { (own : BoxXY) → ReachesBoth b.now own → ReachesBoth result own }
{
    Inner {
        x: common_ends(a.x, b.x),
        y: common_ends(a.y, b.y),
    }
}

// The ends of the spans of both.
fn common_ends(a: Ends, b: Ends) -> Ends
    requires first { ArePlacedEnds a }
    requires second { ArePlacedEnds b }
    ensures placed { ArePlacedEnds result }
    ensures first { (own : Span) → Reaches a own → Reaches result own }
    ensures second { (own : Span) → Reaches b own → Reaches result own }
{
    Ends {
        lo: a.lo.max(b.lo),
        hi: a.hi.min(b.hi),
    }
}

fn ends_of(span: Span) -> Ends
    requires { IsPlacedSpan span }
    ensures placed { ArePlacedEnds result }
    ensures reached { Reaches result span }
{
    Ends {
        lo: span.lo,
        hi: span.hi,
    }
}

// The tag that all of both have, if there is one.
fn one_tag(a: Option<u32>, b: Option<u32>) -> Option<u32>
    ensures first { (tag : ℕ) → IsOneTag a tag → IsOneTag result tag }
    ensures second { (tag : ℕ) → IsOneTag b tag → IsOneTag result tag }
{
    match (a, b) {
        (Some(one), Some(other)) if one == other => a,
        _ => None,
    }
}
