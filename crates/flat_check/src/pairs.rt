//! Whether some entry of one tree answers a question beside an entry of another.
ghost use Rattle.std.specs.Prelude.{◌≡◌, ◌↔◌, ℕ, ◌+◌, ◌<◌, ◌≤◌, All, IsTrue, IfOk, Contains, Some, length};
ghost use Rattle.lam_geom.specs.Places.{IsPlacedBox, IsPlacedSpan};
ghost use Rattle.box_tree.specs.{declared.entries.Entry.Entry, Queries.{Holds, IsMargin, IsQuery, IsQuestion}};
ghost use Rattle.box_tree.specs.{Queries.reach_of, Tree.{ArePlacedEnds, IsPlacedGroup}};
ghost use Rattle.flat_check.specs.Clear.{AllMeet, AllPass, AreClear, AreFree, AreOneTag, AreRunsClear, IsFree, IsTree};
ghost use Rattle.flat_check.specs.Clear.{IsGroupIn, LieApart, query_beside, entry_in};

use box_tree::{BoxTree, Ends, Entry, Group, Parts, Query, Question};
use lam_geom::{Span, gap_box};
use lam_io::OpenGate;
use par_phase::{Range, map_split, ranges_in_shares};
use std::alloc::{AllocError, Global};
use std::thread::Threads;

// After so many looks for each entry, a search for each of them pays.
const LOOKS: u64 = 128;

/// Whether it is found out soon that no entry of a tree answers a question, which is one of those within `reach`,
/// beside any entry of another. Where the answer is no, some may. It goes through the second tree once for each run of
/// the first, in so many shares, and so takes a part of the time of a search for each entry. The only refusal is want
/// of memory.
pub fn are_clear<H: Threads + Sync>(
    rt: &H,
    alloc: Global,
    from: &BoxTree,
    to: &BoxTree,
    question: Question,
    reach: i64,
    shares: u32,
) -> Result<bool, AllocError>
    requires question { IsQuestion question }
    requires reach { reach_of question ≡ Some reach }
    requires shares { (1 ≤ shares) × (shares ≤ 64) }
    ensures { IfOk result (λ clear. IsTrue clear → AreClear question from.now to.now) }
{
    let own = from.parts();
    let others = to.parts();
    let ranges = ranges_in_shares(alloc, own.groups.len() as u32, shares)?;
    let looks = LOOKS * (own.entries.len() as u64 + others.entries.len() as u64)
        / ranges.len() as u64;
    let look = |range: &Range| -> Result<bool, AllocError>
        requires { IsTree own × IsTree others × IsQuestion question × (reach_of question ≡ Some reach)
            × (range.now.to ≤ length own.groups.now) }
        ensures { IfOk result (λ clear. IsTrue clear
            → AreRunsClear own.entry others.entry question range.entry.now.from range.entry.now.to) }
    { Ok(are_runs_clear(&own, &others, question, reach, range, looks)) };
    let clear = map_split(rt, alloc, &OpenGate, &ranges, shares, &look)?;
    Ok(are_all(&clear))
}

// Whether all of some answers are yes.
fn are_all(answers: &[bool]) -> bool
    ensures { IsTrue result → All IsTrue answers.now }
{
    for answer in answers {
        if !*answer {
            return false;
        }
    }
    true
}

// Whether it is found, with so many looks, that no entry of a tree answers a question beside an entry of the groups in
// a range of another.
fn are_runs_clear(
    own: &Parts,
    others: &Parts,
    question: Question,
    reach: i64,
    range: &Range,
    looks: u64,
) -> bool
    requires own { IsTree own.now }
    requires others { IsTree others.now }
    requires question { IsQuestion question }
    requires reach { reach_of question ≡ Some reach }
    requires within { range.now.to ≤ length own.now.groups.now }
    ensures { IsTrue result → AreRunsClear own.now others.now question range.now.from range.now.to }
{
    let mut left = looks;
    for at in range.from..range.to {
        let group = &own.groups[at as usize];
        if group.inside == 0 && !is_run_clear(own, group, others, question, reach, &mut left) {
            return false;
        }
    }
    true
}

// The same of the run of a group, with so many looks left.
fn is_run_clear(
    own: &Parts,
    group: &Group,
    others: &Parts,
    question: Question,
    reach: i64,
    left: &mut u64,
) -> bool
    requires own { IsTree own.now }
    requires group { IsGroupIn own.now group.now }
    requires others { IsTree others.now }
    requires question { IsQuestion question }
    requires reach { reach_of question ≡ Some reach }
    ensures { IsTrue result → (p : ℕ) (t : Entry) → group.now.start ≤ p → p < group.now.start + group.now.count
        → Contains others.now.entries.now t → Holds (query_beside question (entry_in own.now p)) t → ⊥ }
{
    let mut at = 0;
    while at < others.groups.len() {
        let other = &others.groups[at];
        at += 1;
        if lie_apart(group, other, question, reach) {
            at += other.inside as usize;
        } else if other.inside == 0 {
            *left = left.saturating_sub(u64::from(group.count) * u64::from(other.count));
            if *left == 0 || !are_free(own, group, others, other, question) {
                return false;
            }
        }
    }
    true
}

// Whether the bounds of two groups show that no entry of the second answers a question beside one of the first: they
// are too far apart, or all of one tag, or all overlap, or all of the first go past all of the second by the margin.
fn lie_apart(group: &Group, other: &Group, question: Question, reach: i64) -> bool
    requires group { IsPlacedGroup group.now }
    requires other { IsPlacedGroup other.now }
    requires question { IsQuestion question }
    ensures { IsTrue result ↔ LieApart group.now other.now question reach }
{
    if gap_box(&group.outer, &other.outer) > reach {
        return true;
    }
    match question {
        Question::NearOfOtherTag { .. } => are_one_tag(group.tag, other.tag),
        Question::NearApart { .. } => {
            all_meet(group.inner.x, other.inner.x) && all_meet(group.inner.y, other.inner.y)
        }
        Question::NearOutside { margin, .. } => {
            all_pass(group.inner.x, other.outer.x, margin)
                && all_pass(group.inner.y, other.outer.y, margin)
        }
        _ => false,
    }
}

// Whether two groups have one tag each, and it is the same.
fn are_one_tag(a: Option<u32>, b: Option<u32>) -> bool
    ensures { IsTrue result ↔ AreOneTag a b }
{
    match (a, b) {
        (Some(one), Some(other)) => one == other,
        _ => false,
    }
}

// Whether all spans with these ends overlap all with those.
fn all_meet(a: Ends, b: Ends) -> bool
    ensures { IsTrue result ↔ AllMeet a b }
{
    a.lo < b.hi && b.lo < a.hi
}

// Whether all spans with these ends go past a span by a margin at both.
fn all_pass(ends: Ends, span: Span, margin: i64) -> bool
    requires ends { ArePlacedEnds ends }
    requires span { IsPlacedSpan span }
    requires margin { IsMargin margin }
    ensures { IsTrue result ↔ AllPass ends span margin }
{
    ends.lo + margin <= span.lo && span.hi + margin <= ends.hi
}

// Whether no entry of one run answers a question beside one of another.
fn are_free(own: &Parts, group: &Group, others: &Parts, other: &Group, question: Question) -> bool
    requires own { IsTree own.now }
    requires group { IsGroupIn own.now group.now }
    requires others { IsTree others.now }
    requires other { IsGroupIn others.now other.now }
    requires question { IsQuestion question }
    ensures { IsTrue result
        ↔ AreFree others.now other.now own.now group.now.start (group.now.start + group.now.count) question }
{
    for place in group.start..group.start + group.count {
        let query = beside(question, entry(own, place));
        if !other.may_hold(&query) {
            continue;
        }
        if !is_free(others, other, &query) {
            return false;
        }
    }
    true
}

// Whether no entry of a run holds a query.
fn is_free(parts: &Parts, group: &Group, query: &Query) -> bool
    requires parts { IsTree parts.now }
    requires group { IsGroupIn parts.now group.now }
    requires query { IsQuery query.now }
    ensures { IsTrue result ↔ IsFree parts.now group.now query.now }
{
    for place in group.start..group.start + group.count {
        if query.holds(entry(parts, place)) {
            return false;
        }
    }
    true
}

// The entry at a place of a tree's order.
fn entry<'a>(parts: &Parts<'a>, place: u32) -> &'a Entry
    requires parts { IsTree parts.now }
    requires among { place < length parts.now.entries.now }
    ensures value { result.now ≡ entry_in parts.now place }
    ensures placed { IsPlacedBox result.now.area }
{
    &parts.entries[place as usize]
}

// What an entry asks beside its own area.
fn beside(question: Question, entry: &Entry) -> Query
    requires placed { IsPlacedBox entry.now.area }
    requires question { IsQuestion question }
    ensures value { result ≡ query_beside question entry.now }
    ensures asked { IsQuery result }
{
    let question = match question {
        Question::NearOfOther { reach, .. } => Question::NearOfOther {
            reach,
            owner: entry.owner,
        },
        Question::NearOfOtherTag { reach, .. } => Question::NearOfOtherTag {
            reach,
            owner: entry.owner,
            tag: entry.tag,
        },
        _ => question,
    };
    Query {
        area: entry.area,
        question,
    }
}
