//! The main bars that a bar sees.

ghost use Rattle.std.specs.Prelude.{◌≤◌, ◌<◌, ◌+◌, ◌+ℤ◌, ◌≤ℤ◌, ◌<ℤ◌, ◌↔◌, ℕ, ℤ, pos, length, true, Contains, OnOk};
ghost use Rattle.std.specs.Prelude.{IfErr, IsTrue, MatchOption, IfSome};
ghost use Rattle.pair_set.specs.Sets.{pairs_of, limit_of, RefusesPair};
ghost use Rattle.bar_rows.specs.{Rows.{bar_at, Sees, Varies, numbers_of}, Facing.Faces};
ghost use Rattle.bar_tree.specs.Nodes.{Fits};
ghost use Rattle.bar_sight.specs.Sight.{IsRow, AllBegun, AddsFrom, IsScreen, last_at};
ghost use Rattle.bar_sight.specs.Looks.{IsFree, IsSought, IsHidden, IsPassed, IsNext, AreLeft};

use crate::left::Left;
use crate::looking::{LOW, clear_from, contacts_of, is_free, key_of};
use crate::row::Row;
use bar_rows::faces;
use bar_tree::Query;
use pair_set::{PairSet, SetFault};

// What lies behind the bars that were passed: bars of the key of the first one that start before `late` are out of
// sight.
#[derive(Clone, Copy)]
pub(crate) struct Passed {
    pub first: Option<u32>,
    pub late: i64,
}

impl Row {
    /// The same as `look_from` for main bars alone.
    pub(crate) fn look_at_mains(
        &self,
        place: usize,
        above: i64,
        found: &mut PairSet,
    ) -> Result<(), SetFault>
        requires row { IsRow self.now }
        requires among { place < length self.now.bars.items }
        requires begun { AllBegun self.now (bar_at self.now.bars.items place).end }
        requires above { (bar_at self.now.bars.items place).end ≤ℤ (above +ℤ pos 1) }
        requires few { length (pairs_of found.old) ≤ limit_of found.old }
        ensures adds { AddsFrom self.now place found.old found.new }
        ensures few { OnOk result (length (pairs_of found.new) ≤ limit_of found.new) }
        ensures all { OnOk result
            ((q : ℕ) → IsTrue (bar_at self.now.bars.items q).is_main
            → Sees self.now.self_rule self.now.bars.items place q → Varies self.now.bars.items place q
            → above <ℤ (bar_at self.now.bars.items q).end
            → Contains (pairs_of found.new) (numbers_of self.now.turned self.now.bars.items place q)) }
        ensures fault { IfErr result (RefusesPair found.new) }
    {
        let bars = self.bars.as_slice();
        let bar = &bars[place];
        if bar.is_main && !self.self_rule {
            return Ok(());
        }
        let all = Query {
            above,
            from: LOW,
            key: key_of(bar),
            other: None,
            contacts: contacts_of(bar),
        };
        let mut from = place + 1;
        let mut passed = Passed {
            first: None,
            late: LOW,
        };
        let mut left = Left::All;
        let mut clear = clear_from(place);
        while let Some(next) = self.next_main(&all, place, passed, from) {
            from = next + 1;
            if !faces(self.self_rule, bar, &bars[next]) {
                continue;
            }
            let screen = self.look(place, next, &mut clear, found)?;
            passed = self.pass(place, next, passed, screen);
            match self.left_behind(place, next, left) {
                Some(fewer) => left = fewer,
                None => return Ok(()),
            }
        }
        Ok(())
    }

    // The first main bar from a place on that is asked for and not hidden behind what was passed.
    fn next_main(&self, all: &Query, place: usize, passed: Passed, from: usize) -> Option<usize>
        requires row { IsRow self.now }
        requires begun { AllBegun self.now (bar_at self.now.bars.items place).end }
        requires all { (q : ℕ) → IsSought self.now place all.now.above from true q
            → Fits all.now (bar_at self.now.bars.items q) }
        ensures { MatchOption result
            ((q : ℕ) → IsSought self.now place all.now.above from true q
            → IsHidden passed (bar_at self.now.bars.items q))
            (IsNext self.now place all.now.above from passed) }
    {
        let bars = self.bars.as_slice();
        if passed.late == LOW {
            return self.mains.find(bars, all, from, bars.len());
        }
        let started_late = Query {
            from: passed.late,
            ..*all
        };
        let next = self.mains.find(bars, &started_late, from, bars.len());
        let of_another = Query {
            other: passed.first,
            ..*all
        };
        let end = next.unwrap_or(bars.len());
        self.mains.find(bars, &of_another, from, end).or(next)
    }

    // What is passed with a main bar that another bar may screen: where that one screens all main bars of the key of
    // the first one that start before it ends, these are hidden too.
    fn pass(&self, place: usize, far: usize, passed: Passed, screen: Option<usize>) -> Passed
        requires row { IsRow self.now }
        requires among { far < length self.now.bars.items }
        requires main { IsTrue (bar_at self.now.bars.items far).is_main }
        requires screen { IfSome screen (IsScreen self.now place far) }
        ensures { (above : ℤ) → (bar_at self.now.bars.items place).end ≤ℤ (above +ℤ pos 1)
            → IsPassed self.now place above (far + 1) passed → IsPassed self.now place above (far + 1) result }
    {
        let key = self.bars[far].key;
        let first = passed.first.unwrap_or(key);
        let mut late = passed.late;
        if let Some(k) = screen {
            if first == key && self.hides_mains(k) {
                late = late.max(self.bars[k].end);
            }
        }
        Passed {
            first: Some(first),
            late,
        }
    }

    // What is left once a main bar has been found that the bar at a place faces; nothing where no main bar farther along
    // is seen.
    fn left_behind(&self, place: usize, far: usize, left: Left) -> Option<Left>
        requires row { IsRow self.now }
        requires in_order { place < far }
        requires among { far < length self.now.bars.items }
        requires main { IsTrue (bar_at self.now.bars.items far).is_main }
        requires faces { Faces self.now.self_rule (bar_at self.now.bars.items place) (bar_at self.now.bars.items far) }
        ensures { (above : ℤ) → (bar_at self.now.bars.items place).end ≤ℤ (above +ℤ pos 1)
            → above <ℤ (bar_at self.now.bars.items far).end
            → AreLeft self.now place above (far + 1) left
            → MatchOption result ((q : ℕ) → IsSought self.now place above (far + 1) true q → ⊥)
            (AreLeft self.now place above (far + 1)) }
    {
        let bars = self.bars.as_slice();
        let bar = &bars[far];
        if !self.self_rule || !bar.is_solid {
            return Some(left);
        }
        left.behind(bar.key, (!self.lasts[far].of_mains).then_some(bar.owner))
    }

    // Whether a bar that screens may do so for all main bars farther along: it has no contact, and none of these is of
    // its owner.
    fn hides_mains(&self, k: usize) -> bool
        requires row { IsRow self.now }
        requires among { k < length self.now.bars.items }
        ensures { IsTrue result ↔ (IsTrue (last_at self.now.lasts.items k).of_mains
            × IsFree (bar_at self.now.bars.items k)) }
    {
        self.lasts[k].of_mains && is_free(&self.bars[k])
    }
}
