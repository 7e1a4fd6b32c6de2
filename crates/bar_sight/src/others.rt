//! The other bars that a main bar sees.

ghost use Rattle.std.specs.Prelude.{◌≡◌, ◌≤◌, ◌<◌, ◌+◌, ◌+ℤ◌, ◌≤ℤ◌, ◌<ℤ◌, ◌↔◌, ℕ, ℤ, pos, length, Contains, OnOk};
ghost use Rattle.std.specs.Prelude.{IfErr, false, IsTrue, MatchOption, IfSome};
ghost use Rattle.pair_set.specs.Sets.{pairs_of, limit_of, RefusesPair};
ghost use Rattle.bar_rows.specs.Rows.{bar_at, Sees, Varies, numbers_of};
ghost use Rattle.bar_sight.specs.Sight.{IsRow, AllBegun, AddsFrom, IsScreen, last_at};
ghost use Rattle.bar_sight.specs.Looks.{IsFree, IsSought, IsNextOther, IsLate};

use crate::looking::{FREE, LOW, clear_from, is_free, is_other, key_of};
use crate::row::Row;
use bar_rows::faces;
use bar_tree::Query;
use pair_set::{PairSet, SetFault};

impl Row {
    /// The same as `look_from` for bars that are not main ones.
    pub(crate) fn look_at_others(
        &self,
        place: usize,
        above: i64,
        found: &mut PairSet,
    ) -> Result<(), SetFault>
        requires row { IsRow self.now }
        requires among { place < length self.now.bars.items }
        requires begun { AllBegun self.now (bar_at self.now.bars.items place).end }
        requires above { (bar_at self.now.bars.items place).end ≤ℤ (above +ℤ pos 1) }
        requires few { length (pairs_of found.old) ≤ limit_of found.old }
        ensures adds { AddsFrom self.now place found.old found.new }
        ensures few { OnOk result (length (pairs_of found.new) ≤ limit_of found.new) }
        ensures all { OnOk result
            ((q : ℕ) → (bar_at self.now.bars.items q).is_main ≡ false
            → Sees self.now.self_rule self.now.bars.items place q → Varies self.now.bars.items place q
            → above <ℤ (bar_at self.now.bars.items q).end
            → Contains (pairs_of found.new) (numbers_of self.now.turned self.now.bars.items place q)) }
        ensures fault { IfErr result (RefusesPair found.new) }
    {
        let bars = self.bars.as_slice();
        let bar = &bars[place];
        if !bar.is_main {
            return Ok(());
        }
        let Some(nearest) = self.next_other(place, above, LOW, place + 1, bars.len()) else {
            return Ok(());
        };
        // What ends with the bar is still there, and may screen others.
        let near = self.before_end(place);
        let end = self.end_of_others(place, near);
        let mut from = nearest;
        // Bars that start before this are out of sight.
        let mut late = LOW;
        let mut clear = clear_from(place);
        while let Some(next) = self.next_other(place, above, late, from, end) {
            from = next + 1;
            if !faces(self.self_rule, bar, &bars[next]) {
                continue;
            }
            let screen = self.look(place, next, &mut clear, found)?;
            late = self.pass_other(place, next, late, screen);
        }
        Ok(())
    }

    // The first bar from one place on and before another that is not a main one, may be seen and starts at `late` or
    // later.
    fn next_other(
        &self,
        place: usize,
        above: i64,
        late: i64,
        from: usize,
        end: usize,
    ) -> Option<usize>
        requires row { IsRow self.now }
        requires among { place < length self.now.bars.items }
        requires end { end ≤ length self.now.bars.items }
        requires main { IsTrue (bar_at self.now.bars.items place).is_main }
        requires begun { AllBegun self.now (bar_at self.now.bars.items place).end }
        ensures { MatchOption result
            ((q : ℕ) → IsSought self.now place above from false q → q < end
            → (bar_at self.now.bars.items q).start <ℤ late)
            (IsNextOther self.now place above late from end) }
    {
        let bars = self.bars.as_slice();
        let query = Query {
            above,
            from: late,
            key: None,
            other: None,
            contacts: bars[place].contacts,
        };
        self.others.find(bars, &query, from, end)
    }

    // The start of the first bar that may be seen, past one that another bar may screen: where that one screens all
    // that are not main ones and start before it ends, these are out of sight too.
    fn pass_other(&self, place: usize, far: usize, late: i64, screen: Option<usize>) -> i64
        requires row { IsRow self.now }
        requires among { far < length self.now.bars.items }
        requires other { (bar_at self.now.bars.items far).is_main ≡ false }
        requires screen { IfSome screen (IsScreen self.now place far) }
        ensures { (above : ℤ) → (bar_at self.now.bars.items place).end ≤ℤ (above +ℤ pos 1)
            → IsLate self.now place above (far + 1) late → IsLate self.now place above (far + 1) result }
    {
        if let Some(k) = screen {
            if self.hides_others(k) {
                return late.max(self.bars[k].end);
            }
        }
        late
    }

    // Whether a main bar that screens may do so for all bars farther along that are not main ones: it has no contact,
    // and none of these is of its owner.
    fn hides_others(&self, k: usize) -> bool
        requires row { IsRow self.now }
        requires among { k < length self.now.bars.items }
        ensures { IsTrue result ↔ (IsTrue (last_at self.now.lasts.items k).of_others
            × IsFree (bar_at self.now.bars.items k)) }
    {
        self.lasts[k].of_others && is_free(&self.bars[k])
    }

    // A place from which on a main bar sees no bar that is not a main one: at it a main bar was found behind which all
    // are screened.
    fn end_of_others(&self, place: usize, above: i64) -> usize
        requires row { IsRow self.now }
        requires among { place < length self.now.bars.items }
        requires main { IsTrue (bar_at self.now.bars.items place).is_main }
        requires above { (bar_at self.now.bars.items place).end ≤ℤ (above +ℤ pos 1) }
        ensures among { result ≤ length self.now.bars.items }
        ensures none { (q : ℕ) → IsSought self.now place above result false q → ⊥ }
    {
        let bars = self.bars.as_slice();
        if !self.self_rule {
            return bars.len();
        }
        let bar = &bars[place];
        let query = Query {
            above,
            from: LOW,
            key: key_of(bar),
            other: None,
            contacts: FREE,
        };
        let mut from = place + 1;
        let mut owner = None;
        while let Some(k) = self.mains.find(bars, &query, from, bars.len()) {
            from = k + 1;
            let far = &bars[k];
            if !is_free(far) || !far.is_solid || !faces(self.self_rule, bar, far) {
                continue;
            }
            if self.lasts[k].of_others || is_other(owner, far.owner) {
                return k;
            }
            owner = Some(far.owner);
        }
        bars.len()
    }
}
