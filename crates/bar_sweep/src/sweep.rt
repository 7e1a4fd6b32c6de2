//! The sweeps.

ghost use Rattle.std.specs.Prelude.{◌≡◌, ◌≤◌, ◌<◌, ◌^◌, ℕ, length, Contains, OnOk, IfErr, IfOk, All, true, false};
ghost use Rattle.std.specs.Prelude.{◌≤ℤ◌, ◌<ℤ◌, ◌+ℤ◌, pos, neg_ℤ};
ghost use Rattle.pair_set.specs.Sets.{pairs_of, limit_of, RefusesPair};
ghost use Rattle.bar_rows.specs.Rows.{bar_at, Sees, Varies, IsPlacedBar, numbers_of};
ghost use Rattle.bar_sight.specs.Sight.{IsRow, AllBegun, IsSameRow};
ghost use Rattle.bar_sweep.specs.Sweeps.{AddsSeen, AreStarts, EndsInTime, HaveBegun};

use crate::lasts::lasts_of;
use crate::places::{by_end, by_start};
use crate::turning::turned_round;
use bar_rows::Bar;
use bar_sight::Row;
use bar_tree::Tree;
use pair_set::{PairSet, SetFault};
use std::alloc::{AllocError, Global};

// A row of which no bar has started.
fn row_of(alloc: Global, bars: Vec<Bar>, self_rule: bool, turned: bool) -> Result<Row, AllocError>
    requires few { length bars.items < 2 ^ 32 }
    requires placed { All IsPlacedBar bars.items }
    ensures row { IfOk result IsRow }
    ensures bars { IfOk result (λ row. row.bars.items ≡ bars.items) }
    ensures self_rule { IfOk result (λ row. row.self_rule ≡ self_rule) }
    ensures turned { IfOk result (λ row. row.turned ≡ turned) }
{
    let lasts = lasts_of(alloc, &bars)?;
    let mains = Tree::new(alloc, bars.len())?;
    let others = Tree::new(alloc, bars.len())?;
    Ok(Row {
        bars,
        lasts,
        mains,
        others,
        self_rule,
        turned,
    })
}

// Starts all bars of a row that start before a place, of which those at the first `from` places have started, in order
// of where they start; gives how many have started then.
fn start_before(row: &mut Row, starts: &[u32], from: usize, now: i64) -> usize
    requires starts { AreStarts row.old.bars.items starts.now }
    requires begun { HaveBegun row.old starts.now from }
    ensures same { IsSameRow row.old row.new }
    ensures begun { HaveBegun row.new starts.now result }
    ensures all { AllBegun row.new now }
{
    for next in from..starts.len() {
        let place = starts[next] as usize;
        if row.bars[place].start >= now {
            return next;
        }
        row.start(place);
    }
    starts.len()
}

// Bars whose ends are in time for a bar that ends at a place end behind this.
fn above_of(turned: bool, now: i64) -> i64
    requires { neg_ℤ (pos (2 ^ 62)) ≤ℤ now }
    ensures near { now ≤ℤ (result +ℤ pos 1) }
    ensures in_time { (a b : Bar) → a.end ≡ now → EndsInTime turned a b → result <ℤ b.end }
{
    if turned { now } else { now - 1 }
}

// Where the bar at a place ends.
fn end_of(row: &Row, place: usize) -> i64
    requires { place < length row.now.bars.items }
    ensures { result ≡ (bar_at row.now.bars.items place).end }
{
    row.bars[place].end
}

// Adds the pairs of a row of which the first bar ends before the second, or, in a row that is not turned round, where
// it ends.
fn sweep(
    alloc: Global,
    bars: Vec<Bar>,
    self_rule: bool,
    turned: bool,
    found: &mut PairSet,
) -> Result<(), SetFault>
    requires few { length bars.items < 2 ^ 32 }
    requires placed { All IsPlacedBar bars.items }
    requires room { length (pairs_of found.old) ≤ limit_of found.old }
    ensures adds { AddsSeen self_rule turned bars.items found.old found.new }
    ensures few { OnOk result (length (pairs_of found.new) ≤ limit_of found.new) }
    ensures all { OnOk result
        ((p q : ℕ) → Sees self_rule bars.items p q → Varies bars.items p q
        → EndsInTime turned (bar_at bars.items p) (bar_at bars.items q)
        → Contains (pairs_of found.new) (numbers_of turned bars.items p q)) }
    ensures fault { IfErr result (RefusesPair found.new) }
{
    let starts = by_start(alloc, &bars)?;
    let ends = by_end(alloc, &bars)?;
    let mut row = row_of(alloc, bars, self_rule, turned)?;
    let mut next = 0;
    for place in &ends {
        let place = *place as usize;
        let now = end_of(&row, place);
        next = start_before(&mut row, &starts, next, now);
        row.look_from(place, above_of(turned, now), found)?;
    }
    Ok(())
}

// Whether some bar is a main one.
fn has_main(bars: &[Bar]) -> bool
    ensures { result ≡ false → (p : ℕ) → p < length bars.now → (bar_at bars.now p).is_main ≡ false }
{
    for bar in bars {
        if bar.is_main {
            return true;
        }
    }
    false
}

/// Adds the numbers of the items of all pairs of bars of a row that see each other and whose ends stand on different
/// variables, the later one first. After a refusal some of them are there.
pub fn add_seen(
    alloc: Global,
    bars: Vec<Bar>,
    self_rule: bool,
    found: &mut PairSet,
) -> Result<(), SetFault>
    requires few { length bars.items < 2 ^ 32 }
    requires placed { All IsPlacedBar bars.items }
    requires room { length (pairs_of found.old) ≤ limit_of found.old }
    ensures adds { AddsSeen self_rule false bars.items found.old found.new }
    ensures few { OnOk result (length (pairs_of found.new) ≤ limit_of found.new) }
    ensures all { OnOk result
        ((p q : ℕ) → Sees self_rule bars.items p q → Varies bars.items p q
        → Contains (pairs_of found.new) ((bar_at bars.items q).item, (bar_at bars.items p).item)) }
    ensures fault { IfErr result (RefusesPair found.new) }
{
    if !has_main(&bars) {
        return Ok(());
    }
    let turned = turned_round(alloc, &bars)?;
    sweep(alloc, bars, self_rule, false, found)?;
    sweep(alloc, turned, self_rule, true, found)
}
