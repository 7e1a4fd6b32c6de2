//! Rows of bars.

ghost use Rattle.std.specs.Prelude.{◌≤◌, ◌<◌, ◌+ℤ◌, ◌≤ℤ◌, ◌<ℤ◌, ℕ, pos, length, Contains, OnOk, IfErr};
ghost use Rattle.pair_set.specs.Sets.{pairs_of, limit_of, RefusesPair};
ghost use Rattle.bar_rows.specs.Rows.{bar_at, Sees, Varies, numbers_of};
ghost use Rattle.bar_sight.specs.Sight.{IsRow, HasBegun, AllBegun, IsSameRow, AddsFrom};

use bar_rows::Bar;
use bar_tree::Tree;
use pair_set::{PairSet, SetFault};

/// Whether a bar is the last of its owner: no main bar of it lies farther along the row, and none of the others.
#[derive(Clone, Copy)]
pub struct Last {
    pub of_mains: bool,
    pub of_others: bool,
}

/// Bars in a row, and which of them have started.
#[derive(Drop)]
pub struct Row {
    pub bars: Vec<Bar>,
    pub lasts: Vec<Last>,
    pub mains: Tree,
    pub others: Tree,
    /// Main bars keep something from each other.
    pub self_rule: bool,
    /// The row is turned round: the bar at its first place lies last on the axis.
    pub turned: bool,
}

impl Row {
    /// The bar at a place starts.
    pub fn start(&mut self, place: usize)
        requires row { IsRow self.old }
        requires among { place < length self.old.bars.items }
        ensures row { IsRow self.new }
        ensures same { IsSameRow self.old self.new }
        ensures begun { HasBegun self.new place }
        ensures others { (p : ℕ) → HasBegun self.old p → HasBegun self.new p }
    {
        let bars = self.bars.as_slice();
        if bars[place].is_main {
            self.mains.start(bars, place);
        } else {
            self.others.start(bars, place);
        }
    }

    /// Adds the pairs of a bar with each bar farther along that it sees and that ends behind `above`, if their ends
    /// stand on different variables. All bars that start before this one ends must have started. After a refusal some
    /// of the pairs are there.
    pub fn look_from(&self, place: usize, above: i64, found: &mut PairSet) -> Result<(), SetFault>
        requires row { IsRow self.now }
        requires among { place < length self.now.bars.items }
        requires begun { AllBegun self.now (bar_at self.now.bars.items place).end }
        requires above { (bar_at self.now.bars.items place).end ≤ℤ (above +ℤ pos 1) }
        requires few { length (pairs_of found.old) ≤ limit_of found.old }
        ensures adds { AddsFrom self.now place found.old found.new }
        ensures few { OnOk result (length (pairs_of found.new) ≤ limit_of found.new) }
        ensures all { OnOk result
            ((q : ℕ) → Sees self.now.self_rule self.now.bars.items place q → Varies self.now.bars.items place q
            → above <ℤ (bar_at self.now.bars.items q).end
            → Contains (pairs_of found.new) (numbers_of self.now.turned self.now.bars.items place q)) }
        ensures fault { IfErr result (RefusesPair found.new) }
    {
        self.look_at_mains(place, above, found)?;
        self.look_at_others(place, above, found)
    }
}
