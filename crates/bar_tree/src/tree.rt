//! The tree.

ghost use Rattle.std.specs.Prelude.{◌≡◌, ◌↔◌, ◌⊎◌, ◌<◌, ◌≤◌, ◌+◌, ◌^◌, ℕ, Bool, true, List, length, slice_set};
ghost use Rattle.std.specs.Prelude.{IfOk, MatchOption};
ghost use Rattle.bar_rows.specs.{declared.bars.Bar.Bar, Rows.bar_at};
ghost use Rattle.bar_tree.specs.{Nodes.Fits, Trees.{IsTreeOf, IsStarted, HasStarted, IsLevelOver, KnowsOf}};
ghost use Rattle.bar_tree.specs.Trees.{IsAskedFor, IsFirstAsked};

use crate::node::{Node, Query};
use bar_rows::Bar;
use std::alloc::{AllocError, Global};

// How many times as many places as a node of the level below a node stands for, as a power of two.
const SHIFT: u32 = 3;

// The places of the least nodes, less one.
const LEAST: usize = 7;

/// The nodes of a level, each of which stands for `width` places, which are two to the power of `shift`.
#[derive(Drop)]
pub(crate) struct Level {
    pub shift: u32,
    pub width: usize,
    pub nodes: Vec<Node>,
}

impl Level {
    // A level over so many places, where no bar has started. The only refusal is want of memory.
    fn over(alloc: Global, places: usize, shift: u32) -> Result<Level, AllocError>
        requires few { places < 2 ^ 32 }
        requires small { shift < 40 }
        ensures { IfOk result (IsLevelOver places) }
    {
        let width = 1 << shift;
        let nodes = vec![in alloc; Node::empty(); places / width + 1]?;
        Ok(Level {
            shift,
            width,
            nodes,
        })
    }

    // The bar at a place starts.
    fn start(&mut self, bars: &[Bar], place: usize)
        requires over { IsLevelOver (length bars.now) self.old }
        requires among { place < length bars.now }
        ensures over { IsLevelOver (length bars.now) self.new }
        ensures covers { (started : List Bool) → KnowsOf bars.now started self.old
            → KnowsOf bars.now (slice_set started place true) self.new }
    {
        let k = place >> self.shift;
        self.nodes[k] = self.nodes[k].with(&bars[place]);
    }

    // The end of the node that stands for a place, if none of its started bars is asked for; else the place itself.
    #[inline(always)]
    fn past(&self, bars: &[Bar], query: &Query, place: usize) -> usize
        requires over { IsLevelOver (length bars.now) self.now }
        requires among { place < length bars.now }
        requires few { length bars.now < 2 ^ 32 }
        ensures after { place ≤ result }
        ensures none { (started : List Bool) → KnowsOf bars.now started self.now → (p : ℕ) → place ≤ p → p < result
            → p < length bars.now → HasStarted started p → Fits query.now (bar_at bars.now p) → ⊥ }
    {
        let k = place >> self.shift;
        if self.nodes[k].may_fit(query) {
            return place;
        }
        (k + 1) * self.width
    }

    // Whether a place is the first of a node's.
    fn begins_at(&self, place: usize) -> bool
        requires { self.now.shift < 40 }
    {
        (place >> self.shift) << self.shift == place
    }
}

/// A tree over the places of a row, and which of its bars have started.
#[derive(Drop)]
pub struct Tree {
    is_empty: bool,
    started: Vec<bool>,
    levels: Vec<Level>,
}

impl Tree {
    /// A tree over so many places, where no bar has started. The only refusal is want of memory.
    pub fn new(alloc: Global, places: usize) -> Result<Tree, AllocError>
        requires few { places < 2 ^ 32 }
        ensures tree { IfOk result (λ tree. (bars : List Bar) → length bars ≡ places → IsTreeOf bars tree) }
        ensures none { IfOk result (λ tree. (p : ℕ) → IsStarted tree p → ⊥) }
    {
        let started = vec![in alloc; false; places]?;
        let mut levels = Vec::new(alloc);
        let mut shift = SHIFT;
        while 1 << (shift - SHIFT) < places {
            levels.push(Level::over(alloc, places, shift)?)?;
            shift += SHIFT;
        }
        Ok(Tree {
            is_empty: true,
            started,
            levels,
        })
    }

    /// The bar at a place starts.
    pub fn start(&mut self, bars: &[Bar], place: usize)
        requires tree { IsTreeOf bars.now self.old }
        requires among { place < length bars.now }
        ensures tree { IsTreeOf bars.now self.new }
        ensures started { (p : ℕ) → IsStarted self.new p ↔ (IsStarted self.old p ⊎ (p ≡ place)) }
    {
        self.is_empty = false;
        self.started[place] = true;
        for level in self.levels.iter_mut() {
            level.start(bars, place);
        }
    }

    // A place up to which, from one on, none of the started bars is asked for: the end of a node that stands for it, or
    // the place itself. Where a search begins, whatever node stands for the place is looked at, later only nodes that
    // begin there.
    fn past(&self, bars: &[Bar], query: &Query, place: usize, begins: bool) -> usize
        requires tree { IsTreeOf bars.now self.now }
        requires among { place < length bars.now }
        ensures after { place ≤ result }
        ensures none { (p : ℕ) → place ≤ p → p < result → IsAskedFor bars.now self.now query.now p → ⊥ }
    {
        let levels = self.levels.as_slice();
        let mut end = place;
        for level in levels {
            if !begins && !level.begins_at(place) {
                break;
            }
            let next = level.past(bars, query, place);
            if next == place {
                break;
            }
            end = next;
        }
        end
    }

    // The first place from one on that no node tells to hold no bar that is asked for, or one past `to`.
    fn skip(&self, bars: &[Bar], query: &Query, from: usize, to: usize) -> usize
        requires tree { IsTreeOf bars.now self.now }
        requires among { to ≤ length bars.now }
        ensures after { from ≤ result }
        ensures none { (p : ℕ) → from ≤ p → p < result → IsAskedFor bars.now self.now query.now p → ⊥ }
    {
        let mut place = from;
        while place < to {
            let end = self.past(bars, query, place, place == from);
            if end == place {
                return place;
            }
            place = end;
        }
        place
    }

    /// The first place from one up to before another whose bar has started and is asked for, if there is one.
    #[inline(always)]
    pub fn find(&self, bars: &[Bar], query: &Query, from: usize, to: usize) -> Option<usize>
        requires tree { IsTreeOf bars.now self.now }
        requires among { to ≤ length bars.now }
        ensures { MatchOption result
            ((p : ℕ) → from ≤ p → p < to → IsAskedFor bars.now self.now query.now p → ⊥)
            (IsFirstAsked bars.now self.now query.now from to) }
    {
        if self.is_empty || to <= from {
            return None;
        }
        self.first(bars, query, from, to)
    }

    // What `find` does where some bar has started.
    #[inline(never)]
    fn first(&self, bars: &[Bar], query: &Query, from: usize, to: usize) -> Option<usize>
        requires tree { IsTreeOf bars.now self.now }
        requires among { to ≤ length bars.now }
        ensures { MatchOption result
            ((p : ℕ) → from ≤ p → p < to → IsAskedFor bars.now self.now query.now p → ⊥)
            (IsFirstAsked bars.now self.now query.now from to) }
    {
        let mut place = from;
        while place < to {
            if self.started[place] && query.fits(&bars[place]) {
                return Some(place);
            }
            let next = place + 1;
            // Nodes are asked behind the first place, and then where they begin.
            place = if place == from || next & LEAST == 0 {
                self.skip(bars, query, next, to)
            } else {
                next
            };
        }
        None
    }
}
