//! The scan itself: it comes to one item after the other, and lends the candidates that end there.

ghost use Rattle.std.specs.Prelude.{◌≡◌, slice_get, ◌<◌, ◌^◌, length, All, OnErr, IfOk, OnOk};
ghost use Rattle.sym_items.specs.Boxes.{HasBox};
ghost use Rattle.scan_line.specs.Scan.{AreFirstOf, AreBefore, IsScan, StandsAs, IsNext, BeginsOver, axis_of, tech_of};
ghost use Rattle.scan_line.specs.Scan.{layout_of, items_of, order_of, come_to, present_of};

use crate::lanes::Lanes;
use lam_geom::Axis;
use pair_rules::Pair;
use rule_table::Tech;
use std::alloc::{AllocError, Global};
use std::mem;
use sym_items::{Coords, Item};

/// The first item of a candidate: its number, the item, and the spacing, in u.
#[derive(Clone, Copy)]
pub struct Near<'a> {
    pub number: u32,
    pub item: &'a Item,
    pub s: i64,
}

/// A scan of the items of a layout along an axis.
#[derive(Drop)]
pub struct Scan<'a> {
    axis: Axis,
    tech: &'a Tech,
    items: &'a [Item],
    coords: &'a Coords,
    lanes: Lanes,
    // How many items of the order it has come to.
    come: usize,
    present: Option<u32>,
    near: Vec<Near<'a>>,
    // Room for what ends at the next item: until all of it is there, the scan stands where it stood.
    pairs: Vec<Pair>,
    next: Vec<Near<'a>>,
}

impl<'a> Scan<'a> {
    /// A scan that stands before the first item. The only refusal is want of memory.
    pub fn new(
        alloc: Global,
        axis: Axis,
        tech: &'a Tech,
        items: &'a [Item],
        coords: &'a Coords,
    ) -> Result<Scan<'a>, AllocError>
        requires few { length items.now < 2 ^ 32 }
        requires boxes { All (HasBox coords.now) items.now }
        ensures scan { IfOk result IsScan }
        ensures begins { IfOk result (BeginsOver axis tech.now coords.now items.now) }
    {
        let lanes = Lanes::new(alloc, axis, items, coords)?;
        Ok(Scan {
            axis,
            tech,
            items,
            coords,
            lanes,
            come: 0,
            present: None,
            near: Vec::new(alloc),
            pairs: Vec::new(alloc),
            next: Vec::new(alloc),
        })
    }

    /// Moves to the next item in the order of the scan, and gives its number; `None` after the last. The only refusal
    /// is want of memory: the scan then stands where it stood.
    pub fn advance(&mut self) -> Result<Option<u32>, AllocError>
        requires { IsScan self.old }
        ensures scan { IsScan self.new }
        ensures next { IfOk result (IsNext self.old self.new) }
        ensures refused { OnErr result (StandsAs self.old self.new) }
    {
        let Some(j) = self.following() else {
            self.near.clear();
            self.present = None;
            return Ok(None);
        };
        self.lanes.candidates(
            self.axis,
            self.tech,
            self.items,
            self.coords,
            j,
            &mut self.pairs,
        )?;
        take_first(&mut self.next, self.items, self.pairs.as_slice())?;
        mem::swap(&mut self.near, &mut self.next);
        self.come += 1;
        self.present = Some(j);
        Ok(Some(j))
    }

    // The item to which it comes next, if there is one.
    fn following(&self) -> Option<u32>
        ensures { result ≡ slice_get (order_of self.now) (come_to self.now) }
    {
        self.lanes.order().get(self.come).copied()
    }

    /// The candidates that end at the item at which the scan stands, in order of their first items; none before the
    /// first item and after the last.
    pub fn before(&self) -> &[Near<'a>]
        requires { IsScan self.now }
        ensures { AreBefore (axis_of self.now) (tech_of self.now) (layout_of self.now) (items_of self.now)
            (present_of self.now) result.now }
    {
        &self.near
    }
}

// Takes the first items of some pairs, in place of what was there.
fn take_first<'a>(
    near: &mut Vec<Near<'a>>,
    items: &'a [Item],
    pairs: &[Pair],
) -> Result<(), AllocError>
    requires { All (λ p. p.i < length items.now) pairs.now }
    ensures { OnOk result (AreFirstOf items.now pairs.now near.new.items) }
{
    near.clear();
    for pair in pairs {
        near.push(Near {
            number: pair.i,
            item: &items[pair.i as usize],
            s: pair.s,
        })?;
    }
    Ok(())
}
