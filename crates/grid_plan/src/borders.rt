//! What meets at the borders of cells, and where it does not fit.

ghost use Rattle.std.specs.Prelude.{◌≡◌, ℕ, ◌+◌, ◌*◌, ◌^◌, ◌<◌, ◌≤◌, ◌++◌, true, false, None, List, length, map};
ghost use Rattle.std.specs.{Prelude.{flat_map, vec_len, slice_index_or, All, OnOk, IfOk}, List.zip};
ghost use Rattle.std.proofs.Props.{props};
ghost use Rattle.plan_model.specs.Borders.{side_before, side_after, may_meet, misfit, match_of};
ghost use Rattle.checked_cells.specs.Tables.{known_of, IsResolved};
ghost use Rattle.grid_plan.specs.{Numbered.ports_of_cells, Tables.{side_at, meeting_of}};

use crate::sides::sides_of;
use cell_model::CellPort;
use checked_cells::Cells;
use lam_geom::{Axis, Side};
use lam_list::Seq;
use plan_model::Match;
use std::alloc::{AllocError, Global};

/// The side of the left or lower instance where two meet whose ports share values of the axis.
fn side_before(axis: Axis) -> Side
    ensures { result ≡ side_before axis }
{
    match axis {
        Axis::X => Side::Top,
        Axis::Y => Side::Right,
    }
}

/// The side of the other.
fn side_after(axis: Axis) -> Side
    ensures { result ≡ side_after axis }
{
    match axis {
        Axis::X => Side::Bottom,
        Axis::Y => Side::Left,
    }
}

/// Whether two ports may meet: they have one layer, and their wires one width.
fn may_meet(a: &CellPort, b: &CellPort) -> bool
    ensures { result ≡ may_meet a.now b.now }
{
    a.layer == b.layer && a.width == b.width
}

/// The first number at which the ports may not meet, or one list has ended.
fn misfit(before: &[CellPort], after: &[CellPort]) -> Option<u32>
    requires { length before.now < 2 ^ 32 }
    ensures { result ≡ misfit before.now after.now }
{
    let shorter = before.len().min(after.len());
    for k in 0..shorter {
        if !may_meet(&before[k], &after[k]) {
            return Some(k as u32);
        }
    }
    if before.len() == after.len() {
        None
    } else {
        Some(shorter as u32)
    }
}

/// The borders of one direction: the ports of each cell on the side before such a border and on the side after it. Of
/// each two cells it is noted once that they fit.
#[derive(Drop)]
pub struct Borders {
    before: Vec<Seq<CellPort>>,
    after: Vec<Seq<CellPort>>,
    fits: Vec<bool>,
    ghost one_length: { vec_len after ≡ vec_len before },
    ghost few: { vec_len before ≤ 256 },
    ghost short: { All (λ side. length side < 2 ^ 32) before.items } by { Prim.hlevel props },
    ghost room: { vec_len fits ≡ 65536 },
    ghost told: { (a b : ℕ) → a < 256 → b < 256 → slice_index_or fits.items (a * 256 + b) false ≡ true
        → misfit (side_at before.items a) (side_at after.items b) ≡ None } by { Prim.hlevel props },
}

impl Borders {
    ghost use Rattle.grid_plan.specs.BorderSides.{IsBorderOf, KeepsSides};

    /// The borders on which ports share values of the axis.
    pub fn new(alloc: Global, cells: &Cells, axis: Axis) -> Result<Borders, AllocError>
        requires resolved { IsResolved cells.now }
        ensures { IfOk result (IsBorderOf axis (ports_of_cells (known_of cells.now))) }
    {
        Ok(Borders {
            before: sides_of(alloc, cells, side_before(axis))?,
            after: sides_of(alloc, cells, side_after(axis))?,
            fits: vec![in alloc; false; 65536]?,
        })
    }

    /// The first port at which the cells do not fit, the first cell before the border and the second after it.
    pub fn misfit(&mut self, a: u32, b: u32) -> Option<u32>
        requires a { a < vec_len self.old.before }
        requires b { b < vec_len self.old.before }
        ensures value { result ≡ misfit (side_at self.old.before.items a) (side_at self.old.after.items b) }
        ensures kept { KeepsSides self.old self.new }
        ensures len { vec_len self.new.before ≡ vec_len self.old.before }
    {
        let place = a as usize * 256 + b as usize;
        if self.fits[place] {
            return None;
        }
        let found = misfit(
            self.before[a as usize].as_slice(),
            self.after[b as usize].as_slice(),
        );
        if found.is_none() {
            self.fits[place] = true;
        }
        found
    }

    /// The ports that meet where these masters do. A master is given by its number, and its cell by that in the list.
    pub fn matches(
        &self,
        alloc: Global,
        masters: &[u32],
        pairs: &[(u32, u32)],
    ) -> Result<Vec<Match>, AllocError>
        requires masters { All (λ pair. (pair.0 < length masters.now) × (pair.1 < length masters.now)) pairs.now }
        requires cells { All (λ cell. cell < vec_len self.now.before) masters.now }
        ensures { IfOk result
            (λ found. found.items ≡ flat_map (meeting_of self.now.before.items self.now.after.items masters.now)
            pairs.now) }
    {
        let mut found = Vec::new(alloc);
        for pair in pairs {
            let a = masters[pair.0 as usize];
            let b = masters[pair.1 as usize];
            push_matches(
                &mut found,
                *pair,
                self.before[a as usize].as_slice(),
                self.after[b as usize].as_slice(),
            )?;
        }
        Ok(found)
    }
}

/// Adds the ports that meet at a border of two masters.
fn push_matches(
    found: &mut Vec<Match>,
    pair: (u32, u32),
    before: &[CellPort],
    after: &[CellPort],
) -> Result<(), AllocError>
    ensures { OnOk result (found.new.items ≡ found.old.items ++ map (match_of pair) (zip before.now after.now)) }
{
    for k in 0..before.len().min(after.len()) {
        found.push(Match {
            a: pair.0,
            a_wire: before[k].wire,
            b: pair.1,
            b_wire: after[k].wire,
        })?;
    }
    Ok(())
}
