//! The masters: the cells that grids name, each at its first place alone.

ghost use Rattle.std.specs.Prelude.{◌≡◌, ℕ, ◌<◌, ◌++◌, None, [], ◌∷◌, nat_eq, map, flat_map, fold, position, vec_len};
ghost use Rattle.std.{specs.{Prelude.{slice_index_or, All, OnOk, IfOk}, List.IsDistinct}, proofs.Props.props};
ghost use Rattle.plan_model.specs.Rows.{add_new, firsts};
ghost use Rattle.grid_plan.specs.Numbered.{is_same_number, master_of};

use lam_list::Seq;
use std::alloc::{AllocError, Global};

/// Cells with numbers below 256, and a table of the place of each among them.
#[derive(Drop)]
pub struct Masters {
    pub cells: Vec<u32>,
    places: Vec<Option<u32>>,
    ghost room: { vec_len places ≡ 256 },
    ghost apart: { IsDistinct nat_eq cells.items } by { Prim.hlevel props },
    ghost below: { All (λ k. k < 256) cells.items } by { Prim.hlevel props },
    ghost told: { (k : ℕ) → k < 256
        → slice_index_or places.items k None ≡ position (is_same_number k) cells.items } by { Prim.hlevel props },
}

impl Masters {
    fn new(alloc: Global) -> Result<Masters, AllocError>
        ensures { IfOk result (λ masters. masters.cells.items ≡ []) }
    {
        Ok(Masters {
            cells: Vec::new(alloc),
            places: vec![in alloc; None; 256]?,
        })
    }

    /// Adds a cell that is not there.
    fn push(&mut self, cell: u32) -> Result<(), AllocError>
        requires below { cell < 256 }
        requires new { position (is_same_number cell) self.old.cells.items ≡ None }
        ensures { OnOk result (self.new.cells.items ≡ self.old.cells.items ++ cell ∷ []) }
    {
        let place = self.cells.len() as u32;
        self.cells.push(cell)?;
        self.places[cell as usize] = Some(place);
        Ok(())
    }

    /// Adds a cell where it is not there yet.
    fn add(&mut self, cell: u32) -> Result<(), AllocError>
        requires { cell < 256 }
        ensures { OnOk result (self.new.cells.items ≡ add_new is_same_number self.old.cells.items cell) }
    {
        if self.places[cell as usize].is_none() {
            self.push(cell)?;
        }
        Ok(())
    }

    fn add_row(&mut self, row: &[u32]) -> Result<(), AllocError>
        requires { All (λ k. k < 256) row.now }
        ensures { OnOk result (self.new.cells.items ≡ fold (add_new is_same_number) self.old.cells.items row.now) }
    {
        for cell in row {
            self.add(*cell)?;
        }
        Ok(())
    }

    fn add_rows(&mut self, rows: &[Seq<u32>]) -> Result<(), AllocError>
        requires { All (All (λ k. k < 256)) rows.now }
        ensures { OnOk result
            (self.new.cells.items ≡ fold (add_new is_same_number) self.old.cells.items
            (flat_map (λ row. row) rows.now)) }
    {
        for row in rows {
            self.add_row(row.as_slice())?;
        }
        Ok(())
    }

    /// The masters of the grids, whose cells are given by their numbers.
    pub fn of(alloc: Global, grids: &[Seq<Seq<u32>>]) -> Result<Masters, AllocError>
        requires { All (All (All (λ k. k < 256))) grids.now }
        ensures { IfOk result
            (λ masters. masters.cells.items ≡ firsts is_same_number (flat_map (flat_map (λ row. row)) grids.now)) }
    {
        let mut masters = Masters::new(alloc)?;
        for rows in grids {
            masters.add_rows(rows.as_slice())?;
        }
        Ok(masters)
    }

    fn place(&self, cell: u32) -> u32
        requires { cell < 256 }
        ensures { result ≡ master_of self.now.cells.items cell }
    {
        self.places[cell as usize].unwrap_or(0)
    }

    fn place_row(&self, alloc: Global, row: &[u32]) -> Result<Seq<u32>, AllocError>
        requires { All (λ k. k < 256) row.now }
        ensures { IfOk result (λ placed. placed ≡ map (master_of self.now.cells.items) row.now) }
    {
        let mut placed = Vec::new(alloc);
        for cell in row {
            placed.push(self.place(*cell))?;
        }
        Ok(Seq::from_vec(placed))
    }

    fn place_rows(&self, alloc: Global, rows: &[Seq<u32>]) -> Result<Seq<Seq<u32>>, AllocError>
        requires { All (All (λ k. k < 256)) rows.now }
        ensures { IfOk result (λ placed. placed ≡ map (map (master_of self.now.cells.items)) rows.now) }
    {
        let mut placed = Vec::new(alloc);
        for row in rows {
            placed.push(self.place_row(alloc, row.as_slice())?)?;
        }
        Ok(Seq::from_vec(placed))
    }

    /// The grids by the places of their masters.
    pub fn place_grids(
        &self,
        alloc: Global,
        grids: &[Seq<Seq<u32>>],
    ) -> Result<Vec<Seq<Seq<u32>>>, AllocError>
        requires { All (All (All (λ k. k < 256))) grids.now }
        ensures { IfOk result (λ placed. placed.items ≡ map (map (map (master_of self.now.cells.items))) grids.now) }
    {
        let mut placed = Vec::new(alloc);
        for rows in grids {
            placed.push(self.place_rows(alloc, rows.as_slice())?)?;
        }
        Ok(placed)
    }
}
