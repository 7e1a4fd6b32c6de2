//! The plan of all grids.

ghost use Rattle.std.specs.Prelude.{◌≡◌, ◌<◌, ◌≤◌, length, map, flat_map, vec_len, All, IfOk, IfErr};
ghost use Rattle.lam_geom.specs.declared.boxes.Axis.TheVariants.{X, Y};
ghost use Rattle.plan_model.specs.{Plan.{grids_of, pitch_of}, Rows.{firsts, is_pair, rows_of}};
ghost use Rattle.checked_cells.specs.Tables.{known_of, IsResolved};
ghost use Rattle.grid_plan.specs.{Small.{IsGridOf, IsWithin}, Tables.meeting_of, Planned.IsPlanOf, Faults.RefusesPlan};
ghost use Rattle.grid_plan.specs.Building.{IsBuilt};

use crate::borders::Borders;
use crate::fault::PlanFault;
use crate::judging::check_grids;
use crate::masters::Masters;
use crate::names::number_grids;
use crate::once::{each_pair, each_same};
use crate::pairs::{above, beside, columns_of};
use crate::scan::Scan;
use checked_cells::Cells;
use lam_list::Seq;
use plan_model::{Match, Plan, PlanGrid, PlanRow, Same};
use std::alloc::{AllocError, Global};
use stick_text::Design;

/// The masters that share a column.
fn pitch_x(alloc: Global, grids: &[Seq<Seq<u32>>]) -> Result<Vec<Same>, AllocError>
    requires { All (IsGridOf 256) grids.now }
    ensures { IfOk result (λ same. same.items ≡ pitch_of X grids.now) }
{
    let columns = columns_of(alloc, grids)?;
    let pairs = beside(alloc, columns.as_slice())?;
    each_same(alloc, pairs.as_slice())
}

/// The masters that share a row.
fn pitch_y(alloc: Global, grids: &[Seq<Seq<u32>>]) -> Result<Vec<Same>, AllocError>
    requires { All (IsGridOf 256) grids.now }
    ensures { IfOk result (λ same. same.items ≡ pitch_of Y grids.now) }
{
    let pairs = beside(alloc, grids)?;
    each_same(alloc, pairs.as_slice())
}

/// The ports that meet where these masters do, of each pair once.
fn ports(
    alloc: Global,
    borders: &Borders,
    masters: &[u32],
    pairs: &[(u32, u32)],
) -> Result<Vec<Match>, AllocError>
    requires few { length masters.now ≤ 256 }
    requires cells { All (λ cell. cell < vec_len borders.now.before) masters.now }
    requires pairs { All (IsWithin (length masters.now)) pairs.now }
    ensures { IfOk result
        (λ found. found.items ≡ flat_map (meeting_of borders.now.before.items borders.now.after.items masters.now)
        (firsts is_pair pairs.now)) }
{
    let each = each_pair(alloc, pairs)?;
    borders.matches(alloc, masters, each.as_slice())
}

/// A grid of a plan, from its rows.
fn plan_grid(alloc: Global, rows: Seq<Seq<u32>>) -> Result<PlanGrid, AllocError>
    ensures { IfOk result (λ grid. rows_of grid ≡ rows) }
{
    let mut placed = Vec::new(alloc);
    for cells in rows.into_vec() {
        placed.push(PlanRow { cells })?;
    }
    Ok(PlanGrid {
        rows: Seq::from_vec(placed),
    })
}

/// The grids of a plan.
fn plan_grids(alloc: Global, grids: Vec<Seq<Seq<u32>>>) -> Result<Seq<PlanGrid>, AllocError>
    ensures { IfOk result (λ placed. map rows_of placed ≡ grids.items) }
{
    let mut placed = Vec::new(alloc);
    for rows in grids {
        placed.push(plan_grid(alloc, rows)?)?;
    }
    Ok(Seq::from_vec(placed))
}

/// The plan of grids whose masters are given by their places.
fn build(
    alloc: Global,
    scan: &Scan,
    masters: Vec<u32>,
    grids: Vec<Seq<Seq<u32>>>,
) -> Result<Plan, AllocError>
    requires few { length masters.items ≤ 256 }
    requires cells { All (λ cell. cell < vec_len scan.now.beside.before) masters.items }
    requires grids { All (IsGridOf (length masters.items)) grids.items }
    ensures { IfOk result (IsBuilt scan.now masters.items grids.items) }
{
    let pitch_x = pitch_x(alloc, grids.as_slice())?;
    let pitch_y = pitch_y(alloc, grids.as_slice())?;
    let over = above(alloc, grids.as_slice())?;
    let port_x = ports(alloc, &scan.above, masters.as_slice(), over.as_slice())?;
    let next = beside(alloc, grids.as_slice())?;
    let port_y = ports(alloc, &scan.beside, masters.as_slice(), next.as_slice())?;
    Ok(Plan {
        masters: Seq::from_vec(masters),
        grids: plan_grids(alloc, grids)?,
        pitch_x: Seq::from_vec(pitch_x),
        pitch_y: Seq::from_vec(pitch_y),
        port_x: Seq::from_vec(port_x),
        port_y: Seq::from_vec(port_y),
    })
}

/// The plan of a design's grids over its cells. Where a grid, a row or a side of a cell has 2^32 parts or more it is
/// refused as want of memory.
pub fn plan(alloc: Global, design: &Design, cells: &Cells) -> Result<Plan, PlanFault>
    requires resolved { IsResolved cells.now }
    requires of { cells.now.design.now ≡ design.now }
    ensures plan { IfOk result (IsPlanOf (known_of cells.now) design.now.grids) }
    ensures fault { IfErr result (RefusesPlan (known_of cells.now) design.now.grids) }
{
    let texts = design.grids.as_slice();
    let mut scan = Scan::new(alloc, cells)?;
    let numbers = number_grids(alloc, cells, texts)?;
    check_grids(cells, &mut scan, texts, numbers.as_slice())?;
    let masters = Masters::of(alloc, numbers.as_slice())?;
    let grids = masters.place_grids(alloc, numbers.as_slice())?;
    Ok(build(alloc, &scan, masters.cells, grids)?)
}
