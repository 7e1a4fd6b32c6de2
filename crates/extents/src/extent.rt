//! How wide and how high masks may be.

ghost use Rattle.std.specs.Prelude.{◌≡◌, ◌||◌, ◌^◌, ◌<◌, ◌≤◌, ℕ, ℤ, pos, ◌≤ℤ◌, ◌+ℤ◌, ◌-ℤ◌, ◌*ℤ◌, int_lt, All, length};
ghost use Rattle.std.specs.{Prelude.{map, IfOk, IfErr}, Int.int_min};
ghost use Rattle.lam_geom.specs.declared.boxes.Axis.TheVariants.{X, Y};
ghost use Rattle.sym_items.specs.{Values.value_of, Layouts.size_in};
ghost use Rattle.rule_table.specs.Technology.{widest_of};
ghost use Rattle.plan_model.specs.{declared.plan.PlanGrid.PlanGrid as SomeGrid, Rows.{rows_of, first_row}};
ghost use Rattle.plan_model.specs.Instances.{total, row_height, grid_width, grid_height, left_of_grid, whole_width};
ghost use Rattle.plan_model.specs.Instances.{whole_height};
ghost use Rattle.extents.specs.Extents.{most_extent, unit_of, AreSizes, IsWithin, IsPast};

use plan_model::{Plan, PlanGrid, PlanRow};
use rule_table::Tech;
use sym_items::Coords;

/// The grids together are too wide or too high.
#[derive(Clone, Copy)]
pub struct TooFar;

/// The most that masks are wide or high, in hundredths of a micron.
const MAX_EXTENT: i64 = 1 << 30;

// The value of a variable, or 0 where there is none.
fn value_at(values: &[i64], v: usize) -> i64
    ensures { result ≡ value_of values.now v }
{
    match values.get(v) {
        Some(value) => *value,
        None => 0,
    }
}

/// The width of a master, in u.
pub fn width(layouts: &[Coords], m: u32) -> i64
    ensures { result ≡ size_in X layouts.now m }
{
    match layouts.get(m as usize) {
        Some(layout) => value_at(layout.x.as_slice(), 1),
        None => 0,
    }
}

/// The height of a master, in u.
pub fn height(layouts: &[Coords], m: u32) -> i64
    ensures { result ≡ size_in Y layouts.now m }
{
    match layouts.get(m as usize) {
        Some(layout) => value_at(layout.y.as_slice(), 1),
        None => 0,
    }
}

// A length and one more, or the most that is counted.
fn longer(length: i64, more: i64, most: i64) -> i64
    requires length { pos 0 ≤ℤ length }
    requires short { length ≤ℤ most }
    requires more { pos 0 ≤ℤ more }
    requires most { most ≤ℤ pos (2 ^ 32) }
    ensures value { result ≡ int_min (length +ℤ more) most }
    ensures positive { pos 0 ≤ℤ result }
    ensures short { result ≤ℤ most }
{
    (length + more.min(most)).min(most)
}

// The width of a row, or the most that is counted.
fn row_width(layouts: &[Coords], row: &[u32], most: i64) -> i64
    requires sizes { AreSizes (size_in X layouts.now) }
    requires least { pos 0 ≤ℤ most }
    requires most { most ≤ℤ pos (2 ^ 32) }
    ensures value { result ≡ int_min (total (map (size_in X layouts.now) row.now)) most }
    ensures positive { pos 0 ≤ℤ result }
{
    let mut sum = 0;
    for m in row {
        sum = longer(sum, width(layouts, *m), most);
    }
    sum
}

// The height of a row: that of its first master.
fn row_height(layouts: &[Coords], row: &PlanRow) -> i64
    ensures { result ≡ row_height (size_in Y layouts.now) row.now.cells }
{
    match row.cells.as_slice().first() {
        Some(m) => height(layouts, *m),
        None => height(layouts, 0),
    }
}

// The height of a grid, or the most that is counted.
fn grid_height(layouts: &[Coords], grid: &PlanGrid, most: i64) -> i64
    requires sizes { AreSizes (size_in Y layouts.now) }
    requires least { pos 0 ≤ℤ most }
    requires most { most ≤ℤ pos (2 ^ 32) }
    ensures { result ≡ int_min (grid_height (size_in Y layouts.now) (rows_of grid.now)) most }
{
    let mut sum = 0;
    for row in grid.rows.as_slice() {
        sum = longer(sum, row_height(layouts, row), most);
    }
    sum
}

// The first row of a grid.
fn first_row(grid: &PlanGrid) -> &[u32]
    ensures { result.now ≡ first_row (rows_of grid.now) }
{
    match grid.rows.as_slice().first() {
        Some(row) => row.cells.as_slice(),
        None => &[],
    }
}

// The widths of some grids, each with the widest spacing after it, or the most that is counted.
fn spaced_width(widest: i64, layouts: &[Coords], grids: &[PlanGrid], most: i64) -> i64
    requires sizes { AreSizes (size_in X layouts.now) }
    requires least { pos 0 ≤ℤ most }
    requires most { most ≤ℤ pos (2 ^ 32) }
    requires widest { pos 0 ≤ℤ widest }
    requires small { widest ≤ℤ pos 4096 }
    ensures { result
        ≡ int_min (left_of_grid (size_in X layouts.now) widest (map rows_of grids.now) (length grids.now)) most }
{
    let mut sum = 0;
    for grid in grids {
        sum = longer(sum, row_width(layouts, first_row(grid), most), most);
        sum = longer(sum, widest, most);
    }
    sum
}

// The first length past so many u and a space.
fn first_past(most: i64, widest: i64) -> i64
    requires least { pos 0 ≤ℤ most }
    requires most { most ≤ℤ pos (2 ^ 30) }
    requires widest { pos 0 ≤ℤ widest }
    requires small { widest ≤ℤ pos 4096 }
    ensures { result ≡ (most +ℤ widest) +ℤ pos 1 }
{
    most + widest + 1
}

// Whether the grids together are wider than so many u.
fn are_too_wide(widest: i64, layouts: &[Coords], grids: &[PlanGrid], most: i64) -> bool
    requires sizes { AreSizes (size_in X layouts.now) }
    requires least { pos 0 ≤ℤ most }
    requires most { most ≤ℤ pos (2 ^ 30) }
    requires widest { pos 0 ≤ℤ widest }
    requires small { widest ≤ℤ pos 4096 }
    ensures { result ≡ int_lt most (whole_width (size_in X layouts.now) widest (map rows_of grids.now)) }
{
    let past = first_past(most, widest);
    spaced_width(widest, layouts, grids, past) >= past
}

// Whether a grid is higher than so many u.
fn is_too_high(layouts: &[Coords], grids: &[PlanGrid], most: i64) -> bool
    requires sizes { AreSizes (size_in Y layouts.now) }
    requires least { pos 0 ≤ℤ most }
    requires most { most ≤ℤ pos (2 ^ 30) }
    ensures { result ≡ int_lt most (whole_height (size_in Y layouts.now) (map rows_of grids.now)) }
{
    for grid in grids {
        if grid_height(layouts, grid, most + 1) > most {
            return true;
        }
    }
    false
}

// How many u masks may be wide or high. The product of a length with the unit might not fit.
fn most_long(tech: &Tech) -> i64
    ensures value { (length : ℤ) → int_lt result length ≡ int_lt most_extent (length *ℤ unit_of tech.now) }
    ensures least { pos 0 ≤ℤ result }
    ensures most { result ≤ℤ pos (2 ^ 30) }
{
    MAX_EXTENT / tech.numbers().unit
}

/// Sees that the grids together are not too wide or too high. It takes no memory.
pub fn check_extent(tech: &Tech, plan: &Plan, layouts: &[Coords]) -> Result<(), TooFar>
    requires widths { AreSizes (size_in X layouts.now) }
    requires heights { AreSizes (size_in Y layouts.now) }
    ensures within { IfOk result (λ done. IsWithin tech.now plan.now layouts.now) }
    ensures past { IfErr result (λ _. IsPast tech.now plan.now layouts.now) }
{
    let (grids, most) = (plan.grids.as_slice(), most_long(tech));
    let is_wide = are_too_wide(tech.widest(), layouts, grids, most);
    let is_high = is_too_high(layouts, grids, most);
    if is_wide || is_high {
        return Err(TooFar);
    }
    Ok(())
}
