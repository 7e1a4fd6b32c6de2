//! How wide and how high masters, rows and grids are.
ghost use Rattle.std.specs.Prelude.{◌≡◌, slice_index, slice_index_or, map};
ghost use Rattle.lam_geom.specs.declared.boxes.Axis.TheVariants.{X, Y};
ghost use Rattle.sym_items.specs.{Layouts.size_in, Values.value_of};
ghost use Rattle.plan_model.specs.{Instances.{total, row_height, grid_width}, Rows.first_row};
ghost use Rattle.mask_out.specs.Pictures.{IsRowInReach};

use lam_geom::Axis;
use plan_model::PlanRow;
use sym_items::Coords;

// The value of the far border, variable 1.
fn far_border(values: &[i64]) -> i64
    ensures { result ≡ value_of values.now 1 }
{
    match values.get(1) {
        Some(value) => *value,
        None => 0,
    }
}

/// The width or the height of a master, in u.
pub fn size_of(axis: Axis, coords: &[Coords], master: u32) -> i64
    ensures { result ≡ size_in axis coords.now master }
{
    match coords.get(master as usize) {
        Some(layout) => far_border(layout.values(axis)),
        None => 0,
    }
}

/// The height of a row, in u: that of its first master.
pub fn height_of_row(coords: &[Coords], row: &[u32]) -> i64
    ensures { result ≡ row_height (size_in Y coords.now) row.now }
{
    match row.first() {
        Some(master) => size_of(Axis::Y, coords, *master),
        None => size_of(Axis::Y, coords, 0),
    }
}

// The width of a row, in u.
fn width_of_row(coords: &[Coords], row: &[u32]) -> i64
    requires { IsRowInReach (size_in X coords.now) row.now }
    ensures { result ≡ total (map (size_in X coords.now) row.now) }
{
    let mut width = 0;
    for master in row {
        width += size_of(Axis::X, coords, *master);
    }
    width
}

/// The width of a grid, in u: that of its first row.
pub fn width_of_grid(coords: &[Coords], rows: &[PlanRow]) -> i64
    requires { IsRowInReach (size_in X coords.now) (first_row (map (λ row. row.cells) rows.now)) }
    ensures { result ≡ grid_width (size_in X coords.now) (map (λ row. row.cells) rows.now) }
{
    match rows.first() {
        Some(row) => width_of_row(coords, row.cells.as_slice()),
        None => 0,
    }
}
