//! How many boxes symbols and pictures have, and where all instances lie.
ghost use Rattle.std.specs.Prelude.{◌≡◌, ℕ, ◌^◌, pos, ◌≤ℤ◌, All, length, map};
ghost use Rattle.lam_geom.specs.declared.boxes.Axis.TheVariants.{X, Y};
ghost use Rattle.rule_table.specs.Technology.{widest_of};
ghost use Rattle.cell_model.specs.Counts.{boxes_in};
ghost use Rattle.sym_items.specs.Layouts.{size_in};
ghost use Rattle.expand.specs.Items.{item_list};
ghost use Rattle.plan_model.specs.{Instances.{whole_width, whole_height, IsAligned}, Plan.grids_of, Rows.IsRectangular};
ghost use Rattle.mask_out.specs.{Masks.masks_in, Pictures.{drawing_of, flat_of, boxes_called, IsDrawable}};

use crate::drawing::Picture;
use cell_model::{Cell, Nets};
use plan_model::Plan;
use rule_table::Tech;
use sym_items::Coords;

/// A law, with nothing to run: the items of a cell give as many mask boxes, in whatever layout, as its nodes and
/// wires are counted to have.
pub fn boxes_are_counted(tech: &Tech, cell: &Cell, nets: &Nets, coords: &Coords)
    ensures { length (masks_in coords.now (item_list tech.now cell.now nets.now)) ≡ boxes_in cell.now }
{}

/// A law, with nothing to run: a picture has as many boxes as the symbols of its calls have together.
pub fn flat_is_counted(picture: &Picture)
    ensures { length (flat_of (map drawing_of picture.now.symbols) picture.now.calls)
        ≡ boxes_called (map drawing_of picture.now.symbols) picture.now.calls }
{}

/// A law, with nothing to run: where masters that share a column are equally wide and masters that share a row
/// equally high, and the whole is at most 2^40 wide and high, all places of a picture can be reckoned with.
pub fn wholes_bound_places(tech: &Tech, plan: &Plan, coords: &[Coords])
    requires rectangular { All IsRectangular (grids_of plan.now) }
    requires aligned { All (IsAligned (size_in X coords.now) (size_in Y coords.now)) (grids_of plan.now) }
    requires widths { (m : ℕ) → pos 0 ≤ℤ size_in X coords.now m }
    requires heights { (m : ℕ) → pos 0 ≤ℤ size_in Y coords.now m }
    requires widest { pos 0 ≤ℤ widest_of tech.now }
    requires narrow { whole_width (size_in X coords.now) (widest_of tech.now) (grids_of plan.now) ≤ℤ pos (2 ^ 40) }
    requires low { whole_height (size_in Y coords.now) (grids_of plan.now) ≤ℤ pos (2 ^ 40) }
    ensures { IsDrawable (size_in X coords.now) (size_in Y coords.now) (widest_of tech.now) (grids_of plan.now) }
{}
