//! Items, layouts and their variables, seen along an axis.

ghost use Rattle.std.specs.Prelude.{◌≡◌};
ghost use Rattle.sym_items.specs.Transposed.{item_along, values_along, vars_along};

use crate::items::{Coords, End, Item, Items};
use lam_geom::Axis;

impl Item {
    /// The low end on an axis: the left or the lower one.
    pub fn low(&self, axis: Axis) -> End
        ensures { result ≡ (item_along axis self.now).xl }
    {
        match axis {
            Axis::X => self.xl,
            Axis::Y => self.yl,
        }
    }

    /// The high end on an axis: the right or the upper one.
    pub fn high(&self, axis: Axis) -> End
        ensures { result ≡ (item_along axis self.now).xh }
    {
        match axis {
            Axis::X => self.xh,
            Axis::Y => self.yh,
        }
    }

    /// The least extent on an axis, in u: the least width or height.
    pub fn least(&self, axis: Axis) -> i64
        ensures { result ≡ (item_along axis self.now).least_x }
    {
        match axis {
            Axis::X => self.least_x,
            Axis::Y => self.least_y,
        }
    }
}

impl Coords {
    /// The values of an axis, in u.
    pub fn values(&self, axis: Axis) -> &[i64]
        ensures { result.now ≡ values_along axis self.now }
    {
        match axis {
            Axis::X => self.x.as_slice(),
            Axis::Y => self.y.as_slice(),
        }
    }
}

impl Items {
    /// How many variables an axis has.
    pub fn vars(&self, axis: Axis) -> u32
        ensures { result ≡ vars_along axis self.now }
    {
        match axis {
            Axis::X => self.x_vars,
            Axis::Y => self.y_vars,
        }
    }
}
