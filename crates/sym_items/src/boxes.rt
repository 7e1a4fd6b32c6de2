//! Where the ends of an item lie in a layout.

ghost use Rattle.std.specs.Prelude.{◌≡◌};
ghost use Rattle.lam_geom.specs.Places.{IsPlacedBox};
ghost use Rattle.sym_items.specs.{Values.value_at, Sides.{sides_of, sides_in}, Boxes.{IsPlacedEnd, HasBox}};
ghost use Rattle.sym_items.specs.Transposed.{TransposesBoxes, sides_along};

use crate::items::{Coords, End, Item};
use lam_geom::{Axis, BoxXY, Span, transpose};

/// Where an end lies, in u, where `c` has the value of each variable of its axis.
pub fn at(e: End, c: &[i64]) -> i64
    requires { IsPlacedEnd c.now e }
    ensures { result ≡ value_at e c.now }
{
    c[e.var as usize] + e.off
}

/// The box of an item in a layout, in u.
pub fn box_of(item: &Item, c: &Coords) -> BoxXY
    requires { HasBox c.now item.now }
    ensures sides { sides_of result ≡ sides_in c.now item.now }
    ensures placed { IsPlacedBox result }
{
    let x = Span {
        lo: at(item.xl, c.x.as_slice()),
        hi: at(item.xh, c.x.as_slice()),
    };
    let y = Span {
        lo: at(item.yl, c.y.as_slice()),
        hi: at(item.yh, c.y.as_slice()),
    };
    BoxXY { x, y }
}

/// The box of an item in a layout, in u, turned so that the axis lies where x lay: as it is for x, with x and y
/// exchanged for y.
pub fn box_along(axis: Axis, item: &Item, c: &Coords) -> BoxXY
    requires { HasBox c.now item.now }
    ensures sides { sides_of result ≡ sides_along axis (sides_in c.now item.now) }
    ensures placed { IsPlacedBox result }
{
    let area = box_of(item, c);
    match axis {
        Axis::X => area,
        Axis::Y => transpose(&area),
    }
}

/// A law, with nothing to run: an item and a layout with x and y exchanged give the item's box with x and y exchanged,
/// and give a box exactly where the item has one. So whatever is said of one axis holds of the other.
pub fn transposes_boxes(item: &Item, c: &Coords)
    ensures { TransposesBoxes c.now item.now }
{}
