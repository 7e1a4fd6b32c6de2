//! Boxes round the centre of a node or along a run, and what a layer has there.

ghost use Rattle.std.specs.Prelude.{◌≡◌, ◌+◌, ◌<◌, ◌^◌, ◌++◌, pos, neg_ℤ, ◌+ℤ◌, ◌-ℤ◌, ◌≤ℤ◌, OnOk};
ghost use Rattle.expand.specs.{Bounds.{IsHalfSize, IsSmall, IsNear}, Variables.{half, centre, past}};
ghost use Rattle.expand.specs.NodeItems.{item_running, on_layer, box_at, box_round, square_round};

use cell_model::Axis2;
use rule_table::{Class, Layer};
use std::alloc::AllocError;
use sym_items::{End, Item, NOWHERE};

/// Half of a length.
pub fn half(length: i64) -> i64
    ensures value { result ≡ half length }
    ensures low { pos 0 ≤ℤ length → pos 0 ≤ℤ result }
    ensures high { pos 0 ≤ℤ length → result ≤ℤ length }
{
    length / 2
}

/// A length to the other side.
pub fn negated(length: i64) -> i64
    requires { IsNear length }
    ensures value { result ≡ neg_ℤ length }
    ensures near { IsNear result }
{
    -length
}

/// The first length less the second.
pub fn less(length: i64, by: i64) -> i64
    requires length { IsNear length }
    requires by { IsNear by }
    ensures { result ≡ length -ℤ by }
{
    length - by
}

/// A half size with what extends past it.
pub fn extended(half_size: i64, extension: i64) -> i64
    requires half_size { IsHalfSize half_size }
    requires extension { IsHalfSize extension }
    ensures value { result ≡ half_size +ℤ extension }
    ensures small { IsSmall result }
{
    half_size + extension
}

/// The variable of a node's centre, on either axis.
pub fn centre(node: u32) -> u32
    requires { node < 2 ^ 31 }
    ensures { result ≡ centre node }
{
    2 + node
}

/// The box of a node whose sides lie so far past its centre, in u.
pub fn box_at(
    node: u32,
    class: Class,
    net: u32,
    left: i64,
    right: i64,
    bottom: i64,
    top: i64,
) -> Item
    requires node { node < 2 ^ 31 }
    requires left { IsNear left }
    requires right { IsNear right }
    requires bottom { IsNear bottom }
    requires top { IsNear top }
    ensures { result ≡ box_at node class net left right bottom top }
{
    let var = centre(node);
    Item {
        class,
        net,
        owner: node,
        xl: End { var, off: left },
        xh: End { var, off: right },
        yl: End { var, off: bottom },
        yh: End { var, off: top },
        least_x: less(right, left),
        least_y: less(top, bottom),
        at_low: NOWHERE,
        at_high: NOWHERE,
    }
}

/// The box of these half sizes round a node's centre.
pub fn box_round(node: u32, class: Class, net: u32, half_x: i64, half_y: i64) -> Item
    requires node { node < 2 ^ 31 }
    requires half_x { IsSmall half_x }
    requires half_y { IsSmall half_y }
    ensures { result ≡ box_round node class net half_x half_y }
{
    box_at(
        node,
        class,
        net,
        negated(half_x),
        half_x,
        negated(half_y),
        half_y,
    )
}

/// The square of this half size round a node's centre.
pub fn square_round(node: u32, class: Class, net: u32, half_size: i64) -> Item
    requires node { node < 2 ^ 31 }
    requires half_size { IsSmall half_size }
    ensures { result ≡ square_round node class net half_size }
{
    box_round(node, class, net, half_size, half_size)
}

/// An item that is described as if it ran across, for one that runs along this axis.
pub fn item_running(along: Axis2, item: Item) -> Item
    ensures { result ≡ item_running along item }
{
    match along {
        Axis2::Across => item,
        Axis2::Up => Item {
            xl: item.yl,
            xh: item.yh,
            yl: item.xl,
            yh: item.xh,
            least_x: item.least_y,
            least_y: item.least_x,
            ..item
        },
    }
}

/// Adds the boxes that a layer has where an item lies.
pub fn push_on_layer(list: &mut Vec<Item>, layer: Layer, item: Item) -> Result<(), AllocError>
    ensures { OnOk result (list.new.items ≡ list.old.items ++ on_layer layer item) }
{
    match layer {
        Layer::Metal => list.push(of_class(item, Class::M))?,
        Layer::Poly => list.push(of_class(item, Class::P))?,
        Layer::Diffusion => {
            list.push(of_class(item, Class::Dm))?;
            list.push(of_class(item, Class::Dc))?;
        }
    }
    Ok(())
}

// The item with this class.
fn of_class(item: Item, class: Class) -> Item
    ensures { result ≡ record item { class = class } }
{
    Item { class, ..item }
}
