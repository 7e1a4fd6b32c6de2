//! Items, their ends, and the coordinates of a layout.

use lam_list::Seq;
use rule_table::Class;

/// An end of an item on one axis: a variable of that axis, and how far past its value the end lies, in u.
#[derive(Clone, Copy)]
pub struct End {
    pub var: u32,
    pub off: i64,
}

/// A box of a cell by the ends of its two spans. Ends on x lie on variables of the x axis, ends on y on those of y.
#[derive(Clone, Copy)]
pub struct Item {
    /// What the box is for the spacing table.
    pub class: Class,
    /// The net of the part that it belongs to.
    pub net: u32,
    /// The part that it belongs to: items of one owner keep no spacing to each other.
    pub owner: u32,
    /// The left end.
    pub xl: End,
    /// The right end.
    pub xh: End,
    /// The lower end.
    pub yl: End,
    /// The upper end.
    pub yh: End,
    /// The least width, in u.
    pub least_x: i64,
    /// The least height, in u.
    pub least_y: i64,
    /// The buried contact at which it stands, by its node's number, or `NOWHERE`: an item of a buried contact at that
    /// one, an item of a wire at that of its low terminal.
    pub at_low: u32,
    /// The same; an item of a wire stands at that of its high terminal.
    pub at_high: u32,
}

/// In place of a buried contact, where an item stands at none.
pub const NOWHERE: u32 = 65_536;

/// The items of a cell, and how many variables there are on each axis.
#[derive(Drop)]
pub struct Items {
    pub list: Seq<Item>,
    pub x_vars: u32,
    pub y_vars: u32,
}

/// A layout: the value of each variable of x and of each variable of y, in u.
#[derive(Drop)]
pub struct Coords {
    pub x: Seq<i64>,
    pub y: Seq<i64>,
}
