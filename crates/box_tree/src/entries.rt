//! Entries, and groups of them.

use lam_geom::BoxXY;

/// An area that belongs to an owner, as a box or a piece by its number, and has a tag, as a net by its number.
#[derive(Clone, Copy)]
pub struct Entry {
    pub area: BoxXY,
    pub owner: u32,
    pub tag: u32,
}

/// The greatest low end and the least high end of some spans. The first may lie past the second.
#[derive(Clone, Copy)]
pub struct Ends {
    pub lo: i64,
    pub hi: i64,
}

/// These ends on both axes, of some areas.
#[derive(Clone, Copy)]
pub struct Inner {
    pub x: Ends,
    pub y: Ends,
}

/// Some entries of a tree, which stand in a run in its order.
#[derive(Clone, Copy)]
pub struct Group {
    /// An area that encloses those of the entries.
    pub outer: BoxXY,
    /// The tag, if it is one for all entries.
    pub tag: Option<u32>,
    /// Where the run begins.
    pub start: u32,
    /// How many entries there are.
    pub count: u32,
    /// How many of the groups that follow are inside this one. A group with none inside is a leaf, of a few entries.
    pub inside: u32,
    /// The ends of the areas of the entries.
    pub inner: Inner,
}
