//! What the names of a cell stand for.
use cell_model::NodeKind;
use lam_geom::Side;
use rule_table::Layer;

/// A node as a name or a path tells it: its number in the inlined cell, what it is, and where it lies.
#[derive(Clone, Copy)]
pub struct NodePlace {
    pub number: u32,
    pub kind: NodeKind,
    pub col: u32,
    pub row: u32,
}

/// A port as a name tells it, with its number.
#[derive(Clone, Copy)]
pub struct Pin {
    pub number: u32,
    pub side: Side,
    pub layer: Layer,
    pub place: u32,
}

/// A copy of an earlier cell: that cell's number, the number of the copy's first node, and its shift.
#[derive(Clone, Copy)]
pub struct Copied {
    pub cell: u32,
    pub first: u32,
    pub col: u32,
    pub row: u32,
}

/// What a name of a cell stands for.
#[derive(Clone, Copy)]
pub enum Binding {
    Node(NodePlace),
    Port(Pin),
    Copy(Copied),
}

/// Where a wire may end.
#[derive(Clone, Copy)]
pub enum Terminal {
    Node(NodePlace),
    Port(Pin),
}

/// What a path comes to.
#[derive(Clone, Copy)]
pub enum Found {
    /// A terminal.
    At(Terminal),
    /// A use.
    AtCopy,
    /// It goes on after something that is no use.
    Through,
}

/// A straight run from its low terminal to its high one. It goes forward where the first of the two is the low one.
#[derive(Clone, Copy)]
pub struct Run {
    pub along: cell_model::Axis2,
    pub low: Terminal,
    pub high: Terminal,
    pub forward: bool,
}
