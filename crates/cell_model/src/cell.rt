//! A cell whose uses are inlined, and its nets.
use lam_geom::Side;
use lam_list::Seq;
use rule_table::Layer;
use stick_lex::Text;

/// An axis of the cell: x runs across, y runs up.
#[derive(Clone, Copy, PartialEq, Eq)]
pub enum Axis2 {
    Across,
    Up,
}

/// What a node is. Sizes are in u.
#[derive(Clone, Copy)]
pub enum NodeKind {
    /// A square pad of one layer.
    Joint {
        layer: Layer,
        width: i64,
    },
    /// Metal to the lower layer.
    Contact {
        lower: Layer,
    },
    /// A buried contact: poly to diffusion, on a square pad.
    Buried,
    /// A transistor, an enhancement or a depletion one, whose gate runs along an axis. W is the channel's extent along
    /// the gate, L across it.
    Fet {
        depletion: bool,
        gate: Axis2,
        w: i64,
        l: i64,
    },
}

/// A node of an inlined cell. Its name is the path to it. Columns and rows are coarse coordinates.
#[derive(Drop)]
pub struct Node {
    pub name: Text,
    pub kind: NodeKind,
    pub col: u32,
    pub row: u32,
}

/// Where a wire ends: at a node or at a port of the cell, by its number.
#[derive(Clone, Copy)]
pub enum WireEnd {
    Node(u32),
    Port(u32),
}

/// A straight wire. Its low end is the one with the smaller column or row; a left or bottom port is low, a right or top
/// port is high. The width is in u.
#[derive(Clone, Copy)]
pub struct Wire {
    pub layer: Layer,
    pub width: i64,
    pub low: WireEnd,
    pub high: WireEnd,
    pub along: Axis2,
}

/// A terminal on a side of the cell, at a row (left and right) or a column (bottom and top), with the number of its
/// wire.
#[derive(Drop)]
pub struct Port {
    pub name: Text,
    pub side: Side,
    pub layer: Layer,
    pub place: u32,
    pub wire: u32,
}

/// A bound on the coordinate of node `b` less that of node `a`: at most or at least `n`, in u.
#[derive(Clone, Copy, PartialEq, Eq)]
pub struct Limit {
    pub axis: Axis2,
    pub a: u32,
    pub b: u32,
    pub at_most: bool,
    pub n: i64,
}

/// A cell with its uses replaced by what they stand for.
#[derive(Drop)]
pub struct Cell {
    pub name: Text,
    pub nodes: Seq<Node>,
    pub wires: Seq<Wire>,
    pub ports: Seq<Port>,
    pub limits: Seq<Limit>,
}

/// A port of a cell as its neighbours in a grid see it: with the width of its wire, in u, and that wire's number.
#[derive(Clone, Copy)]
pub struct CellPort {
    pub side: Side,
    pub layer: Layer,
    pub place: u32,
    pub width: i64,
    pub wire: u32,
}

/// The nets of a node: that of its gate for a transistor, with those of its low and high diffusion; for another node
/// the three are the same.
#[derive(Clone, Copy)]
pub struct NodeNets {
    pub main: u32,
    pub low: u32,
    pub high: u32,
}

/// The nets of a cell: of its nodes, of its wires, and how many there are. They are numbered in order of their first
/// parts: the nodes' parts (of a transistor gate, low and high diffusion), and then the wires.
#[derive(Drop)]
pub struct Nets {
    pub node: Seq<NodeNets>,
    pub wire: Seq<u32>,
    pub count: u32,
}
