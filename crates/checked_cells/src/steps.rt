//! What the lines of a cell add to it.
use cell_model::{Limit, NodeKind, Wire};
use lam_geom::Side;
use rule_table::Layer;

/// What a line adds to its cell, once its names and sizes have been checked. The ends of wires and limits are numbers
/// of nodes in the inlined cell.
#[derive(Clone, Copy)]
pub enum Step<'a> {
    Node {
        name: &'a [u8],
        kind: NodeKind,
        col: u32,
        row: u32,
    },
    Port {
        name: &'a [u8],
        side: Side,
        layer: Layer,
        place: u32,
    },
    /// A copy of an earlier cell, by that cell's number, shifted by coarse columns and rows.
    Copy {
        name: &'a [u8],
        cell: u32,
        col: u32,
        row: u32,
    },
    Wire(Wire),
    Limit(Limit),
}
