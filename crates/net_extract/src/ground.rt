//! What a search for nets goes over.

use box_pieces::Pieces;
use box_tree::BoxTree;
use lam_geom::MaskBox;
use rule_table::Tech;

/// Boxes under a technology, with a tree of their windows and the pieces into which they fall.
#[derive(Clone, Copy)]
pub struct Ground<'a> {
    pub tech: &'a Tech,
    pub boxes: &'a [MaskBox],
    pub windows: &'a BoxTree,
    pub pieces: &'a Pieces,
}
