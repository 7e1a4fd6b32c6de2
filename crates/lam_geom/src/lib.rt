// Plane geometry of axis-parallel boxes: spans, boxes, and their Chebyshev distance.
// Coordinates are whole numbers of any unit, between -2^60 and 2^60; nothing here takes memory or refuses.
// The contract for the layers above: each call is its formula.
#![tactic(auto)]

pub mod boxes;
pub mod gaps;

pub use boxes::{Axis, BoxXY, MaskBox, MaskLayer, Side, Span};
pub use gaps::{contains_by, gap, gap_box, overlaps, span_of, touches, transpose};
