ghost use Rattle.std.specs.Prelude.{◌≤ℤ◌};

/// The coordinates from `lo` to `hi` on one axis.
#[derive(Clone, Copy, PartialEq, Eq)]
pub struct Span {
    pub lo: i64,
    pub hi: i64,
    ghost ordered: { lo ≤ℤ hi },
}

/// An axis-parallel box: its span on x and its span on y.
#[derive(Clone, Copy, PartialEq, Eq)]
pub struct BoxXY {
    pub x: Span,
    pub y: Span,
}

/// One of the two axes of the plane.
#[derive(Clone, Copy, PartialEq, Eq)]
pub enum Axis {
    X,
    Y,
}

/// A side of a box, or of a cell.
#[derive(Clone, Copy, Debug)]
pub enum Side {
    Left,
    Right,
    Bottom,
    Top,
}

/// A mask layer of the nMOS process, by its CIF name: diffusion, poly, contact cut, metal, implant, the window of a
/// buried contact.
#[derive(Clone, Copy, Debug, PartialEq, Eq, PartialOrd, Ord)]
pub enum MaskLayer {
    ND,
    NP,
    NC,
    NM,
    NI,
    NB,
}

impl MaskLayer {
    /// The layers in the order in which a symbol lists its boxes.
    pub const ALL: [MaskLayer; 6] = [
        MaskLayer::ND,
        MaskLayer::NP,
        MaskLayer::NC,
        MaskLayer::NM,
        MaskLayer::NI,
        MaskLayer::NB,
    ];
}

/// A box on a mask layer.
#[derive(Clone, Copy, PartialEq, Eq)]
pub struct MaskBox {
    pub layer: MaskLayer,
    pub area: BoxXY,
}
