//! What boxes are for the design rules.

/// A layer that sticks are drawn on.
#[derive(Clone, Copy)]
pub enum Layer {
    Diffusion,
    Poly,
    Metal,
}

/// The class of a box in the spacing table.
#[derive(Clone, Copy, PartialEq, Eq)]
pub enum Class {
    /// Metal.
    M,
    /// Poly.
    P,
    /// A conducting piece of diffusion.
    Dc,
    /// A diffusion box of the mask, with the channels in it.
    Dm,
    /// A contact cut.
    C,
    /// An implant.
    I,
    /// The channel of a transistor.
    G,
    /// The window of a buried contact, in which poly and diffusion touch.
    B,
}

/// A row of the spacing table for two classes.
#[derive(Clone, Copy)]
pub struct Rule {
    /// The least gap, in u.
    pub s: i64,
    /// Whether boxes of one net need not keep it.
    pub net_exempt: bool,
}
