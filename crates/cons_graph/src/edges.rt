/// Why an inequality is there: the word that a printed line of it ends with.
#[derive(Clone, Copy, PartialEq, Eq)]
pub enum Why {
    /// The cell is at least as wide as the widest spacing.
    Size,
    /// An item is at least as wide as it has to be.
    Extent,
    /// A wire's end stays on the pad of its terminal.
    Overlap,
    /// An item keeps its distance to a border of the cell.
    Margin,
    /// A limit of the designer's.
    Limit,
    /// Cells that share a column or a row are equally wide or high.
    Pitch,
    /// Wires of ports that meet lie on one line.
    Port,
    /// Two items keep their spacing.
    Space,
}

/// The inequality "the value of `to` is at least the value of `from` plus `len`", lengths in u.
#[derive(Clone, Copy, PartialEq, Eq)]
pub struct Edge {
    pub from: u32,
    pub to: u32,
    pub len: i64,
    pub why: Why,
}
