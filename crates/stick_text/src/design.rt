//! What a stick text says, as values.
use lam_geom::Side;
use lam_list::Seq;
use stick_lex::Text;

/// A layer of conductors.
#[derive(Clone, Copy)]
pub enum Layer {
    Diffusion,
    Poly,
    Metal,
}

/// What stands in a cell, one form a line. Columns, rows and places are coarse coordinates; sizes are in u.
#[derive(Drop)]
pub enum Form {
    /// A square pad. Without a width it has its layer's.
    Joint {
        name: Text,
        layer: Layer,
        col: u32,
        row: u32,
        width: Option<u32>,
    },
    /// Metal to the lower layer, which is diffusion or poly.
    Contact {
        name: Text,
        lower: Layer,
        col: u32,
        row: u32,
    },
    /// Poly to diffusion, with no metal: both overlap in one square.
    Buried {
        name: Text,
        col: u32,
        row: u32,
    },
    /// A transistor, an enhancement or a depletion one, whose gate runs up or across.
    Fet {
        name: Text,
        depletion: bool,
        vertical: bool,
        col: u32,
        row: u32,
        w: u32,
        l: u32,
    },
    /// A terminal on a side of the cell, at a row (left and right) or a column (bottom and top).
    Port {
        name: Text,
        side: Side,
        layer: Layer,
        place: u32,
    },
    /// A copy of an earlier cell, shifted.
    Inst {
        name: Text,
        cell: Text,
        col: u32,
        row: u32,
    },
    /// A straight wire between two terminals, given by paths. Without a width it has its layer's.
    Wire {
        layer: Layer,
        a: Text,
        b: Text,
        width: Option<u32>,
    },
    /// A bound on the coordinate of `b` less that of `a`, on y where it is vertical and else on x.
    Limit {
        vertical: bool,
        a: Text,
        b: Text,
        at_most: bool,
        n: i64,
    },
}

/// A form, and the number of its line in the text, from 1.
#[derive(Drop)]
pub struct Line {
    pub number: u32,
    pub form: Form,
}

/// A cell: the lines between its first line and its `end`, with the numbers of these two.
#[derive(Drop)]
pub struct CellText {
    pub name: Text,
    pub line: u32,
    pub end_line: u32,
    pub lines: Seq<Line>,
}

/// A row of a grid: names of cells, from the left.
#[derive(Drop)]
pub struct RowText {
    pub names: Seq<Text>,
}

/// A grid: its name, where its version gives it one, the number of its first line, and its rows from the bottom.
#[derive(Drop)]
pub struct GridText {
    pub name: Option<Text>,
    pub line: u32,
    pub rows: Seq<RowText>,
}

/// A design: the version of the language, its cells and its grids. In version 1 there is one grid, and it has no
/// name; in version 2 there is one or more, and each has a name.
#[derive(Drop)]
pub struct Design {
    pub version: u32,
    pub cells: Seq<CellText>,
    pub grids: Seq<GridText>,
}

/// What one line of stick text says.
#[derive(Drop)]
pub enum Statement {
    /// `sticks N`
    Version(u32),
    /// `cell NAME`
    Cell(Text),
    /// A line of a cell.
    Item(Form),
    /// `grid`, or `grid NAME`
    Grid(Option<Text>),
    /// `row NAME NAME ..`
    Row(RowText),
    /// `end`
    End,
}
