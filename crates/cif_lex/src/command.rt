//! What a reader of CIF meets in a text.

use crate::placement::Placement;
use lam_geom::MaskLayer;

/// A command. A number past 2^30 on either side of 0 stands as one past it.
#[derive(Clone, Copy)]
pub enum Command {
    /// An empty command.
    Nothing,
    /// `DS n a b`: a symbol begins, by its number, and its scale, which is 1/1 if it is not written.
    Define {
        number: i64,
        above: i64,
        below: i64,
    },
    /// `DF`: the symbol ends.
    Finish,
    /// `L name`: the layer from here on; none for a layer that is not kept.
    Layer(Option<MaskLayer>),
    /// `B l w x y`: a box by its length along x, its width along y, and its centre.
    Area {
        l: i64,
        w: i64,
        x: i64,
        y: i64,
    },
    /// `C n` and any number of `T x y`, `M X`, `M Y` and `R a b`: a symbol is placed. What its transformations come
    /// to, from left to right; whether a number of them is past the limit, or both or neither number of a turn is 0;
    /// whether one of them is no shift; and the greatest common divisor of the numbers of the shifts, as they stand
    /// in the text, 0 where there is none.
    Call {
        number: i64,
        place: Placement,
        bad: bool,
        turned: bool,
        divisor: u32,
    },
    /// A digit and any bytes: a user extension.
    Extension,
}

/// What comes next.
#[derive(Clone, Copy)]
pub enum Next {
    /// A command: where it begins, and the place after its semicolon.
    Whole {
        begin: usize,
        command: Command,
        after: usize,
    },
    /// A command that the end of the text cuts off, or a comment in it that has no end.
    Cut {
        begin: usize,
        command: Command,
    },
    /// What begins there is no command.
    Bad {
        begin: usize,
    },
    /// The letter E, which ends the text.
    End {
        begin: usize,
    },
    /// The text ends, or a comment in it has no end, where a command would begin.
    Missing,
}

/// What stands after the end.
#[derive(Clone, Copy)]
pub enum Tail {
    /// Blanks and comments.
    Clean,
    /// Something else, which begins there.
    Filled { begin: usize },
    /// A comment that has no end.
    Unclosed,
}
