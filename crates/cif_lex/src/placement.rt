//! The transformations of a call, and what they come to together.
ghost use Rattle.std.specs.Prelude.{◌≡◌, ◌+◌, ◌^◌, ◌<◌, ℕ, pos};
ghost use Rattle.cif_lex.specs.Transformations.{Point, quarters, quarters_towards, turned, applied, placed, shift_of};
ghost use Rattle.cif_lex.specs.{Transformations.IsNear, Reading.HasSmallNumbers};

/// A transformation of a call.
#[derive(Clone, Copy)]
pub enum Transformation {
    /// `T x y`: a shift.
    Shift { x: i64, y: i64 },
    /// `M X`: x times -1.
    MirrorX,
    /// `M Y`: y times -1.
    MirrorY,
    /// `R a b`: a turn that takes the x axis towards (a, b).
    Turn { a: i64, b: i64 },
}

/// What transformations come to, one after another: a turn, and then a shift. The turn is below 8. Below 4 it is that
/// many quarter turns, from the x axis to the y axis; 4 more means that x is multiplied by -1 first.
#[derive(Clone, Copy)]
pub struct Placement {
    pub turn: u8,
    pub x: i64,
    pub y: i64,
}

// How many quarter turns take the x axis towards (a, b), of which one number is 0.
fn quarters_towards(a: i64, b: i64) -> u8
    ensures value { result ≡ quarters_towards a b }
    ensures few { result < 4 }
{
    if a > 0 {
        0
    } else if b > 0 {
        1
    } else if a < 0 {
        2
    } else {
        3
    }
}

// The turn that comes to `inner`, and then `outer`.
fn turn_after(outer: u8, inner: u8) -> u8
    requires outer { outer < 8 }
    requires inner { inner < 8 }
    ensures turn { result < 8 }
    ensures same { (p : Point) → turned result p ≡ turned outer (turned inner p) }
{
    let quarters = outer % 4;
    let more = inner % 4;
    if outer < 4 {
        if inner < 4 {
            (quarters + more) % 4
        } else {
            (quarters + more) % 4 + 4
        }
    } else if inner < 4 {
        (quarters + 3 * more) % 4 + 4
    } else {
        (quarters + 3 * more) % 4
    }
}

// Where a point comes to by so many quarter turns.
fn quarters(count: u8, x: i64, y: i64) -> (i64, i64)
    requires few { count < 4 }
    requires near { IsNear (2 ^ 61) (x, y) }
    ensures { result ≡ quarters count (x, y) }
{
    match count {
        0 => (x, y),
        1 => (-y, x),
        2 => (-x, -y),
        _ => (y, -x),
    }
}

// Where a point comes to by a turn.
fn turned(turn: u8, x: i64, y: i64) -> (i64, i64)
    requires turn { turn < 8 }
    requires near { IsNear (2 ^ 61) (x, y) }
    ensures { result ≡ turned turn (x, y) }
{
    if turn < 4 {
        quarters(turn % 4, x, y)
    } else {
        quarters(turn % 4, -x, y)
    }
}

impl Placement {
    /// What stays where it is.
    pub fn still() -> Placement
        ensures { result ≡ record { turn = 0; x = pos 0; y = pos 0 } }
    {
        Placement {
            turn: 0,
            x: 0,
            y: 0,
        }
    }

    /// Where a point comes to.
    pub fn image(self, x: i64, y: i64) -> (i64, i64)
        requires turn { self.turn < 8 }
        requires near { IsNear (2 ^ 61) (x, y) }
        requires shift { IsNear (2 ^ 61) (shift_of self) }
        ensures { result ≡ placed self (x, y) }
    {
        let (right, up) = turned(self.turn, x, y);
        (right + self.x, up + self.y)
    }

    /// What comes to `inner`, and then this.
    pub fn after(self, inner: Placement) -> Placement
        requires outer_turn { self.turn < 8 }
        requires inner_turn { inner.turn < 8 }
        requires outer_near { IsNear (2 ^ 61) (shift_of self) }
        requires inner_near { IsNear (2 ^ 61) (shift_of inner) }
        ensures turn { result.turn < 8 }
        ensures same { (p : Point) → placed result p ≡ placed self (placed inner p) }
        ensures near { (r s : ℕ) → IsNear r (shift_of self) → IsNear s (shift_of inner)
            → IsNear (r + s) (shift_of result) }
    {
        let (x, y) = self.image(inner.x, inner.y);
        Placement {
            turn: turn_after(self.turn, inner.turn),
            x,
            y,
        }
    }
}

impl Transformation {
    /// What it comes to alone.
    pub(crate) fn placement(self) -> Placement
        ensures turn { result.turn < 8 }
        ensures same { (p : Point) → placed result p ≡ applied self p }
        ensures near { HasSmallNumbers self → IsNear 1073741825 (shift_of result) }
    {
        match self {
            Transformation::Shift { x, y } => Placement { turn: 0, x, y },
            Transformation::MirrorX => Placement {
                turn: 4,
                x: 0,
                y: 0,
            },
            Transformation::MirrorY => Placement {
                turn: 6,
                x: 0,
                y: 0,
            },
            Transformation::Turn { a, b } => Placement {
                turn: quarters_towards(a, b),
                x: 0,
                y: 0,
            },
        }
    }
}
