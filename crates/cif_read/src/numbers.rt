//! The numbers of commands, and the boxes that they make.
ghost use Rattle.std.specs.Prelude.{◌≡◌, ◌^◌, pos, ◌+ℤ◌, ◌-ℤ◌, ◌*ℤ◌, ◌≤ℤ◌, false};
ghost use Rattle.cif_lex.specs.{Commands.is_far, Shifts.is_odd};
ghost use Rattle.cif_read.specs.Acts.{is_bad_symbol, is_bad_factor, is_bad_length, is_bad_area, is_bad_call, scaled};
ghost use Rattle.cif_read.specs.{Acts.drawn_box, Files.{IsWithin, IsSolidWithin, drawn_of}, Scales.IsFactor};
ghost use Rattle.cif_read.specs.Readings.{IsExtent};

use cif_lex::LARGEST;
use lam_geom::{BoxXY, MaskBox, MaskLayer, Span};

/// The greatest factor of a scale.
const MAX_FACTOR: i64 = 65_536;

fn is_far(n: i64) -> bool
    ensures { result ≡ is_far n }
{
    n < -LARGEST || LARGEST < n
}

/// Whether it is no number of a symbol.
pub fn is_bad_symbol(n: i64) -> bool
    ensures { result ≡ is_bad_symbol n }
{
    n < 0 || is_far(n)
}

/// Whether it is no factor of a scale.
pub fn is_bad_factor(n: i64) -> bool
    ensures { result ≡ is_bad_factor n }
{
    n < 1 || MAX_FACTOR < n
}

fn is_bad_length(n: i64) -> bool
    ensures { result ≡ is_bad_length n }
{
    n < 1 || is_far(n)
}

/// Whether one of the numbers of a box is too large, or too small.
pub fn is_bad_area(l: i64, w: i64, x: i64, y: i64) -> bool
    ensures { result ≡ is_bad_area l w x y }
{
    is_bad_length(l) || is_bad_length(w) || is_far(x) || is_far(y)
}

/// Whether one of the numbers of a call is too large, or too small.
pub fn is_bad_call(n: i64, x: i64, y: i64, bad: bool) -> bool
    ensures { result ≡ is_bad_call n x y bad }
{
    is_bad_symbol(n) || bad || is_far(x) || is_far(y)
}

/// Whether a number of a definition is no whole number of hundredths of a micron.
pub fn is_odd(above: i64, below: i64, n: i64) -> bool
    requires above { IsFactor above }
    requires below { IsFactor below }
    requires near { IsWithin (2 ^ 32) n }
    ensures { result ≡ is_odd above below n }
{
    // Most scales divide by 1: then nothing is left over.
    below != 1 && n * above % below != 0
}

/// A number of a definition in hundredths of a micron.
pub fn scaled(above: i64, below: i64, n: i64) -> i64
    requires above { IsFactor above }
    requires below { IsFactor below }
    requires near { IsWithin (2 ^ 30) n }
    ensures value { result ≡ scaled above below n }
    ensures near { IsWithin (2 ^ 46) result }
    ensures positive { is_odd above below n ≡ false → pos 1 ≤ℤ n → pos 1 ≤ℤ result }
{
    let product = n * above;
    // Most scales divide by 1, and a division takes long.
    if below == 1 { product } else { product / below }
}

// The sides along one axis of a box, in grains, by its extent and its centre in hundredths of a micron.
fn span_of(extent: i64, centre: i64) -> Span
    requires extent { IsExtent extent }
    requires near { IsWithin (2 ^ 46) centre }
    ensures low { result.lo ≡ (pos 2 *ℤ centre) -ℤ extent }
    ensures high { result.hi ≡ (pos 2 *ℤ centre) +ℤ extent }
{
    Span {
        lo: 2 * centre - extent,
        hi: 2 * centre + extent,
    }
}

/// A box by its extents and its centre in hundredths of a micron.
pub fn drawn_box(layer: MaskLayer, l: i64, w: i64, x: i64, y: i64) -> MaskBox
    requires long { IsExtent l }
    requires wide { IsExtent w }
    requires across { IsWithin (2 ^ 46) x }
    requires up { IsWithin (2 ^ 46) y }
    ensures value { drawn_of result ≡ drawn_box layer l w x y }
    ensures solid { IsSolidWithin (2 ^ 50) (drawn_of result) }
{
    MaskBox {
        layer,
        area: BoxXY {
            x: span_of(l, x),
            y: span_of(w, y),
        },
    }
}
