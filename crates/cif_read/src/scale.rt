//! The scale of a definition.
ghost use Rattle.std.specs.Prelude.{◌≡◌, ◌^◌, false};
ghost use Rattle.cif_read.specs.{Acts.{is_bad_area, is_odd_area, scaled, drawn_box}, Files.{drawn_of, IsSolidWithin}};
ghost use Rattle.cif_read.specs.Scales.{IsScale};

use crate::numbers::{drawn_box, is_odd, scaled};
use lam_geom::{MaskBox, MaskLayer};

/// The scale of a definition: a number of it, times `above` over `below`, is in hundredths of a micron.
#[derive(Clone, Copy)]
pub struct Scale {
    pub above: i64,
    pub below: i64,
}

impl Scale {
    /// Whether one of the numbers of a box is no whole number of hundredths of a micron.
    pub fn is_odd_area(&self, l: i64, w: i64, x: i64, y: i64) -> bool
        requires sound { IsScale self.now }
        requires good { is_bad_area l w x y ≡ false }
        ensures { result ≡ is_odd_area self.now.above self.now.below l w x y }
    {
        is_odd(self.above, self.below, l)
            || is_odd(self.above, self.below, w)
            || is_odd(self.above, self.below, x)
            || is_odd(self.above, self.below, y)
    }

    /// The box on a layer that is kept.
    pub fn scaled_box(&self, layer: MaskLayer, l: i64, w: i64, x: i64, y: i64) -> MaskBox
        requires sound { IsScale self.now }
        requires good { is_bad_area l w x y ≡ false }
        requires even { is_odd_area self.now.above self.now.below l w x y ≡ false }
        ensures value { let s = scaled self.now.above self.now.below in drawn_of result
            ≡ drawn_box layer (s l) (s w) (s x) (s y) }
        ensures solid { IsSolidWithin (2 ^ 50) (drawn_of result) }
    {
        drawn_box(
            layer,
            scaled(self.above, self.below, l),
            scaled(self.above, self.below, w),
            scaled(self.above, self.below, x),
            scaled(self.above, self.below, y),
        )
    }
}
