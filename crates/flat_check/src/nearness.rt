//! Boxes by their numbers.
ghost use Rattle.std.specs.Prelude.{◌≡◌, ◌<◌, length};
ghost use Rattle.lam_geom.specs.Places.{IsPlacedBox};
ghost use Rattle.crossing_model.specs.Boxes.{AreSearchable, box_at};

use lam_geom::MaskBox;

/// A box by its number.
pub fn numbered(boxes: &[MaskBox], number: u32) -> MaskBox
    requires searchable { AreSearchable boxes.now }
    requires among { number < length boxes.now }
    ensures value { result ≡ box_at boxes.now number }
    ensures placed { IsPlacedBox result.area }
{
    boxes[number as usize]
}
