//! Lengths of a technology in grains, half hundredths of a micron.
ghost use Rattle.std.specs.Prelude.{◌≡◌, ◌^◌, pos, ◌≤ℤ◌};
ghost use Rattle.rule_table.specs.Bounds.{IsLength};
ghost use Rattle.crossing_model.specs.Boxes.{grains};

use rule_table::Tech;

/// A length of the technology in grains.
pub fn in_grains(tech: &Tech, length: i64) -> i64
    requires { IsLength length }
    ensures value { result ≡ grains tech.now length }
    ensures not_negative { pos 0 ≤ℤ result }
    ensures within { result ≤ℤ pos (2 ^ 25) }
{
    length * (2 * tech.numbers().unit)
}
