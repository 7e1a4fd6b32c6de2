//! What the definitions promise.
ghost use Rattle.std.specs.Prelude.{◌≡◌};
ghost use Rattle.jog_insert.specs.Jogs.{IsJogged};

use cell_model::Cell;
use stick_text::Design;

/// A law, with nothing to run: a jog leads to one design.
pub fn jogs_are_determined(
    design: &Design,
    content: &Cell,
    masters: &[u32],
    cell: u32,
    k: u32,
    r: u32,
    left: bool,
    new: &Design,
    other: &Design,
)
    requires new { IsJogged design.now content.now masters.now cell k r left new.now }
    requires other { IsJogged design.now content.now masters.now cell k r left other.now }
    ensures { new.now ≡ other.now }
{}
