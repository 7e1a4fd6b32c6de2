//! What the definitions promise.
ghost use Rattle.std.specs.Prelude.{◌≡◌};
ghost use Rattle.limit_edits.specs.{Edits.IsEdited, Faults.IsAtFaultAlone};

use edit_lines::EditLine;
use rule_table::Tech;
use stick_text::Design;

/// A law, with nothing to run: an edit leads to one design.
pub fn edits_are_determined(
    design: &Design,
    masters: &[u32],
    edit: &EditLine,
    new: &Design,
    other: &Design,
)
    requires new { IsEdited design.now masters.now edit.now new.now }
    requires other { IsEdited design.now masters.now edit.now other.now }
    ensures { new.now ≡ other.now }
{}

/// A law, with nothing to run: in a design without fault in names and sizes, the limit that an edit adds is the only
/// thing that can have one. Where it has a fault, the first fault of the new design is of its kind; and else the new
/// design has none.
pub fn edits_are_at_fault_alone(
    tech: &Tech,
    design: &Design,
    masters: &[u32],
    edit: &EditLine,
    new: &Design,
)
    requires { IsEdited design.now masters.now edit.now new.now }
    ensures { IsAtFaultAlone tech.now design.now edit.now new.now }
{}
