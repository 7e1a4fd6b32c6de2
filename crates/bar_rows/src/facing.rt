//! Which bars face each other, and which screen others.

ghost use Rattle.std.specs.Prelude.{◌↔◌, IsTrue};
ghost use Rattle.bar_rows.specs.Facing.{Binds, Meet, Faces, Screens};

use crate::bars::Bar;

// Whether two bars keep something from each other; main ones do where `self_rule` says so.
fn binds(self_rule: bool, a: &Bar, b: &Bar) -> bool
    ensures { IsTrue result ↔ Binds self_rule a.now b.now }
{
    if a.owner == b.owner {
        return false;
    }
    match (a.is_main, b.is_main) {
        (true, true) => self_rule && a.key != b.key,
        (false, false) => false,
        _ => !a.contacts.share(b.contacts),
    }
}

// Whether two bars cover a place in common.
fn meet(a: &Bar, b: &Bar) -> bool
    ensures { IsTrue result ↔ Meet a.now b.now }
{
    a.start < b.end && b.start < a.end
}

/// Whether two bars face each other: they are bound, and meet across the row.
pub fn faces(self_rule: bool, a: &Bar, b: &Bar) -> bool
    ensures { IsTrue result ↔ Faces self_rule a.now b.now }
{
    meet(a, b) && binds(self_rule, a, b)
}

/// Whether a bar between two others screens them from each other: it is solid, and faces both.
pub fn screens(self_rule: bool, a: &Bar, b: &Bar, between: &Bar) -> bool
    ensures { IsTrue result ↔ Screens self_rule a.now b.now between.now }
{
    between.is_solid && faces(self_rule, a, between) && faces(self_rule, between, b)
}
