//! Bars.

ghost use Rattle.std.specs.Prelude.{◌↔◌, IsTrue};
ghost use Rattle.bar_rows.specs.Contacts.{HasContact, ShareContact};

use sym_items::NOWHERE;

/// The buried contacts of a bar: up to two, by the numbers of their nodes, or `NOWHERE`.
#[derive(Clone, Copy)]
pub struct Contacts {
    pub low: u32,
    pub high: u32,
}

impl Contacts {
    // Whether a contact is one of them.
    fn has(self, contact: u32) -> bool
        ensures { IsTrue result ↔ HasContact self contact }
    {
        contact != NOWHERE && (self.low == contact || self.high == contact)
    }

    /// Whether two bars have a contact in common.
    pub fn share(self, other: Contacts) -> bool
        ensures { IsTrue result ↔ ShareContact self other }
    {
        self.has(other.low) || self.has(other.high)
    }
}

/// A bar of a row: what it covers across the row, and what it keeps something from.
#[derive(Clone, Copy)]
pub struct Bar {
    /// Where it starts across the row, with what it keeps there.
    pub start: i64,
    /// Where it ends.
    pub end: i64,
    /// Main bars of one key keep nothing from each other.
    pub key: u32,
    /// Nor do any bars of one owner.
    pub owner: u32,
    /// A main bar and one that is not keep nothing from each other where they share a contact.
    pub contacts: Contacts,
    /// The number of its item.
    pub item: u32,
    /// The variables of the end that comes first along the row, and of the other one.
    pub low: u32,
    pub high: u32,
    pub is_main: bool,
    /// Whether it is long enough to screen what lies behind it.
    pub is_solid: bool,
}
