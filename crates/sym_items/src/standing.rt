//! The buried contacts at which items stand.

ghost use Rattle.std.specs.Prelude.{◌≡◌, ◌↔◌, IsTrue};
ghost use Rattle.sym_items.specs.Standing.{stands_at, stand_together, StandTogether};

use crate::items::{Item, NOWHERE};

impl Item {
    // Whether it stands at a buried contact, by the number of its node.
    fn stands_at(&self, contact: u32) -> bool
        ensures { result ≡ stands_at self.now contact }
    {
        contact != NOWHERE && (self.at_low == contact || self.at_high == contact)
    }

    /// Whether it stands at one buried contact with another item.
    #[tactic(auto, unfolding(crate::specs::Standing::stand_together))]
    pub fn stands_with(&self, other: &Item) -> bool
        ensures value { result ≡ stand_together self.now other.now }
        ensures meaning { IsTrue result ↔ StandTogether self.now other.now }
    {
        self.stands_at(other.at_low) || self.stands_at(other.at_high)
    }
}
