//! What holds of buried contacts.
ghost use Rattle.sym_items.specs.declared.items.Coords.{Coords as Layout};
ghost use Rattle.expand.specs.Masters.{IsMaster};
ghost use Rattle.buried_contacts.specs.Contacts.{IsFinished, WiresCoverPads, OverlapOnlyThere, ShareThePad};
ghost use Rattle.buried_contacts.specs.Contacts.{WindowsHoldPads, HaveWindows, HavePads, WindowsKeepOff};

use expand::Master;
use rule_table::Tech;

/// A law, with nothing to run: in every layout of a master that meets its structure on both axes and is clean, wires
/// cover the pads of their buried contacts and end with them, poly and diffusion overlap only in one transistor or at
/// one buried contact, there they share exactly its pad, and windows keep off channels. In every layout each buried
/// contact has poly and diffusion on its pad, and a window, and each window is that of one, past whose pad it goes on
/// by the extension on all sides.
pub fn buried_contacts_are_lawful(tech: &Tech, master: &Master)
    requires { IsMaster tech.now master.now }
    ensures cover { (layout : Layout) → IsFinished tech.now master.now layout
        → WiresCoverPads tech.now master.now layout }
    ensures overlap { (layout : Layout) → IsFinished tech.now master.now layout → OverlapOnlyThere master.now layout }
    ensures share { (layout : Layout) → IsFinished tech.now master.now layout → ShareThePad tech.now master.now layout }
    ensures hold { (layout : Layout) → WindowsHoldPads tech.now master.now layout }
    ensures have { (layout : Layout) → HaveWindows tech.now master.now layout }
    ensures pads { (layout : Layout) → HavePads tech.now master.now layout }
    ensures keep_off { (layout : Layout) → IsFinished tech.now master.now layout
        → WindowsKeepOff tech.now master.now layout }
{}
