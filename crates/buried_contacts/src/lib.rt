//! What holds of buried contacts in every layout of a master that meets its structure and is clean.
//!
//! For the layer above, laws with nothing to run: a wire ends on the pad of its contact and covers it, poly and
//! diffusion overlap only in one transistor or at one buried contact, there they share exactly its pad, and no
//! channel lies near a window. Lengths are in u.
#![tactic(auto)]

mod laws;

pub use laws::buried_contacts_are_lawful;
