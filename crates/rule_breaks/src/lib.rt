//! What the rules on mask boxes are: their types and numbers, when each is broken (`specs/Breaks.antt`), which break
//! is the first, and which breaks a list has (`specs/Lists.antt`). flat_check finds them. Nets are those that the
//! boxes make. Lengths are in grains, half hundredths of a micron.
#![tactic(auto)]

mod rule;

pub use rule::{Break, Breaks, Rule};
