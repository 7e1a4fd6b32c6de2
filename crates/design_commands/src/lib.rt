// The commands over a design that change nothing of it: `compact`, `slack` and `nets`. Its contract for the layer
// above is theirs.
#![tactic(auto)]

pub mod compact;
pub mod nets;
pub mod slack;
