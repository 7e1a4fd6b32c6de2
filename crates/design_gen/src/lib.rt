//! A design made from a number, large where the number is: points of a square, for each of which a linear congruence
//! draws what stands there, and wires between neighbours. What the layer above uses: `make` gives exactly the design
//! `made` of `specs/Made.antt`.
#![tactic(auto)]

mod draws;
mod lines;
mod making;

pub use making::make;
