//! Facts on lists that several crates cite: what holds of each element as lists grow, and lists made piece by piece.
//! It has lemmas alone, and no code.
#![tactic(auto)]
