//! What is counted of masters: their mask boxes, and those of all their instances. Definitions alone, with no code.
//!
//! What the layers above use: `specs/Parts.antt` says how many mask boxes masters and instances have, which names of
//! masters fit into a text, and that each master stands somewhere in the grids.
#![tactic(auto)]
