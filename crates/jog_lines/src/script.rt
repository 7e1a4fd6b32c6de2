//! The script of jogs.

use stick_lex::Text;

/// A line of a script: a jog in wire `k` (from 0) of a cell, above row `r`, to the left or else to the right.
#[derive(Drop)]
pub struct JogLine {
    pub cell: Text,
    pub k: u32,
    pub r: u32,
    pub left: bool,
}
