//! What is drawn.
use lam_geom::MaskBox;
use lam_list::Seq;
use stick_lex::Text;

/// A symbol: the name of a cell, and its mask boxes, in u.
#[derive(Drop)]
pub struct Symbol {
    pub name: Text,
    pub boxes: Seq<MaskBox>,
}

/// A call: a symbol, by its position among the symbols, from 0, and how far it is shifted to the right and up, in u.
#[derive(Clone, Copy)]
pub struct Call {
    pub symbol: u32,
    pub x: i64,
    pub y: i64,
}

/// A picture: symbols, and the calls that place them.
#[derive(Drop)]
pub struct Picture {
    pub symbols: Seq<Symbol>,
    pub calls: Seq<Call>,
}
