//! What a CIF text draws.

use crate::steps::Steps;
use lam_geom::MaskBox;
use lam_list::Seq;

/// A symbol, by its number, and its boxes in grains.
#[derive(Drop)]
pub struct CifSymbol {
    pub number: u32,
    pub boxes: Seq<MaskBox>,
}

/// What stands at the top: a box, by its position among the file's own boxes, or a call of a symbol, by its position
/// among the symbols, and its shift in grains.
#[derive(Clone, Copy)]
pub enum CifStep {
    Own(u32),
    Called { symbol: u32, x: i64, y: i64 },
}

/// Symbols in the order of their definitions, the boxes outside of them, and boxes and calls in the order of the text.
#[derive(Drop)]
pub struct CifFile {
    pub symbols: Seq<CifSymbol>,
    pub boxes: Seq<MaskBox>,
    pub order: Seq<CifStep>,
}

/// What stands in a symbol, or at the top, in any dialect: a box in grains; or a call of a symbol, by its position
/// among the symbols, its turn and its shift in grains. The turn comes first. Below 4 it is that many quarter turns,
/// from the x axis to the y axis; 4 more means that x is multiplied by -1 before.
#[derive(Clone, Copy)]
pub enum ForeignStep {
    Own(MaskBox),
    Called {
        symbol: u32,
        turn: u8,
        x: i64,
        y: i64,
    },
}

/// A symbol, by its number, and what stands in it, in the order of the text.
#[derive(Drop)]
pub struct ForeignSymbol {
    pub number: u32,
    pub steps: Steps,
}

/// Symbols in the order of their definitions, and what stands at the top, in the order of the text.
#[derive(Drop)]
pub struct ForeignFile {
    pub symbols: Seq<ForeignSymbol>,
    pub top: Steps,
}
