//! A cell with its items.

use cell_model::Cell;
use sym_items::Items;

/// A cell that a grid names, and the items of that cell.
#[derive(Drop)]
pub struct Master {
    pub cell: Cell,
    pub items: Items,
}
