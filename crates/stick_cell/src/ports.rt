//! A law: the ports of a cell are those of the inlined cell.
ghost use Rattle.std.specs.Prelude.{◌≡◌, ℕ, ◌<◌, ◌≤◌, length, map};
ghost use Rattle.cell_model.specs.Ports.{ports_of_cell};
ghost use Rattle.checked_cells.specs.{declared.cells.Cells.Cells, CheckedCell.{cell_of, known_at}, Counts.weight_of};
ghost use Rattle.checked_cells.specs.{Ports.ports_of, Tables.{known_of, IsResolved}};
ghost use Rattle.stick_cell.specs.CellBuilder.{without_wire};

/// A law, with nothing to run: what `Cells::ports` lends of a cell are the ports of the inlined cell as neighbours
/// see them, where the cell may be inlined; and where it is too heavy, in all but the numbers of wires.
pub fn ports_are_seen()
    ensures light { (cells : Cells) (k : ℕ) → IsResolved cells → k < length (known_of cells)
        → weight_of (known_at (known_of cells) k) ≤ 65536
        → ports_of (known_at (known_of cells) k) ≡ ports_of_cell (cell_of (known_at (known_of cells) k)) }
    ensures each { (cells : Cells) (k : ℕ) → IsResolved cells → k < length (known_of cells)
        → map without_wire (ports_of (known_at (known_of cells) k))
        ≡ map without_wire (ports_of_cell (cell_of (known_at (known_of cells) k))) }
{}
