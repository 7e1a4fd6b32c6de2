//! What a jog leaves as it was.
ghost use Rattle.std.specs.Prelude.{◌≡◌, ◌<◌, length};
ghost use Rattle.checked_cells.specs.{CheckedCell.{cell_of, known_at}, Tables.{known_of, IsResolved}};
ghost use Rattle.design_edits.specs.Cells.{cell_text_at};
ghost use Rattle.jog_insert.specs.{Jogs.IsJogged, Nets.{nodes_before, KeepsNets}};
ghost use Rattle.jog_nets.specs.Parts.{KeepsParts};

use checked_cells::Cells;

/// A law, with nothing to run: after a jog in wire number `k` of a cell, above row `r`, the cell has the nets that it
/// had, and its nodes and other wires are the same ones, where both designs have been checked with one technology.
/// The joints of the jog come after the nodes whose lines stand before the wire's line, and the three wires in the
/// place of the one.
pub fn jogs_keep_nets(
    before: &Cells,
    after: &Cells,
    masters: &[u32],
    cell: u32,
    k: u32,
    r: u32,
    left: bool,
)
    requires resolved { IsResolved before.now }
    requires resolved_again { IsResolved after.now }
    requires one_technology { after.now.tech ≡ before.now.tech }
    requires within { cell < length (known_of before.now) }
    requires jogged { IsJogged before.now.design.now (cell_of (known_at (known_of before.now) cell)) masters.now cell k
        r
        left after.now.design.now }
    ensures nets { KeepsNets (cell_of (known_at (known_of before.now) cell))
        (cell_of (known_at (known_of after.now) cell))
        (nodes_before k (cell_text_at before.now.design.now cell).lines) k }
    ensures parts { KeepsParts (cell_of (known_at (known_of before.now) cell))
        (cell_of (known_at (known_of after.now) cell))
        (nodes_before k (cell_text_at before.now.design.now cell).lines) k }
{}
