//! The cells of a design.
ghost use Rattle.std.specs.Prelude.{◌≡◌, ◌<◌, ◌≤◌, length, position, bytes_eq, IfSome};
ghost use Rattle.checked_cells.specs.{CheckedCell.known_at, Lines.number_of, Counts.{weight_of, boxes_of, capped}};
ghost use Rattle.checked_cells.specs.{Ports.ports_of, Tables.{known_of, IsResolved}};

use crate::table::Table;
use cell_model::CellPort;
use rule_table::Tech;
use stick_text::Design;

/// The cells of a design whose names and sizes have been checked.
#[derive(Drop)]
pub struct Cells<'a> {
    pub design: &'a Design,
    pub tech: Tech,
    pub tables: Vec<Table<'a>>,
}

/// The place of the first table of a cell with this name.
pub fn place_of(tables: &[Table], name: &[u8]) -> Option<usize>
    ensures { result ≡ position (λ table. bytes_eq name.now table.name.now) tables.now }
{
    tables.iter().position(|table| name == table.name)
}

impl<'a> Cells<'a> {
    /// The number of the cell with this name. It takes no memory.
    pub fn find(&self, name: &[u8]) -> Option<u32>
        requires { IsResolved self.now }
        ensures value { result ≡ number_of (known_of self.now) name.now }
        ensures within { IfSome result (λ k. k < length (known_of self.now)) }
    {
        let place = place_of(self.tables.as_slice(), name)?;
        Some(place as u32)
    }

    /// How many items and limits the cell has with its uses inlined, together with the number of uses that were
    /// replaced on all levels; 65,537 where that is more than 65,536. It takes no memory.
    pub fn weight(&self, cell: u32) -> u64
        requires resolved { IsResolved self.now }
        requires within { cell < length (known_of self.now) }
        ensures { result ≡ capped (weight_of (known_at (known_of self.now) cell)) }
    {
        self.tables[cell as usize].weight as u64
    }

    /// How many mask boxes the cell has with its uses inlined; 65,537 where there are more than 65,536. It takes no
    /// memory.
    pub fn boxes(&self, cell: u32) -> u64
        requires resolved { IsResolved self.now }
        requires within { cell < length (known_of self.now) }
        ensures { result ≡ capped (boxes_of (known_at (known_of self.now) cell)) }
    {
        self.tables[cell as usize].boxes as u64
    }

    /// Lends the ports of the cell in order of their lines. The numbers of their wires are 0 where the cell's weight is
    /// more than 65,536. It takes no memory.
    pub fn ports(&self, cell: u32) -> &[CellPort]
        requires resolved { IsResolved self.now }
        requires within { cell < length (known_of self.now) }
        ensures { result.now ≡ ports_of (known_at (known_of self.now) cell) }
    {
        let table = &self.tables[cell as usize];
        table.ports.as_slice()
    }
}
