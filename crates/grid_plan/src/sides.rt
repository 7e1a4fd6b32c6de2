//! The ports of the sides of cells.

ghost use Rattle.std.specs.Prelude.{◌≡◌, ◌^◌, ◌<◌, length, map, All, IfOk};
ghost use Rattle.plan_model.specs.Borders.{side_ports};
ghost use Rattle.checked_cells.specs.Tables.{known_of, IsResolved};
ghost use Rattle.grid_plan.specs.Numbered.{ports_of_cells};

use cell_model::CellPort;
use checked_cells::Cells;
use lam_geom::Side;
use lam_list::Seq;
use port_order::side_ports;
use std::alloc::{AllocError, Global};

/// The ports on a side of each cell.
pub fn sides_of(alloc: Global, cells: &Cells, side: Side) -> Result<Vec<Seq<CellPort>>, AllocError>
    requires resolved { IsResolved cells.now }
    ensures short { IfOk result (λ sides. All (λ side. length side < 2 ^ 32) sides.items) }
    ensures sides { IfOk result (λ sides. sides.items ≡ map (side_ports side) (ports_of_cells (known_of cells.now))) }
{
    let mut sides = Vec::new(alloc);
    for k in 0..cells.tables.len() as u32 {
        sides.push(side_ports(alloc, cells.ports(k), side)?)?;
    }
    Ok(sides)
}
