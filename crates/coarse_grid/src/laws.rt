//! What holds of the items of a cell in its start layout.

ghost use Rattle.cell_model.specs.Sound.{IsSound};
ghost use Rattle.expand.specs.Masters.{IsMaster};
ghost use Rattle.coarse_grid.specs.{Start.start_of, Laws.{HasBoxes, KeepsApart, IsLayoutOf, NearShareAPoint}};

use cell_model::{Cell, Nets};
use expand::Master;
use rule_table::Tech;

/// A law, with nothing to run: the start layout gives each item of a cell a box, whatever the items' nets are.
pub fn start_gives_boxes(tech: &Tech, cell: &Cell, nets: &Nets)
    requires { IsSound tech.now cell.now }
    ensures { HasBoxes tech.now cell.now nets.now }
{}

/// A law, with nothing to run: in the start layout two items of a cell whose owners' coarse ranges share no grid point
/// have a gap of at least the widest spacing. The coarse range of a node is its grid point, that of a wire the grid
/// points from terminal to terminal, at a port on to that border.
pub fn start_keeps_apart(tech: &Tech, cell: &Cell, nets: &Nets)
    requires { IsSound tech.now cell.now }
    ensures { KeepsApart tech.now cell.now nets.now }
{}

/// A law, with nothing to run: the start layout of a master has one value for each variable, 0 at the origin and none
/// below it, and gives each item a box that ends at or above the origin.
pub fn start_is_a_layout(tech: &Tech, master: &Master)
    requires { IsMaster tech.now master.now }
    ensures { IsLayoutOf master.now (start_of tech.now master.now.cell) }
{}

/// A law, with nothing to run: in the start layout of a master two items that are too near one another, as those of its
/// first clash, are of owners whose coarse ranges share a grid point.
pub fn near_share_a_point(tech: &Tech, master: &Master)
    requires { IsMaster tech.now master.now }
    ensures { NearShareAPoint tech.now master.now }
{}
