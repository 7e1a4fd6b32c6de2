//! Whether wires of other layers leave a buried contact where a wire is to leave it.
ghost use Rattle.std.specs.Prelude.{◌≡◌, List, OnOk, if◌then◌else◌};
ghost use Rattle.rule_table.specs.declared.classes.Layer.TheVariants.{Metal};
ghost use Rattle.checked_cells.specs.{CheckedCell.CheckedCell, Kept.capped_names, NameEntries.entries_of};
ghost use Rattle.checked_cells.specs.{Tables.AreTables, Sides.{is_left, is_open, are_open, is_buried_end}};
ghost use Rattle.checked_cells.specs.Sides.{side_entries, AreSidesOf, HaveSides, IsMarkedIf, AreMarked};

use crate::paths::split_first;
use crate::wires::is_buried;
use cell_model::{Axis2, is_same_layer};
use checked_cells::{Run, SideMap, Table, Terminal};
use rule_table::Layer;
use std::alloc::AllocError;

/// Whether a wire of the layer, poly or diffusion, leaves the buried contact of a path along an axis, as its low end
/// or as its high end: a wire of the cell's own lines, or one inside the copy into which the path goes. It takes no
/// memory.
fn is_left(
    tables: &[Table],
    table: &Table,
    path: &[u8],
    layer: Layer,
    along: Axis2,
    is_low: bool,
) -> bool
    ensures { (cells : List CheckedCell) (known : CheckedCell) → AreTables cells tables.now
        → HaveSides cells tables.now → entries_of table.now.names ≡ capped_names known.names
        → AreSidesOf cells known (side_entries table.now.sides) → (layer ≡ Metal → ⊥)
        → result ≡ is_left known path.now layer along is_low }
{
    if table.sides.at(path).has(layer, along, is_low) {
        return true;
    }
    let (name, after) = split_first(path);
    let Some(rest) = after else {
        return false;
    };
    let Some(copy) = table.names.copy(name) else {
        return false;
    };
    let Some(used) = tables.get(copy.cell as usize) else {
        return false;
    };
    is_left(tables, used, rest, layer, along, is_low)
}

/// Whether the terminal of a path is no buried contact, or one that no wire of another layer leaves there.
fn is_open(
    tables: &[Table],
    table: &Table,
    layer: Layer,
    along: Axis2,
    is_low: bool,
    end: Terminal,
    path: &[u8],
) -> bool
    ensures { (cells : List CheckedCell) (known : CheckedCell) → AreTables cells tables.now
        → HaveSides cells tables.now → entries_of table.now.names ≡ capped_names known.names
        → AreSidesOf cells known (side_entries table.now.sides)
        → result ≡ is_open known end path.now layer along is_low }
{
    if !is_buried_end(end) {
        return true;
    }
    let poly = is_left(tables, table, path, Layer::Poly, along, is_low);
    let diffusion = is_left(tables, table, path, Layer::Diffusion, along, is_low);
    let is_taken = (!is_same_layer(Layer::Poly, layer) && poly)
        || (!is_same_layer(Layer::Diffusion, layer) && diffusion);
    !is_taken
}

/// Whether both ends of a run are, given the paths to its low and its high end. It takes no memory.
pub fn are_open(
    tables: &[Table],
    table: &Table,
    run: Run,
    low: &[u8],
    high: &[u8],
    layer: Layer,
) -> bool
    ensures { (cells : List CheckedCell) (known : CheckedCell) → AreTables cells tables.now
        → HaveSides cells tables.now → entries_of table.now.names ≡ capped_names known.names
        → AreSidesOf cells known (side_entries table.now.sides) → result ≡ are_open known run low.now high.now layer }
{
    is_open(tables, table, layer, run.along, true, run.low, low)
        && is_open(tables, table, layer, run.along, false, run.high, high)
}

/// Of two paths whose terminals a run joins, the one to its low end and the one to its high end.
pub fn paths_of<'a>(run: Run, a: &'a [u8], b: &'a [u8]) -> (&'a [u8], &'a [u8])
    ensures low { result.0.now ≡ (if run.forward then a.now else b.now) }
    ensures high { result.1.now ≡ (if run.forward then b.now else a.now) }
{
    if run.forward { (a, b) } else { (b, a) }
}

/// Marks the side on which a wire leaves the terminal of a path, if this is a buried contact. The only refusal is
/// want of memory.
fn mark_end<'a>(
    sides: &mut SideMap<'a>,
    end: Terminal,
    path: &'a [u8],
    layer: Layer,
    along: Axis2,
    is_low: bool,
) -> Result<(), AllocError>
    ensures { OnOk result
        (IsMarkedIf (is_buried_end end) (side_entries sides.old) (side_entries sides.new) path.entry.now layer along
        is_low) }
{
    if is_buried_end(end) {
        sides.mark(path, layer, along, is_low)?;
    }
    Ok(())
}

/// Marks the sides on which a wire of the layer along a run leaves its ends. The only refusal is want of memory.
pub fn mark_ends<'a>(
    sides: &mut SideMap<'a>,
    run: Run,
    low: &'a [u8],
    high: &'a [u8],
    layer: Layer,
) -> Result<(), AllocError>
    ensures { OnOk result
        (AreMarked (side_entries sides.old) (side_entries sides.new) run low.entry.now high.entry.now layer) }
{
    mark_end(sides, run.low, low, layer, run.along, true)?;
    mark_end(sides, run.high, high, layer, run.along, false)?;
    Ok(())
}

fn is_buried_end(end: Terminal) -> bool
    ensures { result ≡ is_buried_end end }
{
    match end {
        Terminal::Node(node_place) => is_buried(node_place.kind),
        Terminal::Port(_) => false,
    }
}
