//! The names of parts of instances.
ghost use Rattle.std.specs.Prelude.{◌≡◌, ◌++◌, ◌<◌, length, OnOk, IfOk, string_bytes};
ghost use Rattle.cell_model.specs.Sound.{node_at};
ghost use Rattle.design_nets.specs.{NamedNets.{fet_name, grid_word, name_of, place_word, prefix_of}, NamedLines.IsFet};
ghost use Rattle.design_nets.specs.NamedParts.{name_in, IsNamedPart, IsCellPart};

use crate::fet_nodes::FetAt;
use crate::instances::Instance;
use crate::named_parts::{CellPart, NamedPart};
use cell_model::Cell;
use expand::Master;
use std::alloc::{AllocError, Global};
use stick_lex::Text;

/// Adds the name of a part of an instance, after the place of the instance where there is more than one.
pub fn push_name(
    out: &mut Vec<u8>,
    alloc: Global,
    grids: &[Text],
    masters: &[Master],
    instances: &[Instance],
    named: NamedPart,
) -> Result<(), AllocError>
    requires { IsNamedPart masters.now instances.now named }
    ensures { OnOk result (out.new.items ≡ out.old.items ++ name_of grids.now masters.now instances.now named) }
{
    push_prefix(out, alloc, grids, instances, named.instance)?;
    let master = instances[named.instance].master as usize;
    push_part(out, &masters[master].cell, named.part)
}

/// Adds the name of a transistor, likewise.
pub fn push_fet(
    out: &mut Vec<u8>,
    alloc: Global,
    grids: &[Text],
    masters: &[Master],
    instances: &[Instance],
    fet: FetAt,
) -> Result<(), AllocError>
    requires { IsFet masters.now instances.now fet }
    ensures { OnOk result (out.new.items ≡ out.old.items ++ fet_name grids.now masters.now instances.now fet) }
{
    push_prefix(out, alloc, grids, instances, fet.instance)?;
    let master = instances[fet.instance].master as usize;
    let node = &masters[master].cell.nodes.as_slice()[fet.node];
    out.extend_from_slice(node.name.bytes())
}

// Adds what stands in front of the names of instance number s.
fn push_prefix(
    out: &mut Vec<u8>,
    alloc: Global,
    grids: &[Text],
    instances: &[Instance],
    s: usize,
) -> Result<(), AllocError>
    requires { s < length instances.now }
    ensures { OnOk result (out.new.items ≡ out.old.items ++ prefix_of grids.now instances.now s) }
{
    if instances.len() == 1 {
        return Ok(());
    }
    let instance = instances[s];
    push_grid(out, grids, instance.grid)?;
    let place = place_word(alloc, &instance)?;
    out.extend_from_slice(place.as_bytes())
}

// Adds the name of grid number g, if it has one.
fn push_grid(out: &mut Vec<u8>, grids: &[Text], g: usize) -> Result<(), AllocError>
    ensures { OnOk result (out.new.items ≡ out.old.items ++ grid_word grids.now g) }
{
    if g < grids.len() {
        out.extend_from_slice(grids[g].bytes())?;
        out.push(b'.')?;
    }
    Ok(())
}

// The row and the column of an instance.
fn place_word(alloc: Global, instance: &Instance) -> Result<String, AllocError>
    ensures { IfOk result (λ word. string_bytes word ≡ place_word instance.now) }
{
    let row = instance.row;
    let col = instance.col;
    format!(in alloc; "{row}.{col}:")
}

// Adds the name of a part within its cell.
fn push_part(out: &mut Vec<u8>, cell: &Cell, part: CellPart) -> Result<(), AllocError>
    requires { IsCellPart cell.now part }
    ensures { OnOk result (out.new.items ≡ out.old.items ++ name_in cell.now part) }
{
    match part {
        CellPart::Node(k) => push_node(out, cell, k, b""),
        CellPart::Gate(k) => push_node(out, cell, k, b".gate"),
        CellPart::Low(k) => push_node(out, cell, k, b".low"),
        CellPart::High(k) => push_node(out, cell, k, b".high"),
        CellPart::Port(k) => out.extend_from_slice(cell.ports.as_slice()[k].name.bytes()),
    }
}

// Adds the name of node number k and what is after it.
fn push_node(out: &mut Vec<u8>, cell: &Cell, k: usize, suffix: &[u8]) -> Result<(), AllocError>
    requires { k < length cell.now.nodes }
    ensures { OnOk result (out.new.items ≡ out.old.items ++ ((node_at cell.now.nodes k).name ++ suffix.now)) }
{
    out.extend_from_slice(cell.nodes.as_slice()[k].name.bytes())?;
    out.extend_from_slice(suffix)
}
