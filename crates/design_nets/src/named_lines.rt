//! The lines of nets and transistors by their names.
ghost use Rattle.std.specs.Prelude.{◌≡◌, ◌++◌, ℕ, All, length, map, flat_map, OnOk, IfOk, string_bytes};
ghost use Rattle.design_nets.specs.{Connections.number_in, Listing.list_in, NamedLines.{lines_of_nets, terminals_of}};
ghost use Rattle.design_nets.specs.{NamedLines.IsFet, NamedNets.{name_of, spaced, line_of_fet, lines_of_fets}};
ghost use Rattle.design_nets.specs.{NamedNets.{kind_of_fet, is_depletion, device_words}, NamedParts.own_net_of};
ghost use Rattle.design_nets.specs.NamedParts.{AreNumbered, IsNamedPart};

use crate::connections::Connections;
use crate::fet_nodes::FetAt;
use crate::instances::Instance;
use crate::named_parts::NamedPart;
use crate::names::{push_fet, push_name};
use crate::numbering::number_in;
use cell_model::NodeKind;
use expand::Master;
use net_list::{PieceCounts, kind_word, push_net, terminal_words};
use smallvec::SmallVec;
use std::alloc::{AllocError, Global};
use stick_lex::Text;

/// Adds a line for each net, of which these are the counts and the parts. The only refusal is want of memory.
pub fn push_nets(
    out: &mut Vec<u8>,
    alloc: Global,
    grids: &[Text],
    masters: &[Master],
    instances: &[Instance],
    counts: &[PieceCounts],
    parts: &[SmallVec<NamedPart, 2>],
) -> Result<(), AllocError>
    requires counted { length parts.now ≡ length counts.now }
    requires named { (net : ℕ) → All (IsNamedPart masters.now instances.now) (list_in parts.now net) }
    ensures { OnOk result
        (out.new.items ≡ out.old.items ++ lines_of_nets (name_of grids.now masters.now instances.now) counts.now
        parts.now) }
{
    for net in 0..counts.len() {
        push_net(out, net, counts[net])?;
        push_names(out, alloc, grids, masters, instances, parts[net].as_slice())?;
        out.push(b'\n')?;
    }
    Ok(())
}

// Adds the names of some parts, each after a space.
fn push_names(
    out: &mut Vec<u8>,
    alloc: Global,
    grids: &[Text],
    masters: &[Master],
    instances: &[Instance],
    parts: &[NamedPart],
) -> Result<(), AllocError>
    requires { All (IsNamedPart masters.now instances.now) parts.now }
    ensures { OnOk result
        (out.new.items ≡ out.old.items ++ flat_map spaced
        (map (name_of grids.now masters.now instances.now) parts.now)) }
{
    for part in parts {
        out.push(b' ')?;
        push_name(out, alloc, grids, masters, instances, *part)?;
    }
    Ok(())
}

/// Adds a line for each of these transistors. The only refusal is want of memory.
pub fn push_fets(
    out: &mut Vec<u8>,
    alloc: Global,
    grids: &[Text],
    masters: &[Master],
    sticks: &Connections,
    fets: &[FetAt],
) -> Result<(), AllocError>
    requires numbered { AreNumbered masters.now sticks.now }
    requires fets { All (IsFet masters.now sticks.now.instances.items) fets.now }
    ensures { OnOk result
        (out.new.items ≡ out.old.items ++ lines_of_fets grids.now masters.now sticks.now.instances.items
        (λ p. number_in sticks.now.numbers
        (own_net_of masters.now sticks.now.nets.items sticks.now.instances.items p)) 0 fets.now) }
{
    for (number, fet) in fets.iter().enumerate() {
        push_line(out, alloc, grids, masters, sticks, number, *fet)?;
    }
    Ok(())
}

// Adds the line of a transistor.
fn push_line(
    out: &mut Vec<u8>,
    alloc: Global,
    grids: &[Text],
    masters: &[Master],
    sticks: &Connections,
    number: usize,
    fet: FetAt,
) -> Result<(), AllocError>
    requires numbered { AreNumbered masters.now sticks.now }
    requires fet { IsFet masters.now sticks.now.instances.items fet }
    ensures { OnOk result
        (out.new.items ≡ out.old.items ++ line_of_fet grids.now masters.now sticks.now.instances.items
        (λ p. number_in sticks.now.numbers
        (own_net_of masters.now sticks.now.nets.items sticks.now.instances.items p)) number fet) }
{
    let words = fet_words(alloc, masters, &sticks.instances, number, fet)?;
    let terminals = fet_terminals(alloc, masters, sticks, fet)?;
    out.extend_from_slice(words.as_bytes())?;
    push_fet(out, alloc, grids, masters, &sticks.instances, fet)?;
    out.extend_from_slice(terminals.as_bytes())?;
    out.push(b'\n')?;
    Ok(())
}

// The number and the kind of a transistor.
fn fet_words(
    alloc: Global,
    masters: &[Master],
    instances: &[Instance],
    number: usize,
    fet: FetAt,
) -> Result<String, AllocError>
    requires { IsFet masters.now instances.now fet }
    ensures { IfOk result
        (λ words. string_bytes words ≡ device_words number (kind_of_fet masters.now instances.now fet)) }
{
    let master = instances[fet.instance].master as usize;
    let node = &masters[master].cell.nodes.as_slice()[fet.node];
    let kind = kind_word(is_depletion(node.kind));
    format!(in alloc; "device {number} {kind} ")
}

fn is_depletion(kind: NodeKind) -> bool
    ensures { result ≡ is_depletion kind }
{
    match kind {
        NodeKind::Joint { .. } | NodeKind::Contact { .. } | NodeKind::Buried => false,
        NodeKind::Fet { depletion, .. } => depletion,
    }
}

// The nets of its terminals.
fn fet_terminals(
    alloc: Global,
    masters: &[Master],
    sticks: &Connections,
    fet: FetAt,
) -> Result<String, AllocError>
    requires numbered { AreNumbered masters.now sticks.now }
    requires fet { IsFet masters.now sticks.now.instances.items fet }
    ensures { IfOk result (λ words. string_bytes words ≡ terminals_of masters.now sticks.now fet) }
{
    let master = sticks.instances[fet.instance].master as usize;
    let own = sticks.nets[master].node.as_slice()[fet.node];
    let gate = number_in(&sticks.numbers, fet.instance, own.main);
    let low = number_in(&sticks.numbers, fet.instance, own.low);
    let high = number_in(&sticks.numbers, fet.instance, own.high);
    terminal_words(alloc, gate, low, high)
}
