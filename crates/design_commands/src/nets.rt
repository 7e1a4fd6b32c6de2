//! The nets and transistors of a design, with the names of their parts, before anything is laid out.

ghost use Rattle.std.specs.Prelude.{◌≡◌, ◌≤◌, ◌^◌, IfOk, IfErr};
ghost use Rattle.design_sizes.specs.Sizes.{names_in};
ghost use Rattle.stick_text.specs.Writable.{IsWritable};
ghost use Rattle.design_commands.specs.Nets.{NetsTo, names_of_grids};
ghost use Rattle.design_layouts.specs.Plans.{RefusesPlan};
ghost use Rattle.command_files.specs.Refusals.{Refused};

use command_files::Refusal;
use design_layouts::masters_of;
use design_nets::named_nets;
use lam_io::Gate;
use rule_table::Tech;
use std::alloc::{AllocError, AllocFailed, Global};
use std::thread::Threads;
use stick_lex::Text;
use stick_text::Design;

// The names of the grids, of those that have one.
fn names_of_grids(alloc: Global, design: &Design) -> Result<Vec<Text>, AllocError>
    ensures { IfOk result (λ names. names.items ≡ names_of_grids design.now.grids) }
{
    let mut names = Vec::new(alloc);
    for grid in design.grids.as_slice() {
        if let Some(name) = &grid.name {
            names.push(Text::new(alloc, name.bytes())?)?;
        }
    }
    Ok(names)
}

/// The text of the nets of a design and of its transistors, with the names of their parts.
pub fn nets<H: Threads + Sync, G: Gate>(
    rt: &H,
    alloc: Global,
    gate: &G,
    tech: &Tech,
    design: &Design,
) -> Result<Vec<u8>, Refusal>
    requires writable { IsWritable design.now }
    requires few_names { names_in design.now ≤ 2 ^ 19 }
    ensures done { IfOk result (λ text. NetsTo tech.now design.now text.items) }
    ensures refused { IfErr result (Refused (RefusesPlan tech.now design.now)) }
{
    let made = masters_of(rt, alloc, gate, tech, design, 1)?;
    let names = names_of_grids(alloc, design)?;
    Ok(named_nets(alloc, tech, &made.plan, &made.masters, &names)?)
}
