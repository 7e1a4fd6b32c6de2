//! The inequalities of the kept pairs of a master.

ghost use Rattle.std.specs.Prelude.{◌≡◌, ◌+◌, ◌≤◌, ◌^◌, IfOk, MatchResult};
ghost use Rattle.expand.specs.Masters.{IsMaster};
ghost use Rattle.pitch_join.specs.Joined.{own_variables};
ghost use Rattle.pass_run.specs.{Found.IsFound, Laid.IsLaidOut, OneMaster.own_kept_edges};

use cons_graph::{Edge, MAX_EDGES};
use expand::{Master, master_is_lawful};
use lam_geom::Axis;
use pitch_join::spaces_of;
use rule_table::Tech;
use shadow_prune::{KeptFault, kept};
use std::alloc::{AllocError, Global};
use sym_items::Coords;

/// What is found of a master.
#[derive(Drop)]
pub enum Found {
    /// The inequalities of its kept pairs, over joint variables.
    Edges(Vec<Edge>),
    /// There are more kept pairs than a list has inequalities at most.
    TooMany,
}

/// Hands on want of memory; else there were too many pairs.
pub fn unless_too_many(fault: KeptFault) -> Result<(), AllocError>
    ensures { MatchResult result (λ _. fault ≡ KeptFault.TooMany) (λ _. fault ≡ KeptFault.OutOfMemory) }
{
    match fault {
        KeptFault::TooMany => Ok(()),
        KeptFault::OutOfMemory => Err(AllocError),
    }
}

/// What is found of a master in a layout, by the number of its first joint variable beside the origin. The only
/// refusal is want of memory.
pub fn find_kept(
    alloc: Global,
    axis: Axis,
    tech: &Tech,
    base: u32,
    master: &Master,
    layout: &Coords,
) -> Result<Found, AllocError>
    requires master { IsMaster tech.now master.now }
    requires laid { IsLaidOut tech.now master.now layout.now }
    requires few { base + own_variables axis master.now ≤ 2 ^ 17 }
    ensures { IfOk result (IsFound (own_kept_edges axis tech.now base master.now layout.now)) }
{
    master_is_lawful(tech, master);
    let items = master.items.list.as_slice();
    match kept(alloc, axis, tech, items, layout, MAX_EDGES as u32) {
        Ok(pairs) => Ok(Found::Edges(spaces_of(alloc, base, axis, items, &pairs)?)),
        Err(fault) => {
            unless_too_many(fault)?;
            Ok(Found::TooMany)
        }
    }
}
