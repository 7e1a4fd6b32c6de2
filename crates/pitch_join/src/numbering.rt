//! The numbers of the joint variables.

ghost use Rattle.std.specs.Prelude.{◌≡◌, ◌+◌, ◌<◌, ◌≤◌, ◌^◌, length, All, IfOk};
ghost use Rattle.expand.specs.Masters.{IsMaster};
ghost use Rattle.pitch_join.specs.{Among.AreAllCrosses, Joined.{bases_of, joined, system_variables, own_variables}};
ghost use Rattle.pitch_join.specs.Masters.{IsLightMaster};

use expand::{Master, crosses, master_is_lawful};
use lam_geom::Axis;
use lam_list::Seq;
use rule_table::Tech;
use std::alloc::{AllocError, Global};

/// The numbers of the variables of an axis.
#[derive(Drop)]
pub struct Numbering {
    /// How many joint variables there are.
    pub vars: u32,
    /// The number of each master's first variable beside the origin.
    pub base: Vec<u32>,
}

/// The joint variable that a local one is, of a master whose first is `base`.
pub fn joined(base: u32, v: u32) -> u32
    requires { base + v < 2 ^ 32 }
    ensures { result ≡ joined base v }
{
    if v == 0 { 0 } else { base + (v - 1) }
}

// How many variables a master has beside the origin.
fn own_variables(axis: Axis, tech: &Tech, master: &Master) -> u32
    requires { IsMaster tech.now master.now }
    ensures { result ≡ own_variables axis master.now }
{
    master_is_lawful(tech, master);
    master.items.vars(axis) - 1
}

/// The numbers of the joint variables: the origin comes first, and then each master's own.
pub fn number(
    alloc: Global,
    axis: Axis,
    tech: &Tech,
    masters: &[Master],
) -> Result<Numbering, AllocError>
    requires each { All (IsMaster tech.now) masters.now }
    requires few_masters { length masters.now ≤ 256 }
    ensures vars { IfOk result (λ n. n.vars ≡ system_variables axis masters.now) }
    ensures base { IfOk result (λ n. n.base.items ≡ bases_of axis masters.now) }
{
    let mut base = Vec::new(alloc);
    let mut next = 1;
    for master in masters {
        base.push(next)?;
        next += own_variables(axis, tech, master);
    }
    Ok(Numbering { vars: next, base })
}

/// The local variable of the cross coordinate of each wire, master by master.
pub fn all_crosses(alloc: Global, masters: &[Master]) -> Result<Vec<Seq<u32>>, AllocError>
    requires { All IsLightMaster masters.now }
    ensures { IfOk result (λ all. AreAllCrosses masters.now all.items) }
{
    let mut all = Vec::new(alloc);
    for master in masters {
        let own = crosses(alloc, &master.cell)?;
        all.push(Seq::from_vec(own))?;
    }
    Ok(all)
}
