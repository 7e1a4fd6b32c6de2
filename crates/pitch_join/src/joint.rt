//! The joint variables and inequalities of masters.

ghost use Rattle.std.specs.Prelude.{◌≡◌, ◌<◌, ◌≤◌, ◌++◌, length, map, slice_index, sum_by, All, IfOk, OnOk, OnErr};
ghost use Rattle.cons_graph.specs.Constraints.{IsConstraintGraph};
ghost use Rattle.expand.specs.{Bounds.IsNearAlong, Masters.IsMaster};
ghost use Rattle.pair_rules.specs.declared.pairs.Pair.{Pair as SomePair};
ghost use Rattle.plan_model.specs.Plan.{IsPlanOver, matches_in, pitch_in};
ghost use Rattle.pitch_join.specs.{Masters.{parts_in, ports_of_masters}, Names.system_names, Joined.bases_of};
ghost use Rattle.pitch_join.specs.{Joined.{system_variables, shifted, space_edge, fixed_of}, Spaces.EndsBelow};
ghost use Rattle.pitch_join.specs.Spaces.{IsPairAmong};

use crate::fixed::{push_pitches, push_ports, push_structures};
use crate::names::names;
use crate::numbering::{Numbering, all_crosses, number};
use crate::spaces::spaces_of;
use cons_graph::{Edge, Names};
use expand::Master;
use lam_geom::Axis;
use lam_list::Seq;
use pair_rules::Pair;
use plan_model::{Match, Plan, Same};
use rule_table::Tech;
use std::alloc::{AllocError, Global};
use sym_items::Items;

/// The inequalities of all masters on an axis, over joint variables. Variable 0 is the origin of every master; local
/// variable v > 0 of master m is `base[m] + v - 1`.
#[derive(Drop)]
pub struct Joint {
    /// How many joint variables there are.
    pub vars: u32,
    /// The number of each master's first variable beside the origin.
    pub base: Seq<u32>,
    /// The inequalities.
    pub edges: Vec<Edge>,
    /// The names of the variables, as they are printed.
    pub names: Names,
}

// The masters whose far borders are equal.
fn pitch(axis: Axis, plan: &Plan) -> &[Same]
    ensures { result.now ≡ pitch_in axis plan.now }
{
    match axis {
        Axis::X => plan.pitch_x.as_slice(),
        Axis::Y => plan.pitch_y.as_slice(),
    }
}

// The ports that meet.
fn ports(axis: Axis, plan: &Plan) -> &[Match]
    ensures { result.now ≡ matches_in axis plan.now }
{
    match axis {
        Axis::X => plan.port_x.as_slice(),
        Axis::Y => plan.port_y.as_slice(),
    }
}

/// The inequalities of an axis that hold whatever the layouts: the structure of each master, equal far borders of
/// masters that share a column (on y a row), and one cross coordinate for wires of ports that meet. However many
/// parts the masters have, the only refusal is want of memory.
pub fn join(
    alloc: Global,
    axis: Axis,
    tech: &Tech,
    plan: &Plan,
    masters: &[Master],
) -> Result<Joint, AllocError>
    requires each { All (IsMaster tech.now) masters.now }
    requires planned { IsPlanOver (ports_of_masters masters.now) plan.now }
    ensures vars { IfOk result (λ joint. joint.vars ≡ system_variables axis masters.now) }
    ensures bases { IfOk result (λ joint. joint.base ≡ bases_of axis masters.now) }
    ensures edges { IfOk result (λ joint. joint.edges.items ≡ fixed_of axis tech.now plan.now masters.now) }
    ensures names { IfOk result (λ joint. joint.names ≡ system_names axis masters.now) }
    ensures named { IfOk result (λ joint. length joint.names ≡ joint.vars) }
    // a constraint graph can be made of them where the masters have few parts together
    ensures shape { IfOk result (λ joint. sum_by parts_in masters.now ≤ 65536
        → IsConstraintGraph (record { vars = joint.vars; edges = joint.edges.items })) }
{
    let Numbering { vars, base } = number(alloc, axis, tech, masters)?;
    let crosses = all_crosses(alloc, masters)?;
    let mut edges = Vec::new(alloc);
    push_structures(&mut edges, alloc, axis, tech, masters, &base)?;
    push_pitches(&mut edges, &base, pitch(axis, plan))?;
    push_ports(&mut edges, &base, &crosses, ports(axis, plan))?;
    let names = names(alloc, axis, masters)?;
    Ok(Joint {
        vars,
        base: Seq::from_vec(base),
        edges,
        names,
    })
}

impl Joint {
    /// Adds the inequalities of a master's kept pairs. The only refusal is want of memory, which leaves the joint as
    /// it was.
    pub fn add_kept(
        &mut self,
        axis: Axis,
        master: u32,
        items: &Items,
        pairs: &[Pair],
    ) -> Result<(), AllocError>
        requires master { master < length self.old.base }
        requires near { All (IsNearAlong axis) items.now.list }
        requires below { All (EndsBelow (slice_index self.old.base master) axis) items.now.list }
        requires among { All (IsPairAmong items.now.list) pairs.now }
        ensures edges { OnOk result
            (self.new.edges.items ≡ self.old.edges.items
            ++ map (λ (p : SomePair). shifted (slice_index self.old.base master) (space_edge axis items.now.list p))
            pairs.now) }
        ensures others { self.new ≡ record self.old { edges = self.new.edges } }
        ensures as_before { OnErr result (self.new.edges.items ≡ self.old.edges.items) }
    {
        let base = self.base.as_slice()[master as usize];
        let alloc = *self.edges.allocator();
        let added = spaces_of(alloc, base, axis, items.list.as_slice(), pairs)?;
        self.edges.extend_from_slice(&added)
    }
}
