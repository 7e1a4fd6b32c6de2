//! The inequalities of a pass, and the constraint graph of them.

ghost use Rattle.std.specs.Prelude.{◌≡◌, ◌+◌, ◌≤◌, ◌++◌, length, flat_map, OnOk, IfOk, IfErr};
ghost use Rattle.pitch_join.specs.{Masters.{ArePlanned, master_numbers}, Joined.{kept_edges_at, pruned_system}};
ghost use Rattle.shadow_prune.specs.KeptFaults.{RefusesKept};
ghost use Rattle.pass_run.specs.{Alike.most_edges, Passes.kept_counts, Laid.AreLaidOut, OneStep.IsListOver};
ghost use Rattle.pass_run.specs.{OneStep.IsOrderAlong, Found.AreFound};

use crate::finding::Found;
use crate::laws::masters_are_lawful;
use crate::ready::{Prepared, prepare};
use cons_graph::{Edge, Graph, GraphFault, MAX_EDGES, Names};
use expand::Master;
use lam_geom::Axis;
use lam_io::Gate;
use lam_list::Seq;
use pitch_join::Joint;
use plan_model::Plan;
use rule_table::Tech;
use shadow_prune::KeptFault;
use std::alloc::Global;
use std::thread::Threads;
use sym_items::Coords;

/// The list of a pass on an axis over some layouts: the inequalities of its system, but of the candidates only the
/// kept pairs.
#[derive(Drop)]
pub struct Listed {
    /// Its constraint graph.
    pub graph: Graph,
    /// For each master how many of the inequalities are of its kept pairs.
    pub kept: Vec<u32>,
    /// The number of each master's first variable beside the origin, which is that of its far border.
    pub base: Seq<u32>,
    /// The names of the variables, as they are printed.
    pub names: Names,
}

// How many inequalities were found, or the most of a list where there are more.
fn room_for(found: &[Found]) -> usize {
    let mut room = 0usize;
    for one in found {
        if let Found::Edges(edges) = one {
            room = room.saturating_add(edges.len()).min(MAX_EDGES);
        }
    }
    room
}

// Adds inequalities, if there is room for them.
fn add_edges(joint: &mut Joint, edges: &[Edge]) -> Result<(), KeptFault>
    ensures edges { OnOk result (joint.new.edges.items ≡ joint.old.edges.items ++ edges.now) }
    ensures others { OnOk result (joint.new ≡ record joint.old { edges = joint.new.edges }) }
    ensures few { OnOk result (length joint.new.edges.items ≤ most_edges) }
    ensures fault { IfErr result (RefusesKept most_edges (length joint.old.edges.items + length edges.now)) }
{
    if edges.len() > MAX_EDGES || joint.edges.len() > MAX_EDGES - edges.len() {
        return Err(KeptFault::TooMany);
    }
    joint.edges.extend_from_slice(edges)?;
    Ok(())
}

// Adds those that were found of each master, in order, if there is room for them, and counts them.
fn add_all_kept(
    joint: &mut Joint,
    alloc: Global,
    axis: Axis,
    tech: &Tech,
    masters: &[Master],
    layouts: &[Coords],
    found: &[Found],
) -> Result<Vec<u32>, KeptFault>
    requires found { AreFound axis tech.now masters.now layouts.now found.now }
    ensures edges { OnOk result
        (joint.new.edges.items ≡ joint.old.edges.items ++ flat_map
        (kept_edges_at axis tech.now masters.now layouts.now) (master_numbers masters.now)) }
    ensures others { OnOk result (joint.new ≡ record joint.old { edges = joint.new.edges }) }
    ensures counts { IfOk result (λ counts. counts.items ≡ kept_counts axis tech.now masters.now layouts.now) }
    ensures fault { IfErr result
        (RefusesKept most_edges
        (length (joint.old.edges.items ++ flat_map (kept_edges_at axis tech.now masters.now layouts.now)
        (master_numbers masters.now)))) }
{
    // Without this room all that was added before is copied, now and then.
    let _ = joint.edges.reserve(room_for(found));
    let mut counts = Vec::new(alloc);
    for one in found {
        let Found::Edges(edges) = one else {
            return Err(KeptFault::TooMany);
        };
        add_edges(joint, edges)?;
        counts.push(edges.len() as u32)?;
    }
    Ok(counts)
}

// Why there is no list where there is no graph: there are too many inequalities.
fn no_graph(fault: GraphFault) -> KeptFault
    ensures { result ≡ KeptFault.TooMany }
{
    match fault {
        GraphFault::TooManyEdges => KeptFault::TooMany,
    }
}

/// The joint variables in order of their values in some layouts, and the list of a pass over these: what holds
/// whatever the layouts are, and the inequalities of the kept pairs of each master. The pairs of a master are found
/// once, whatever the number of its instances. There are as many shares as `split` says, each of which passes the gate
/// once, as it starts: they make the order, then what holds whatever the layouts, then find the pairs of one master
/// after another, each share the next ones that no other has taken. It is refused where it has more than 4,194,304
/// inequalities, and for want of memory.
pub fn ordered_list<H: Threads + Sync, G: Gate>(
    rt: &H,
    alloc: Global,
    gate: &G,
    axis: Axis,
    tech: &Tech,
    plan: &Plan,
    masters: &[Master],
    layouts: &[Coords],
    split: u32,
) -> Result<(Vec<u32>, Listed), KeptFault>
    requires planned { ArePlanned tech.now plan.now masters.now }
    requires laid { AreLaidOut tech.now masters.now layouts.now }
    requires split { (1 ≤ split) × (split ≤ 64) }
    ensures order { IfOk result (λ both. IsOrderAlong axis layouts.now both.0.items) }
    ensures listed { IfOk result (λ both. IsListOver axis tech.now plan.now masters.now layouts.now both.1) }
    ensures fault { IfErr result
        (RefusesKept most_edges (length (pruned_system axis tech.now plan.now masters.now layouts.now))) }
{
    masters_are_lawful(tech, masters);
    let Prepared {
        order,
        mut joint,
        found,
    } = prepare(rt, alloc, gate, axis, tech, plan, masters, layouts, split)?;
    let kept = add_all_kept(&mut joint, alloc, axis, tech, masters, layouts, &found)?;
    let Joint {
        vars,
        base,
        edges,
        names,
    } = joint;
    match Graph::new(vars, edges) {
        Ok(graph) => Ok((
            order,
            Listed {
                graph,
                kept,
                base,
                names,
            },
        )),
        Err(fault) => Err(no_graph(fault)),
    }
}

/// The list of a pass over some layouts, as `ordered_list` gives it; the order is made too, and dropped.
pub fn list<H: Threads + Sync, G: Gate>(
    rt: &H,
    alloc: Global,
    gate: &G,
    axis: Axis,
    tech: &Tech,
    plan: &Plan,
    masters: &[Master],
    layouts: &[Coords],
    split: u32,
) -> Result<Listed, KeptFault>
    requires planned { ArePlanned tech.now plan.now masters.now }
    requires laid { AreLaidOut tech.now masters.now layouts.now }
    requires split { (1 ≤ split) × (split ≤ 64) }
    ensures listed { IfOk result (IsListOver axis tech.now plan.now masters.now layouts.now) }
    ensures fault { IfErr result
        (RefusesKept most_edges (length (pruned_system axis tech.now plan.now masters.now layouts.now))) }
{
    let (_, listed) = ordered_list(rt, alloc, gate, axis, tech, plan, masters, layouts, split)?;
    Ok(listed)
}
