ghost use Rattle.slack_pack.specs.Most.{StandOnCriticalWalks};

use cons_graph::Edge;

/// A law, with nothing to run: where a solution has as value of each variable the length of a walk from the origin, a
/// variable cannot move, while the far ones stay, exactly where it lies on a critical walk.
pub fn slack_is_none_on_critical_walks(vars: u32, edges: &[Edge], far: &[u32])
    ensures { StandOnCriticalWalks vars edges.now far.now }
{}
