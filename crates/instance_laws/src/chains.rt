//! That the sticks' nets are joined by what lies where.
ghost use Rattle.instance_laws.specs.{Planned.AreOfPlan, Rules.AreFinished, Conductors.NetsAreConnected};

use expand::Master;
use plan_model::Plan;
use rule_table::Tech;
use sym_items::Coords;

/// A law, with nothing to run: conducting items of one net of the sticks are joined by a chain of links.
pub fn nets_are_connected(tech: &Tech, plan: &Plan, masters: &[Master], layouts: &[Coords])
    requires planned { AreOfPlan tech.now plan.now masters.now }
    requires finished { AreFinished tech.now plan.now masters.now layouts.now }
    ensures { NetsAreConnected tech.now plan.now masters.now layouts.now }
{}
