//! How far items lie apart.
ghost use Rattle.instance_laws.specs.{Planned.AreOfPlan, Rules.AreFinished};
ghost use Rattle.masks_meet_rules.specs.Items.{PolyKeepsOff, NetsKeepOff, CutsKeepOff, CutsKeepOffChannels};
ghost use Rattle.masks_meet_rules.specs.Items.{ImplantsCoverOrKeepOff, WindowsKeepOff};

use crate::shapes::items_have_shapes;
use expand::Master;
use plan_model::Plan;
use rule_table::Tech;
use sym_items::Coords;

/// A law, with nothing to run: items of all instances keep the spacings that the rules on boxes ask for.
pub fn items_keep_off(tech: &Tech, plan: &Plan, masters: &[Master], layouts: &[Coords])
    requires planned { AreOfPlan tech.now plan.now masters.now }
    requires finished { AreFinished tech.now plan.now masters.now layouts.now }
    ensures poly { PolyKeepsOff tech.now plan.now masters.now layouts.now }
    ensures nets { NetsKeepOff tech.now plan.now masters.now layouts.now }
    ensures cuts { CutsKeepOff tech.now plan.now masters.now layouts.now }
    ensures channels { CutsKeepOffChannels tech.now plan.now masters.now layouts.now }
    ensures implants { ImplantsCoverOrKeepOff tech.now plan.now masters.now layouts.now }
    ensures windows { WindowsKeepOff tech.now plan.now masters.now layouts.now }
{
    items_have_shapes(tech, plan, masters, layouts);
}
