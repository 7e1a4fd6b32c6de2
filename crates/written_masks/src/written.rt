//! That the written text has the sticks' nets.
ghost use Rattle.instance_laws.specs.{Planned.AreOfPlan, Rules.AreFinished};
ghost use Rattle.written_masks.specs.Written.{FitIntoText, HasSticksNets, text_of_layouts};

use crate::meanings::texts_mean_their_pictures_to_others;
use expand::Master;
use instance_laws::extracted_nets_are_the_sticks;
use plan_model::Plan;
use rule_table::Tech;
use sym_items::Coords;

/// A law, with nothing to run: the CIF text of finished layouts means boxes that show the items of all instances one
/// by one, and what is extracted from these is the netlist of the sticks.
pub fn written_nets_are_the_sticks(tech: &Tech, plan: &Plan, masters: &[Master], layouts: &[Coords])
    requires planned { AreOfPlan tech.now plan.now masters.now }
    requires finished { AreFinished tech.now plan.now masters.now layouts.now }
    requires fit { FitIntoText tech.now plan.now masters.now layouts.now }
    ensures { HasSticksNets tech.now plan.now masters.now layouts.now
        (text_of_layouts tech.now plan.now masters.now layouts.now) }
{
    texts_mean_their_pictures_to_others();
    extracted_nets_are_the_sticks(tech, plan, masters, layouts);
}
