//! How wide items are, and what covers cuts.
ghost use Rattle.instance_laws.specs.{Planned.AreOfPlan, Rules.AreFinished};
ghost use Rattle.masks_meet_rules.specs.Items.{ConductorsAreWide, CutsAreSquare, CutsAreCovered, OwnersHaveOneCut};

use expand::Master;
use plan_model::Plan;
use rule_table::Tech;
use sym_items::Coords;

/// A law, with nothing to run: diffusion, poly and metal are as wide as their layer's width; cuts are squares of the
/// cut's size, one for each contact, and lie inside metal, and inside poly or diffusion, by the enclosure.
pub fn items_have_shapes(tech: &Tech, plan: &Plan, masters: &[Master], layouts: &[Coords])
    requires planned { AreOfPlan tech.now plan.now masters.now }
    requires finished { AreFinished tech.now plan.now masters.now layouts.now }
    ensures wide { ConductorsAreWide tech.now plan.now masters.now layouts.now }
    ensures square { CutsAreSquare tech.now plan.now masters.now layouts.now }
    ensures covered { CutsAreCovered tech.now plan.now masters.now layouts.now }
    ensures one_cut { OwnersHaveOneCut plan.now masters.now }
{}
