//! That boxes keep the rules.
ghost use Rattle.std.specs.Prelude.{List};
ghost use Rattle.lam_geom.specs.declared.boxes.MaskBox.{MaskBox};
ghost use Rattle.instance_laws.specs.{Planned.AreOfPlan, Rules.AreFinished, Shapes.AreShapes};
ghost use Rattle.rule_breaks.specs.Breaks.{KeepRules};

use expand::Master;
use instance_laws::extracted_nets_are_the_sticks;
use plan_model::Plan;
use rule_table::Tech;
use sym_items::Coords;

/// A law, with nothing to run: boxes that show the items of all instances of finished layouts keep every rule.
pub fn boxes_keep_rules(tech: &Tech, plan: &Plan, masters: &[Master], layouts: &[Coords])
    requires planned { AreOfPlan tech.now plan.now masters.now }
    requires finished { AreFinished tech.now plan.now masters.now layouts.now }
    ensures { (boxes : List MaskBox) → AreShapes tech.now plan.now masters.now layouts.now boxes
        → KeepRules tech.now boxes }
{
    extracted_nets_are_the_sticks(tech, plan, masters, layouts);
}
