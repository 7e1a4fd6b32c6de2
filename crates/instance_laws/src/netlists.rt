//! That what is extracted from the boxes of all instances is the sticks' netlist.
ghost use Rattle.std.specs.Prelude.{◌≡◌, List, length};
ghost use Rattle.lam_geom.specs.declared.boxes.MaskBox.{MaskBox};
ghost use Rattle.instance_laws.specs.{Planned.AreOfPlan, Rules.AreFinished, Shapes.{PictureShowsShapes, AreShapes}};
ghost use Rattle.instance_laws.specs.Sticks.{NetsAreTheSticks};

use expand::Master;
use plan_model::Plan;
use rule_table::Tech;
use sym_items::Coords;

/// A law, with nothing to run: the boxes of a picture show the items of all instances, one by one.
pub fn pictures_show_shapes(tech: &Tech, plan: &Plan, masters: &[Master], layouts: &[Coords])
    requires planned { AreOfPlan tech.now plan.now masters.now }
    requires counted { length layouts.now ≡ length masters.now }
    ensures { PictureShowsShapes tech.now plan.now masters.now layouts.now }
{}

/// A law, with nothing to run: boxes that show the instances of finished layouts cross properly, and what is
/// extracted from them is the netlist of the sticks.
pub fn extracted_nets_are_the_sticks(
    tech: &Tech,
    plan: &Plan,
    masters: &[Master],
    layouts: &[Coords],
)
    requires planned { AreOfPlan tech.now plan.now masters.now }
    requires finished { AreFinished tech.now plan.now masters.now layouts.now }
    ensures { (boxes : List MaskBox) → AreShapes tech.now plan.now masters.now layouts.now boxes
        → NetsAreTheSticks tech.now plan.now masters.now layouts.now boxes }
{}
