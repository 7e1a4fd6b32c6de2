//! How many boxes masks have.
ghost use Rattle.std.specs.Prelude.{◌≡◌, List, length};
ghost use Rattle.lam_geom.specs.declared.boxes.MaskBox.{MaskBox};
ghost use Rattle.instance_laws.specs.{Planned.AreOfPlan, Shapes.AreShapes};
ghost use Rattle.written_masks.specs.Parts.{boxes_of_picture};
ghost use Rattle.master_counts.specs.Parts.{boxes_of_instances};

use expand::Master;
use plan_model::Plan;
use rule_table::Tech;
use sym_items::Coords;

/// A law, with nothing to run: the picture of layouts has as many boxes as the cells of all instances are counted to
/// have together, and so have boxes that show the items of all instances.
pub fn boxes_are_few(tech: &Tech, plan: &Plan, masters: &[Master], layouts: &[Coords])
    requires planned { AreOfPlan tech.now plan.now masters.now }
    requires counted { length layouts.now ≡ length masters.now }
    ensures picture { length (boxes_of_picture tech.now plan.now masters.now layouts.now)
        ≡ boxes_of_instances plan.now masters.now }
    ensures shown { (boxes : List MaskBox) → AreShapes tech.now plan.now masters.now layouts.now boxes
        → length boxes ≡ boxes_of_instances plan.now masters.now }
{}
