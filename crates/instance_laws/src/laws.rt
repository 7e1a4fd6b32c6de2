//! What holds of the layouts of all masters together.

ghost use Rattle.std.specs.Prelude.{All};
ghost use Rattle.plan_model.specs.{Instances.IsAligned, Plan.grids_of};
ghost use Rattle.sym_items.specs.Layouts.{size_in};
ghost use Rattle.lam_geom.specs.declared.boxes.Axis.TheVariants.{X, Y};
ghost use Rattle.instance_laws.specs.{Planned.AreOfPlan, InstanceSystem.ListsSpeakOfInstances, Rules.AreFinished};
ghost use Rattle.instance_laws.specs.Rules.{AllKeepSpacing};

use expand::Master;
use plan_model::Plan;
use rule_table::Tech;
use sym_items::Coords;

/// A law, with nothing to run: masters that share a column of a grid are equally wide, and masters that share a row
/// equally high.
pub fn grids_are_aligned(tech: &Tech, plan: &Plan, masters: &[Master], layouts: &[Coords])
    requires planned { AreOfPlan tech.now plan.now masters.now }
    requires finished { AreFinished tech.now plan.now masters.now layouts.now }
    ensures { All (IsAligned (size_in X layouts.now) (size_in Y layouts.now)) (grids_of plan.now) }
{}

/// A law, with nothing to run: every two items of all instances that are bound keep their spacing.
pub fn all_keep_spacing(tech: &Tech, plan: &Plan, masters: &[Master], layouts: &[Coords])
    requires planned { AreOfPlan tech.now plan.now masters.now }
    requires finished { AreFinished tech.now plan.now masters.now layouts.now }
    ensures { AllKeepSpacing tech.now plan.now masters.now layouts.now }
{}

/// A law, with nothing to run: values of the joint variables meet a plan exactly where all its instances meet: those
/// of one column have one far border on x and those of one row on y, and the wires of every two ports that meet lie
/// on one line.
pub fn instances_meet(tech: &Tech, plan: &Plan, masters: &[Master])
    requires planned { AreOfPlan tech.now plan.now masters.now }
    ensures { ListsSpeakOfInstances tech.now plan.now masters.now }
{}
