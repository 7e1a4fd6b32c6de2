//! How long texts are.
ghost use Rattle.std.specs.Prelude.{◌≤◌, ◌^◌, length};
ghost use Rattle.instance_laws.specs.{Planned.AreOfPlan, Rules.AreFinished};
ghost use Rattle.written_masks.specs.Written.{FitIntoText, text_of_layouts};
ghost use Rattle.master_counts.specs.Parts.{HasFewParts};

use expand::Master;
use plan_model::Plan;
use rule_table::Tech;
use sym_items::Coords;

/// A law, with nothing to run: where names are short, and masters have few boxes and few instances, the CIF text of
/// finished layouts that fit into a text has 2^26 bytes at most.
pub fn texts_are_short(tech: &Tech, plan: &Plan, masters: &[Master], layouts: &[Coords])
    requires planned { AreOfPlan tech.now plan.now masters.now }
    requires finished { AreFinished tech.now plan.now masters.now layouts.now }
    requires fit { FitIntoText tech.now plan.now masters.now layouts.now }
    requires few { HasFewParts plan.now masters.now }
    ensures { length (text_of_layouts tech.now plan.now masters.now layouts.now) ≤ 2 ^ 26 }
{}
