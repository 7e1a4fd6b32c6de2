//! What the names of a plan tell of the netlist of its sticks over any layouts.
ghost use Rattle.instance_laws.specs.Planned.{AreOfPlan};
ghost use Rattle.design_nets.specs.NamedLaws.{NamedPartsHavePieces, IsNamedTextDetermined, PartsStandWithPieces};
ghost use Rattle.design_nets.specs.NamedLaws.{NamesTellNetlists};

use expand::Master;
use instance_laws::transistors_have_boxes;
use plan_model::Plan;
use rule_table::Tech;
use sym_items::Coords;

/// A law, with nothing to run: each part of an instance that has a name has a piece. So its net has a number, and it
/// stands on the line of that net.
pub fn named_parts_have_pieces(tech: &Tech, plan: &Plan, masters: &[Master])
    requires planned { AreOfPlan tech.now plan.now masters.now }
    ensures { NamedPartsHavePieces plan.now masters.now }
{}

/// A law, with nothing to run: a plan has only one text of its nets by their names.
pub fn named_text_is_determined(tech: &Tech, plan: &Plan, masters: &[Master])
    requires planned { AreOfPlan tech.now plan.now masters.now }
    ensures { IsNamedTextDetermined plan.now masters.now }
{}

/// A law, with nothing to run: whatever the layouts, the text of the nets by their names has as many nets and
/// transistors as the netlist of the sticks, of each net the same counts, and of each transistor the same kind and
/// terminals; and a part stands on the line of the net that has its pieces.
pub fn names_tell_the_netlist(tech: &Tech, plan: &Plan, masters: &[Master], layouts: &[Coords])
    requires planned { AreOfPlan tech.now plan.now masters.now }
    ensures told { NamesTellNetlists tech.now plan.now masters.now layouts.now }
    ensures parts { PartsStandWithPieces tech.now plan.now masters.now layouts.now }
{
    transistors_have_boxes(tech, plan, masters, layouts);
}
