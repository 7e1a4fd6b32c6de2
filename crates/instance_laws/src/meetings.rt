//! What meets where.
ghost use Rattle.rule_table.specs.declared.classes.Class.TheVariants.{M, P};
ghost use Rattle.instance_laws.specs.{Planned.AreOfPlan, Rules.AreFinished, Conductors.LinksKeepNets};
ghost use Rattle.instance_laws.specs.Meetings.{TransistorsHaveBoxes, ImplantsTellDepletion, PolyMeetsDiffusion};
ghost use Rattle.instance_laws.specs.Meetings.{ContactsAreBuried, WindowsKeepOff, DiffusionConducts, PiecesHaveMasks};
ghost use Rattle.instance_laws.specs.Meetings.{OwnersHaveOne};

use expand::Master;
use plan_model::Plan;
use rule_table::Tech;
use sym_items::Coords;

/// A law, with nothing to run: what items each owner has. They lie so in every layout.
pub fn items_are_of_owners(tech: &Tech, plan: &Plan, masters: &[Master], layouts: &[Coords])
    requires { AreOfPlan tech.now plan.now masters.now }
    ensures diffusion { DiffusionConducts tech.now plan.now masters.now layouts.now }
    ensures masks { PiecesHaveMasks plan.now masters.now }
    ensures poly { OwnersHaveOne plan.now masters.now P }
    ensures metal { OwnersHaveOne plan.now masters.now M }
{}

/// A law, with nothing to run: the boxes of transistors, and how they cross. They lie so in every layout.
pub fn transistors_have_boxes(tech: &Tech, plan: &Plan, masters: &[Master], layouts: &[Coords])
    requires { AreOfPlan tech.now plan.now masters.now }
    ensures { TransistorsHaveBoxes tech.now plan.now masters.now layouts.now }
{}

/// A law, with nothing to run: which transistors have implants.
pub fn implants_tell_depletion(tech: &Tech, plan: &Plan, masters: &[Master], layouts: &[Coords])
    requires planned { AreOfPlan tech.now plan.now masters.now }
    requires finished { AreFinished tech.now plan.now masters.now layouts.now }
    ensures { ImplantsTellDepletion tech.now plan.now masters.now layouts.now }
{}

/// A law, with nothing to run: poly overlaps diffusion in transistors and at buried contacts alone; there a window
/// covers what they have in common, and windows keep off channels.
pub fn poly_meets_diffusion(tech: &Tech, plan: &Plan, masters: &[Master], layouts: &[Coords])
    requires planned { AreOfPlan tech.now plan.now masters.now }
    requires finished { AreFinished tech.now plan.now masters.now layouts.now }
    ensures meet { PolyMeetsDiffusion tech.now plan.now masters.now layouts.now }
    ensures buried { ContactsAreBuried tech.now plan.now masters.now layouts.now }
    ensures windows { WindowsKeepOff tech.now plan.now masters.now layouts.now }
{}

/// A law, with nothing to run: conducting items that are linked are of one net of the sticks.
pub fn links_keep_nets(tech: &Tech, plan: &Plan, masters: &[Master], layouts: &[Coords])
    requires planned { AreOfPlan tech.now plan.now masters.now }
    requires finished { AreFinished tech.now plan.now masters.now layouts.now }
    ensures { LinksKeepNets tech.now plan.now masters.now layouts.now }
{}
