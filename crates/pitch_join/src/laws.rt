//! What holds of the joint variables and inequalities of masters.

ghost use Rattle.pitch_join.specs.{Masters.ArePlanned, Meeting.JoiningIsMeeting, Variables.VariablesAreJoined};

use expand::Master;
use plan_model::Plan;
use rule_table::Tech;

/// A law, with nothing to run: the joint variables are the origin and the other variables of each master.
pub fn variables_are_joined(tech: &Tech, plan: &Plan, masters: &[Master])
    requires { ArePlanned tech.now plan.now masters.now }
    ensures { VariablesAreJoined masters.now }
{}

/// A law, with nothing to run: values solve the joint inequalities exactly where each master's own part meets that
/// master, and borders and ports that meet are equal.
pub fn joining_is_meeting(tech: &Tech, plan: &Plan, masters: &[Master])
    requires { ArePlanned tech.now plan.now masters.now }
    ensures { JoiningIsMeeting tech.now plan.now masters.now }
{}
