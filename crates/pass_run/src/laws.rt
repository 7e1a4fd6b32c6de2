//! What holds of layouts that meet a master, and of passes.

ghost use Rattle.expand.specs.{Laws.IsLawful, Masters.IsMaster};
ghost use Rattle.lam_geom.specs.declared.boxes.Axis.{Axis as SomeAxis};
ghost use Rattle.pass_run.specs.{Passes.AreDetermined, PassFaults.AreRefusedInOneWay, Slack.HasOneMost};
ghost use Rattle.pass_run.specs.{Meeting.MeetingStays, Least.LeadToOnePlace, Pruning.PruningLosesNothing};
ghost use Rattle.std.specs.Prelude.{List, All};

use expand::{Master, master_is_lawful};
use plan_model::Plan;
use rule_table::Tech;
use sym_items::Coords;

/// A law: each of some masters is lawful.
pub fn masters_are_lawful(tech: &Tech, masters: &[Master])
    requires { All (IsMaster tech.now) masters.now }
    ensures { All (IsLawful tech.now) masters.now }
{
    for master in masters {
        master_is_lawful(tech, master);
    }
}

/// A law, with nothing to run: where values meet a master over a layout that a pass may be made over, the layout with
/// these values on their axis is one again.
pub fn meeting_stays_laid_out(tech: &Tech, master: &Master)
    requires { IsMaster tech.now master.now }
    ensures { MeetingStays tech.now master.now }
{
    master_is_lawful(tech, master);
}

/// A law, with nothing to run: passes over some layouts are determined by their axes, with all that is recorded of
/// them.
pub fn passes_are_determined(tech: &Tech, plan: &Plan, masters: &[Master], before: &[Coords])
    ensures { AreDetermined tech.now plan.now masters.now before.now }
{}

/// A law, with nothing to run: passes on these axes are refused in one way at most, with one report, and not at all
/// where they are made. That memory runs out may come besides.
pub fn refusals_are_determined(tech: &Tech, plan: &Plan, masters: &[Master])
    ensures { (axes : List SomeAxis) → AreRefusedInOneWay tech.now plan.now masters.now axes }
{}

/// A law, with nothing to run: the greatest values after a pass over some layouts are determined.
pub fn greatest_values_are_determined(
    tech: &Tech,
    plan: &Plan,
    masters: &[Master],
    before: &[Coords],
)
    ensures { HasOneMost tech.now plan.now masters.now before.now }
{}

/// A law, with nothing to run: over layouts that give every item a box the list of a pass has the solutions of its
/// system.
pub fn pruning_loses_nothing(tech: &Tech, plan: &Plan, masters: &[Master])
    requires { All (IsMaster tech.now) masters.now }
    ensures { PruningLosesNothing tech.now plan.now masters.now }
{
    masters_are_lawful(tech, masters);
}

/// A law, with nothing to run: passes on some axes lead to one place at most, which is where made passes lead, and no
/// refusal but want of memory comes where they lead to a place from the start layouts.
pub fn passes_lead_to_one_place(tech: &Tech, plan: &Plan, masters: &[Master])
    ensures { LeadToOnePlace tech.now plan.now masters.now }
{}
