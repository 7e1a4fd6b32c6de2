//! The first pass.

ghost use Rattle.std.specs.Prelude.{◌≡◌, true, [], ◌∷◌, All, IfOk, IfSome, OnOk};
ghost use Rattle.pitch_join.specs.Masters.{ArePlanned};
ghost use Rattle.pass_run.specs.{Laid.StartsClean, Layouts.starts_of, Least.{LeadTo, StaySettled}};
ghost use Rattle.first_pass.specs.{First.{AreMore, IsFirstPass}, Limits.system_limits};

use crate::bared::stripped;
use crate::compared::{ask_alike, differ_in_limits};
use crate::following::follow;
use crate::limits::system_limits;
use crate::shown::shown_least;
use cons_graph::Edge;
use edit_session::Session;
use expand::Master;
use lam_geom::Axis;
use lam_io::Gate;
use lam_list::Seq;
use pass_run::{Listed, list, pruning_loses_nothing, unless_too_many, with_values};
use plan_model::Plan;
use rule_table::Tech;
use std::alloc::{AllocError, Global};
use std::thread::Threads;
use sym_items::Coords;

/// The first pass of a plan.
#[derive(Drop)]
pub struct FirstPass {
    /// The axis of the pass.
    pub axis: Axis,
    pub plan: Plan,
    /// The masters without their limits.
    pub masters: Vec<Master>,
    /// The start layouts of the masters.
    pub starts: Vec<Coords>,
    /// The number of each master's first joint variable beside the origin.
    pub base: Seq<u32>,
    /// The inequalities of the pass: as many as this are those of the masters without limits, and then follow those
    /// of the limits.
    pub session: Session,
    pub listed: u32,
    /// The inequalities of the limits that the masters had last.
    pub limits: Vec<Edge>,
    /// For each inequality that follows in the session its number among those.
    pub places: Vec<usize>,
}

impl FirstPass {
    /// The first pass of the masters of a plan, over their start layouts, on an axis; None where its list is too
    /// long. The only refusal is want of memory.
    pub fn new<H: Threads + Sync, G: Gate>(
        rt: &H,
        alloc: Global,
        gate: &G,
        tech: &Tech,
        plan: Plan,
        masters: Vec<Master>,
        starts: Vec<Coords>,
        axis: Axis,
    ) -> Result<Option<FirstPass>, AllocError>
        requires planned { ArePlanned tech.now plan masters.items }
        requires clean { All (StartsClean tech.now) masters.items }
        requires starts { starts.items ≡ starts_of tech.now masters.items }
        ensures first { IfOk result (λ o. IfSome o (IsFirstPass tech.now)) }
        ensures axis { IfOk result (λ o. IfSome o (λ first. first.axis ≡ axis)) }
    {
        let masters = stripped(alloc, masters)?;
        let listed = match list(rt, alloc, gate, axis, tech, &plan, &masters, &starts, 1) {
            Ok(listed) => listed,
            Err(fault) => {
                unless_too_many(fault)?;
                return Ok(None);
            }
        };
        let Listed {
            graph,
            kept: _,
            base,
            names: _,
        } = listed;
        let listed = graph.edges().len() as u32;
        let session = Session::new(alloc, graph)?;
        Ok(Some(FirstPass {
            axis,
            plan,
            masters,
            starts,
            base,
            session,
            listed,
            limits: Vec::new(alloc),
            places: Vec::new(alloc),
        }))
    }

    /// The layouts after the first pass of masters that differ from these in their limits alone; None where they
    /// differ in more, where their pass has no values, or where it has too many inequalities. The only refusal is
    /// want of memory.
    pub fn layouts(
        &mut self,
        alloc: Global,
        tech: &Tech,
        plan: &Plan,
        masters: &[Master],
    ) -> Result<Option<Vec<Coords>>, AllocError>
        requires first { IsFirstPass tech.now self.old }
        requires planned { ArePlanned tech.now plan.now masters.now }
        ensures first { OnOk result (IsFirstPass tech.now self.new) }
        ensures axis { OnOk result (self.new.axis ≡ self.old.axis) }
        ensures clean { IfOk result (λ o. IfSome o (λ _. All (StartsClean tech.now) masters.now)) }
        ensures lead { OnOk result
            (IfOk result
            (λ o. IfSome o
            (λ layouts. LeadTo tech.now plan.now masters.now (self.old.axis ∷ []) (starts_of tech.now masters.now)
            layouts.items))) }
        ensures settled { OnOk result
            (IfOk result
            (λ o. IfSome o
            (λ layouts. StaySettled tech.now plan.now masters.now (starts_of tech.now masters.now) self.old.axis
            layouts.items))) }
    {
        if !self.is_like(tech, plan, masters) || !self.brought_to(alloc, tech, plan, masters)? {
            return Ok(None);
        }
        self.moved(alloc, tech, plan, masters)
    }

    // Whether a plan asks the same, and masters differ in their limits alone.
    fn is_like(&self, tech: &Tech, plan: &Plan, masters: &[Master]) -> bool
        requires first { IsFirstPass tech.now self.now }
        requires planned { ArePlanned tech.now plan.now masters.now }
        ensures { result ≡ true → AreMore tech.now plan.now masters.now self.now }
    {
        ask_alike(self.axis, plan, &self.plan) && differ_in_limits(tech, masters, &self.masters)
    }

    // Brings the session to the limits of masters; gives false where that does not go.
    fn brought_to(
        &mut self,
        alloc: Global,
        tech: &Tech,
        plan: &Plan,
        masters: &[Master],
    ) -> Result<bool, AllocError>
        requires more { AreMore tech.now plan.now masters.now self.old }
        ensures axis { OnOk result (self.new.axis ≡ self.old.axis) }
        ensures more { OnOk result (AreMore tech.now plan.now masters.now self.new) }
        ensures limits { IfOk result (λ done. done ≡ true
            → self.new.limits.items ≡ system_limits self.old.axis masters.now) }
    {
        let limits = system_limits(alloc, self.axis, tech, masters, self.base.as_slice())?;
        let done = follow(
            &mut self.session,
            self.listed,
            &mut self.places,
            &self.limits,
            &limits,
        )?;
        self.limits = limits;
        Ok(done)
    }

    // The layouts after the pass of masters with the limits that the session follows.
    fn moved(
        &self,
        alloc: Global,
        tech: &Tech,
        plan: &Plan,
        masters: &[Master],
    ) -> Result<Option<Vec<Coords>>, AllocError>
        requires more { AreMore tech.now plan.now masters.now self.now }
        requires limits { self.now.limits.items ≡ system_limits self.now.axis masters.now }
        ensures clean { IfOk result (λ o. IfSome o (λ _. All (StartsClean tech.now) masters.now)) }
        ensures lead { IfOk result
            (λ o. IfSome o
            (λ layouts. LeadTo tech.now plan.now masters.now (self.now.axis ∷ []) (starts_of tech.now masters.now)
            layouts.items)) }
        ensures settled { IfOk result
            (λ o. IfSome o
            (λ layouts. StaySettled tech.now plan.now masters.now (starts_of tech.now masters.now) self.now.axis
            layouts.items)) }
    {
        pruning_loses_nothing(tech, plan, masters);
        let Some(x) = shown_least(&self.session, self.listed, &self.limits, &self.places) else {
            return Ok(None);
        };
        let base = self.base.as_slice();
        let layouts = with_values(alloc, tech, plan, masters, &self.starts, base, self.axis, x)?;
        Ok(Some(layouts))
    }
}
