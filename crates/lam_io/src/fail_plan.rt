// Which calls of a shelf or a sink in memory fail.
ghost use Rattle.std.specs.Prelude.{◌≡◌, [], IfOk};
ghost use Rattle.lam_io.specs.Planned.{is_planned};

use std::alloc::{AllocError, Global};
use std::marker::Model;

/// The numbers of the calls that fail, counted from 0. Contracts see it as their list.
#[derive(Drop)]
pub struct FailPlan {
    calls: Vec<u32>,
}

impl Model for FailPlan {
    ghost use Rattle.std.specs.Prelude.{List, ℕ};

    ghost Value = { List ℕ };

    ghost view = { λ plan. plan.calls.items };
}

impl FailPlan {
    /// The plan in which these calls fail, in any order.
    pub fn new(alloc: Global, calls: &[u32]) -> Result<FailPlan, AllocError>
        ensures { IfOk result (λ plan. plan ≡ calls.now) }
    {
        let calls = Vec::from_slice(alloc, calls)?;
        Ok(FailPlan { calls })
    }

    /// The plan in which no call fails. Takes no memory.
    pub fn none(alloc: Global) -> FailPlan
        ensures { result ≡ [] }
    {
        let calls = Vec::new(alloc);
        FailPlan { calls }
    }

    // Whether the call of this number fails.
    pub(crate) fn is_planned(&self, call: u64) -> bool
        ensures { result ≡ is_planned self.now call }
    {
        self.calls.iter().any(|planned| u64::from(*planned) == call)
    }
}
