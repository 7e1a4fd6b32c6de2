// A sink in memory, whose puts fail where a plan says.
ghost use Rattle.std.specs.Prelude.{◌≡◌, ◌≤◌, [], Some, IsOk, IfOk, OnOk, OnErr, is_err, vec_len, vec_capacity};
ghost use Rattle.lam_io.specs.Io.{Appends, AppendsPrefix, Rose};

use crate::fail_plan::FailPlan;
use crate::sink::{PutFault, Sink};
use std::alloc::{AllocError, Global};

/// A sink that holds what was put in memory that it reserved at first. A put is a fault exactly
/// where the plan names its number or its chunk does not fit in the room that is left. A planned
/// fault appends the first half of its chunk, rounded down, or as much of that half as fits;
/// another appends what fits. Puts are counted from 0, and an empty chunk is no put.
#[derive(Drop)]
pub struct MemSink {
    bytes: Vec<u8>,
    room: u32,
    plan: FailPlan,
    puts: u64,
    faults: u64,
    ghost within: { vec_len bytes ≤ room },
    ghost reserved: { room ≤ vec_capacity bytes },
}

impl MemSink {
    ghost use Rattle.lam_io.specs.SinkInMemory.{sinking, empty_sinking};

    /// An empty sink with room for `room` bytes, which it reserves.
    pub fn new(alloc: Global, room: u32, plan: FailPlan) -> Result<MemSink, AllocError>
        ensures { IfOk result (λ sink. sinking sink ≡ empty_sinking room plan) }
    {
        let bytes = Vec::with_capacity(alloc, room as usize)?;
        Ok(MemSink {
            bytes,
            room,
            plan,
            puts: 0,
            faults: 0,
        })
    }

    /// All bytes put so far.
    pub fn bytes(&self) -> &[u8]
        ensures { result.now ≡ (sinking self.now).bytes }
    {
        self.bytes.as_slice()
    }
}

impl Sink for MemSink {
    ghost use Rattle.lam_io.specs.SinkInMemory.{sinking, put_fails, after_put};

    ghost told = { λ sink. Some (sinking sink).bytes };

    ghost faults = { λ sink. (sinking sink).faults };

    fn put(&mut self, chunk: &[u8]) -> Result<(), PutFault>
        ensures ok { OnOk result
            (Appends (Some (sinking self.old).bytes) (Some (sinking self.new).bytes) chunk.now) }
        ensures err { OnErr result
            (AppendsPrefix (Some (sinking self.old).bytes) (Some (sinking self.new).bytes) chunk.now) }
        ensures fault { OnErr result (Rose (sinking self.old).faults (sinking self.new).faults) }
        ensures counts { (sinking self.old).faults ≤ (sinking self.new).faults }
        ensures empty { chunk.now ≡ [] → IsOk result
            × (Some (sinking self.new).bytes ≡ Some (sinking self.old).bytes)
            × ((sinking self.new).faults ≡ (sinking self.old).faults) }

        // A fault comes exactly where it is planned or the chunk does not fit.
        ensures answer { is_err result ≡ put_fails (sinking self.old) chunk.now }
        ensures after { sinking self.new ≡ after_put (sinking self.old) chunk.now }
    {
        if chunk.is_empty() {
            return Ok(());
        }
        let is_planned = self.plan.is_planned(self.puts);
        self.puts = self.puts.saturating_add(1);
        let room_left = self.room as usize - self.bytes.len();
        let wanted = if is_planned {
            chunk.len() / 2
        } else {
            chunk.len()
        };
        let taken = wanted.min(room_left);
        self.bytes.extend_from_slice(&chunk[..taken]).unwrap();
        if is_planned || taken < chunk.len() {
            self.faults = self.faults.saturating_add(1);
            return Err(PutFault);
        }
        Ok(())
    }
}
