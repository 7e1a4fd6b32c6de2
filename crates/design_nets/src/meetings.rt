//! The nets of masters that ports join where an instance of one stands after one of the other.
ghost use Rattle.std.specs.Prelude.{◌≡◌, ◌<◌, [], ℕ, All, length, IfOk};
ghost use Rattle.design_nets.specs.Nets.{nets_no};
ghost use Rattle.design_nets.specs.Meetings.{wire_net, meeting_of, IsMatchIn, meetings_at, IsSquare, AreMeetings};

use crate::numbered_lists::{empty_lists, push_to};
use cell_model::Nets;
use plan_model::Match;
use smallvec::SmallVec;
use std::alloc::{AllocError, Global};

/// A net of a master, and one of the master of the next instance, that ports join.
#[derive(Clone, Copy, Default)]
pub struct Meeting {
    pub before: u32,
    pub after: u32,
}

/// The nets that these ports join: in row a and column b for an instance of master a and one of master b after it.
/// The only refusal is want of memory.
pub fn meetings(
    alloc: Global,
    nets: &[Nets],
    matches: &[Match],
) -> Result<Vec<Vec<SmallVec<Meeting, 2>>>, AllocError>
    requires { All (IsMatchIn nets.now) matches.now }
    ensures { IfOk result (λ table. AreMeetings nets.now matches.now table.items) }
{
    let mut table = empty_table(alloc, nets.len())?;
    for met in matches {
        let meeting = Meeting {
            before: wire_net(nets, met.a, met.a_wire),
            after: wire_net(nets, met.b, met.b_wire),
        };
        let row = &mut table[met.a as usize];
        push_to(row, met.b, meeting)?;
    }
    Ok(table)
}

// The net of a wire of a master.
fn wire_net(nets: &[Nets], master: u32, wire: u32) -> u32
    requires master { master < length nets.now }
    requires wire { wire < length (nets_no nets.now master).wire }
    ensures { result ≡ wire_net nets.now master wire }
{
    nets[master as usize].wire.as_slice()[wire as usize]
}

// A table for so many masters with nothing in its lists.
fn empty_table(alloc: Global, count: usize) -> Result<Vec<Vec<SmallVec<Meeting, 2>>>, AllocError>
    ensures square { IfOk result (λ table. IsSquare count table.items) }
    ensures empty { IfOk result (λ table. (a b : ℕ) → meetings_at table.items a b ≡ []) }
{
    let mut table = Vec::with_capacity(alloc, count)?;
    for _ in 0..count {
        table.push(empty_lists(alloc, count)?)?;
    }
    Ok(table)
}
