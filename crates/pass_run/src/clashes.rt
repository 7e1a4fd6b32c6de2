//! The first clash in the start layout of each master, found in shares that run beside each other.

ghost use Rattle.std.specs.Prelude.{◌≡◌, ◌<◌, ◌≤◌, ◌^◌, length, All, IfOk};
ghost use Rattle.expand.specs.Masters.{IsMaster};
ghost use Rattle.pitch_join.specs.Masters.{master_at};
ghost use Rattle.pass_run.specs.{Clashes.{IsStartClash, AreStartClashes}, Layouts.{start_of_master, starts_of}};

use coarse_grid::{first_clash, start_is_a_layout};
use expand::{Master, master_is_lawful};
use lam_io::Gate;
use par_phase::map_numbers;
use rule_table::Tech;
use std::alloc::{AllocError, Global};
use std::thread::Threads;
use sym_items::Coords;

// The first pair of items of a master that are too near one another in its start layout.
fn start_clash(
    alloc: Global,
    tech: &Tech,
    master: &Master,
    start: &Coords,
) -> Result<Option<(u32, u32)>, AllocError>
    requires master { IsMaster tech.now master.now }
    requires start { start.now ≡ start_of_master tech.now master.now }
    ensures { IfOk result (IsStartClash tech.now master.now) }
{
    master_is_lawful(tech, master);
    start_is_a_layout(tech, master);
    first_clash(alloc, tech, master.items.list.as_slice(), start)
}

/// The first pair of items of each master that are too near one another in its start layout, if there is one, in as
/// many shares as `split` says. The only refusal is want of memory.
pub fn start_clashes<H: Threads + Sync, G: Gate>(
    rt: &H,
    alloc: Global,
    gate: &G,
    tech: &Tech,
    masters: &[Master],
    starts: &[Coords],
    split: u32,
) -> Result<Vec<Option<(u32, u32)>>, AllocError>
    requires masters { All (IsMaster tech.now) masters.now }
    requires few { length masters.now < 2 ^ 32 }
    requires starts { starts.now ≡ starts_of tech.now masters.now }
    requires split { (1 ≤ split) × (split ≤ 64) }
    ensures { IfOk result (λ clashes. AreStartClashes tech.now masters.now clashes.items) }
{
    let find = |m: &u32| -> Result<Option<(u32, u32)>, AllocError>
        requires { (m.now < length masters.now) × All (IsMaster tech.now) masters.now
            × (starts.now ≡ starts_of tech.now masters.now) }
        ensures { IfOk result (IsStartClash tech.entry.now (master_at masters.entry.now m.entry.now)) }
    {
        let m = *m as usize;
        start_clash(alloc, tech, &masters[m], &starts[m])
    };
    map_numbers(rt, alloc, gate, masters.len() as u32, split, &find)
}
