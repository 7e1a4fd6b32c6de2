//! Which bars are the last of their owners.

ghost use Rattle.std.specs.Prelude.{◌≡◌, ◌<◌, ◌^◌, length, All, IfOk};
ghost use Rattle.bar_sight.specs.Sight.{AreLasts};
ghost use Rattle.bar_sweep.specs.Sweeps.{with_met};

use bar_rows::Bar;
use bar_sight::Last;
use std::alloc::{AllocError, Global};

// Nothing of an owner was met.
const NONE_MET: Last = Last {
    of_mains: true,
    of_others: true,
};

/// Whether each bar of a row is the last of its owner. Memory is taken for owners up to the greatest number. The only
/// refusal is want of memory.
pub(crate) fn lasts_of(alloc: Global, bars: &[Bar]) -> Result<Vec<Last>, AllocError>
    requires few { length bars.now < 2 ^ 32 }
    ensures { IfOk result (λ lasts. AreLasts bars.now lasts.items) }
{
    let owners = owners_of(bars);
    // What was met of each owner, farther along the row.
    let mut met = vec![in alloc; NONE_MET; owners]?;
    let mut lasts = vec![in alloc; NONE_MET; bars.len()]?;
    let mut place = bars.len();
    while place > 0 {
        place -= 1;
        let bar = &bars[place];
        let owner = bar.owner as usize;
        lasts[place] = met[owner];
        met[owner] = with_met(met[owner], bar.is_main);
    }
    Ok(lasts)
}

// A number above those of the owners of some bars.
fn owners_of(bars: &[Bar]) -> usize
    ensures { All (λ b. b.owner < result) bars.now }
{
    let mut owners = 0;
    for bar in bars {
        owners = owners.max(bar.owner as usize + 1);
    }
    owners
}

// What was met of an owner, with one bar more.
fn with_met(met: Last, is_main: bool) -> Last
    ensures { result ≡ with_met met is_main }
{
    if is_main {
        Last {
            of_mains: false,
            ..met
        }
    } else {
        Last {
            of_others: false,
            ..met
        }
    }
}
