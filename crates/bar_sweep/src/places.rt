//! The places of a row, in order of where their bars start and end.

ghost use Rattle.std.specs.Prelude.{◌≡◌, ◌<◌, ◌≤◌, ◌^◌, ◌≤ℤ◌, ℕ, length, All, AllPairs, Contains, IfOk};
ghost use Rattle.bar_rows.specs.Rows.{bar_at};
ghost use Rattle.bar_sweep.specs.Sweeps.{ArePlaces, start_at};

use bar_rows::Bar;
use std::alloc::{AllocError, Global};

// The places of a row, in order.
fn places_of(alloc: Global, count: usize) -> Result<Vec<u32>, AllocError>
    requires few { count < 2 ^ 32 }
    ensures { IfOk result (λ places. ArePlaces count places.items) }
{
    let mut places = Vec::with_capacity(alloc, count)?;
    for place in 0..count as u32 {
        places.push(place)?;
    }
    Ok(places)
}

/// The places of a row in order of where their bars start. The only refusal is want of memory.
pub(crate) fn by_start(alloc: Global, bars: &[Bar]) -> Result<Vec<u32>, AllocError>
    requires few { length bars.now < 2 ^ 32 }
    ensures places { IfOk result (λ places. ArePlaces (length bars.now) places.items) }
    ensures in_order { IfOk result
        (λ places. AllPairs (λ a b. start_at bars.now a ≤ℤ start_at bars.now b) places.items) }
{
    let mut places = places_of(alloc, bars.len())?;
    places.sort_unstable_by_key(|place| start_at(bars, *place));
    Ok(places)
}

/// The places of a row in order of where their bars end. The only refusal is want of memory.
pub(crate) fn by_end(alloc: Global, bars: &[Bar]) -> Result<Vec<u32>, AllocError>
    requires few { length bars.now < 2 ^ 32 }
    ensures places { IfOk result (λ places. ArePlaces (length bars.now) places.items) }
{
    let mut places = places_of(alloc, bars.len())?;
    places.sort_unstable_by_key(|place| end_at(bars, *place));
    Ok(places)
}

// Where the bar at a place starts, or 0 where there is none.
fn start_at(bars: &[Bar], place: u32) -> i64
    ensures { result ≡ start_at bars.now place }
{
    match bars.get(place as usize) {
        Some(bar) => bar.start,
        None => 0,
    }
}

// Where the bar at a place ends, or 0 where there is none.
fn end_at(bars: &[Bar], place: u32) -> i64 {
    match bars.get(place as usize) {
        Some(bar) => bar.end,
        None => 0,
    }
}
