//! What a `u32` has room for.

ghost use Rattle.std.specs.Prelude.{◌^◌, ◌<◌, ◌≤◌, OnOk, OnErr};

use std::alloc::AllocError;

/// Refuses more things than a `u32` can number, as want of memory. No text that is read has so many.
pub fn check_count(count: usize) -> Result<(), AllocError>
    ensures few { OnOk result (count < 2 ^ 32) }
    ensures many { OnErr result (2 ^ 32 ≤ count) }
{
    if count > u32::MAX as usize {
        Err(AllocError)
    } else {
        Ok(())
    }
}
