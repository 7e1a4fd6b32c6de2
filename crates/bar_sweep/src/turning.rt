//! Rows turned round.

ghost use Rattle.std.specs.Prelude.{◌≡◌, IfOk};
ghost use Rattle.bar_sweep.specs.Sweeps.{turned_bar, turned_row};

use bar_rows::Bar;
use std::alloc::{AllocError, Global};

/// A row turned round. The only refusal is want of memory.
pub(crate) fn turned_round(alloc: Global, bars: &[Bar]) -> Result<Vec<Bar>, AllocError>
    ensures { IfOk result (λ turned. turned.items ≡ turned_row bars.now) }
{
    bars.iter().rev().map(|bar| turned_bar(bar)).collect(alloc)
}

// A bar turned round.
fn turned_bar(bar: &Bar) -> Bar
    ensures { result ≡ turned_bar bar.now }
{
    Bar {
        low: bar.high,
        high: bar.low,
        ..*bar
    }
}
