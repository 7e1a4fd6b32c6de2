//! How far a text has been read.
ghost use Rattle.std.specs.Prelude.{◌+◌, ◌^◌, ◌≤◌, length};

use std::collections::VecDeque;
use stick_text::{Statement, StickKind};

/// What each line that is left says, and the number of the line before them.
#[derive(Drop)]
pub struct Lines {
    pub said: VecDeque<Result<Option<Statement>, StickKind>>,
    pub number: u32,
    ghost fits: { number + length said.items ≤ 2 ^ 20 },
}
