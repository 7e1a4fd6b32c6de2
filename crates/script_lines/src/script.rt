//! The lines of a script, and why one is not read.
ghost use Rattle.std.specs.Prelude.{◌≡◌, List, Result};
ghost use Rattle.stick_text.specs.{declared.fault.StickKind.StickKind, Reading.GivesLine, Words.Word as SomeWord};
ghost use Rattle.stick_words.specs.WordViews.{views};
ghost use Rattle.script_lines.specs.declared.script.ScriptFault.TheVariants as faults;

use std::alloc::{AllocFailed, Global};
use stick_text::LineFault;
use stick_words::Word;
use thiserror::Error;

/// What a line of a script says.
pub trait ScriptLine: Sized + Drop {
    /// What the words of a line say, or why they say nothing.
    ghost said: { List SomeWord → Result Self StickKind };

    /// The line that these words are.
    fn of_words(alloc: Global, words: &[Word]) -> Result<Self, LineFault>
        ensures { GivesLine (λ x. x) result (said (views words.now)) };
}

/// Why a script was not read.
#[derive(Clone, Copy, Debug, PartialEq, Eq, Error)]
pub enum ScriptFault {
    /// The first line, from 1, that is no line of a script.
    #[error("a line of the script is wrong")]
    Line(u32),
    /// Memory ran out.
    #[error("out of memory")]
    OutOfMemory,
}

impl<T: Drop> From<AllocFailed<T>> for ScriptFault {
    ghost from_gives = { λ _ e. e ≡ faults.OutOfMemory };

    fn from(_e: AllocFailed<T>) -> ScriptFault {
        ScriptFault::OutOfMemory
    }
}
