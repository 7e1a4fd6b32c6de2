//! A script, read line by line.
ghost use Rattle.std.specs.Prelude.{◌≡◌, ◌^◌, ◌≤◌, length, MatchResult, Ok};
ghost use Rattle.stick_text.specs.Reading.{GivesLine};
ghost use Rattle.script_lines.specs.Scripts.{step_by, steps_of, fault_at, IsScriptFault};

use crate::script::{ScriptFault, ScriptLine};
use std::alloc::Global;
use stick_lex::lex_line;
use stick_text::LineFault;
use stick_words::{first_line, words_of};

// What a line says, if it has words.
fn step_by<L: ScriptLine>(alloc: Global, line: &[u8]) -> Result<Option<L>, LineFault>
    requires { length line.now ≤ 2 ^ 20 }
    ensures { GivesLine (λ x. x) result (step_by L.said line.now) }
{
    let tokens = lex_line(alloc, line)?;
    let words = words_of(alloc, line, &tokens)?;
    if words.is_empty() {
        return Ok(None);
    }
    let step = L::of_words(alloc, &words)?;
    Ok(Some(step))
}

// The fault of a line, which has this number, as the script's.
fn at_line(number: u32, fault: LineFault) -> ScriptFault
    ensures { result ≡ fault_at number fault }
{
    match fault {
        LineFault::Kind(_) => ScriptFault::Line(number),
        LineFault::OutOfMemory => ScriptFault::OutOfMemory,
    }
}

/// The lines of a script, in their order; or the number of the first line, from 1, that is no line of a script.
///
/// The lines are those of a stick text: blanks and comments count for nothing, and neither do lines without words. It
/// costs time linear in the text.
pub fn read_script<L: ScriptLine>(alloc: Global, text: &[u8]) -> Result<Vec<L>, ScriptFault>
    requires { length text.now ≤ 65536 }
    ensures { MatchResult result (λ steps. steps_of L.said text.now ≡ Ok steps.items)
        (λ fault. IsScriptFault fault (steps_of L.said text.now)) }
{
    let mut steps = Vec::new(alloc);
    let mut rest = text;
    let mut number = 0;
    'lines: while !rest.is_empty() {
        let (line, after) = first_line(rest);
        rest = after;
        number += 1;
        match step_by::<L>(alloc, line) {
            Ok(Some(step)) => steps.push(step)?,
            Ok(None) => {}
            Err(fault) => return Err(at_line(number, fault)),
        }
    }
    Ok(steps)
}
