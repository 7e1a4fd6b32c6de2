//! A script of edits.
ghost use Rattle.std.specs.{Prelude.{◌≡◌, ◌≤◌, length, IfOk, MatchResult, Ok}, List.AllByRecursion};
ghost use Rattle.stick_text.specs.Reading.{GivesLine};
ghost use Rattle.stick_words.specs.WordViews.{views};
ghost use Rattle.script_lines.specs.Scripts.{IsScriptFault};
ghost use Rattle.edit_lines.specs.Scripts.{HasText, add_of, take_of, edit_named, edit_of, edits_of};

use crate::script::EditLine;
use script_lines::{ScriptFault, ScriptLine, read_script};
use std::alloc::Global;
use stick_lex::Text;
use stick_text::{LineFault, StickKind};
use stick_words::{Word, at_most_at, count_at, either_at, ended, name_at, number_at, path_at};

// Stick_parse's own reader of a limit's line is not public, so its words are taken one by one, as there.
#[tactic(auto, unfolding(crate::specs::Scripts::add_of, stick_text::specs::Forms::limit_of))]
fn add_of(alloc: Global, words: &[Word]) -> Result<EditLine, LineFault>
    ensures { GivesLine (λ x. x) result (add_of (views words.now)) }
{
    let (cell, rest) = name_at(words)?;
    let (vertical, rest) = either_at(b"x", b"y", rest)?;
    let (a, rest) = path_at(rest)?;
    let (b, rest) = path_at(rest)?;
    let (at_most, rest) = at_most_at(rest)?;
    let (n, rest) = number_at(rest)?;
    ended(rest)?;
    let cell = Text::new(alloc, cell)?;
    let a = Text::new(alloc, a)?;
    let b = Text::new(alloc, b)?;
    Ok(EditLine::Add {
        cell,
        vertical,
        a,
        b,
        at_most,
        n,
    })
}

#[tactic(auto, unfolding(crate::specs::Scripts::take_of))]
fn take_of(alloc: Global, words: &[Word]) -> Result<EditLine, LineFault>
    ensures { GivesLine (λ x. x) result (take_of (views words.now)) }
{
    let (cell, rest) = name_at(words)?;
    let (k, rest) = count_at(rest)?;
    ended(rest)?;
    let cell = Text::new(alloc, cell)?;
    Ok(EditLine::Take { cell, k })
}

#[tactic(auto, unfolding(crate::specs::Scripts::edit_named))]
fn edit_named(alloc: Global, keyword: &[u8], words: &[Word]) -> Result<EditLine, LineFault>
    ensures { GivesLine (λ x. x) result (edit_named keyword.now (views words.now)) }
{
    if keyword == b"add".as_slice() {
        add_of(alloc, words)
    } else if keyword == b"drop".as_slice() {
        take_of(alloc, words)
    } else {
        Err(LineFault::Kind(StickKind::BadLine))
    }
}

impl ScriptLine for EditLine {
    ghost said = { edit_of };

    #[tactic(auto, unfolding(crate::specs::Scripts::edit_of))]
    fn of_words(alloc: Global, words: &[Word]) -> Result<EditLine, LineFault> {
        let (keyword, rest) = path_at(words)?;
        edit_named(alloc, keyword, rest)
    }
}

/// The edits of a script, in order of their lines; or the number of the first line, from 1, that is no line of a
/// script.
///
/// The lines are those of a stick text: blanks and comments count for nothing, and neither do lines without words. Each
/// other line is `add CELL AXIS A B OP N`, which names a cell and goes on as a limit's line does after its keyword, or
/// `drop CELL K`: the name of a cell, and the number of a limit in it, from 0. It costs time linear in the text.
#[tactic(auto, unfolding(crate::specs::Scripts::edits_of))]
pub fn read_edits(alloc: Global, text: &[u8]) -> Result<Vec<EditLine>, ScriptFault>
    requires { length text.now ≤ 65536 }
    ensures read { MatchResult result (λ edits. edits_of text.now ≡ Ok edits.items)
        (λ fault. IsScriptFault fault (edits_of text.now)) }
    ensures written { IfOk result (λ edits. AllByRecursion HasText edits.items) }
{
    read_script(alloc, text)
}
