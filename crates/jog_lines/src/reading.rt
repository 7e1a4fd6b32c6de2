//! A script of jogs.
ghost use Rattle.std.specs.{Prelude.{◌≡◌, ◌≤◌, length, MatchResult, Ok, codes}, Str.bytes_eq};
ghost use Rattle.stick_text.specs.{Reading.{GivesLine, demand}, declared.fault.StickKind.TheVariants.BadLine};
ghost use Rattle.script_lines.specs.Scripts.{IsScriptFault};
ghost use Rattle.jog_lines.specs.Scripts.{jog_of, jogs_of};

use crate::script::JogLine;
use script_lines::{ScriptFault, ScriptLine, read_script};
use std::alloc::Global;
use stick_lex::Text;
use stick_text::{LineFault, StickKind};
use stick_words::{Word, count_at, either_at, ended, name_at, path_at};

fn is_jog(keyword: &[u8]) -> Result<(), LineFault>
    ensures { GivesLine (λ x. x) result (demand (bytes_eq keyword.now (codes "jog")) BadLine) }
{
    if keyword == b"jog".as_slice() {
        Ok(())
    } else {
        Err(LineFault::Kind(StickKind::BadLine))
    }
}

impl ScriptLine for JogLine {
    ghost said = { jog_of };

    #[tactic(auto, unfolding(crate::specs::Scripts::jog_of))]
    fn of_words(alloc: Global, words: &[Word]) -> Result<JogLine, LineFault> {
        let (keyword, words) = path_at(words)?;
        is_jog(keyword)?;
        let (cell, words) = name_at(words)?;
        let (k, words) = count_at(words)?;
        let (r, words) = count_at(words)?;
        let (is_right, words) = either_at(b"left", b"right", words)?;
        ended(words)?;
        let cell = Text::new(alloc, cell)?;
        Ok(JogLine {
            cell,
            k,
            r,
            left: !is_right,
        })
    }
}

/// The jogs of a script, in order of their lines; or the number of the first line, from 1, that is no line of a script.
///
/// The lines are those of a stick text: blanks and comments count for nothing, and neither do lines without words. Each
/// other line is `jog CELL K R left` or `jog CELL K R right`: the name of a cell, the number of a wire, a row, and a
/// side. It costs time linear in the text.
#[tactic(auto, unfolding(crate::specs::Scripts::jogs_of))]
pub fn read_jogs(alloc: Global, text: &[u8]) -> Result<Vec<JogLine>, ScriptFault>
    requires { length text.now ≤ 65536 }
    ensures { MatchResult result (λ jogs. jogs_of text.now ≡ Ok jogs.items)
        (λ fault. IsScriptFault fault (jogs_of text.now)) }
{
    read_script(alloc, text)
}
