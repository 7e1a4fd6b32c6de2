//! The lines of a text, taken one after the other.
ghost use Rattle.std.specs.Prelude.{◌≡◌, ◌+◌, ◌^◌, ◌<◌, ◌≤◌, [], ◌∷◌, length, map, All, MatchOption, IfOk, IfErr, Ok};
ghost use Rattle.std.specs.Str.Lines.{lines};
ghost use Rattle.stick_text.specs.{Reading.GivesLine, Lines.said_by};
ghost use Rattle.stick_parse.specs.LinesLeft.{left, last_of, BeginsWith};

use crate::cursor::Lines;
use crate::forms::statement_of;
use lam_io::Gate;
use par_phase::map_split;
use std::alloc::{AllocError, Global};
use std::collections::VecDeque;
use std::thread::Threads;
use stick_lex::lex_line;
use stick_text::{LineFault, ParseFault, Statement, StickFault, StickKind};
use stick_words::{first_line, words_of};

/// What a line says, if it says anything.
#[tactic(auto, unfolding(stick_text::specs::Lines::said_by, stick_text::specs::Lines::said_by_words))]
fn said_by(alloc: Global, line: &[u8]) -> Result<Option<Statement>, LineFault>
    requires { length line.now ≤ 2 ^ 20 }
    ensures { GivesLine (λ x. x) result (said_by line.now) }
{
    let tokens = lex_line(alloc, line)?;
    let words = words_of(alloc, line, &tokens)?;
    if words.is_empty() {
        return Ok(None);
    }
    let statement = statement_of(alloc, &words)?;
    Ok(Some(statement))
}

// The lines of a text.
fn lines_of<'a>(alloc: Global, text: &'a [u8]) -> Result<Vec<&'a [u8]>, AllocError>
    ensures lines { IfOk result (λ ls. map (λ line. line.now) ls.items ≡ lines text.now) }
    ensures few { IfOk result (λ ls. length ls.items ≤ length text.now) }
    ensures short { IfOk result (λ ls. All (λ line. length line.now ≤ length text.now) ls.items) }
{
    let mut lines = Vec::new(alloc);
    let mut rest = text;
    while !rest.is_empty() {
        let (line, after) = first_line(rest);
        lines.push(line)?;
        rest = after;
    }
    Ok(lines)
}

// What a line says, or its fault; the only refusal is want of memory.
fn read_line(alloc: Global, line: &[u8]) -> Result<Result<Option<Statement>, StickKind>, AllocError>
    requires { length line.now ≤ 2 ^ 20 }
    ensures { IfOk result (λ said. said ≡ said_by line.now) }
{
    match said_by(alloc, line) {
        Ok(said) => Ok(Ok(said)),
        Err(LineFault::Kind(kind)) => Ok(Err(kind)),
        Err(LineFault::OutOfMemory) => Err(AllocError),
    }
}

impl Lines {
    /// All lines of a text, read in so many shares.
    pub fn read<H: Threads + Sync, G: Gate>(
        rt: &H,
        alloc: Global,
        gate: &G,
        text: &[u8],
        shares: u32,
    ) -> Result<Lines, AllocError>
        requires short { length text.now ≤ 2 ^ 20 }
        requires shares { (1 ≤ shares) × (shares ≤ 64) }
        ensures number { IfOk result (λ l. l.number ≡ 0) }
        ensures said { IfOk result (λ l. l.said.items ≡ map said_by (lines text.now)) }
    {
        let lines = lines_of(alloc, text)?;
        let read = |line: &&[u8]| -> Result<Result<Option<Statement>, StickKind>, AllocError>
            requires { length line.now.now ≤ 2 ^ 20 }
            ensures { IfOk result (λ said. said ≡ said_by line.entry.now.now) }
        { read_line(alloc, line) };
        let said = map_split(rt, alloc, gate, &lines, shares, &read)?;
        Ok(Lines {
            said: VecDeque::from_vec(said),
            number: 0,
        })
    }

    /// Takes lines up to the first that says something, and gives its number and what it says; none where no line
    /// that is left says anything. After a refusal nothing is known of the lines.
    pub fn next(&mut self) -> Result<Option<(u32, Statement)>, ParseFault>
        ensures found { IfOk result (λ found. MatchOption found
            ((left self.old ≡ []) × (last_of self.old ≡ self.new.number))
            (λ x. (left self.old ≡ record { number = x.0; said = Ok x.1 } ∷ left self.new)
            × (last_of self.new ≡ last_of self.old) × (length self.new.said.items < length self.old.said.items))) }
        ensures fault { IfErr result (λ fault. BeginsWith fault (left self.old)) }
    {
        'lines: while let Some(said) = self.said.pop_front() {
            self.number += 1;
            match said {
                Ok(Some(statement)) => return Ok(Some((self.number, statement))),
                Ok(None) => {}
                Err(kind) => return Err(ParseFault::Stick(StickFault {
                    line: self.number,
                    kind,
                })),
            }
        }
        Ok(None)
    }
}
