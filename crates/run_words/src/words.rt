//! Reading a command line.

ghost use Rattle.std.specs.Prelude.{◌≡◌, ◌≤◌, Some, None, Err, IfOk, IfErr, []};
ghost use Rattle.clap.specs.Words.{found_of, rows_of};
ghost use Rattle.run_words.specs.{Values.{count_in, most_in, passes_in}, Words.{command_named, command_of, most_of}};
ghost use Rattle.run_words.specs.{Words.{passes_of, split_of, texts_of}, Names.command_with, Commands.command_from};
ghost use Rattle.run_words.specs.Commands.{AreOfPassList, HasPassList, IsReading, IsWithinLimits};
ghost use Rattle.run_words.specs.declared.commands.WordsFault.TheVariants.{Usage};

use crate::commands::{Command, WordsFault};
use crate::lines::{found_in, text_of, text_or};
use crate::names::{Name, name_in};
use crate::values::{axes, count, is_pass_list, most_breaks};
use clap::ArgMatches;
use lam_geom::Axis;
use lam_list::Seq;
use std::alloc::Global;

// The axes of the list of passes, of `xy` where there is none.
fn passes_of(alloc: Global, found: &ArgMatches) -> Result<Seq<Axis>, WordsFault>
    ensures axes { IfOk result (λ axes. passes_in (passes_of (rows_of (found_of found.now))) ≡ Some axes) }
    ensures list { IfOk result AreOfPassList }
    ensures usage { result ≡ Err Usage → passes_in (passes_of (rows_of (found_of found.now))) ≡ None }
{
    let passes = text_or(found, "passes", "xy");
    if !is_pass_list(passes) {
        return Err(WordsFault::Usage);
    }
    Ok(Seq::from_vec(axes(alloc, passes)?))
}

// The number of shares, 1 where there is none.
fn split_of(found: &ArgMatches) -> Result<u32, WordsFault>
    ensures number { IfOk result (λ split. count_in (split_of (rows_of (found_of found.now))) ≡ Some split) }
    ensures limits { IfOk result (λ split. (1 ≤ split) × (split ≤ 64)) }
    ensures usage { result ≡ Err Usage → count_in (split_of (rows_of (found_of found.now))) ≡ None }
    ensures alone { IfErr result (λ fault. fault ≡ Usage) }
{
    count(text_or(found, "split", "1")).ok_or(WordsFault::Usage)
}

// How many breaks are listed at most, 1000 where it is not said.
fn most_of(found: &ArgMatches) -> Result<u32, WordsFault>
    ensures number { IfOk result (λ most. most_in (most_of (rows_of (found_of found.now))) ≡ Some most) }
    ensures limits { IfOk result (λ most. (1 ≤ most) × (most ≤ 65536)) }
    ensures usage { result ≡ Err Usage → most_in (most_of (rows_of (found_of found.now))) ≡ None }
    ensures alone { IfErr result (λ fault. fault ≡ Usage) }
{
    most_breaks(text_or(found, "most", "1000")).ok_or(WordsFault::Usage)
}

// The command that has this name, of what is found in its words.
fn command_in<'a>(
    alloc: Global,
    name: Name,
    found: &ArgMatches<'a>,
) -> Result<Command<'a>, WordsFault>
    ensures { IsReading (command_with name (rows_of (found_of found.now))) result }
{
    let operand = text_of(found, "operand");
    let tech = text_of(found, "tech");
    match name {
        Name::Compact => {
            let split = split_of(found)?;
            Ok(Command::Compact {
                design: operand,
                tech,
                passes: passes_of(alloc, found)?,
                split,
            })
        }
        Name::Slack => {
            Ok(Command::Slack {
                design: operand,
                tech,
                passes: passes_of(alloc, found)?,
            })
        }
        Name::Jog => {
            Ok(Command::Jog {
                design: operand,
                tech,
                script: text_of(found, "script"),
                passes: passes_of(alloc, found)?,
            })
        }
        Name::Edit => {
            Ok(Command::Edit {
                design: operand,
                tech,
                script: text_of(found, "script"),
                passes: passes_of(alloc, found)?,
            })
        }
        Name::Check => {
            Ok(Command::Check {
                cif: operand,
                tech,
                split: split_of(found)?,
            })
        }
        Name::Breaks => {
            Ok(Command::Breaks {
                cif: operand,
                tech,
                most: most_of(found)?,
            })
        }
        Name::Extract => Ok(Command::Extract { cif: operand, tech }),
        Name::Nets => {
            Ok(Command::Nets {
                design: operand,
                tech,
            })
        }
        Name::Fmt => Ok(Command::Fmt { design: operand }),
        Name::Bench => {
            Ok(Command::Bench {
                n: count(operand).ok_or(WordsFault::Usage)?,
            })
        }
    }
}

// The command that the words are, where `word` is its name.
fn read_named<'a>(
    alloc: Global,
    word: &str,
    words: &'a [&'a str],
) -> Result<Command<'a>, WordsFault>
    ensures { IsReading (command_named word.now (texts_of words.now)) result }
{
    let Some(name) = name_in(word) else {
        return Err(WordsFault::Usage);
    };
    let found = found_in(alloc, name, words)?;
    command_in(alloc, name, &found)
}

/// The command that the words are, which are those after the program's name. `Usage` comes exactly where they are no
/// command, and without words nothing else comes. Want of memory is the one other refusal.
pub fn read_words<'a>(alloc: Global, words: &'a [&'a str]) -> Result<Command<'a>, WordsFault>
    ensures command { IfOk result (λ command. command_of (texts_of words.now) ≡ Some (command_from command)) }
    ensures passes { IfOk result HasPassList }
    ensures limits { IfOk result IsWithinLimits }
    ensures usage { result ≡ Err Usage → command_of (texts_of words.now) ≡ None }
    ensures bare { words.now ≡ [] → result ≡ Err Usage }
{
    match words {
        [] => Err(WordsFault::Usage),
        [name, ..] => read_named(alloc, name, words),
    }
}
