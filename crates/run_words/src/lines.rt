//! What `clap` finds in the words after a command's name.

ghost use Rattle.std.specs.Prelude.{◌≡◌, Some, None, Err, IfOk, IsOkAnd, unwrap_or};
ghost use Rattle.clap.specs.Words.{app_of, first_of, found_of, rows_of, with_rule};
ghost use Rattle.run_words.specs.{Words.texts_of, Lines.{extract_line, found_in, operand_line, option, slack_line}};
ghost use Rattle.run_words.specs.{Lines.text_of, Names.line_of, declared.commands.WordsFault.TheVariants.Usage};

use crate::commands::WordsFault;
use crate::names::Name;
use clap::{Arg, ArgAction, ArgMatches, Command};
use std::alloc::{AllocError, Global};

// `fmt DESIGN` and `bench N`: the operand, which is the one argument without a name.
fn operand_line<'a>(alloc: Global) -> Result<Command<'a>, AllocError>
    ensures { IfOk result (λ line. app_of line ≡ operand_line) }
{
    let operand = Arg::new(alloc, "operand")
        .required(true)
        .action(ArgAction::Set);
    Command::new(alloc, "sticks").arg(operand)
}

// A line with one more option, which has to be there or may be.
fn with_option<'a>(
    alloc: Global,
    line: Result<Command<'a>, AllocError>,
    name: &'a str,
    required: bool,
) -> Result<Command<'a>, AllocError>
    ensures { IfOk result
        (λ made.
        IsOkAnd line.entry
        (λ old. app_of made ≡ with_rule (app_of old) (record (option name.entry.now) { required = required }))) }
{
    let line = line?;
    let option = Arg::new(alloc, name)
        .long(name)
        .required(required)
        .action(ArgAction::Set);
    line.arg(option)
}

// `extract CIF --tech FILE`, and `nets DESIGN` with the same
fn extract_line<'a>(alloc: Global) -> Result<Command<'a>, AllocError>
    ensures { IfOk result (λ line. app_of line ≡ extract_line) }
{
    with_option(alloc, operand_line(alloc), "tech", true)
}

// `slack DESIGN --tech FILE [--passes LIST]`
fn slack_line<'a>(alloc: Global) -> Result<Command<'a>, AllocError>
    ensures { IfOk result (λ line. app_of line ≡ slack_line) }
{
    with_option(alloc, extract_line(alloc), "passes", false)
}

// The line of a command.
fn line_of<'a>(alloc: Global, name: Name) -> Result<Command<'a>, AllocError>
    ensures { IfOk result (λ line. app_of line ≡ line_of name) }
{
    match name {
        Name::Fmt | Name::Bench => operand_line(alloc),
        Name::Extract | Name::Nets => extract_line(alloc),
        Name::Slack => slack_line(alloc),
        Name::Compact => with_option(alloc, slack_line(alloc), "split", false),
        Name::Jog | Name::Edit => with_option(alloc, slack_line(alloc), "script", true),
        Name::Check => with_option(alloc, extract_line(alloc), "split", false),
        Name::Breaks => with_option(alloc, extract_line(alloc), "most", false),
    }
}

// What is found for a command, of which `words` are the name and what stands after it.
pub(crate) fn found_in<'a>(
    alloc: Global,
    name: Name,
    words: &'a [&'a str],
) -> Result<ArgMatches<'a>, WordsFault>
    ensures found { IfOk result (λ m. found_in (line_of name) (texts_of words.now) ≡ Some (rows_of (found_of m))) }
    ensures usage { result ≡ Err Usage → found_in (line_of name) (texts_of words.now) ≡ None }
{
    let line = line_of(alloc, name)?;
    Ok(line.try_get_matches_from(words)?)
}

// The text of an argument that has to be there.
pub(crate) fn text_of<'a>(found: &ArgMatches<'a>, id: &str) -> &'a str
    ensures { result.now ≡ text_of id.now (rows_of (found_of found.now)) }
{
    text_or(found, id, "")
}

// The text of an argument, or another where it is not there.
pub(crate) fn text_or<'a>(found: &ArgMatches<'a>, id: &str, other: &'a str) -> &'a str
    ensures { result.now ≡ unwrap_or (first_of id.now (rows_of (found_of found.now))) other.entry.now }
{
    found.get_str(id).unwrap_or(other)
}
