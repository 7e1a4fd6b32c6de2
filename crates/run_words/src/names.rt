//! The names of the commands.

ghost use Rattle.std.specs.Prelude.{◌≡◌};
ghost use Rattle.run_words.specs.Names.{cif_name_in, name_in, other_name_in};

// The name of a command.
#[derive(Clone, Copy)]
pub(crate) enum Name {
    Compact,
    Slack,
    Jog,
    Edit,
    Check,
    Breaks,
    Extract,
    Nets,
    Fmt,
    Bench,
}

// The name that a word is.
pub(crate) fn name_in(word: &str) -> Option<Name>
    ensures { result ≡ name_in word.now }
{
    if word == "compact" {
        Some(Name::Compact)
    } else if word == "slack" {
        Some(Name::Slack)
    } else if word == "jog" {
        Some(Name::Jog)
    } else if word == "edit" {
        Some(Name::Edit)
    } else {
        cif_name_in(word)
    }
}

// The same of a word that names no command with passes.
fn cif_name_in(word: &str) -> Option<Name>
    ensures { result ≡ cif_name_in word.now }
{
    if word == "check" {
        Some(Name::Check)
    } else if word == "breaks" {
        Some(Name::Breaks)
    } else if word == "extract" {
        Some(Name::Extract)
    } else {
        other_name_in(word)
    }
}

// The same of a word that names no command on a CIF text, either.
fn other_name_in(word: &str) -> Option<Name>
    ensures { result ≡ other_name_in word.now }
{
    if word == "nets" {
        Some(Name::Nets)
    } else if word == "fmt" {
        Some(Name::Fmt)
    } else if word == "bench" {
        Some(Name::Bench)
    } else {
        None
    }
}
