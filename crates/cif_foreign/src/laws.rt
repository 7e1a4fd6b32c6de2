//! What holds of the meanings of texts.
ghost use Rattle.cif_foreign.specs.Meaning.{ForeignReadingsAreDetermined, MeaningsStay};

use cif_lex::commands_are_determined;

/// A law, with nothing to run: a text means one hierarchy or has one first fault, and never both.
pub fn foreign_readings_are_determined()
    ensures { ForeignReadingsAreDetermined }
{
    commands_are_determined()
}

/// A law, with nothing to run: a text that means a hierarchy to `cif_read` means the same one here.
pub fn meanings_stay()
    ensures { MeaningsStay }
{}
