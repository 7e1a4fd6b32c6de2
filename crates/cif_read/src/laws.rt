//! What holds of the meanings of texts.
ghost use Rattle.cif_read.specs.Meaning.{ReadingsAreDetermined};

use cif_lex::commands_are_determined;

/// A law, with nothing to run: a text means one hierarchy or has one first fault, and never both.
pub fn readings_are_determined()
    ensures { ReadingsAreDetermined }
{
    commands_are_determined()
}
