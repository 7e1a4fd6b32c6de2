//! What the definitions of lines and of the canonical text promise.

ghost use Rattle.stick_print.specs.{ReadBack.IsSaidByCanonical, Said.EachHasItsWords};

use stick_text::Design;

/// A law, with nothing to run: the canonical text of a design says this design, each line on the line after the one
/// before it.
pub fn canonical_says_its_design(design: &Design)
    ensures { IsSaidByCanonical design.now }
{}

/// A law, with nothing to run: a line says something exactly where its words are the keyword and the fields that the
/// table in `specs/Said.antt` has for it.
pub fn each_statement_has_its_words()
    ensures { EachHasItsWords }
{}
