//! What holds of the answers alone.
ghost use Rattle.cif_lex.specs.Commands.{NextIsDetermined, TailIsDetermined};

/// A law, with nothing to run: at each place of a text `next` has one answer only, and so has `tail`.
pub fn commands_are_determined()
    ensures next { NextIsDetermined }
    ensures tail { TailIsDetermined }
{}
