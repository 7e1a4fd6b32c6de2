//! What the definitions of a text's design, of its first fault and of a line's words say of each other.

ghost use Rattle.stick_text.specs.Laws.{ReadsWhatIsSaid, RefusesFirstFault, HasOneAnswer, HasWordsInRange};

/// A law, with nothing to run: what is read of a text is the design whose lines, in order, the text has.
pub fn reads_what_is_said(text: &[u8])
    ensures { ReadsWhatIsSaid text.now }
{}

/// A law, with nothing to run: a text is refused with its first fault: the first line that can't be read, that no
/// design has there or that is the 257th `cell` line, or its last line where it ends too early.
pub fn refuses_first_fault(text: &[u8])
    ensures { RefusesFirstFault text.now }
{}

/// A law, with nothing to run: a text says one design or has one first fault, and never both.
pub fn has_one_answer(text: &[u8])
    ensures { HasOneAnswer text.now }
{}

/// A law, with nothing to run: the words of a line are paths, numbers at most a million from 0, `<=` and `>=`; and the
/// only faults of a line's tokens are a run that is no token and a number that is too large.
pub fn has_words_in_range(line: &[u8])
    ensures { HasWordsInRange line.now }
{}
