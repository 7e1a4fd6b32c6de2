//! What holds of all command lines.

ghost use Rattle.run_words.specs.PlainLines.{PlainLinesAreRead};

/// A law, with nothing to run: a line of an operand and options in any order, where only a value after `=` begins
/// with a dash, is the command that its parts say, and is refused where a part is missing or stands twice.
pub fn plain_lines_are_read()
    ensures { PlainLinesAreRead }
{}
