//! What holds of all answers.

ghost use Rattle.lam_io.specs.Io.{Files};
ghost use Rattle.run_words.specs.Words.{texts_of};
ghost use Rattle.compact_run.specs.{BreakLaws.BreaksAreThoseOfCheck, Checked.MasksPassTheCheck};
ghost use Rattle.compact_run.specs.{EditLaws.AreEditsJudgedAsTexts, JogLaws.{AreJudgedAsTexts, JogsWidenNoCell}};
ghost use Rattle.compact_run.specs.{OneAnswer.HasOneAnswer, NetLaws.NetsTellOfMasks, Splits.SplitsAnswerAlike};

use cif_answers::{
    breaks_are_determined, breaks_tell_verdicts, netlists_are_determined, verdicts_are_determined,
};
use cif_foreign::foreign_readings_are_determined;
use net_extract::netlist_is_determined;

/// A law, with nothing to run: the words and the files determine the status, the output and the report, where memory
/// does not run out and no file or stream fails.
pub fn answers_are_determined<'a>(words: &'a [&'a str])
    ensures { (files : Files) → HasOneAnswer (texts_of words.now) files }
{
    netlists_are_determined();
    verdicts_are_determined();
    breaks_are_determined();
    netlist_is_determined();
    foreign_readings_are_determined();
}

/// A law, with nothing to run: where `compact` is done, `check` of what it wrote, with the same technology, is done
/// too.
pub fn masks_pass_the_check()
    ensures { MasksPassTheCheck }
{}

/// A law, with nothing to run: words of `compact`, or of `check`, that differ in the number of shares alone have the
/// same answers. With the first law above, each such answer is the one there is.
pub fn splits_answer_alike()
    ensures { SplitsAnswerAlike }
{}

/// A law, with nothing to run: `breaks` lists nothing exactly where `check` of the same files is `ok`, and where
/// `check` is refused for a break of a rule, that is the first one in the list.
pub fn breaks_are_those_of_check()
    ensures { BreaksAreThoseOfCheck }
{
    breaks_tell_verdicts();
}

/// A law, with nothing to run: where `compact` and `nets` are done, nothing refuses `extract` of the masks, and it
/// tells as many nets and devices, with the same counts, kinds and terminals, as `nets` tells by their names.
pub fn nets_tell_of_masks()
    ensures { NetsTellOfMasks }
{
    foreign_readings_are_determined();
}

/// A law, with nothing to run: after a script of jogs the last design is laid out, and no master is wider than before
/// them.
pub fn jogs_widen_no_cell()
    ensures { JogsWidenNoCell }
{}

/// A law, with nothing to run: the design that a jog makes is laid out exactly where `compact` is done with its
/// canonical text.
pub fn jogs_are_judged_as_texts()
    ensures { AreJudgedAsTexts }
{}

/// A law, with nothing to run: the word on a design that a line of `edit` makes is what `compact` answers over its
/// canonical text: its sizes where that is done, and else the number of the cause for which it is refused.
pub fn edits_are_judged_as_texts()
    ensures { AreEditsJudgedAsTexts }
{}
