//! What holds of the netlists of texts, of the verdicts on them, and of the lists of their breaks.
ghost use Rattle.std.specs.Prelude.{List, ℕ, ◌^◌, ◌≤◌, length};
ghost use Rattle.rule_table.specs.declared.technology.Tech.{Tech};
ghost use Rattle.cif_answers.specs.Texts.{AnswersAreDetermined, HasBreaks, HasNetlist, HasVerdict, RefusesBreaks};
ghost use Rattle.cif_answers.specs.Texts.{RefusesNetlist, RefusesVerdict, TellsVerdict};

use cif_foreign::foreign_readings_are_determined;
use net_extract::netlist_is_determined;

/// A law, with nothing to run: want of memory aside, a text of at most 67,108,864 bytes has one netlist or one cause
/// why it has none.
pub fn netlists_are_determined()
    ensures { (tech : Tech) (text : List ℕ) → length text ≤ 2 ^ 26
        → AnswersAreDetermined HasNetlist RefusesNetlist tech text }
{
    foreign_readings_are_determined();
    netlist_is_determined();
}

/// A law, with nothing to run: want of memory aside, a text of at most 67,108,864 bytes keeps the rules, or there is
/// one cause why it does not.
pub fn verdicts_are_determined()
    ensures { (tech : Tech) (text : List ℕ) → length text ≤ 2 ^ 26
        → AnswersAreDetermined HasVerdict RefusesVerdict tech text }
{
    foreign_readings_are_determined();
}

/// A law, with nothing to run: want of memory aside, a text of at most 67,108,864 bytes has one list of so many
/// breaks, or there is one cause why it has none.
pub fn breaks_are_determined()
    ensures { (tech : Tech) (most : ℕ) (text : List ℕ) → length text ≤ 2 ^ 26
        → AnswersAreDetermined (λ t. HasBreaks t most) RefusesBreaks tech text }
{
    foreign_readings_are_determined();
}

/// A law, with nothing to run: the list of the breaks of such a text is `breaks 0` exactly where it keeps the rules,
/// and its first line is that of the first break where it does not.
pub fn breaks_tell_verdicts()
    ensures { (tech : Tech) (most : ℕ) (text output : List ℕ) → length text ≤ 2 ^ 26 → 1 ≤ most → most ≤ 65536
        → HasBreaks tech most text output → TellsVerdict tech text output }
{
    foreign_readings_are_determined();
}
