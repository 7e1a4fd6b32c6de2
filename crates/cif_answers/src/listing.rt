//! The breaks of a text.
ghost use Rattle.std.specs.Prelude.{◌^◌, ◌≤◌, IfOk, IfErr, length};
ghost use Rattle.cif_answers.specs.Texts.{HasBreaks, RefusesBreaks};

use crate::break_lines::text_of_breaks;
use crate::fault::TextFault;
use crate::netting::boxes_of;
use flat_check::breaks;
use rule_table::Tech;
use std::alloc::Global;
use std::thread::Threads;
use stick_lex::Text;

/// The first breaks of the boxes of a CIF text, at most so many, as a text: how many they are, a line for each, and
/// `more` where there are more.
pub fn breaks_of<H: Threads + Sync>(
    rt: &H,
    alloc: Global,
    tech: &Tech,
    text: &[u8],
    most: u32,
) -> Result<Text, TextFault>
    requires { length text.now ≤ 2 ^ 26 }
    ensures breaks { IfOk result (HasBreaks tech.now most text.now) }
    ensures refused { IfErr result (RefusesBreaks tech.now text.now) }
{
    let boxes = boxes_of(rt, alloc, text, 1)?;
    let found = breaks(rt, alloc, tech, &boxes, most)?;
    let written = text_of_breaks(alloc, tech, &boxes, found.list.as_slice(), found.more)?;
    Ok(written)
}
