//! Whether a text keeps the rules.
ghost use Rattle.std.specs.Prelude.{◌^◌, ◌≤◌, IfOk, IfErr, length};
ghost use Rattle.cif_answers.specs.Texts.{HasVerdict, RefusesVerdict};

use crate::fault::TextFault;
use crate::netting::boxes_of;
use flat_check::first_break;
use lam_io::Gate;
use rule_table::Tech;
use std::alloc::Global;
use std::thread::Threads;
use stick_lex::Text;

/// That the boxes of a CIF text keep the rules, as a text: `ok` and the end of its line. The work is split into so
/// many shares, each of which passes the gate under each rule that is not found to be kept at once; the answer is the
/// same for every number of shares and every gate.
pub fn verdict_of<H: Threads + Sync, G: Gate>(
    rt: &H,
    alloc: Global,
    gate: &G,
    tech: &Tech,
    text: &[u8],
    shares: u32,
) -> Result<Text, TextFault>
    requires short { length text.now ≤ 2 ^ 26 }
    requires shares { (1 ≤ shares) × (shares ≤ 64) }
    ensures verdict { IfOk result (HasVerdict tech.now text.now) }
    ensures refused { IfErr result (RefusesVerdict tech.now text.now) }
{
    let boxes = boxes_of(rt, alloc, text, shares)?;
    if let Some(first) = first_break(rt, alloc, gate, tech, &boxes, shares)? {
        return Err(TextFault::Broken(first));
    }
    let written = Text::new(alloc, b"ok\n")?;
    Ok(written)
}
