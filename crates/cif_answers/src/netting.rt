//! From a text to its netlist.
ghost use Rattle.std.specs.Prelude.{◌^◌, ◌≤◌, IfOk, IfErr, length};
ghost use Rattle.crossing_model.specs.Boxes.{AreSearchable};
ghost use Rattle.cif_answers.specs.Texts.{HasBoxes, HasNetlist, RefusesBoxes, RefusesNetlist};

use crate::fault::TextFault;
use cif_foreign::{flatten_foreign, read_foreign};
use lam_geom::MaskBox;
use net_extract::extract;
use net_list::netlist_text;
use rule_table::Tech;
use std::alloc::Global;
use std::thread::Threads;
use stick_lex::Text;

/// The boxes that a CIF text means, one by one. The text is read in so many shares. What was read of it is kept no
/// longer.
pub fn boxes_of<H: Threads + Sync>(
    rt: &H,
    alloc: Global,
    text: &[u8],
    shares: u32,
) -> Result<Vec<MaskBox>, TextFault>
    requires short { length text.now ≤ 2 ^ 26 }
    requires shares { (1 ≤ shares) × (shares ≤ 64) }
    ensures boxes { IfOk result (λ boxes. HasBoxes text.now boxes.items) }
    ensures searchable { IfOk result (λ boxes. AreSearchable boxes.items) }
    ensures refused { IfErr result (RefusesBoxes text.now) }
{
    let file = read_foreign(rt, alloc, text, shares)?;
    let boxes = flatten_foreign(alloc, file)?;
    Ok(boxes)
}

/// The netlist of a CIF text, as a text.
pub fn netlist_of<H: Threads + Sync>(
    rt: &H,
    alloc: Global,
    tech: &Tech,
    text: &[u8],
) -> Result<Text, TextFault>
    requires { length text.now ≤ 2 ^ 26 }
    ensures netlist { IfOk result (HasNetlist tech.now text.now) }
    ensures refused { IfErr result (RefusesNetlist tech.now text.now) }
{
    let boxes = boxes_of(rt, alloc, text, 1)?;
    let list = extract(rt, alloc, tech, &boxes)?;
    let written = netlist_text(alloc, &list, &boxes)?;
    Ok(written)
}
