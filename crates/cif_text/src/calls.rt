//! The text of the calls.
ghost use Rattle.std.specs.Prelude.{◌≡◌, ◌^◌, pos, ◌*ℤ◌, ◌≤ℤ◌, ◌++◌, All, OnOk, IfOk};
ghost use Rattle.rule_table.specs.Technology.{numbers_of};
ghost use Rattle.mask_out.specs.Pictures.{IsWithin};
ghost use Rattle.cif_text.specs.Calls.{call_text, calls_text, IsNear};

use crate::numbers::push_number;
use mask_out::Call;
use rule_table::Tech;
use std::alloc::{AllocError, Global};

// A place in hundredths of a micron.
fn in_hundredths(place: i64, unit: i64) -> i64
    requires place { IsWithin (2 ^ 41) place }
    requires low { pos 0 ≤ℤ unit }
    requires high { unit ≤ℤ pos 4096 }
    ensures { result ≡ place *ℤ unit }
{
    place * unit
}

// Adds a call's line. Symbols are numbered from 1.
fn push_call(out: &mut Vec<u8>, unit: i64, call: Call) -> Result<(), AllocError>
    requires near { IsNear call }
    requires low { pos 0 ≤ℤ unit }
    requires high { unit ≤ℤ pos 4096 }
    ensures { OnOk result (out.new.items ≡ out.old.items ++ call_text unit call) }
{
    push_number(out, b"C ", i64::from(call.symbol) + 1)?;
    push_number(out, b" T ", in_hundredths(call.x, unit))?;
    push_number(out, b" ", in_hundredths(call.y, unit))?;
    out.extend_from_slice(b";\n")?;
    Ok(())
}

/// The lines of the calls, and the end.
pub fn text_of_calls(alloc: Global, tech: &Tech, calls: &[Call]) -> Result<Vec<u8>, AllocError>
    requires { All IsNear calls.now }
    ensures { IfOk result (λ text. text.items ≡ calls_text (numbers_of tech.now).unit calls.now) }
{
    let unit = tech.numbers().unit;
    let mut out = Vec::new(alloc);
    for call in calls {
        push_call(&mut out, unit, *call)?;
    }
    out.extend_from_slice(b"E\n")?;
    Ok(out)
}
