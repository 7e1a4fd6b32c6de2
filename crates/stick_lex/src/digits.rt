//! Numbers in texts.
ghost use Rattle.std.specs.{Prelude.{◌≡◌, ◌++◌, decimal, OnOk, OnErr}, Fmt.signed_decimal};

use std::alloc::AllocError;

/// Appends a number that is not negative, in decimal digits. After a refusal the text is as before.
pub fn push_decimal(out: &mut Vec<u8>, number: u64) -> Result<(), AllocError>
    ensures ok { OnOk result (out.new.items ≡ out.old.items ++ decimal number) }
    ensures err { OnErr result (out.new.items ≡ out.old.items) }
{
    let digits = number.to_string(*out.allocator())?;
    out.extend_from_slice(digits.as_bytes())
}

/// Appends a number in decimal digits, after a minus where it is negative. After a refusal the text is as before.
pub fn push_signed_decimal(out: &mut Vec<u8>, number: i64) -> Result<(), AllocError>
    ensures ok { OnOk result (out.new.items ≡ out.old.items ++ signed_decimal number) }
    ensures err { OnErr result (out.new.items ≡ out.old.items) }
{
    let shown = number.to_string(*out.allocator())?;
    out.extend_from_slice(shown.as_bytes())
}
