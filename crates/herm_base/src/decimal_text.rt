//! Decimal texts of numbers.
ghost use Rattle.std.specs.Prelude.{◌≡◌, ◌++◌, OnOk, OnErr, decimal};
ghost use Rattle.std.specs.Fmt.{signed_decimal};
ghost use Rattle.herm_base.specs.Decimal.{DecimalIsExact};

use itoa::Buffer;
use std::alloc::AllocError;

/// Appends the decimal text of a number, whole or not at all.
pub fn decimal(out: &mut Vec<u8>, n: u64) -> Result<(), AllocError>
    ensures ok { OnOk result (out.new.items ≡ out.old.items ++ decimal n) }
    ensures err { OnErr result (out.new.items ≡ out.old.items) }
{
    let mut buffer = Buffer::new();
    out.extend_from_slice(buffer.format(n).as_bytes())?;
    Ok(())
}

/// Appends the decimal text of a number, with `-` before it if it is negative, whole or not at all.
pub fn signed(out: &mut Vec<u8>, n: i64) -> Result<(), AllocError>
    ensures ok { OnOk result (out.new.items ≡ out.old.items ++ signed_decimal n) }
    ensures err { OnErr result (out.new.items ≡ out.old.items) }
{
    let mut buffer = Buffer::new();
    let text = buffer.format(n);
    out.extend_from_slice(text.as_bytes())?;
    Ok(())
}

/// The text that `decimal` appends is the one text of digits, with no 0 before another, that writes the number.
pub fn decimal_is_exact()
    ensures { DecimalIsExact }
{}
