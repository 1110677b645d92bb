//! The texts of values without parts, and what stands before the parts of others.
ghost use Rattle.std.specs.Prelude.{◌≡◌, ◌++◌, ◌∷◌, IfOk, IsOk, OnOk, flat_map};
ghost use Rattle.herm_model.specs.ValueTexts.{numeral, scalar_text, opening};
ghost use Rattle.herm_model.specs.Escapes.{escaped};
ghost use Rattle.herm_model.specs.Values.{a_boolean, an_integer, a_text, a_tag, a_variant, a_polymorph, a_callmessage};

use herm_base::{ProcNo, TypeNo, decimal, signed};
use herm_events::Trace;
use itoa::Buffer;
use std::alloc::{AllocError, Global};

/// Appends a number in decimal.
#[tactic(auto, using(crate::proofs::Decimals::numeral_is))]
pub fn push_number(out: &mut Vec<u8>, number: u64) -> Result<(), AllocError>
    ensures { OnOk result (out.new.items ≡ out.old.items ++ numeral number) }
{
    decimal(out, number)?;
    Ok(())
}

/// Appends a boolean.
pub fn push_boolean(out: &mut Vec<u8>, boolean: bool) -> Result<(), AllocError>
    ensures { OnOk result (out.new.items ≡ out.old.items ++ scalar_text (a_boolean boolean)) }
{
    if boolean {
        out.extend_from_slice(b"true")?;
        return Ok(());
    }
    out.extend_from_slice(b"false")?;
    Ok(())
}

/// Appends an integer.
#[tactic(auto, using(crate::proofs::Decimals::signed_is))]
pub fn push_integer(out: &mut Vec<u8>, integer: i64) -> Result<(), AllocError>
    ensures { OnOk result (out.new.items ≡ out.old.items ++ scalar_text (an_integer integer)) }
{
    signed(out, integer)?;
    Ok(())
}

/// Appends a byte of a string as it stands inside the quotes.
fn push_escaped(out: &mut Vec<u8>, byte: u8) -> Result<(), AllocError>
    ensures { OnOk result (out.new.items ≡ out.old.items ++ escaped byte) }
{
    match byte {
        b'\n' => out.extend_from_slice(b"\\n"),
        b'"' => out.extend_from_slice(b"\\\""),
        b'\\' => out.extend_from_slice(b"\\\\"),
        other => Ok(out.push(other)?),
    }
}

/// Appends the bytes of a string as they stand inside the quotes.
fn push_all_escaped(out: &mut Vec<u8>, string: &[u8]) -> Result<(), AllocError>
    ensures { OnOk result (out.new.items ≡ out.old.items ++ flat_map escaped string.now) }
{
    for byte in string {
        push_escaped(out, *byte)?;
    }
    Ok(())
}

/// Appends a string between quotes, with a backslash before each newline, quote and backslash.
pub fn push_string(out: &mut Vec<u8>, string: &[u8]) -> Result<(), AllocError>
    ensures { OnOk result (out.new.items ≡ out.old.items ++ scalar_text (a_text string.now)) }
{
    out.push(b'"')?;
    push_all_escaped(out, string)?;
    out.push(b'"')?;
    Ok(())
}

/// Appends the place of an enumeration's name.
pub fn push_tag(out: &mut Vec<u8>, tag: u32) -> Result<(), AllocError>
    ensures { OnOk result (out.new.items ≡ out.old.items ++ scalar_text (a_tag tag)) }
{
    out.push(b'#')?;
    push_number(out, tag as u64)?;
    Ok(())
}

/// Appends a sign and a number.
pub fn push_sign_and_number(out: &mut Vec<u8>, sign: u8, number: u64) -> Result<(), AllocError>
    ensures { OnOk result (out.new.items ≡ out.old.items ++ sign ∷ numeral number) }
{
    out.push(sign)?;
    push_number(out, number)?;
    Ok(())
}

/// Appends what stands before the component of a variant.
pub fn push_variant(out: &mut Vec<u8>, component: u32) -> Result<(), AllocError>
    ensures { OnOk result (out.new.items ≡ out.old.items ++ opening (a_variant component)) }
{
    push_number(out, component as u64)?;
    out.push(b'!')?;
    Ok(())
}

/// Appends what stands before the content of a polymorph.
pub fn push_polymorph(out: &mut Vec<u8>, tag: TypeNo) -> Result<(), AllocError>
    ensures { OnOk result (out.new.items ≡ out.old.items ++ opening (a_polymorph tag.0)) }
{
    out.push(b'<')?;
    push_number(out, tag.0 as u64)?;
    out.push(b':')?;
    Ok(())
}

/// Appends what stands before the parameters of a callmessage.
pub fn push_callmessage(out: &mut Vec<u8>, caller: ProcNo, call: u64) -> Result<(), AllocError>
    ensures { OnOk result (out.new.items ≡ out.old.items ++ opening (a_callmessage caller.number call)) }
{
    push_sign_and_number(out, b'(', caller.get() as u64)?;
    push_sign_and_number(out, b',', call)?;
    out.push(b':')?;
    Ok(())
}

/// The text of a boolean. It takes no memory.
pub fn boolean_trace(alloc: Global, boolean: bool) -> Result<Trace, AllocError>
    ensures text { IfOk result (λ t. t ≡ scalar_text (a_boolean boolean)) }
    ensures short { IsOk result }
{
    if boolean {
        return Trace::of(alloc, b"true");
    }
    Trace::of(alloc, b"false")
}

/// The text of an integer. It takes no memory.
#[tactic(auto, using(crate::proofs::Decimals::signed_is))]
pub fn integer_trace(alloc: Global, integer: i64) -> Result<Trace, AllocError>
    ensures text { IfOk result (λ t. t ≡ scalar_text (an_integer integer)) }
    ensures short { IsOk result }
{
    let mut buffer = Buffer::new();
    Trace::of(alloc, buffer.format(integer).as_bytes())
}
