//! Numbers and names in texts.
ghost use Rattle.std.specs.Prelude.{◌≡◌, ◌++◌, OnOk};
ghost use Rattle.herm_model.specs.ValueTexts.{numeral};
ghost use Rattle.herm_journal.specs.EntryTexts.{and_number, name_in};

use herm_base::{ExcNo, Word, decimal};
use std::alloc::AllocError;

/// Appends a number in decimal.
#[tactic(auto, using(crate::proofs::Decimals::numeral_is))]
fn push_decimal(out: &mut Vec<u8>, number: u64) -> Result<(), AllocError>
    ensures { OnOk result (out.new.items ≡ out.old.items ++ numeral number) }
{
    decimal(out, number)?;
    Ok(())
}

/// Appends a space and a number.
pub fn push_number(out: &mut Vec<u8>, number: u64) -> Result<(), AllocError>
    ensures { OnOk result (out.new.items ≡ out.old.items ++ and_number number) }
{
    out.push(b' ')?;
    push_decimal(out, number)?;
    Ok(())
}

/// Appends a word, a space and a number.
pub fn push_named(out: &mut Vec<u8>, word: &[u8], number: u64) -> Result<(), AllocError>
    ensures { OnOk result (out.new.items ≡ out.old.items ++ (word.now ++ and_number number)) }
{
    out.extend_from_slice(word)?;
    push_number(out, number)?;
    Ok(())
}

/// The name of an exception, and no name where there is none of its number.
#[tactic(auto, using(crate::proofs::Named::name_is, crate::proofs::Named::no_name))]
fn name_of(names: &[Word], exception: ExcNo) -> &[u8]
    ensures name { result.now ≡ name_in names.now exception.0 }
{
    let number = exception.0 as usize;
    if number < names.len() {
        names[number].bytes()
    } else {
        &[]
    }
}

/// Appends the name of an exception.
pub fn push_name(out: &mut Vec<u8>, names: &[Word], exception: ExcNo) -> Result<(), AllocError>
    ensures { OnOk result (out.new.items ≡ out.old.items ++ name_in names.now exception.0) }
{
    out.extend_from_slice(name_of(names, exception))?;
    Ok(())
}
