//! Operators that make strings.
ghost use Rattle.std.specs.Prelude.{◌≡◌, ◌++◌, IfOk, pos};
ghost use Rattle.herm_model.specs.Expressions.{concatenated};
ghost use Rattle.herm_model.specs.Values.{a_text};
ghost use Rattle.herm_model.specs.ValueTexts.{signed_numeral};
ghost use Rattle.herm_forms.specs.Evaluate.{two_then, gives, operate, scalar_then, within_length, gives_scalar};
ghost use Rattle.herm_instructions.specs.Instructions.{as_text};
ghost use Rattle.herm_code_machine.specs.Effects.{applied};
ghost use Rattle.herm_values.specs.View.{value_view};
ghost use Rattle.herm_stack.specs.Answers.{written};

use crate::answers::Written;
use crate::operands::{as_integer, as_text};
use herm_base::{ExcNo, Word};
use herm_values::Value;
use itoa::Buffer;
use std::alloc::{AllocError, Global};

/// As many bytes as a string may have.
const GREATEST_TEXT: usize = 4096;

/// A string that is too long.
const DEPLETION: ExcNo = ExcNo(1);

/// The decimal text of an integer.
#[tactic(auto, using(crate::proofs::Decimals::signed_is))]
fn numeral(alloc: Global, z: i64) -> Result<Word, AllocError>
    ensures { IfOk result (λ w. w ≡ signed_numeral z) }
{
    let mut buffer = Buffer::new();
    let word = Word::of(alloc, buffer.format(z).as_bytes())?;
    Ok(word)
}

/// Both strings, the one behind the other, and Depletion where they are too long.
fn joined(alloc: Global, s: &[u8], t: &[u8]) -> Result<Written, AllocError>
    ensures { IfOk result (λ w. written w ≡ within_length (s.now ++ t.now)) }
{
    if s.len() > GREATEST_TEXT || t.len() > GREATEST_TEXT - s.len() {
        return Ok(Written::Raises(DEPLETION));
    }
    let mut bytes = Vec::with_capacity(alloc, s.len() + t.len())?;
    bytes.extend_from_slice(s)?;
    bytes.extend_from_slice(t)?;
    Ok(Written::Gives(Word::from_vec(bytes)))
}

/// The decimal text of an integer.
#[tactic(auto, using(crate::proofs::Operated::as_text_given))]
pub fn text_of(alloc: Global, v: &Value) -> Result<Written, AllocError>
    ensures { IfOk result (λ w. written w ≡ scalar_then (applied as_text) (value_view v.now)) }
{
    match as_integer(v) {
        Some(z) => {
            let word = numeral(alloc, z)?;
            Ok(Written::Gives(word))
        }
        None => Ok(Written::Stuck),
    }
}

/// Both strings, the left one first. Depletion where they have more than 4,096 bytes together.
#[tactic(auto, using(crate::proofs::Operated::concatenated_given))]
pub fn concatenation(alloc: Global, left: &Value, right: &Value) -> Result<Written, AllocError>
    ensures { IfOk result (λ w. written w ≡ two_then (operate concatenated) (gives (value_view left.now)) (gives (value_view right.now))) }
{
    let Some(s) = as_text(left) else {
        return Ok(Written::Stuck);
    };
    let Some(t) = as_text(right) else {
        return Ok(Written::Stuck);
    };
    let joined = joined(alloc, s.bytes(), t.bytes())?;
    Ok(joined)
}
