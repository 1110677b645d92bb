//! Scalars and the values that they are.
ghost use Rattle.std.specs.Prelude.{◌≡◌, ◌++◌, IfOk, Some, map, option_map};
ghost use Rattle.herm_code_machine.specs.Stacks.{scalars_of};
ghost use Rattle.herm_forms.specs.Evaluate.{rows_there};
ghost use Rattle.herm_values.specs.View.{value_view, scalar_view, key_view};
ghost use Rattle.herm_stack.specs.Answers.{counted};
ghost use Rattle.herm_stack.specs.Operands.{scalar_in};

use herm_values::{Scalar, Value};
use std::alloc::{AllocError, Global};

/// The scalar that a value is, if it is one.
fn scalar_of(v: &Value) -> Result<Option<Scalar>, AllocError>
    ensures { IfOk result (λ s. option_map scalar_view s ≡ scalar_in (value_view v.now)) }
{
    match v {
        Value::Bool(b) => Ok(Some(Scalar::Bool(*b))),
        Value::Int(n) => Ok(Some(Scalar::Int(*n))),
        Value::Text(text) => {
            let text = text.clone()?;
            Ok(Some(Scalar::Text(text)))
        }
        Value::Tag(i) => Ok(Some(Scalar::Tag(*i))),
        Value::Fields(_) => Ok(None),
        Value::Case(_, _) => Ok(None),
        Value::Table(_) => Ok(None),
        Value::Poly(_) => Ok(None),
        Value::Call(_) => Ok(None),
        Value::Inport(_) => Ok(None),
        Value::Outport(_) => Ok(None),
    }
}

/// The scalars that values are, in order, and none where one is no scalar.
#[tactic(auto, using(crate::proofs::Counted::keying))]
pub fn scalars_of(alloc: Global, values: &[Value]) -> Result<Option<Vec<Scalar>>, AllocError>
    ensures { IfOk result (λ r. scalars_of (map value_view values.now) ≡ option_map (λ k. key_view k.items) r) }
{
    let mut key = Vec::with_capacity(alloc, values.len())?;
    'values: for v in values {
        let scalar = scalar_of(v)?;
        let Some(scalar) = scalar else {
            return Ok(None);
        };
        key.push(scalar)?;
    }
    Ok(Some(key))
}

/// The number of rows of a table.
#[tactic(auto, using(crate::proofs::Counted::rows_counted))]
pub fn row_count(v: &Value) -> Option<i64>
    ensures { rows_there (Some (value_view v.now)) ≡ counted result }
{
    match v {
        Value::Bool(_) => None,
        Value::Int(_) => None,
        Value::Text(_) => None,
        Value::Tag(_) => None,
        Value::Fields(_) => None,
        Value::Case(_, _) => None,
        Value::Table(table) => Some(table.len() as i64),
        Value::Poly(_) => None,
        Value::Call(_) => None,
        Value::Inport(_) => None,
        Value::Outport(_) => None,
    }
}
