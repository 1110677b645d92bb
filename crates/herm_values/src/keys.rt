//! The keys of rows: the scalars that they have at some of their fields.
ghost use Rattle.std.specs.Prelude.{◌≡◌, ◌++◌, ◌∷◌, [], false, List, None, IfOk, OnOk, IfSome, get_or, option_map, option_to_list};
ghost use Rattle.std.specs.List.{list_any};
ghost use Rattle.herm_model.specs.Lists.{list_of, map_or};
ghost use Rattle.herm_model.specs.Values as model;
ghost use Rattle.herm_model.specs.Values.{part_at, inside};
ghost use Rattle.herm_model.specs.Tables.{key_of, scalars_of, same_scalar, same_key};
ghost use Rattle.herm_rows.specs.Keys.{rows_of};
ghost use Rattle.herm_values.specs.Keys.{is_plain, is_scalar};
ghost use Rattle.herm_values.specs.declared.scalar.KeyRow.{KeyRow};
ghost use Rattle.herm_values.specs.View.{value_view, scalar_view, key_view, views_of};
ghost use Rattle.herm_values.specs.Whole.{IsWhole, AllWhole};

use crate::scalar::{KeyRow, Scalar};
use crate::value::Value;
use herm_base::Word;
use herm_rows::Rows;
use std::alloc::{AllocError, Global};

/// What stands at a place, if there is something.
pub fn held_at(places: &[Option<Value>], place: u32) -> Option<&Value>
    ensures held { option_map (λ v. value_view v.now) result ≡ get_or (views_of places.now) place None }
    ensures itself { option_map (λ v. v.now) result ≡ get_or places.now place None }
    ensures whole { AllWhole places.now → IfSome result (λ v. IsWhole v.now) }
{
    match places.get(place as usize) {
        Some(held) => held.as_ref(),
        None => None,
    }
}

/// What a row has at a field.
#[tactic(auto, using(crate::proofs::Seen::layers))]
pub fn field_at(row: &Value, column: u32) -> Option<&Value>
    ensures { option_map (λ v. value_view v.now) result ≡ part_at column (inside (Some (value_view row.now))) }
{
    match row {
        Value::Bool(_) => None,
        Value::Int(_) => None,
        Value::Text(_) => None,
        Value::Tag(_) => None,
        Value::Fields(fields) => held_at(fields.as_slice(), column),
        Value::Case(_, _) => None,
        Value::Table(_) => None,
        Value::Poly(_) => None,
        Value::Call(call) => held_at(call.params(), column),
        Value::Inport(_) => None,
        Value::Outport(_) => None,
    }
}

/// The scalar that a value is, if it is one.
fn scalar_of(v: &Value) -> Result<Option<Scalar>, AllocError>
    ensures { IfOk result (λ s. option_to_list (option_map scalar_view s) ≡ scalars_of (value_view v.now)) }
{
    match v {
        Value::Bool(b) => Ok(Some(Scalar::Bool(*b))),
        Value::Int(n) => Ok(Some(Scalar::Int(*n))),
        Value::Text(text) => {
            let text = text.clone()?;
            Ok(Some(Scalar::Text(text)))
        }
        Value::Tag(i) => Ok(Some(Scalar::Tag(*i))),
        Value::Fields(_) => Ok(None),
        Value::Case(_, _) => Ok(None),
        Value::Table(_) => Ok(None),
        Value::Poly(_) => Ok(None),
        Value::Call(_) => Ok(None),
        Value::Inport(_) => Ok(None),
        Value::Outport(_) => Ok(None),
    }
}

/// Appends the scalar that a row has at a field.
fn push_scalar(key: &mut Vec<Scalar>, row: &Value, column: u32) -> Result<(), AllocError>
    ensures { OnOk result (key_view key.new.items ≡ key_view key.old.items ++ list_of scalars_of (part_at column (inside (Some (value_view row.now))))) }
{
    let Some(v) = field_at(row, column) else {
        return Ok(());
    };
    let scalar = scalar_of(v)?;
    match scalar {
        Some(scalar) => {
            key.push(scalar)?;
            Ok(())
        }
        None => Ok(()),
    }
}

/// The key of a row: its scalars at these fields.
pub fn key_of(alloc: Global, columns: &[u32], row: &Value) -> Result<Vec<Scalar>, AllocError>
    ensures key { IfOk result (λ k. key_view k.items ≡ key_of columns.now (value_view row.now)) }
{
    let mut key = Vec::new(alloc);
    'columns: for column in columns {
        push_scalar(&mut key, row, *column)?;
    }
    Ok(key)
}

fn is_boolean(scalar: &Scalar, b: bool) -> bool
    ensures { result ≡ same_scalar (scalar_view scalar.now) (model.a_boolean b) }
{
    match scalar {
        Scalar::Bool(a) => a.cmp(&b).is_eq(),
        Scalar::Int(_) => false,
        Scalar::Text(_) => false,
        Scalar::Tag(_) => false,
    }
}

fn is_integer(scalar: &Scalar, n: i64) -> bool
    ensures { result ≡ same_scalar (scalar_view scalar.now) (model.an_integer n) }
{
    match scalar {
        Scalar::Bool(_) => false,
        Scalar::Int(m) => m.cmp(&n).is_eq(),
        Scalar::Text(_) => false,
        Scalar::Tag(_) => false,
    }
}

fn is_text(scalar: &Scalar, text: &Word) -> bool
    ensures { result ≡ same_scalar (scalar_view scalar.now) (model.a_text text.now) }
{
    match scalar {
        Scalar::Bool(_) => false,
        Scalar::Int(_) => false,
        Scalar::Text(word) => word.cmp(text).is_eq(),
        Scalar::Tag(_) => false,
    }
}

fn is_tag(scalar: &Scalar, i: u32) -> bool
    ensures { result ≡ same_scalar (scalar_view scalar.now) (model.a_tag i) }
{
    match scalar {
        Scalar::Bool(_) => false,
        Scalar::Int(_) => false,
        Scalar::Text(_) => false,
        Scalar::Tag(k) => *k == i,
    }
}

/// Whether a value is a scalar.
fn is_plain_value(v: &Value) -> bool
    ensures { result ≡ is_plain (value_view v.now) }
{
    match v {
        Value::Bool(_) => true,
        Value::Int(_) => true,
        Value::Text(_) => true,
        Value::Tag(_) => true,
        Value::Fields(_) => false,
        Value::Case(_, _) => false,
        Value::Table(_) => false,
        Value::Poly(_) => false,
        Value::Call(_) => false,
        Value::Inport(_) => false,
        Value::Outport(_) => false,
    }
}

/// Whether a value is this scalar.
fn is_this(scalar: &Scalar, v: &Value) -> bool
    ensures { result ≡ is_scalar (scalar_view scalar.now) (value_view v.now) }
{
    match v {
        Value::Bool(b) => is_boolean(scalar, *b),
        Value::Int(n) => is_integer(scalar, *n),
        Value::Text(text) => is_text(scalar, text),
        Value::Tag(i) => is_tag(scalar, *i),
        Value::Fields(_) => false,
        Value::Case(_, _) => false,
        Value::Table(_) => false,
        Value::Poly(_) => false,
        Value::Call(_) => false,
        Value::Inport(_) => false,
        Value::Outport(_) => false,
    }
}

/// What is left of a key behind a value: all of it where the value is no scalar, and nothing where the key begins with
/// another.
fn behind<'a>(v: &Value, key: &'a [Scalar]) -> Option<&'a [Scalar]>
    ensures { (rest : List model.Scalar) → same_key (key_view key.now) (scalars_of (value_view v.now) ++ rest) ≡ map_or false (λ left. same_key (key_view left.now) rest) result }
{
    if !is_plain_value(v) {
        return Some(key);
    }
    match key.split_first() {
        None => return None,
        Some((first, left)) => {
            if is_this(first, v) {
                return Some(left);
            }
        }
    }
    None
}

/// Whether nothing is left of a key.
fn is_end(key: &[Scalar]) -> bool
    ensures { result ≡ same_key (key_view key.now) [] }
{
    match key.split_first() {
        None => true,
        Some((_, _)) => false,
    }
}

/// Whether this is the key of a row. It takes no memory.
fn is_key(columns: &[u32], row: &Value, key: &[Scalar]) -> bool
    ensures { result ≡ same_key (key_view key.now) (key_of columns.now (value_view row.now)) }
{
    match columns.split_first() {
        None => is_end(key),
        Some((column, rest)) => match field_at(row, *column) {
            None => is_key(rest, row, key),
            Some(v) => match behind(v, key) {
                None => false,
                Some(left) => is_key(rest, row, left),
            },
        },
    }
}

/// Whether the key of a row is among these. It takes no memory, and goes through all of them.
pub fn is_key_there(keys: &Rows<KeyRow>, columns: &[u32], row: &Value) -> bool
    ensures { result ≡ list_any (λ (k : KeyRow). same_key (key_view k.key.items) (key_of columns.now (value_view row.now))) (rows_of keys.now) }
{
    let mut next = keys.first();
    'keys: while let Some(node) = next {
        if is_key(columns, row, keys.row(node).key.as_slice()) {
            return true;
        }
        next = keys.after(node);
    }
    false
}
