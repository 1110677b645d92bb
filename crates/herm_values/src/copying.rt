//! Copies of values.
ghost use Rattle.std.specs.Prelude.{◌≡◌, ◌≤◌, ◌<◌, ◌++◌, ◌∷◌, [], false, length, map, IfOk, IfSome, OnOk};
ghost use Rattle.std.specs.List.{list_any};
ghost use Rattle.herm_model.specs.Tables.{same_key};
ghost use Rattle.herm_rows.specs.Keys.{rows_of, most_rows};
ghost use Rattle.herm_values.specs.declared.scalar.KeyRow.{KeyRow};
ghost use Rattle.herm_values.specs.View.{value_view, key_view};
ghost use Rattle.herm_values.specs.Keyed.{keyed_view, keyed_parts, keyed_of};
ghost use Rattle.herm_values.specs.Copies.{key_row_view};
ghost use Rattle.herm_values.specs.Whole.{IsWhole, AllWhole, IsWholeTable};

use crate::scalar::{KeyRow, Scalar};
use crate::value::{Table, Value};
use herm_base::TypeNo;
use herm_parcels::{CallMsg, Poly, PolyFault};
use herm_rows::{InsertFault, Rows};
use std::alloc::{AllocError, Global};

/// An equal scalar.
fn copy_scalar(scalar: &Scalar) -> Result<Scalar, AllocError>
    ensures { IfOk result (λ s. s ≡ scalar.now) }
{
    match scalar {
        Scalar::Bool(b) => Ok(Scalar::Bool(*b)),
        Scalar::Int(n) => Ok(Scalar::Int(*n)),
        Scalar::Text(text) => {
            let text = text.clone()?;
            Ok(Scalar::Text(text))
        }
        Scalar::Tag(i) => Ok(Scalar::Tag(*i)),
    }
}

/// An equal key.
fn copy_key(alloc: Global, key: &[Scalar]) -> Result<Vec<Scalar>, AllocError>
    ensures { IfOk result (λ k. k.items ≡ key.now) }
{
    let mut copy = Vec::with_capacity(alloc, key.len())?;
    'scalars: for scalar in key {
        let scalar = copy_scalar(scalar)?;
        copy.push(scalar)?;
    }
    Ok(copy)
}

/// An equal key and its place.
fn copy_row(alloc: Global, row: &KeyRow) -> Result<KeyRow, AllocError>
    ensures { IfOk result (λ k. key_row_view k ≡ key_row_view row.now) }
{
    let key = copy_key(alloc, row.key.as_slice())?;
    let place = row.place;
    Ok(KeyRow { key, place })
}

/// The same fields.
fn copy_columns(alloc: Global, columns: &[u32]) -> Result<Vec<u32>, AllocError>
    ensures { IfOk result (λ copy. copy.items ≡ columns.now) }
{
    let copy = Vec::from_slice(alloc, columns)?;
    Ok(copy)
}

/// Puts a key behind the others, where none of them is the same and there are fewer than there may be: then memory alone
/// can be wanted.
fn add_key(keys: &mut Rows<KeyRow>, row: KeyRow) -> Result<(), AllocError>
    requires new { list_any (λ (k : KeyRow). same_key (key_view k.key.items) (key_view row.key.items)) (rows_of keys.old) ≡ false }
    requires few { length (rows_of keys.old) < most_rows }
    ensures { OnOk result (rows_of keys.new ≡ rows_of keys.old ++ row ∷ []) }
{
    match keys.insert(row) {
        Ok(()) => Ok(()),
        Err(InsertFault::Duplicate(_)) => unreachable!(),
        Err(InsertFault::Full(_)) => unreachable!(),
        Err(InsertFault::Memory(_)) => Err(AllocError),
    }
}

/// Equal keys in their order.
fn copy_keys(alloc: Global, keys: &Rows<KeyRow>) -> Result<Rows<KeyRow>, AllocError>
    ensures { IfOk result (λ ks. map key_row_view (rows_of ks) ≡ map key_row_view (rows_of keys.now)) }
{
    let count = keys.len();
    if count == 0 {
        return Ok(Rows::new(alloc));
    }
    let mut copies = Rows::with_room(alloc, count)?;
    let mut next = keys.first();
    'keys: while let Some(node) = next {
        let row = copy_row(alloc, keys.row(node))?;
        add_key(&mut copies, row)?;
        next = keys.after(node);
    }
    Ok(copies)
}

/// The polymorph with this content. Its depth is one that may be, so that memory alone can be wanted.
fn wrapped(
    alloc: Global,
    tag: TypeNo,
    depth: u32,
    content: Value,
) -> Result<Poly<Value>, AllocError>
    requires nests { 1 ≤ depth }
    requires few { depth ≤ 16 }
    ensures { IfOk result (λ poly. (poly.tag ≡ tag) × ((poly.depth ≡ depth) × (poly.value.value ≡ content))) }
{
    match Poly::new(alloc, tag, depth, content) {
        Ok(poly) => Ok(poly),
        Err(PolyFault::Deep(_)) => unreachable!(),
        Err(PolyFault::Memory(_)) => Err(AllocError),
    }
}

/// An equal value, whose tables have the same fields as their keys. What copies is the caller's business: inports,
/// callmessages and polymorphs are moved in programs, and never copied.
pub fn copy_of(alloc: Global, v: &Value) -> Result<Value, AllocError>
    requires whole { IsWhole v.now }
    ensures equal { IfOk result (λ copy. value_view copy ≡ value_view v.now) }
    ensures keyed { IfOk result (λ copy. keyed_view copy ≡ keyed_view v.now) }
    ensures whole { IfOk result IsWhole }
{
    let copy = copy_value(alloc, v)?;
    Ok(copy)
}

/// An equal value, whose tables have the same fields as their keys.
#[cycle(copying)]
fn copy_value(alloc: Global, v: &Value) -> Result<Value, AllocError>
    requires whole { IsWhole v.now }
    ensures equal { IfOk result (λ copy. value_view copy ≡ value_view v.now) }
    ensures keyed { IfOk result (λ copy. keyed_view copy ≡ keyed_view v.now) }
    ensures whole { IfOk result IsWhole }
{
    match v {
        Value::Bool(b) => Ok(Value::Bool(*b)),
        Value::Int(n) => Ok(Value::Int(*n)),
        Value::Text(text) => {
            let text = text.clone()?;
            Ok(Value::Text(text))
        }
        Value::Tag(i) => Ok(Value::Tag(*i)),
        Value::Fields(fields) => {
            let copies = copy_places(alloc, fields.as_slice())?;
            Ok(Value::Fields(copies))
        }
        Value::Case(component, content) => {
            let inner = copy_value(alloc, content)?;
            let content = Box::new(alloc, inner)?;
            Ok(Value::Case(*component, content))
        }
        Value::Table(table) => {
            let copied = copy_table(alloc, table)?;
            let boxed = Box::new(alloc, copied)?;
            Ok(Value::Table(boxed))
        }
        Value::Poly(poly) => {
            let copy = copy_value(alloc, poly.content())?;
            let wrapped = wrapped(alloc, poly.tag(), poly.depth(), copy)?;
            Ok(Value::Poly(wrapped))
        }
        Value::Call(call) => {
            let params = copy_places(alloc, call.params())?;
            Ok(Value::Call(CallMsg::new(call.caller(), call.call(), params)))
        }
        Value::Inport(port) => Ok(Value::Inport(*port)),
        Value::Outport(port) => Ok(Value::Outport(*port)),
    }
}

/// An equal value, where it has neither parts nor memory of its own.
fn copy_plain(v: &Value) -> Option<Value>
    requires whole { IsWhole v.now }
    ensures keyed { IfSome result (λ copy. keyed_view copy ≡ keyed_view v.now) }
    ensures whole { IfSome result IsWhole }
{
    match v {
        Value::Bool(b) => Some(Value::Bool(*b)),
        Value::Int(n) => Some(Value::Int(*n)),
        Value::Tag(i) => Some(Value::Tag(*i)),
        Value::Inport(port) => Some(Value::Inport(*port)),
        Value::Outport(port) => Some(Value::Outport(*port)),
        Value::Text(_) => None,
        Value::Fields(_) => None,
        Value::Case(_, _) => None,
        Value::Table(_) => None,
        Value::Poly(_) => None,
        Value::Call(_) => None,
    }
}

/// Copies of what stands at these places.
#[cycle(copying)]
fn copy_places(alloc: Global, places: &[Option<Value>]) -> Result<Vec<Option<Value>>, AllocError>
    requires whole { AllWhole places.now }
    ensures keyed { IfOk result (λ copies. keyed_of copies.items ≡ keyed_of places.now) }
    ensures whole { IfOk result (λ copies. AllWhole copies.items) }
{
    let mut copies = Vec::with_capacity(alloc, places.len())?;
    'places: for held in places {
        let Some(v) = held else {
            copies.push(None)?;
            continue;
        };
        if let Some(plain) = copy_plain(v) {
            copies.push(Some(plain))?;
            continue;
        }
        let copy = copy_value(alloc, v)?;
        copies.push(Some(copy))?;
    }
    Ok(copies)
}

/// An equal table, each row at its place.
#[cycle(copying)]
fn copy_table(alloc: Global, table: &Table) -> Result<Table, AllocError>
    requires whole { IsWholeTable table.now }
    ensures columns { IfOk result (λ copy. copy.columns.items ≡ table.now.columns.items) }
    ensures keyed { IfOk result (λ copy. keyed_parts copy ≡ keyed_parts table.now) }
    ensures whole { IfOk result IsWholeTable }
{
    let columns = copy_columns(alloc, table.columns.as_slice())?;
    let keys = copy_keys(alloc, &table.keys)?;
    let rows = copy_places(alloc, table.rows.as_slice())?;
    Ok(Table {
        columns,
        keys,
        rows,
    })
}
