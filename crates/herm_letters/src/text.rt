//! The text of a value.
ghost use Rattle.std.specs.Prelude.{◌≡◌, ◌++◌, [], OnOk, IfOk, map};
ghost use Rattle.herm_model.specs.ValueTexts.{text_of, parts_text};
ghost use Rattle.herm_journal.specs.Entries.{texts_of, more_texts_of};
ghost use Rattle.herm_values.specs.Parts.{parts_from};
ghost use Rattle.herm_values.specs.View.{value_view, views_of, table_parts};
ghost use Rattle.herm_letters.specs.PlaceTexts.{comma_behind};

use crate::scalars::{
    boolean_trace, integer_trace, push_boolean, push_callmessage, push_integer, push_polymorph,
    push_sign_and_number, push_string, push_tag, push_variant,
};
use herm_events::Trace;
use herm_values::{Table, Value};
use std::alloc::{AllocError, Global};

/// Appends the text of a value.
#[tactic(auto, using(crate::proofs::Layers::layer_texts))]
#[cycle(text)]
fn push_text(out: &mut Vec<u8>, v: &Value) -> Result<(), AllocError>
    ensures { OnOk result (out.new.items ≡ out.old.items ++ text_of (value_view v.now)) }
{
    match v {
        Value::Bool(boolean) => {
            push_boolean(out, *boolean)?;
            Ok(())
        }
        Value::Int(integer) => {
            push_integer(out, *integer)?;
            Ok(())
        }
        Value::Text(string) => {
            push_string(out, string.bytes())?;
            Ok(())
        }
        Value::Tag(tag) => {
            push_tag(out, *tag)?;
            Ok(())
        }
        Value::Fields(fields) => {
            out.push(b'{')?;
            push_places(out, fields.as_slice())?;
            out.push(b'}')?;
            Ok(())
        }
        Value::Case(component, held) => {
            push_variant(out, *component)?;
            push_text(out, held)?;
            Ok(())
        }
        Value::Table(table) => {
            out.push(b'[')?;
            push_rows(out, table)?;
            out.push(b']')?;
            Ok(())
        }
        Value::Poly(poly) => {
            push_polymorph(out, poly.tag())?;
            push_text(out, poly.content())?;
            out.push(b'>')?;
            Ok(())
        }
        Value::Call(call) => {
            push_callmessage(out, call.caller(), call.call())?;
            push_places(out, call.params())?;
            out.push(b')')?;
            Ok(())
        }
        Value::Inport(port) => {
            push_sign_and_number(out, b'@', port.get() as u64)?;
            Ok(())
        }
        Value::Outport(port) => {
            push_sign_and_number(out, b'>', port.get() as u64)?;
            Ok(())
        }
    }
}

/// Appends the places in order, with commas between them and a low line where one is empty.
#[cycle(text)]
fn push_places(out: &mut Vec<u8>, places: &[Option<Value>]) -> Result<(), AllocError>
    ensures { OnOk result (out.new.items ≡ out.old.items ++ parts_text (parts_from (views_of places.now)) []) }
{
    'places: for (n, held) in places.iter().enumerate() {
        push_comma_behind(out, n)?;
        let Some(v) = held else {
            out.push(b'_')?;
            continue;
        };
        push_text(out, v)?;
    }
    Ok(())
}

/// Appends the rows of a table in the order of insertion, with commas between them.
#[cycle(text)]
fn push_rows(out: &mut Vec<u8>, table: &Table) -> Result<(), AllocError>
    ensures { OnOk result (out.new.items ≡ out.old.items ++ parts_text (table_parts table.now) []) }
{
    let mut before = b"".as_slice();
    let mut next = table.first();
    'rows: while let Some(node) = next {
        out.extend_from_slice(before)?;
        before = b",".as_slice();
        next = table.after(node);
        let Some(row) = table.row(node) else {
            out.push(b'_')?;
            continue;
        };
        push_text(out, row)?;
    }
    Ok(())
}

/// Appends the comma that stands behind so many places, if there are any.
#[tactic(auto, using(crate::proofs::Joined::commas))]
fn push_comma_behind(out: &mut Vec<u8>, count: usize) -> Result<(), AllocError>
    ensures { OnOk result (out.new.items ≡ out.old.items ++ comma_behind count) }
{
    if count > 0 {
        out.push(b',')?;
        return Ok(());
    }
    Ok(())
}

/// Appends the text of each value with a comma before it.
fn push_more_texts(out: &mut Vec<u8>, values: &[Value]) -> Result<(), AllocError>
    ensures { OnOk result (out.new.items ≡ out.old.items ++ more_texts_of (map value_view values.now)) }
{
    'values: for v in values {
        out.push(b',')?;
        push_text(out, v)?;
    }
    Ok(())
}

/// The text of a value, written into memory of its own first.
fn written_trace(alloc: Global, v: &Value) -> Result<Trace, AllocError>
    ensures text { IfOk result (λ t. t ≡ text_of (value_view v.now)) }
{
    let mut text = Vec::new(alloc);
    push_text(&mut text, v)?;
    let trace = Trace::from_vec(text)?;
    Ok(trace)
}

/// The text of a value. That of a boolean or an integer takes no memory.
#[tactic(auto, using(crate::proofs::Layers::layer_texts))]
pub fn trace_of(alloc: Global, v: &Value) -> Result<Trace, AllocError>
    ensures text { IfOk result (λ t. t ≡ text_of (value_view v.now)) }
{
    match v {
        Value::Bool(boolean) => boolean_trace(alloc, *boolean),
        Value::Int(integer) => integer_trace(alloc, *integer),
        other => written_trace(alloc, other),
    }
}

/// The texts of several values, joined by commas.
pub fn joined_trace_of(alloc: Global, values: &[Value]) -> Result<Trace, AllocError>
    ensures texts { IfOk result (λ t. t ≡ texts_of (map value_view values.now)) }
{
    match values {
        [] => Trace::of(alloc, b""),
        [only] => trace_of(alloc, only),
        [first, rest @ ..] => joined_trace(alloc, first, rest),
    }
}

/// The text of a value, and that of each further one with a comma before it.
fn joined_trace(alloc: Global, first: &Value, rest: &[Value]) -> Result<Trace, AllocError>
    ensures texts { IfOk result (λ t. t ≡ text_of (value_view first.now) ++ more_texts_of (map value_view rest.now)) }
{
    let mut text = Vec::new(alloc);
    push_text(&mut text, first)?;
    push_more_texts(&mut text, rest)?;
    let trace = Trace::from_vec(text)?;
    Ok(trace)
}
