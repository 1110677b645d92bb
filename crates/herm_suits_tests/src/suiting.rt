//! Messages and replies by hand, each beside whether it suits.
ghost use Rattle.std.specs.Prelude.{IfOk, IfSome};
ghost use Rattle.std.specs.List.{AllByRecursion};
ghost use Rattle.herm_values.specs.Whole.{IsWhole, AllWhole, IsWholeTable};
ghost use Rattle.herm_letters.specs.Letters.{IsWholeReply};

use crate::table::sample;
use herm_base::{ExcNo, ProcNo, TypeNo, Word};
use herm_letters::Reply;
use herm_parcels::{CallMsg, Poly};
use herm_suits::{is_message, is_reply_to, is_well_made};
use herm_types::TypeTable;
use herm_values::{Table, Value, poly_depth};
use std::alloc::{AllocError, Global};
use std::test::Fail;

/// Two places, each with a whole value or empty.
#[tactic(auto, using(herm_values::proofs::Wholes::records))]
fn two_places(
    alloc: Global,
    first: Option<Value>,
    second: Option<Value>,
) -> Result<Vec<Option<Value>>, AllocError>
    requires first { IfSome first IsWhole }
    requires second { IfSome second IsWhole }
    ensures { IfOk result (λ places. AllWhole places.items) }
{
    let mut places = Vec::new(alloc);
    places.push(first)?;
    places.push(second)?;
    Ok(places)
}

#[tactic(auto, using(herm_values::proofs::Wholes::records))]
fn record(alloc: Global, first: Option<Value>, second: Option<Value>) -> Result<Value, AllocError>
    requires first { IfSome first IsWhole }
    requires second { IfSome second IsWhole }
    ensures { IfOk result IsWhole }
{
    let fields = two_places(alloc, first, second)?;
    Ok(Value::Fields(fields))
}

/// A record of one field.
#[tactic(auto, using(herm_values::proofs::Wholes::records))]
fn short_record(alloc: Global, field: Value) -> Result<Value, AllocError>
    requires { IsWhole field }
    ensures { IfOk result IsWhole }
{
    let mut fields = Vec::new(alloc);
    fields.push(Some(field))?;
    Ok(Value::Fields(fields))
}

/// Call 12 of process 3.
#[tactic(auto, using(herm_values::proofs::Wholes::records))]
fn call(alloc: Global, first: Option<Value>, second: Option<Value>) -> Result<Value, AllocError>
    requires first { IfSome first IsWhole }
    requires second { IfSome second IsWhole }
    ensures { IfOk result IsWhole }
{
    let params = two_places(alloc, first, second)?;
    Ok(Value::Call(CallMsg::new(ProcNo { number: 3 }, 12, params)))
}

/// Call 12 of process 3 with the place of one parameter.
#[tactic(auto, using(herm_values::proofs::Wholes::records))]
fn short_call(alloc: Global, first: Value) -> Result<Value, AllocError>
    requires { IsWhole first }
    ensures { IfOk result IsWhole }
{
    let mut params = Vec::new(alloc);
    params.push(Some(first))?;
    Ok(Value::Call(CallMsg::new(ProcNo { number: 3 }, 12, params)))
}

fn variant(alloc: Global, place: u32, held: Value) -> Result<Value, AllocError>
    requires { IsWhole held }
    ensures { IfOk result IsWhole }
{
    let held = Box::new(alloc, held)?;
    Ok(Value::Case(place, held))
}

fn polymorph(alloc: Global, tag: u32, held: Value) -> Result<Value, AllocError>
    requires { IsWhole held }
    ensures { IfOk result IsWhole }
{
    let depth = poly_depth(&held);
    if depth >= 16 {
        return Err(AllocError);
    }
    match Poly::new(alloc, TypeNo(tag), depth + 1, held) {
        Ok(poly) => Ok(Value::Poly(poly)),
        Err(_) => Err(AllocError),
    }
}

/// A string of so many of this byte.
fn string(alloc: Global, byte: u8, count: usize) -> Result<Value, AllocError>
    ensures { IfOk result IsWhole }
{
    let mut bytes = Vec::new(alloc);
    for _ in 0..count {
        bytes.push(byte)?;
    }
    Ok(Value::Text(Word::from_vec(bytes)))
}

/// A pair with this x and a y.
fn pair(alloc: Global, x: i64, y: u8) -> Result<Value, AllocError>
    ensures { IfOk result IsWhole }
{
    let text = string(alloc, y, 1)?;
    let pair = record(alloc, Some(Value::Int(x)), Some(text))?;
    Ok(pair)
}

/// A pair without y.
fn half(alloc: Global) -> Result<Value, AllocError>
    ensures { IfOk result IsWhole }
{
    let pair = record(alloc, Some(Value::Int(1)), None)?;
    Ok(pair)
}

/// The component p of a way, with this pair.
fn way(alloc: Global, full: bool) -> Result<Value, AllocError>
    ensures { IfOk result IsWhole }
{
    let held = if full {
        pair(alloc, 1, b'a')?
    } else {
        half(alloc)?
    };
    let way = variant(alloc, 1, held)?;
    Ok(way)
}

/// The first is the message that the port takes; the others have a part too many, lack a part, lack the variant, have the
/// other component, or one that is not full; the last is no record.
fn deep(alloc: Global, n: usize) -> Result<Value, AllocError>
    ensures { IfOk result IsWhole }
{
    let deep = match n {
        0 => record(alloc, Some(half(alloc)?), Some(way(alloc, true)?))?,
        1 => record(alloc, Some(pair(alloc, 1, b'a')?), Some(way(alloc, true)?))?,
        2 => record(
            alloc,
            Some(record(alloc, None, None)?),
            Some(way(alloc, true)?),
        )?,
        3 => record(alloc, Some(half(alloc)?), None)?,
        4 => record(
            alloc,
            Some(half(alloc)?),
            Some(variant(alloc, 0, Value::Int(1))?),
        )?,
        5 => record(alloc, Some(half(alloc)?), Some(way(alloc, false)?))?,
        _ => Value::Int(1),
    };
    Ok(deep)
}

/// Whether the value is well made, and so says the test whether it is a message of the port's type.
fn is_told(types: &TypeTable, port: u32, v: &Value, want: bool) -> bool
    requires { IsWhole v.now }
{
    is_well_made(v) && is_message(types, TypeNo(port), v) == want
}

#[test]
fn messages_have_exactly_the_listed_facts(rt: HostRuntime) -> Result<(), Fail> {
    let types = sample(rt.alloc())?;
    let wants = [true, false, false, false, false, false, false];
    for (n, want) in wants.iter().enumerate() {
        let v = deep(rt.alloc(), n)?;
        assert!(rt; is_told(&types, 11, &v, *want));
    }
    Ok(())
}

/// Puts a row behind the others, if its key differs from theirs.
fn put(table: &mut Table, row: Value) -> Result<(), AllocError>
    requires whole { IsWholeTable table.old }
    requires row { IsWhole row }
    ensures whole { IsWholeTable table.new }
{
    match table.insert(row) {
        Ok(()) => Ok(()),
        Err(_) => Err(AllocError),
    }
}

/// A table of two rows, with this field as its key.
fn shelf(alloc: Global, column: u32, first: Value, second: Value) -> Result<Value, AllocError>
    requires first { IsWhole first }
    requires second { IsWhole second }
    ensures { IfOk result IsWhole }
{
    let columns = Vec::from_slice(alloc, &[column])?;
    let mut table = Table::new(alloc, columns);
    put(&mut table, first)?;
    put(&mut table, second)?;
    let boxed = Box::new(alloc, table)?;
    Ok(Value::Table(boxed))
}

/// The rows of the table: of two keys; of two keys, with another field as the table's own; of one key, with another field
/// as the table's own; one that is not full.
fn rows(alloc: Global, n: usize) -> Result<Value, AllocError>
    ensures { IfOk result IsWhole }
{
    let shelf = match n {
        1 => shelf(alloc, 1, pair(alloc, 1, b'a')?, pair(alloc, 2, b'b')?)?,
        2 => shelf(alloc, 1, pair(alloc, 1, b'a')?, pair(alloc, 1, b'b')?)?,
        3 => shelf(alloc, 0, pair(alloc, 2, b'a')?, half(alloc)?)?,
        _ => shelf(alloc, 0, pair(alloc, 1, b'a')?, pair(alloc, 2, b'a')?)?,
    };
    Ok(shelf)
}

/// The polymorph: of an integer; of a polymorph of a variant; of an integer said to be a string.
fn content(alloc: Global, n: usize) -> Result<Value, AllocError>
    ensures { IfOk result IsWhole }
{
    let content = match n {
        4 => polymorph(alloc, 3, polymorph(alloc, 9, way(alloc, true)?)?)?,
        5 => polymorph(alloc, 2, Value::Int(1))?,
        _ => polymorph(alloc, 1, Value::Int(1))?,
    };
    Ok(content)
}

#[test]
fn rows_and_polymorphs_are_looked_at(rt: HostRuntime) -> Result<(), Fail> {
    let types = sample(rt.alloc())?;
    let wants = [true, true, false, false, true, false];
    for (n, want) in wants.iter().enumerate() {
        let rows = rows(rt.alloc(), n)?;
        let content = content(rt.alloc(), n)?;
        let v = record(rt.alloc(), Some(rows), Some(content))?;
        assert!(rt; is_told(&types, 16, &v, *want));
    }
    Ok(())
}

/// A callmessage; one whose `out` parameter is filled, one without its `in` parameter, one without the place of its `out`
/// parameter, and one whose `in` parameter is not full.
fn question(alloc: Global, n: usize) -> Result<Value, AllocError>
    ensures { IfOk result IsWhole }
{
    let question = match n {
        0 => call(alloc, Some(pair(alloc, 1, b'a')?), None)?,
        1 => call(alloc, Some(pair(alloc, 1, b'a')?), Some(content(alloc, 0)?))?,
        2 => call(alloc, None, None)?,
        3 => short_call(alloc, pair(alloc, 1, b'a')?)?,
        _ => call(alloc, Some(half(alloc)?), None)?,
    };
    Ok(question)
}

#[test]
fn parameters_are_filled_by_mode(rt: HostRuntime) -> Result<(), Fail> {
    let types = sample(rt.alloc())?;
    let wants = [true, false, false, false, false];
    for (n, want) in wants.iter().enumerate() {
        let v = question(rt.alloc(), n)?;
        assert!(rt; is_told(&types, 17, &v, *want));
    }
    Ok(())
}

/// A blue word; the longest string; one byte more; a byte that strings have not; a place that is no colour's; no string.
fn tint(alloc: Global, n: usize) -> Result<Value, AllocError>
    ensures { IfOk result IsWhole }
{
    let tint = match n {
        0 => record(alloc, Some(Value::Tag(1)), Some(string(alloc, b'~', 3)?))?,
        1 => record(
            alloc,
            Some(Value::Tag(0)),
            Some(string(alloc, b'\n', 4096)?),
        )?,
        2 => record(alloc, Some(Value::Tag(0)), Some(string(alloc, b'a', 4097)?))?,
        3 => record(alloc, Some(Value::Tag(0)), Some(string(alloc, b'\t', 1)?))?,
        4 => record(alloc, Some(Value::Tag(2)), Some(string(alloc, b'a', 1)?))?,
        _ => short_record(alloc, Value::Tag(1))?,
    };
    Ok(tint)
}

#[test]
fn scalars_are_within_their_types(rt: HostRuntime) -> Result<(), Fail> {
    let types = sample(rt.alloc())?;
    let wants = [true, true, false, false, false, false];
    for (n, want) in wants.iter().enumerate() {
        let v = tint(rt.alloc(), n)?;
        assert!(rt; is_told(&types, 19, &v, *want));
        assert!(rt; is_told(&types, 18, &v, false) && is_told(&types, 99, &v, false));
    }
    Ok(())
}

/// A polymorph.
fn one(alloc: Global) -> Result<Vec<Value>, AllocError>
    ensures { IfOk result (λ vs. AllByRecursion IsWhole vs.items) }
{
    let first = content(alloc, 0)?;
    let mut values = Vec::new(alloc);
    values.push(first)?;
    Ok(values)
}

/// Two polymorphs.
fn two(alloc: Global) -> Result<Vec<Value>, AllocError>
    ensures { IfOk result (λ vs. AllByRecursion IsWhole vs.items) }
{
    let first = content(alloc, 0)?;
    let second = content(alloc, 0)?;
    let mut values = Vec::new(alloc);
    values.push(first)?;
    values.push(second)?;
    Ok(values)
}

/// Of a call of `ask` and of none: a polymorph; nothing; two; `Busy` with a polymorph, and with nothing; `Disconnected`;
/// gone.
fn answer(alloc: Global, n: usize) -> Result<Reply, AllocError>
    ensures { IfOk result IsWholeReply }
{
    let reply = match n {
        0 => Reply::Values(one(alloc)?),
        1 => Reply::Values(Vec::new(alloc)),
        2 => Reply::Values(two(alloc)?),
        3 => Reply::Raised(ExcNo(7), one(alloc)?),
        4 => Reply::Raised(ExcNo(7), Vec::new(alloc)),
        5 => Reply::Raised(ExcNo(6), Vec::new(alloc)),
        _ => Reply::Gone,
    };
    Ok(reply)
}

#[test]
fn replies_are_those_of_their_call(rt: HostRuntime) -> Result<(), Fail> {
    let types = sample(rt.alloc())?;
    let wants = [true, false, false, true, false, false, true];
    let elsewhere = [false, true, false, false, false, false, true];
    for (n, want) in wants.iter().enumerate() {
        let reply = answer(rt.alloc(), n)?;
        assert!(rt; is_reply_to(&types, TypeNo(12), &reply) == *want);
        assert!(rt; is_reply_to(&types, TypeNo(8), &reply) == elsewhere[n]);
    }
    Ok(())
}
