//! Texts, letters and messages by hand.
ghost use Rattle.std.specs.Prelude.{IfOk, IfSome};
ghost use Rattle.herm_values.specs.Whole.{IsWhole, AllWhole, IsWholeTable};

use herm_base::{ExcNo, PortNo, ProcNo, TypeNo, Word};
use herm_events::{ReplyTrace, Trace};
use herm_letters::{Letter, Parcel, Parcels, Reply, reply_trace_of, trace_of};
use herm_parcels::{CallMsg, Poly};
use herm_values::{Table, Value, cells, copy_of, pending, poly_depth};
use std::alloc::{AllocError, Global};
use std::test::Fail;

/// Whether a value has this text.
fn has_text(alloc: Global, v: Value, want: &str) -> Result<bool, AllocError> {
    let text = trace_of(alloc, &v)?;
    Ok(text.bytes() == want.as_bytes())
}

fn string(alloc: Global, bytes: &[u8]) -> Result<Value, AllocError> {
    Ok(Value::Text(Word::of(alloc, bytes)?))
}

/// A polymorph of type 9 with this content.
fn only(alloc: Global, held: Value) -> Result<Poly<Value>, AllocError> {
    match Poly::new(alloc, TypeNo(9), 1, held) {
        Ok(poly) => Ok(poly),
        Err(_) => Err(AllocError),
    }
}

/// A string that is followed by an empty place.
fn with_gap(alloc: Global, bytes: &[u8]) -> Result<Vec<Option<Value>>, AllocError> {
    let mut places = Vec::new(alloc);
    places.push(Some(string(alloc, bytes)?))?;
    places.push(None)?;
    Ok(places)
}

#[test]
fn values_without_parts_have_their_texts(rt: HostRuntime) -> Result<(), Fail> {
    let alloc = rt.alloc();
    assert!(rt; has_text(alloc, Value::Bool(true), "true")?);
    assert!(rt; has_text(alloc, Value::Bool(false), "false")?);
    assert!(rt; has_text(alloc, Value::Int(0), "0")?);
    assert!(rt; has_text(alloc, Value::Int(i64::MIN), "-9223372036854775808")?);
    assert!(rt; has_text(alloc, Value::Tag(7), "#7")?);
    assert!(rt; has_text(alloc, Value::Inport(PortNo { number: 16384 }), "@16384")?);
    assert!(rt; has_text(alloc, Value::Outport(PortNo { number: 0 }), ">0")?);
    assert!(rt; has_text(alloc, string(alloc, b"a\"b\\c\nd")?, "\"a\\\"b\\\\c\\nd\"")?);
    Ok(())
}

#[test]
fn values_with_parts_have_their_texts(rt: HostRuntime) -> Result<(), Fail> {
    let alloc = rt.alloc();
    let record = Value::Fields(with_gap(alloc, b"a\"")?);
    assert!(rt; has_text(alloc, record, "{\"a\\\"\",_}")?);
    assert!(rt; has_text(alloc, Value::Fields(Vec::new(alloc)), "{}")?);
    let call = CallMsg::new(ProcNo { number: 3 }, 12, with_gap(alloc, b"")?);
    let place = Value::Case(2, Box::new(alloc, Value::Call(call))?);
    assert!(rt;
        has_text(
            alloc,
            Value::Poly(only(alloc, place)?),
            "<9:2!(3,12:\"\",_)>"
        )?
    );
    let table = Box::new(alloc, Table::new(alloc, Vec::new(alloc)))?;
    assert!(rt; has_text(alloc, Value::Table(table), "[]")?);
    Ok(())
}

/// Two places, each with a whole value or empty.
#[tactic(auto, using(herm_values::proofs::Wholes::records))]
fn two_places(
    alloc: Global,
    first: Option<Value>,
    second: Option<Value>,
) -> Result<Vec<Option<Value>>, AllocError>
    requires first { IfSome first IsWhole }
    requires second { IfSome second IsWhole }
    ensures { IfOk result (λ places. AllWhole places.items) }
{
    let mut places = Vec::new(alloc);
    places.push(first)?;
    places.push(second)?;
    Ok(places)
}

#[tactic(auto, using(herm_values::proofs::Wholes::records))]
fn record(alloc: Global, first: Option<Value>, second: Option<Value>) -> Result<Value, AllocError>
    requires first { IfSome first IsWhole }
    requires second { IfSome second IsWhole }
    ensures { IfOk result IsWhole }
{
    let fields = two_places(alloc, first, second)?;
    Ok(Value::Fields(fields))
}

/// Call 12 of process 3.
#[tactic(auto, using(herm_values::proofs::Wholes::records))]
fn message(alloc: Global, first: Option<Value>, second: Option<Value>) -> Result<Value, AllocError>
    requires first { IfSome first IsWhole }
    requires second { IfSome second IsWhole }
    ensures { IfOk result IsWhole }
{
    let params = two_places(alloc, first, second)?;
    Ok(Value::Call(CallMsg::new(ProcNo { number: 3 }, 12, params)))
}

fn variant(alloc: Global, place: u32, held: Value) -> Result<Value, AllocError>
    requires { IsWhole held }
    ensures { IfOk result IsWhole }
{
    let held = Box::new(alloc, held)?;
    Ok(Value::Case(place, held))
}

fn polymorph(alloc: Global, tag: u32, held: Value) -> Result<Value, AllocError>
    requires { IsWhole held }
    ensures { IfOk result IsWhole }
{
    let depth = poly_depth(&held);
    if depth >= 16 {
        return Err(AllocError);
    }
    match Poly::new(alloc, TypeNo(tag), depth + 1, held) {
        Ok(poly) => Ok(Value::Poly(poly)),
        Err(_) => Err(AllocError),
    }
}

/// Puts a row behind the others.
fn put_row(table: &mut Table, row: Value) -> Result<(), AllocError>
    requires whole { IsWholeTable table.old }
    requires row { IsWhole row }
    ensures whole { IsWholeTable table.new }
{
    match table.insert(row) {
        Ok(()) => Ok(()),
        Err(_) => Err(AllocError),
    }
}

/// The first field alone.
fn first_field(alloc: Global) -> Result<Vec<u32>, AllocError> {
    let mut columns = Vec::new(alloc);
    columns.push(0)?;
    Ok(columns)
}

/// A table of two rows, whose key is the first field.
fn table(alloc: Global, first: Value, second: Value) -> Result<Value, AllocError>
    requires first { IsWhole first }
    requires second { IsWhole second }
    ensures { IfOk result IsWhole }
{
    let mut table = Table::new(alloc, first_field(alloc)?);
    put_row(&mut table, first)?;
    put_row(&mut table, second)?;
    let boxed = Box::new(alloc, table)?;
    Ok(Value::Table(boxed))
}

/// A record of a number and a gap.
fn row(alloc: Global, number: i64) -> Result<Value, AllocError>
    ensures { IfOk result IsWhole }
{
    let row = record(alloc, Some(Value::Int(number)), None)?;
    Ok(row)
}

/// Whether a value has this text, so many cells, so many that wait, and this depth.
fn is_as(
    alloc: Global,
    v: &Value,
    text: &str,
    cells_in_all: u64,
    waiting: usize,
    depth: u32,
) -> Result<bool, AllocError>
    requires { IsWhole v.now }
{
    let trace = trace_of(alloc, v)?;
    Ok(
        trace.bytes() == text.as_bytes()
            && cells(v) == cells_in_all
            && pending(v) == waiting
            && poly_depth(v) == depth,
    )
}

/// Whether a value and its copy have this text, so many cells, so many that wait, and this depth.
fn is_told(
    alloc: Global,
    v: Value,
    text: &str,
    cells_in_all: u64,
    waiting: usize,
    depth: u32,
) -> Result<bool, AllocError>
    requires { IsWhole v }
{
    let copy = copy_of(alloc, &v)?;
    Ok(
        is_as(alloc, &v, text, cells_in_all, waiting, depth)?
            && is_as(alloc, &copy, text, cells_in_all, waiting, depth)?,
    )
}

#[test]
fn values_three_levels_deep_are_told_and_copied(rt: HostRuntime) -> Result<(), Fail> {
    let alloc = rt.alloc();
    let rows = table(alloc, row(alloc, -2)?, row(alloc, 2)?)?;
    assert!(rt;
        is_told(
            alloc,
            record(alloc, None, Some(rows))?,
            "{_,[{-2,_},{2,_}]}",
            6,
            0,
            0
        )?
    );
    let ports = record(
        alloc,
        Some(Value::Inport(PortNo { number: 4 })),
        Some(Value::Outport(PortNo { number: 5 })),
    )?;
    assert!(rt;
        is_told(
            alloc,
            message(alloc, Some(ports), None)?,
            "(3,12:{@4,>5},_)",
            4,
            2,
            0
        )?
    );
    let inner = message(alloc, None, Some(Value::Tag(6)))?;
    let wrapped = polymorph(alloc, 8, variant(alloc, 1, inner)?)?;
    assert!(rt;
        is_told(
            alloc,
            variant(alloc, 0, wrapped)?,
            "0!<8:1!(3,12:_,#6)>",
            5,
            1,
            1
        )?
    );
    let twice = polymorph(
        alloc,
        7,
        polymorph(alloc, 9, record(alloc, Some(Value::Bool(true)), None)?)?,
    )?;
    assert!(rt; is_told(alloc, twice, "<7:<9:{true,_}>>", 4, 0, 2)?);
    let low = table(alloc, row(alloc, 0)?, row(alloc, 1)?)?;
    let deep = record(alloc, Some(Value::Int(5)), Some(variant(alloc, 3, low)?))?;
    let high = table(alloc, deep, row(alloc, 6)?)?;
    assert!(rt; is_told(alloc, high, "[{5,3![{0,_},{1,_}]},{6,_}]", 11, 0, 0)?);
    Ok(())
}

#[test]
fn replies_have_the_texts_of_their_values(rt: HostRuntime) -> Result<(), Fail> {
    let alloc = rt.alloc();
    let mut values = Vec::new(alloc);
    values.push(Value::Int(1))?;
    values.push(string(alloc, b"w")?)?;
    values.push(Value::Tag(0))?;
    let returned = reply_trace_of(alloc, &Reply::Values(values))?;
    assert!(rt; returned == ReplyTrace::Values(Trace::of(alloc, b"1,\"w\",#0")?));
    let raised = reply_trace_of(alloc, &Reply::Raised(ExcNo(4), Vec::new(alloc)))?;
    assert!(rt; raised == ReplyTrace::Raised(ExcNo(4), Trace::of(alloc, b"")?));
    assert!(rt; reply_trace_of(alloc, &Reply::Gone)? == ReplyTrace::Gone);
    Ok(())
}

/// Puts the letter of an integer behind the others.
fn put(alloc: Global, parcels: &mut Parcels, number: u64, integer: i64) -> Result<(), AllocError> {
    parcels.reserve()?;
    match Letter::of(alloc, Value::Int(integer)) {
        Ok(letter) => {
            let (value, _, _, trace, _) = letter.into_parts();
            parcels.push(Parcel {
                number,
                value,
                trace,
            });
            Ok(())
        }
        Err((_, error)) => Err(error),
    }
}

#[test]
fn parcels_come_out_in_their_order(rt: HostRuntime) -> Result<(), Fail> {
    let mut parcels = Parcels::new(rt.alloc());
    put(rt.alloc(), &mut parcels, 0, 5)?;
    put(rt.alloc(), &mut parcels, 1, -6)?;
    let texts = parcels.traces()?;
    assert!(rt; parcels.len() == 2 && texts.len() == 2);
    assert!(rt; texts[0].bytes() == b"5".as_slice() && texts[1].bytes() == b"-6".as_slice());
    let first = parcels.take().map(|p| p.number);
    let second = parcels.take().map(|p| p.number);
    assert!(rt; first == Some(0) && second == Some(1) && parcels.take().is_none());
    Ok(())
}
