//! Values by hand: counts, finalising and copies, tables, and facts.
ghost use Rattle.std.specs.Prelude.{IfOk, IfSome};
ghost use Rattle.herm_values.specs.Whole.{IsWhole, IsWholeTable};

use herm_base::{PortNo, ProcNo, TypeNo, VarNo};
use herm_parcels::{CallMsg, Poly, PolyFault};
use herm_rows::InsertFault;
use herm_types::{Fact, Path};
use herm_values::{
    Scalar, Table, Value, Work, WorkItem, cells, copy_of, finalise, meets, pending, poly_depth,
};
use std::alloc::{AllocError, Global};
use std::test::Fail;

/// A callmessage of process 2, its call 9, with port 4 and nothing.
#[tactic(auto, using(herm_values::proofs::Wholes::records))]
fn message(alloc: Global) -> Result<Value, AllocError>
    ensures { IfOk result IsWhole }
{
    let mut params = Vec::new(alloc);
    params.push(Some(Value::Inport(PortNo { number: 4 })))?;
    params.push(None)?;
    Ok(Value::Call(CallMsg::new(ProcNo { number: 2 }, 9, params)))
}

/// A polymorph with port 5.
fn polymorph(alloc: Global) -> Result<Value, AllocError>
    ensures { IfOk result IsWhole }
{
    match Poly::new(alloc, TypeNo(3), 1, Value::Inport(PortNo { number: 5 })) {
        Ok(poly) => Ok(Value::Poly(poly)),
        Err(_) => Err(AllocError),
    }
}

/// A record of port 3, nothing, a callmessage and a polymorph.
#[tactic(auto, using(herm_values::proofs::Wholes::records))]
fn record(alloc: Global) -> Result<Value, AllocError>
    ensures { IfOk result IsWhole }
{
    let call = message(alloc)?;
    let poly = polymorph(alloc)?;
    let mut fields = Vec::new(alloc);
    fields.push(Some(Value::Inport(PortNo { number: 3 })))?;
    fields.push(None)?;
    fields.push(Some(call))?;
    fields.push(Some(poly))?;
    Ok(Value::Fields(fields))
}

/// Whether the value has so many cells, and so many of them wait.
fn counts(v: &Value, all: u64, waiting: usize) -> bool {
    cells(v) == all && pending(v) == waiting
}

/// Finalises a value, with the room that it needs.
fn let_go(v: Value, work: &mut Work) -> Result<(), AllocError> {
    let n = pending(&v);
    if n == usize::MAX {
        return Err(AllocError);
    }
    work.reserve(n)?;
    finalise(v, work);
    Ok(())
}

/// Whether a port with this number is to be closed first. It is no work then.
fn closes(work: &mut Work, port: u32) -> bool {
    match work.take() {
        Some(WorkItem::Close(first)) => first.get() == port,
        _ => false,
    }
}

/// Whether this call of a process is to be answered first. It is no work then.
fn answers(work: &mut Work, process: u32, call: u64) -> bool {
    match work.take() {
        Some(WorkItem::Answer(caller, number)) => caller.get() == process && number == call,
        _ => false,
    }
}

#[test]
fn what_waits_in_a_copy_is_finalised_in_order(rt: HostRuntime) -> Result<(), Fail> {
    let v = record(rt.alloc())?;
    assert!(rt; counts(&v, 6, 4));
    let copy = copy_of(rt.alloc(), &v)?;
    assert!(rt; counts(&copy, 6, 4) && poly_depth(&copy) == 1);
    let mut work = Work::new(rt.alloc());
    let_go(copy, &mut work)?;
    let_go(Value::Outport(PortNo { number: 8 }), &mut work)?;
    assert!(rt; closes(&mut work, 3));
    assert!(rt; answers(&mut work, 2, 9));
    assert!(rt; closes(&mut work, 4));
    assert!(rt; closes(&mut work, 5));
    assert!(rt; work.front().is_none());
    Ok(())
}

/// A row with this number as its key.
#[tactic(auto, using(herm_values::proofs::Wholes::records))]
fn row(alloc: Global, n: i64) -> Result<Value, AllocError>
    ensures { IfOk result IsWhole }
{
    let mut fields = Vec::new(alloc);
    fields.push(Some(Value::Int(n)))?;
    Ok(Value::Fields(fields))
}

/// Says in a letter what an insertion of a row with this number answers: inserted, duplicate or full.
fn put(alloc: Global, table: &mut Table, n: i64) -> Result<u8, AllocError>
    requires { IsWholeTable table.old }
    ensures { IsWholeTable table.new }
{
    let row = row(alloc, n)?;
    match table.insert(row) {
        Ok(()) => Ok(b'i'),
        Err(InsertFault::Duplicate(_)) => Ok(b'd'),
        Err(InsertFault::Full(_)) => Ok(b'f'),
        Err(InsertFault::Memory(_)) => Err(AllocError),
    }
}

/// Whether rows with the numbers from 0 on are inserted, so many.
fn are_put(alloc: Global, table: &mut Table, count: i64) -> Result<bool, AllocError>
    requires { IsWholeTable table.old }
    ensures { IsWholeTable table.new }
{
    'rows: for n in 0..count {
        if put(alloc, table, n)? != b'i' {
            return Ok(false);
        }
    }
    Ok(true)
}

/// Whether there was a row with this number, which is removed.
fn is_taken(alloc: Global, table: &mut Table, n: i64) -> Result<bool, AllocError>
    requires { IsWholeTable table.old }
    ensures { IsWholeTable table.new }
{
    let mut key = Vec::new(alloc);
    key.push(Scalar::Int(n))?;
    Ok(table.remove(&key).is_some())
}

/// Whether the row at a place has this number.
fn is_at(table: &Table, place: usize, n: i64) -> bool {
    if place >= table.len() {
        return false;
    }
    match table.row_at(place) {
        Some(row) => is_number(row, n),
        None => false,
    }
}

/// Whether the first field of a row is this number.
fn is_number(row: &Value, n: i64) -> bool {
    let Value::Fields(fields) = row else {
        return false;
    };
    match fields.get(0) {
        Some(Some(Value::Int(m))) => *m == n,
        _ => false,
    }
}

/// A table whose key is the first field.
fn empty_table(alloc: Global) -> Result<Table, AllocError>
    ensures { IfOk result IsWholeTable }
{
    let mut columns = Vec::new(alloc);
    columns.push(0)?;
    Ok(Table::new(alloc, columns))
}

#[test]
fn rows_keep_the_order_of_their_insertion(rt: HostRuntime) -> Result<(), Fail> {
    let mut table = empty_table(rt.alloc())?;
    assert!(rt; put(rt.alloc(), &mut table, 1)? == b'i');
    assert!(rt; put(rt.alloc(), &mut table, 2)? == b'i');
    assert!(rt; put(rt.alloc(), &mut table, 3)? == b'i');
    assert!(rt; is_taken(rt.alloc(), &mut table, 2)?);
    assert!(rt; put(rt.alloc(), &mut table, 2)? == b'i');
    assert!(rt; put(rt.alloc(), &mut table, 3)? == b'd');
    assert!(rt; is_at(&table, 0, 1));
    assert!(rt; is_at(&table, 1, 3));
    assert!(rt; is_at(&table, 2, 2));
    assert!(rt; table.len() == 3);
    Ok(())
}

#[test]
fn one_row_too_many_is_refused_behind_a_duplicate(rt: HostRuntime) -> Result<(), Fail> {
    let mut table = empty_table(rt.alloc())?;
    assert!(rt; are_put(rt.alloc(), &mut table, 4096)?);
    assert!(rt; put(rt.alloc(), &mut table, 4096)? == b'f');
    assert!(rt; put(rt.alloc(), &mut table, 17)? == b'd');
    assert!(rt; is_taken(rt.alloc(), &mut table, 17)?);
    assert!(rt; put(rt.alloc(), &mut table, 4096)? == b'i');
    assert!(rt; table.len() == 4096);
    Ok(())
}

/// The value in a polymorph, or nothing where it would be too deep.
fn wrapped(alloc: Global, v: Value) -> Result<Option<Value>, AllocError>
    requires { IsWhole v }
    ensures { IfOk result (λ outer. IfSome outer IsWhole) }
{
    let depth = poly_depth(&v);
    if depth > 16 {
        return Err(AllocError);
    }
    match Poly::new(alloc, TypeNo(3), depth + 1, v) {
        Ok(poly) => Ok(Some(Value::Poly(poly))),
        Err(PolyFault::Deep(_)) => Ok(None),
        Err(PolyFault::Memory(_)) => Err(AllocError),
    }
}

/// A number in so many polymorphs, or nothing where they would be too deep.
fn nested(alloc: Global, count: u32) -> Result<Option<Value>, AllocError>
    ensures { IfOk result (λ outer. IfSome outer IsWhole) }
{
    let mut v = Value::Int(7);
    'polymorphs: for _ in 0..count {
        match wrapped(alloc, v)? {
            Some(outer) => v = outer,
            None => return Ok(None),
        }
    }
    Ok(Some(v))
}

#[test]
fn polymorphs_nest_sixteen_deep(rt: HostRuntime) -> Result<(), Fail> {
    assert!(rt; nested(rt.alloc(), 17)?.is_none());
    let deepest = nested(rt.alloc(), 16)?;
    let Some(v) = deepest else {
        assert!(rt; false);
        return Ok(());
    };
    assert!(rt; poly_depth(&v) == 16 && counts(&v, 17, 0));
    let copy = copy_of(rt.alloc(), &v)?;
    assert!(rt; poly_depth(&copy) == 16 && counts(&copy, 17, 0));
    Ok(())
}

/// The path of these numbers, the first of which is the variable.
fn path(alloc: Global, numbers: &[u32]) -> Result<Path, AllocError> {
    match numbers.split_first() {
        Some((var, parts)) => Ok(Path {
            var: VarNo(*var),
            parts: Vec::from_slice(alloc, parts)?,
        }),
        None => Err(AllocError),
    }
}

/// The facts of a text: paths of letters, `a` for 0, each with a blank behind it for an init, or the figure of the component.
fn facts(alloc: Global, text: &str) -> Result<Vec<Fact>, AllocError> {
    let mut facts = Vec::new(alloc);
    let mut numbers: Vec<u32> = Vec::new(alloc);
    'letters: for byte in text.as_bytes() {
        match *byte {
            b' ' => facts.push(Fact::Init(path(alloc, numbers.as_slice())?))?,
            figure @ b'0'..=b'9' => facts.push(Fact::Case(
                path(alloc, numbers.as_slice())?,
                (figure - b'0') as u32,
            ))?,
            letter => {
                numbers.push(letter.saturating_sub(b'a') as u32)?;
                continue;
            }
        }
        numbers = Vec::new(alloc);
    }
    Ok(facts)
}

/// Whether the value has exactly the facts of this text.
fn has_just(alloc: Global, v: &Value, text: &str) -> Result<bool, AllocError> {
    let facts = facts(alloc, text)?;
    Ok(meets(v, facts.as_slice()))
}

/// A record of a number, nothing, a callmessage with port 4 and nothing, and a variant in a variant.
fn record_with_variant(alloc: Global) -> Result<Value, AllocError> {
    let call = message(alloc)?;
    let inner = Value::Case(1, Box::new(alloc, Value::Bool(true))?);
    let outer = Value::Case(2, Box::new(alloc, inner)?);
    let mut fields = Vec::new(alloc);
    fields.push(Some(Value::Int(3)))?;
    fields.push(None)?;
    fields.push(Some(call))?;
    fields.push(Some(outer))?;
    Ok(Value::Fields(fields))
}

#[test]
fn a_value_meets_exactly_what_it_has(rt: HostRuntime) -> Result<(), Fail> {
    let alloc = rt.alloc();
    let v = record_with_variant(alloc)?;
    assert!(rt; has_just(alloc, &v, "a aa ac aca ad ")?);
    assert!(rt; has_just(alloc, &v, "ad adc1a aca ac aa ad2")?);
    assert!(rt; !has_just(alloc, &v, "a aa ac ad ")?);
    assert!(rt; !has_just(alloc, &v, "a aa aca ad ")?);
    assert!(rt; !has_just(alloc, &v, "aa ac aca ad ")?);
    assert!(rt; !has_just(alloc, &v, "a aa ab ac aca ad ")?);
    assert!(rt; !has_just(alloc, &v, "a aa ac aca ad adc ")?);
    assert!(rt; !has_just(alloc, &v, "a aa ac aca ad b ")?);
    assert!(rt; !has_just(alloc, &v, "a aa ac aca ad ad1")?);
    assert!(rt; !has_just(alloc, &v, "a aa ac aca ad adb1")?);
    assert!(rt; !has_just(alloc, &v, "a aa ac aca ad aa0")?);
    assert!(rt; !has_just(alloc, &v, "")?);
    assert!(rt; has_just(alloc, &Value::Int(0), "a ")?);
    Ok(())
}

/// A table of the rows 1, 2 and 3.
fn three_rows(alloc: Global) -> Result<Table, AllocError>
    ensures { IfOk result IsWholeTable }
{
    let mut table = empty_table(alloc)?;
    put(alloc, &mut table, 1)?;
    put(alloc, &mut table, 2)?;
    put(alloc, &mut table, 3)?;
    Ok(table)
}

/// The table of three rows as a value.
fn table_value(alloc: Global) -> Result<Value, AllocError> {
    let table = three_rows(alloc)?;
    let boxed = Box::new(alloc, table)?;
    Ok(Value::Table(boxed))
}

/// Whether values are counted and looked at.
fn are_looked_at(v: &Value, facts: &[Fact], table: &Value) -> bool {
    counts(v, 7, 2) && meets(v, facts) && counts(table, 7, 0)
}

/// Whether the second row of three is found, refused once more, and taken out.
fn is_found_and_taken(table: &mut Table, again: Value, key: &Vec<Scalar>) -> bool
    requires table { IsWholeTable table.old }
    requires row { IsWhole again }
{
    let found = table.find(key).is_some() && is_at(table, 1, 2);
    let refused = is_duplicate(table.insert(again));
    let taken = table.remove(key).is_some() && table.find(key).is_none();
    found && refused && taken && is_at(table, 1, 3)
}

/// Whether an insertion was refused since a row has the key.
fn is_duplicate(answer: Result<(), InsertFault<Value>>) -> bool {
    match answer {
        Err(InsertFault::Duplicate(_)) => true,
        _ => false,
    }
}

/// Behind `work.reserve` nothing takes memory but the key of the row that is refused, and a row with that key is told all the
/// same where the key finds none: `rt try --test --fail-alloc 45` fails that allocation.
#[test]
fn calls_that_take_no_memory_go_on_where_it_is_wanted(rt: HostRuntime) -> Result<(), Fail> {
    let alloc = rt.alloc();
    let v = record_with_variant(alloc)?;
    let facts = facts(alloc, "a aa ac aca ad ")?;
    let counted = table_value(alloc)?;
    let deep = record(alloc)?;
    let mut table = three_rows(alloc)?;
    let again = row(alloc, 2)?;
    let mut key = Vec::new(alloc);
    key.push(Scalar::Int(2))?;
    let mut work = Work::new(alloc);
    work.reserve(2)?;
    assert!(rt; are_looked_at(&v, facts.as_slice(), &counted) && poly_depth(&deep) == 1);
    assert!(rt; is_found_and_taken(&mut table, again, &key));
    let_go(v, &mut work)?;
    assert!(rt; answers(&mut work, 2, 9) && closes(&mut work, 4));
    assert!(rt; work.front().is_none());
    Ok(())
}
