//! How many cells are finalised at once, and values that are let go.
ghost use Rattle.std.specs.Prelude.{◌≡◌, ◌≤◌, ◌<◌, ◌+◌, ◌^◌, ◌++◌, [], suc, min, length, IfOk, IfSome, OnOk, IsErr, IsTrue, is_some};
ghost use Rattle.herm_model.specs.CellNames.{count};
ghost use Rattle.herm_model.specs.Finalising.{finalised, finalised_in, pending, pending_in};
ghost use Rattle.herm_values.specs.Parts.{parts_from};
ghost use Rattle.herm_values.specs.View.{value_view, table_parts, views_of};
ghost use Rattle.herm_values.specs.Works.{waiting, spare};
ghost use Rattle.herm_frames.specs.Counts.{cut};
ghost use Rattle.herm_frames.specs.PlainRecords.{are_plain, is_plain_record};

use herm_places::is_plain;
use herm_values::{Table, Value, Work, cells, finalise, pending};
use std::alloc::AllocError;

/// As many cells as are counted.
const MOST_CELLS: u64 = 1 << 63;

/// The sum of two numbers of cells, cut.
pub fn sum(a: u64, b: u64) -> u64
    ensures sum { result ≡ cut (a + b) }
{
    a.saturating_add(b).min(MOST_CELLS)
}

/// How many cells a value has.
#[inline(always)]
#[tactic(auto, using(herm_values::proofs::Seen::layers))]
pub fn count_of(v: &Value) -> u64
    ensures { result ≡ cut (count (value_view v.now)) }
{
    match v {
        Value::Bool(_) => 1,
        Value::Int(_) => 1,
        Value::Text(_) => 1,
        Value::Tag(_) => 1,
        Value::Fields(_) => cells(v),
        Value::Case(_, _) => cells(v),
        Value::Table(_) => cells(v),
        Value::Poly(_) => cells(v),
        Value::Call(_) => cells(v),
        Value::Inport(_) => 1,
        Value::Outport(_) => 1,
    }
}

/// How many cells are finalised at once where the value is.
#[tactic(auto, using(herm_values::proofs::Seen::layers))]
#[cycle(ended)]
pub fn ended(v: &Value) -> u64
    ensures { result ≡ cut (length (finalised (value_view v.now))) }
{
    match v {
        Value::Bool(_) => 1,
        Value::Int(_) => 1,
        Value::Text(_) => 1,
        Value::Tag(_) => 1,
        Value::Fields(fields) => sum(1, ended_in(fields.as_slice())),
        Value::Case(_, component) => sum(1, ended(component)),
        Value::Table(table) => sum(1, ended_rows(table)),
        Value::Poly(poly) => sum(1, ended(poly.content())),
        Value::Call(call) => ended_in(call.params()),
        Value::Inport(_) => 0,
        Value::Outport(_) => 1,
    }
}

/// How many are in the values at these places.
#[tactic(auto, using(herm_values::proofs::Seen::layers))]
#[cycle(ended)]
pub fn ended_in(places: &[Option<Value>]) -> u64
    ensures { result ≡ cut (length (finalised_in (parts_from (views_of places.now)))) }
{
    let mut total = 0;
    'places: for held in places {
        if let Some(v) = held {
            total = sum(total, ended(v));
        }
    }
    total
}

/// How many are in the rows of a table.
#[tactic(auto, using(herm_values::proofs::Walked::walk))]
#[cycle(ended)]
fn ended_rows(table: &Table) -> u64
    ensures { result ≡ cut (length (finalised_in (table_parts table.now))) }
{
    let mut total = 0;
    let mut next = table.first();
    'rows: while let Some(node) = next {
        next = table.after(node);
        if let Some(row) = table.row(node) {
            total = sum(total, ended(row));
        }
    }
    total
}

/// Makes room on the work list for what waits in a value. Memory is wanted only where something does.
fn make_room(v: &Value, work: &mut Work) -> Result<(), AllocError>
    ensures waiting { waiting work.new ≡ waiting work.old }
    ensures room { OnOk result (length (pending (value_view v.now)) ≤ spare work.new) }
    ensures refused { IsErr result → 0 < length (pending (value_view v.now)) }
{
    let n = pending(v);
    if n == 0 {
        return Ok(());
    }
    if n == usize::MAX {
        return Err(AllocError);
    }
    work.reserve(n)
}

/// How many cells a record has whose fields are empty, scalars or outports: all are finalised at once. None of any other value.
#[inline(always)]
#[tactic(auto, using(herm_values::proofs::Seen::layers))]
fn plain_cells(v: &Value) -> Option<u64>
    ensures plain { is_some result ≡ is_plain_record (value_view v.now) }
    ensures count { IfSome result (λ n. cut n ≡ cut (length (finalised (value_view v.now)))) }
    ensures nothing_waits { IsTrue (is_some result) → pending (value_view v.now) ≡ [] }
{
    match v {
        Value::Bool(_) => None,
        Value::Int(_) => None,
        Value::Text(_) => None,
        Value::Tag(_) => None,
        Value::Fields(fields) => plain_cells_in(fields.as_slice()),
        Value::Case(_, _) => None,
        Value::Table(_) => None,
        Value::Poly(_) => None,
        Value::Call(_) => None,
        Value::Inport(_) => None,
        Value::Outport(_) => None,
    }
}

/// One more than the values at these places. None where one is no scalar and no outport.
#[inline(always)]
#[tactic(auto, using(crate::proofs::PlainCells::plain_places))]
fn plain_cells_in(places: &[Option<Value>]) -> Option<u64>
    ensures plain { is_some result ≡ are_plain (parts_from (views_of places.now)) }
    ensures count { IfSome result (λ n. cut n ≡ cut (suc (length (finalised_in (parts_from (views_of places.now)))))) }
    ensures nothing_waits { IsTrue (is_some result) → pending_in (parts_from (views_of places.now)) ≡ [] }
{
    let mut count: u64 = 1;
    'places: for held in places {
        if let Some(v) = held {
            if !is_plain(v) {
                return None;
            }
            count = count.saturating_add(1);
        }
    }
    Some(count)
}

/// Finalises a value, where so many cells have been finalised before. The answer is how many have been then. Memory is
/// wanted only where an inport or a callmessage goes on the work list.
#[tactic(auto, using(crate::proofs::PlainCells::counting))]
pub fn let_go(v: Value, work: &mut Work, before: u64) -> Result<u64, AllocError>
    ensures waiting { OnOk result (waiting work.new ≡ waiting work.old ++ pending (value_view v)) }
    ensures count { IfOk result (λ n. n ≡ cut (before + length (finalised (value_view v)))) }
    ensures refused { IsErr result → 0 < length (pending (value_view v)) }
{
    if is_plain(&v) {
        return Ok(sum(before, 1));
    }
    if let Some(count) = plain_cells(&v) {
        return Ok(sum(before, count));
    }
    make_room(&v, work)?;
    let count = sum(before, ended(&v));
    finalise(v, work);
    Ok(count)
}
