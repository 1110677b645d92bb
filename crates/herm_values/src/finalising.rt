//! Values are finalised: what waits in them goes to the end of the work list.
ghost use Rattle.std.specs.Prelude.{◌≡◌, ◌≤◌, ◌+◌, ◌++◌, length, min};
ghost use Rattle.herm_model.specs.Finalising.{pending, pending_in};
ghost use Rattle.herm_values.specs.Parts.{parts_from};
ghost use Rattle.herm_values.specs.View.{value_view, table_parts, views_of};
ghost use Rattle.herm_values.specs.Works.{waiting, spare};

use crate::value::{Table, Value};
use crate::work::{Work, WorkItem};

/// How many inports and callmessages the value has, and the greatest number where there are more.
#[tactic(auto, using(crate::proofs::Seen::layers))]
#[cycle(pending)]
pub fn pending(v: &Value) -> usize
    ensures { result ≡ min (length (pending (value_view v.now))) usize.MAX }
{
    match v {
        Value::Bool(_) => 0,
        Value::Int(_) => 0,
        Value::Text(_) => 0,
        Value::Tag(_) => 0,
        Value::Fields(fields) => pending_in(fields.as_slice()),
        Value::Case(_, component) => pending(component),
        Value::Table(table) => pending_in_rows(table),
        Value::Poly(poly) => pending(poly.content()),
        Value::Call(call) => pending_in(call.params()).saturating_add(1),
        Value::Inport(_) => 1,
        Value::Outport(_) => 0,
    }
}

/// How many the values at these places have.
#[tactic(auto, using(crate::proofs::Seen::layers))]
#[cycle(pending)]
fn pending_in(places: &[Option<Value>]) -> usize
    ensures { result ≡ min (length (pending_in (parts_from (views_of places.now)))) usize.MAX }
{
    let mut total: usize = 0;
    'places: for held in places {
        if let Some(v) = held {
            total = total.saturating_add(pending(v));
        }
    }
    total
}

/// How many the rows of a table have.
#[tactic(auto, using(crate::proofs::Walked::walk))]
#[cycle(pending)]
fn pending_in_rows(table: &Table) -> usize
    ensures { result ≡ min (length (pending_in (table_parts table.now))) usize.MAX }
{
    let mut total: usize = 0;
    let mut next = table.first();
    'rows: while let Some(node) = next {
        next = table.after(node);
        if let Some(row) = table.row(node) {
            total = total.saturating_add(pending(row));
        }
    }
    total
}

/// Finalises a value: its inports and callmessages go to the end of the work list in the order of a walk, a callmessage
/// before what its parameters hold, and everything else is gone. It takes no memory.
pub fn finalise(v: Value, work: &mut Work)
    requires room { length (pending (value_view v)) ≤ spare work.old }
    ensures waiting { waiting work.new ≡ waiting work.old ++ pending (value_view v) }
    ensures spare { spare work.new + length (pending (value_view v)) ≡ spare work.old }
{
    put_pending(&v, work);
}

/// Puts what waits in a value on the work list.
#[tactic(auto, using(crate::proofs::Seen::layers))]
#[cycle(finalising)]
fn put_pending(v: &Value, work: &mut Work)
    requires room { length (pending (value_view v.now)) ≤ spare work.old }
    ensures waiting { waiting work.new ≡ waiting work.old ++ pending (value_view v.now) }
    ensures spare { spare work.new + length (pending (value_view v.now)) ≡ spare work.old }
{
    match v {
        Value::Bool(_) => (),
        Value::Int(_) => (),
        Value::Text(_) => (),
        Value::Tag(_) => (),
        Value::Fields(fields) => put_places(fields.as_slice(), work),
        Value::Case(_, component) => put_pending(component, work),
        Value::Table(table) => put_rows(table, work),
        Value::Poly(poly) => put_pending(poly.content(), work),
        Value::Call(call) => {
            work.put(WorkItem::Answer(call.caller(), call.call()));
            put_places(call.params(), work)
        }
        Value::Inport(port) => work.put(WorkItem::Close(*port)),
        Value::Outport(_) => (),
    }
}

/// Puts what waits in the values at these places on the work list.
#[tactic(auto, using(crate::proofs::Seen::layers))]
#[cycle(finalising)]
fn put_places(places: &[Option<Value>], work: &mut Work)
    requires room { length (pending_in (parts_from (views_of places.now))) ≤ spare work.old }
    ensures waiting { waiting work.new ≡ waiting work.old ++ pending_in (parts_from (views_of places.now)) }
    ensures spare { spare work.new + length (pending_in (parts_from (views_of places.now))) ≡ spare work.old }
{
    'places: for held in places {
        if let Some(v) = held {
            put_pending(v, work);
        }
    }
}

/// Puts what waits in the rows of a table on the work list.
#[tactic(auto, using(crate::proofs::Walked::walk))]
#[cycle(finalising)]
fn put_rows(table: &Table, work: &mut Work)
    requires room { length (pending_in (table_parts table.now)) ≤ spare work.old }
    ensures waiting { waiting work.new ≡ waiting work.old ++ pending_in (table_parts table.now) }
    ensures spare { spare work.new + length (pending_in (table_parts table.now)) ≡ spare work.old }
{
    let mut next = table.first();
    'rows: while let Some(node) = next {
        next = table.after(node);
        if let Some(row) = table.row(node) {
            put_pending(row, work);
        }
    }
}
