//! How many cells values have.
ghost use Rattle.std.specs.Prelude.{◌≡◌, ◌+◌, ◌^◌, min, length};
ghost use Rattle.herm_model.specs.Values as model;
ghost use Rattle.herm_model.specs.Finalising.{finalised, pending};
ghost use Rattle.herm_model.specs.CellNames.{count, count_in};
ghost use Rattle.herm_values.specs.Parts.{parts_from};
ghost use Rattle.herm_values.specs.View.{value_view, table_parts, views_of};

use crate::value::{Table, Value};

/// As many cells as are counted.
const MOST_CELLS: u64 = 1 << 63;

/// The sum of two numbers of cells, cut.
fn sum(a: u64, b: u64) -> u64
    ensures { result ≡ min (a + b) (2 ^ 63) }
{
    a.saturating_add(b).min(MOST_CELLS)
}

#[tactic(auto, using(crate::proofs::Seen::layers))]
/// How many cells the value has, and 2^63 where there are more.
#[cycle(cells)]
pub fn cells(v: &Value) -> u64
    ensures { result ≡ min (count (value_view v.now)) (2 ^ 63) }
{
    match v {
        Value::Bool(_) => 1,
        Value::Int(_) => 1,
        Value::Text(_) => 1,
        Value::Tag(_) => 1,
        Value::Fields(fields) => sum(1, cells_in(fields.as_slice())),
        Value::Case(_, component) => sum(1, cells(component)),
        Value::Table(table) => sum(1, cells_of_rows(table)),
        Value::Poly(poly) => sum(1, cells(poly.content())),
        Value::Call(call) => sum(1, cells_in(call.params())),
        Value::Inport(_) => 1,
        Value::Outport(_) => 1,
    }
}

/// How many cells the values at these places have.
#[cycle(cells)]
fn cells_in(places: &[Option<Value>]) -> u64
    ensures { result ≡ min (count_in (parts_from (views_of places.now))) (2 ^ 63) }
{
    let mut total = 0;
    'places: for held in places {
        if let Some(v) = held {
            total = sum(total, cells(v));
        }
    }
    total
}

/// How many cells the rows of a table have.
#[tactic(auto, using(crate::proofs::Walked::walk))]
#[cycle(cells)]
fn cells_of_rows(table: &Table) -> u64
    ensures { result ≡ min (count_in (table_parts table.now)) (2 ^ 63) }
{
    let mut total = 0;
    let mut next = table.first();
    'rows: while let Some(node) = next {
        next = table.after(node);
        if let Some(row) = table.row(node) {
            total = sum(total, cells(row));
        }
    }
    total
}

/// A law: each cell of a value waits, or is finalised at once where the value is. So what `cells` and `pending` tell of a
/// value gives how many are.
#[tactic(auto, using(crate::proofs::Counted::apart))]
pub fn cells_wait_or_end()
    ensures counted { (v : model.Value) → length (finalised v) + length (pending v) ≡ count v }
{}
