//! How deep polymorphs nest in values.
ghost use Rattle.std.specs.Prelude.{◌≡◌, ◌≤◌, max};
ghost use Rattle.herm_model.specs.Values.{polymorph_depth, depth_in};
ghost use Rattle.herm_values.specs.Parts.{parts_from};
ghost use Rattle.herm_values.specs.View.{value_view, table_parts, views_of};
ghost use Rattle.herm_values.specs.Whole.{IsWhole, AllWhole, IsWholeTable};

use crate::value::{Table, Value};

/// How deep polymorphs nest in the value: from 0 to 16.
pub fn poly_depth(v: &Value) -> u32
    requires whole { IsWhole v.now }
    ensures depth { result ≡ polymorph_depth (value_view v.now) }
    ensures few { result ≤ 16 }
{
    let depth = depth_of(v);
    depth
}

/// How deep polymorphs nest in the value. What a polymorph has told once is not looked at again.
#[tactic(auto, using(crate::proofs::Seen::layers))]
#[cycle(depths)]
fn depth_of(v: &Value) -> u32
    requires whole { IsWhole v.now }
    ensures depth { result ≡ polymorph_depth (value_view v.now) }
{
    match v {
        Value::Bool(_) => 0,
        Value::Int(_) => 0,
        Value::Text(_) => 0,
        Value::Tag(_) => 0,
        Value::Fields(fields) => greatest_depth(fields.as_slice()),
        Value::Case(_, component) => depth_of(component),
        Value::Table(table) => greatest_row_depth(table),
        Value::Poly(poly) => poly.depth(),
        Value::Call(call) => greatest_depth(call.params()),
        Value::Inport(_) => 0,
        Value::Outport(_) => 0,
    }
}

/// The greatest depth in the values at these places.
#[tactic(auto, using(crate::proofs::Seen::layers))]
#[cycle(depths)]
fn greatest_depth(places: &[Option<Value>]) -> u32
    requires whole { AllWhole places.now }
    ensures depth { result ≡ depth_in (parts_from (views_of places.now)) }
{
    let mut depth = 0;
    'places: for held in places {
        if let Some(v) = held {
            depth = depth_of(v).max(depth);
        }
    }
    depth
}

/// The greatest depth in the rows of a table.
#[tactic(auto, using(crate::proofs::Walked::walk))]
#[cycle(depths)]
fn greatest_row_depth(table: &Table) -> u32
    requires whole { IsWholeTable table.now }
    ensures depth { result ≡ depth_in (table_parts table.now) }
{
    let mut depth = 0;
    let mut next = table.first();
    'rows: while let Some(node) = next {
        next = table.after(node);
        if let Some(row) = table.row(node) {
            depth = depth_of(row).max(depth);
        }
    }
    depth
}
