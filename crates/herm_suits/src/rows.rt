//! Whether a table's rows are as many as there may be, and differ in their keys.
ghost use Rattle.std.specs.Prelude.{◌≡◌, IfSome};
ghost use Rattle.herm_rows.specs.Nodes.{HasNode};
ghost use Rattle.herm_model.specs.Types.{rows};
ghost use Rattle.herm_model.specs.Typed.{is_bounded};
ghost use Rattle.herm_model.specs.Tables.{key_of, has_key, has_distinct_keys};
ghost use Rattle.herm_values.specs.Parts.{parts_from};
ghost use Rattle.herm_values.specs.View.{value_view, rows_from, table_parts};
ghost use Rattle.herm_values.specs.Whole.{IsWholeTable};

use crate::keys::have_one_key;
use herm_links::NodeNo;
use herm_values::{Table, Value};

/// The greatest number of rows.
const MOST_ROWS: usize = 4096;

/// Whether a row from a node on has the key of this row.
#[tactic(auto, using(herm_values::proofs::Walked::walk))]
fn has_key(table: &Table, columns: &[u32], row: &Value, start: Option<NodeNo>) -> bool
    requires stands { IfSome start (λ node. HasNode table.now.keys node.0) }
    ensures has { result ≡ has_key columns.now (key_of columns.now (value_view row.now)) (parts_from (rows_from table.now start)) }
{
    let mut next = start;
    'rows: while let Some(node) = next {
        next = table.after(node);
        let Some(other) = table.row(node) else {
            continue;
        };
        if have_one_key(columns, other, row) {
            return true;
        }
    }
    false
}

/// Whether no two rows of a table have one key, where these fields are the key.
#[tactic(auto, using(herm_values::proofs::Walked::walk))]
fn are_different(table: &Table, columns: &[u32]) -> bool
    ensures different { result ≡ has_distinct_keys columns.now (table_parts table.now) }
{
    let mut next = table.first();
    'rows: while let Some(node) = next {
        next = table.after(node);
        let Some(row) = table.row(node) else {
            continue;
        };
        if has_key(table, columns, row, next) {
            return false;
        }
    }
    true
}

/// Whether no two rows of a table have one key. Where the fields are those that the table keeps as its key, its rows are
/// not looked at: those of a whole table differ in it.
#[tactic(auto, using(crate::proofs::Sizes::sizes))]
fn differ(keys: &[u32], table: &Table) -> bool
    requires whole { IsWholeTable table.now }
    ensures different { result ≡ has_distinct_keys keys.now (table_parts table.now) }
{
    let _count = table.len();
    if table.columns() == keys {
        return true;
    }
    are_different(table, keys)
}

/// Whether a table has at most 4,096 rows, and no two of them have one key, where these fields are the key.
#[tactic(auto, using(crate::proofs::Sizes::sizes))]
pub fn is_bounded(keys: &[u32], table: &Table) -> bool
    requires whole { IsWholeTable table.now }
    ensures bounded { result ≡ is_bounded (rows 0 keys.now) (table_parts table.now) }
{
    table.len() <= MOST_ROWS && differ(keys, table)
}
