//! Rows that are put into tables, and taken out of them, where the tables stand.
ghost use Rattle.std.specs.Prelude.{◌≡◌, IfOk, IfSome, IfNone, IsTrue, List, ℕ, Some, None, false, is_some, option_map, ⊤};
ghost use Rattle.herm_journal.specs.Renaming.{forget_name};
ghost use Rattle.herm_model.specs.Paths as paths;
ghost use Rattle.herm_model.specs.Values as model;
ghost use Rattle.herm_model.specs.Values.{a_table, cell, change_at, kind_of, read_at};
ghost use Rattle.herm_forms.specs.Acts.{key_at};
ghost use Rattle.herm_forms.specs.Frames.{Frame as ModelFrame};
ghost use Rattle.herm_forms.specs.InsertForm.{add_row, insert, with_parts};
ghost use Rattle.herm_forms.specs.RemoveAndGet as rows;
ghost use Rattle.herm_instructions.specs.Instructions as instructions;
ghost use Rattle.herm_code_machine.specs.ReadyCode.{ReadyCode};
ghost use Rattle.herm_code_machine.specs.Effects.{effect};
ghost use Rattle.herm_types.specs.View.{path_view};
ghost use Rattle.herm_places.specs.Held.{keyed_places, seen_places};
ghost use Rattle.herm_values.specs.Keyed.{keyed_parts, keyed_view};
ghost use Rattle.herm_values.specs.View.{key_view, leaf, value_view, table_parts};
ghost use Rattle.herm_values.specs.Whole.{IsWhole, IsWholeTable};
ghost use Rattle.herm_frames.specs.Completed.{Completes, Effects, outcome_view};
ghost use Rattle.herm_frames.specs.KeyedTables.{adding, Allows, HasKeyFields, IsTableOf};
ghost use Rattle.herm_frames.specs.Refusals.{IsAllowed, refusal};
ghost use Rattle.herm_frames.specs.RowsGone.{IsRemoved, IsWholeTaken};
ghost use Rattle.herm_frames.specs.Scopes.{IsOf};
ghost use Rattle.herm_frames.specs.Standing.{Stands};

use crate::frame::Frame;
use crate::outcome::Outcome;
use crate::tables::table_in;
use herm_base::{ExcNo, TypeNo};
use herm_places::Variables;
use herm_rows::{InsertFault, MOST_ROWS};
use herm_types::{Path, TypeTable};
use herm_values::{Scalar, Table, Value, key_of};
use std::alloc::{AllocError, Global};

/// Raised where a table has no room.
const DEPLETION: ExcNo = ExcNo(1);

/// Raised where a row has the key.
const DUPLICATE_KEY: ExcNo = ExcNo(4);

/// Raised where no row has the key.
const NOT_FOUND: ExcNo = ExcNo(5);

/// The table that a value is.
#[tactic(auto, using(crate::proofs::TablesSeen::seeing_tables))]
fn into_table(v: Value) -> Option<Box<Table>>
    ensures seen { IfSome result (λ t. value_view v ≡ cell tt a_table (table_parts t.value)) }
    ensures keyed { IfSome result (λ t. keyed_view v ≡ cell t.value.columns.items a_table (keyed_parts t.value)) }
    ensures none { IfNone result (kind_of (keyed_view v) ≡ a_table → ⊥) }
    ensures whole { IsWhole v → IfSome result (λ t. IsWholeTable t.value) }
{
    match v {
        Value::Bool(_) => None,
        Value::Int(_) => None,
        Value::Text(_) => None,
        Value::Tag(_) => None,
        Value::Fields(_) => None,
        Value::Case(_, _) => None,
        Value::Table(table) => Some(table),
        Value::Poly(_) => None,
        Value::Call(_) => None,
        Value::Inport(_) => None,
        Value::Outport(_) => None,
    }
}

/// Takes the table that is read at a path, and leaves another value there until it is put back.
fn take_table(variables: &mut Variables, path: &Path) -> Option<Box<Table>>
    ensures seen { IfSome result (λ t. read_at (path_view path.now) (seen_places variables.old) ≡ Some (cell tt a_table (table_parts t.value))) }
    ensures keyed { IfSome result (λ t. read_at (path_view path.now) (keyed_places variables.old) ≡ Some (cell t.value.columns.items a_table (keyed_parts t.value))) }
    ensures left { seen_places variables.new ≡ change_at (path_view path.now) (λ d. leaf (model.a_scalar (model.a_boolean false))) (seen_places variables.old) }
    ensures none { IfNone result ((key : List ℕ) → IsTableOf key (read_at (path_view path.now) (keyed_places variables.old)) → None ≡ read_at (path_view path.now) (seen_places variables.old)) }
    ensures none_keyed { IfNone result ((key : List ℕ) → IsTableOf key (read_at (path_view path.now) (keyed_places variables.old)) → IsTableOf key (read_at (path_view path.now) (keyed_places variables.new))) }
    ensures whole { IfSome result (λ t. IsWholeTable t.value) }
{
    let Some(held) = variables.exchange(path, Value::Bool(false)) else {
        return None;
    };
    into_table(held)
}

/// Puts a table in place of what is read at a path.
#[tactic(auto, using(crate::proofs::TablesSeen::putting_tables))]
pub fn put_table(variables: &mut Variables, path: &Path, table: Box<Table>)
    requires whole { IsWholeTable table.value }
    ensures seen { seen_places variables.new ≡ change_at (path_view path.now) (λ d. cell tt a_table (table_parts table.value)) (seen_places variables.old) }
    ensures keyed { keyed_places variables.new ≡ change_at (path_view path.now) (λ d. cell table.value.columns.items a_table (keyed_parts table.value)) (keyed_places variables.old) }
{
    let _away = variables.exchange(path, Value::Table(table));
}

/// Puts a row behind the others of the table that is read at a path, where the table allows it. False where nothing is there.
fn insert_at(variables: &mut Variables, table: &Path, row: Value) -> Result<bool, AllocError>
    requires whole { IsWhole row }
    ensures inserted { IfOk result (λ b. IsTrue b → seen_places variables.new ≡ change_at (path_view table.now) (with_parts (add_row (value_view row))) (seen_places variables.old)) }
    ensures there { IfOk result (λ b. (key : List ℕ) → IsTableOf key (read_at (path_view table.now) (keyed_places variables.old)) → Allows key (value_view row) (read_at (path_view table.now) (seen_places variables.old)) → b ≡ is_some (read_at (path_view table.now) (seen_places variables.old))) }
    ensures same_key { IfOk result (λ b. (key : List ℕ) → IsTableOf key (read_at (path_view table.now) (keyed_places variables.old)) → IsTableOf key (read_at (path_view table.now) (keyed_places variables.new))) }
{
    let Some(mut held) = take_table(variables, table) else {
        return Ok(false);
    };
    let answer = held.insert(row);
    put_table(variables, table, held);
    match answer {
        Ok(()) => Ok(true),
        Err(InsertFault::Duplicate(_)) => Ok(false),
        Err(InsertFault::Full(_)) => Ok(false),
        Err(InsertFault::Memory(_)) => Err(AllocError),
    }
}

/// What taking a row out of a table comes to: nothing is read there, no row has the key, or this row.
#[derive(Drop)]
pub enum TakenRow {
    NoTable,
    NoRow,
    Row(Value),
}

/// Takes the row with this key out of the table that is read at a path.
fn remove_at(variables: &mut Variables, table: &Path, key: &Vec<Scalar>) -> TakenRow
    ensures removed { (columns : List ℕ) → IsTableOf columns (read_at (path_view table.now) (keyed_places variables.old)) → IsRemoved result columns (key_view key.now.items) (path_view table.now) (seen_places variables.old) (seen_places variables.new) }
    ensures whole { IsWholeTaken result }
{
    let Some(mut held) = take_table(variables, table) else {
        return TakenRow::NoTable;
    };
    let row = held.remove(key);
    put_table(variables, table, held);
    match row {
        Some(v) => TakenRow::Row(v),
        None => TakenRow::NoRow,
    }
}

/// What a table raises at a row, where it refuses it.
fn refusal(alloc: Global, table: &Table, row: &Value) -> Result<Option<ExcNo>, AllocError>
    requires whole { IsWholeTable table.now }
    ensures refusal { IfOk result (λ o. option_map (λ e. e.0) o ≡ refusal table.now.columns.items (value_view row.now) (table_parts table.now)) }
{
    let key = key_of(alloc, table.columns(), row)?;
    if let Some(_there) = table.find(&key) {
        return Ok(Some(DUPLICATE_KEY));
    }
    if table.len() >= MOST_ROWS {
        return Ok(Some(DEPLETION));
    }
    Ok(None)
}

impl Frame {
    /// The table that is read at a path.
    fn table_at(&self, path: &Path) -> Option<&Table>
        ensures some { IfSome result (λ t. (key : List ℕ) (s : ModelFrame ⊤) → IsTableOf key (read_at (path_view path.now) (keyed_places self.now.variables)) → Stands self.now s → (t.now.columns.items ≡ key) × (Some (cell tt a_table (table_parts t.now)) ≡ read_at (path_view path.now) s.variables)) }
        ensures none { IfNone result ((key : List ℕ) (s : ModelFrame ⊤) → IsTableOf key (read_at (path_view path.now) (keyed_places self.now.variables)) → Stands self.now s → None ≡ read_at (path_view path.now) s.variables) }
        ensures whole { IfSome result (λ t. IsWholeTable t.now) }
    {
        let Some(v) = self.read(path) else {
            return None;
        };
        table_in(v)
    }

    /// What an insertion comes to where no row moves: something is not there, or the table refuses the row.
    fn refused(
        &self,
        alloc: Global,
        row: &Path,
        table: &Path,
    ) -> Result<Option<Outcome>, AllocError>
        ensures refused { IfOk result (λ o. IfSome o (λ outcome. (key : List ℕ) (lost : List paths.Path) (s : ModelFrame ⊤) → IsTableOf key (read_at (path_view table.now) (keyed_places self.now.variables)) → Stands self.now s → Completes (outcome_view outcome) self.now (insert key lost (path_view row.now) (path_view table.now) s))) }
        ensures allowed { IfOk result (λ o. IfNone o ((key : List ℕ) (s : ModelFrame ⊤) → IsTableOf key (read_at (path_view table.now) (keyed_places self.now.variables)) → Stands self.now s → IsAllowed key (path_view row.now) (path_view table.now) s)) }
    {
        let Some(v) = self.at(row) else {
            return Ok(Some(Outcome::Stuck));
        };
        let Some(held) = self.table_at(table) else {
            return Ok(Some(Outcome::Stuck));
        };
        let Some(e) = refusal(alloc, held, v)? else {
            return Ok(None);
        };
        Ok(Some(Outcome::Raised(e)))
    }

    /// Puts a row behind the others of a table, which allows it.
    fn add_row(&mut self, table: &Path, row: Value) -> Result<Outcome, AllocError>
        requires whole { IsWhole row }
        ensures added { IfOk result (λ r. (key : List ℕ) (s : ModelFrame ⊤) → IsTableOf key (read_at (path_view table.now) (keyed_places self.old.variables)) → Allows key (value_view row) (read_at (path_view table.now) s.variables) → Stands self.old s → Completes (outcome_view r) self.new (adding (path_view table.now) (value_view row) s)) }
        ensures same_key { IfOk result (λ r. (key : List ℕ) → IsTableOf key (read_at (path_view table.now) (keyed_places self.old.variables)) → IsTableOf key (read_at (path_view table.now) (keyed_places self.new.variables))) }
    {
        let is_there = insert_at(&mut self.variables, table, row)?;
        if is_there {
            return Ok(Outcome::Next);
        }
        Ok(Outcome::Stuck)
    }

    /// Moves a row into a table, where none of its rows has the same key and it has room. The table has the fields of its key
    /// from its type, and they are scalar fields of the row's type.
    pub fn insert(
        &mut self,
        alloc: Global,
        types: &TypeTable,
        of: &[TypeNo],
        row: &Path,
        table: &Path,
    ) -> Result<Outcome, AllocError>
        ensures effect { IfOk result (λ r. (c : ReadyCode) (stack : List model.Value) (s : ModelFrame ⊤) → IsOf types.now of.now c → IsTableOf (key_at c.scope (path_view table.now)) (read_at (path_view table.now) (keyed_places self.old.variables)) → HasKeyFields c.scope (key_at c.scope (path_view table.now)) (path_view row.now) → Stands self.old s → Effects r self.new stack (effect forget_name c (instructions.Insert (path_view row.now) (path_view table.now)) stack s)) }
        ensures same_key { IfOk result (λ r. (c : ReadyCode) (key : List ℕ) (s : ModelFrame ⊤) → IsOf types.now of.now c → IsTableOf key (read_at (path_view table.now) (keyed_places self.old.variables)) → Stands self.old s → IsTableOf key (read_at (path_view table.now) (keyed_places self.new.variables))) }
    {
        if let Some(outcome) = self.refused(alloc, row, table)? {
            return Ok(outcome);
        }
        let Some(v) = self.take_full(alloc, types, of, row)? else {
            return Ok(Outcome::Stuck);
        };
        let r = self.add_row(table, v)?;
        Ok(r)
    }

    /// Takes the row of a table that has a key, which stood on the stack, and places it. The table has the fields of its key
    /// from its type.
    pub fn remove_row(
        &mut self,
        target: &Path,
        table: &Path,
        key: &Vec<Scalar>,
    ) -> Result<Outcome, AllocError>
        ensures effect { IfOk result (λ r. (c : ReadyCode) (s : ModelFrame ⊤) → IsTableOf (key_at c.scope (path_view table.now)) (read_at (path_view table.now) (keyed_places self.old.variables)) → Stands self.old s → Completes (outcome_view r) self.new (rows.remove (key_at c.scope (path_view table.now)) (key_view key.now.items) (path_view target.now) (path_view table.now) s)) }
    {
        match remove_at(&mut self.variables, table, key) {
            TakenRow::NoTable => Ok(Outcome::Stuck),
            TakenRow::NoRow => Ok(Outcome::Raised(NOT_FOUND)),
            TakenRow::Row(row) => {
                let r = self.put_at_end(target, row, Outcome::Next)?;
                Ok(r)
            }
        }
    }
}
