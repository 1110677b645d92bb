//! Rows of tables that stand at paths.
ghost use Rattle.std.specs.Prelude.{◌≡◌, IfOk, IfSome, IfNone, List, Some, None, ⊤};
ghost use Rattle.herm_journal.specs.Renaming.{forget_name};
ghost use Rattle.herm_model.specs.Values as model;
ghost use Rattle.herm_model.specs.Values.{a_table, cell, kind_of, read_at};
ghost use Rattle.herm_forms.specs.Acts.{key_at};
ghost use Rattle.herm_forms.specs.RemoveAndGet as rows;
ghost use Rattle.herm_forms.specs.Frames.{Frame as ModelFrame};
ghost use Rattle.herm_code_machine.specs.ReadyCode.{ReadyCode};
ghost use Rattle.herm_types.specs.View.{path_view};
ghost use Rattle.herm_places.specs.Held.{keyed_places};
ghost use Rattle.herm_values.specs.Keyed.{keyed_view, keyed_parts};
ghost use Rattle.herm_values.specs.View.{key_view, value_view, table_parts};
ghost use Rattle.herm_values.specs.Whole.{IsWhole, IsWholeTable};
ghost use Rattle.herm_frames.specs.Completed.{Completes, outcome_view};
ghost use Rattle.herm_frames.specs.KeyedTables.{IsTableOf};
ghost use Rattle.herm_frames.specs.Standing.{Stands};

use crate::frame::Frame;
use crate::outcome::Outcome;
use herm_base::ExcNo;
use herm_types::Path;
use herm_values::{Scalar, Table, Value, copy_of};
use std::alloc::{AllocError, Global};

/// Raised where no row has the key.
const NOT_FOUND: ExcNo = ExcNo(5);

/// The table that a value is.
#[tactic(auto, using(crate::proofs::TablesSeen::seeing_tables))]
pub fn table_in(v: &Value) -> Option<&Table>
    ensures seen { IfSome result (λ t. value_view v.now ≡ cell tt a_table (table_parts t.now)) }
    ensures keyed { IfSome result (λ t. keyed_view v.now ≡ cell t.now.columns.items a_table (keyed_parts t.now)) }
    ensures none { IfNone result (kind_of (keyed_view v.now) ≡ a_table → ⊥) }
    ensures whole { IsWhole v.now → IfSome result (λ t. IsWholeTable t.now) }
{
    match v {
        Value::Bool(_) => None,
        Value::Int(_) => None,
        Value::Text(_) => None,
        Value::Tag(_) => None,
        Value::Fields(_) => None,
        Value::Case(_, _) => None,
        Value::Table(table) => Some(table),
        Value::Poly(_) => None,
        Value::Call(_) => None,
        Value::Inport(_) => None,
        Value::Outport(_) => None,
    }
}

impl Frame {
    /// Copies the row of a table that has a key, which stood on the stack. The table has the fields of its key from its type.
    pub fn get_row(
        &mut self,
        alloc: Global,
        target: &Path,
        table: &Path,
        key: &Vec<Scalar>,
    ) -> Result<Outcome, AllocError>
        ensures effect { IfOk result (λ r. (c : ReadyCode) (s : ModelFrame ⊤) → IsTableOf (key_at c.scope (path_view table.now)) (read_at (path_view table.now) (keyed_places self.old.variables)) → Stands self.old s → Completes (outcome_view r) self.new (rows.get forget_name (key_at c.scope (path_view table.now)) (key_view key.now.items) (path_view target.now) (path_view table.now) s)) }
    {
        let Some(v) = self.read(table) else {
            return Ok(Outcome::Stuck);
        };
        let Some(held) = table_in(v) else {
            return Ok(Outcome::Stuck);
        };
        let Some(row) = held.find(key) else {
            return Ok(Outcome::Raised(NOT_FOUND));
        };
        let copy = copy_of(alloc, row)?;
        self.make_cells(&copy);
        let r = self.put_at_end(target, copy, Outcome::Next)?;
        Ok(r)
    }
}
