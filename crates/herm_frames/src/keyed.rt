//! Instructions on the rows of tables that get the fields of their type as their key first.
ghost use Rattle.std.specs.Prelude.{◌≡◌, IfOk, IfSome, IfNone, IsTrue, IsFalse, List, Ok, true, ⊤};
ghost use Rattle.herm_journal.specs.Renaming.{forget_name};
ghost use Rattle.herm_model.specs.Values as model;
ghost use Rattle.herm_model.specs.Values.{read_at};
ghost use Rattle.herm_forms.specs.Acts.{key_at};
ghost use Rattle.herm_forms.specs.Frames.{Frame as ModelFrame};
ghost use Rattle.herm_forms.specs.RemoveAndGet as rows;
ghost use Rattle.herm_instructions.specs.Instructions as instructions;
ghost use Rattle.herm_code_machine.specs.ReadyCode.{ReadyCode};
ghost use Rattle.herm_code_machine.specs.Effects.{effect};
ghost use Rattle.herm_types.specs.View.{path_view};
ghost use Rattle.herm_places.specs.Held.{keyed_places};
ghost use Rattle.herm_values.specs.View.{key_view};
ghost use Rattle.herm_frames.specs.Completed.{Completes, Effects, outcome_view};
ghost use Rattle.herm_frames.specs.KeyedTables.{HasKeyFields, IsTableOf};
ghost use Rattle.herm_frames.specs.Keyings.{CanHaveKey};
ghost use Rattle.herm_frames.specs.Scopes.{IsOf};
ghost use Rattle.herm_frames.specs.Standing.{Stands};

use crate::columns::{has_key_fields, key_columns};
use crate::frame::Frame;
use crate::insertions::put_table;
use crate::outcome::Outcome;
use crate::rekeying::{Keying, keying_at};
use herm_base::TypeNo;
use herm_types::{Path, TypeTable};
use herm_values::Scalar;
use std::alloc::{AllocError, Global};

impl Frame {
    /// Makes sure that nothing is read at a path, or a table with these fields as its key: a table with another key is made
    /// anew. False where there is no table, or its rows do not differ by these fields.
    pub fn key_table(
        &mut self,
        alloc: Global,
        path: &Path,
        columns: &[u32],
    ) -> Result<bool, AllocError>
        ensures stands { IfOk result (λ b. IsTrue b → (s : ModelFrame ⊤) → Stands self.old s → Stands self.new s) }
        ensures keyed { IfOk result (λ b. IsTrue b → IsTableOf columns.now (read_at (path_view path.now) (keyed_places self.new.variables))) }
        ensures cannot { IfOk result (λ b. IsFalse b → (s : ModelFrame ⊤) → Stands self.old s → CanHaveKey columns.now (read_at (path_view path.now) s.variables) → ⊥) }
        ensures kept { IsTableOf columns.now (read_at (path_view path.now) (keyed_places self.old.variables)) → (result ≡ Ok true) × (self.new ≡ self.old) }
    {
        let keying = keying_at(alloc, &self.variables, path, columns)?;
        match keying {
            Keying::Kept => Ok(true),
            Keying::Refused => Ok(false),
            Keying::Anew(table) => {
                put_table(&mut self.variables, path, table);
                Ok(true)
            }
        }
    }

    /// Moves a row into a table. None where the rows of the table do not differ by the key of its type, or the row's type is no
    /// record of which the key's fields are scalars: neither is so in checked code.
    pub fn insert_row(
        &mut self,
        alloc: Global,
        types: &TypeTable,
        of: &[TypeNo],
        row: &Path,
        table: &Path,
    ) -> Result<Option<Outcome>, AllocError>
        ensures effect { IfOk result (λ o. IfSome o (λ r. (c : ReadyCode) (stack : List model.Value) (s : ModelFrame ⊤) → IsOf types.now of.now c → Stands self.old s → Effects r self.new stack (effect forget_name c (instructions.Insert (path_view row.now) (path_view table.now)) stack s))) }
        ensures none { IfOk result (λ o. IfNone o ((c : ReadyCode) (s : ModelFrame ⊤) → IsOf types.now of.now c → Stands self.old s → HasKeyFields c.scope (key_at c.scope (path_view table.now)) (path_view row.now) → CanHaveKey (key_at c.scope (path_view table.now)) (read_at (path_view table.now) s.variables) → ⊥)) }
    {
        let columns = key_columns(types, of, table);
        if !has_key_fields(types, of, row, columns) {
            return Ok(None);
        }
        let is_keyed = self.key_table(alloc, table, columns)?;
        if !is_keyed {
            return Ok(None);
        }
        let r = self.insert(alloc, types, of, row, table)?;
        Ok(Some(r))
    }

    /// Takes the row of a table that has a key, which stood on the stack, and places it. None where the rows of the table do not
    /// differ by the key of its type.
    pub fn take_row(
        &mut self,
        alloc: Global,
        types: &TypeTable,
        of: &[TypeNo],
        target: &Path,
        table: &Path,
        key: &Vec<Scalar>,
    ) -> Result<Option<Outcome>, AllocError>
        ensures removed { IfOk result (λ o. IfSome o (λ r. (c : ReadyCode) (s : ModelFrame ⊤) → IsOf types.now of.now c → Stands self.old s → Completes (outcome_view r) self.new (rows.remove (key_at c.scope (path_view table.now)) (key_view key.now.items) (path_view target.now) (path_view table.now) s))) }
        ensures none { IfOk result (λ o. IfNone o ((c : ReadyCode) (s : ModelFrame ⊤) → IsOf types.now of.now c → Stands self.old s → CanHaveKey (key_at c.scope (path_view table.now)) (read_at (path_view table.now) s.variables) → ⊥)) }
    {
        let columns = key_columns(types, of, table);
        let is_keyed = self.key_table(alloc, table, columns)?;
        if !is_keyed {
            return Ok(None);
        }
        let r = self.remove_row(target, table, key)?;
        Ok(Some(r))
    }

    /// Places a copy of the row of a table that has a key, which stood on the stack. None where the rows of the table do not
    /// differ by the key of its type.
    pub fn copy_row(
        &mut self,
        alloc: Global,
        types: &TypeTable,
        of: &[TypeNo],
        target: &Path,
        table: &Path,
        key: &Vec<Scalar>,
    ) -> Result<Option<Outcome>, AllocError>
        ensures copied { IfOk result (λ o. IfSome o (λ r. (c : ReadyCode) (s : ModelFrame ⊤) → IsOf types.now of.now c → Stands self.old s → Completes (outcome_view r) self.new (rows.get forget_name (key_at c.scope (path_view table.now)) (key_view key.now.items) (path_view target.now) (path_view table.now) s))) }
        ensures none { IfOk result (λ o. IfNone o ((c : ReadyCode) (s : ModelFrame ⊤) → IsOf types.now of.now c → Stands self.old s → CanHaveKey (key_at c.scope (path_view table.now)) (read_at (path_view table.now) s.variables) → ⊥)) }
    {
        let columns = key_columns(types, of, table);
        let is_keyed = self.key_table(alloc, table, columns)?;
        if !is_keyed {
            return Ok(None);
        }
        let r = self.get_row(alloc, target, table, key)?;
        Ok(Some(r))
    }
}
