//! Rows of tables.
ghost use Rattle.std.specs.Prelude.{◌≡◌, IfOk, IfNone, IfSome, true, ⊤};
ghost use Rattle.herm_journal.specs.Renaming.{forget_name};
ghost use Rattle.herm_forms.specs.Frames as frames;
ghost use Rattle.herm_code.specs.View.{instr_view};
ghost use Rattle.herm_code_machine.specs.Effects.{effect};
ghost use Rattle.herm_frames.specs.Standing.{Stands};
ghost use Rattle.herm_instructions.specs.Instructions as instructions;
ghost use Rattle.herm_pieces.specs.View.{ready_view};
ghost use Rattle.herm_stack.specs.Answers.{on_stack};
ghost use Rattle.herm_types.specs.View.{path_view};
ghost use Rattle.herm_steps.specs.KeysThere.{CanBeKeyed};
ghost use Rattle.herm_steps.specs.Kinds.{is_tabular};
ghost use Rattle.herm_steps.specs.Performed.{Performs};

use crate::running::Running;
use herm_code::Instr;
use herm_frames::Outcome;
use herm_pieces::Code;
use herm_types::Path;
use std::alloc::{AllocError, Global};

impl Running {
    /// Puts a row into a table, takes one out, or copies one, where the table has the key of its type, or gets it first. None only
    /// where it cannot have it, or a row is no record with its fields: neither is so in a run of a sound process.
    pub fn tabulate(
        &mut self,
        alloc: Global,
        code: &Code,
        instruction: &Instr,
    ) -> Result<Option<Outcome>, AllocError>
        requires kind { is_tabular (instr_view instruction.now) ≡ true }
        ensures performed { IfOk result (λ o. IfSome o (λ o. (b : frames.Frame ⊤) → Stands self.old.frame b → Performs o self.new (effect forget_name (ready_view code.now) (instr_view instruction.now) (on_stack self.old.stack) b))) }
        ensures refused { IfOk result (λ o. IfNone o ((b : frames.Frame ⊤) → Stands self.old.frame b → CanBeKeyed (ready_view code.now) (instr_view instruction.now) b → ⊥)) }
    {
        match instruction {
            Instr::Insert(row, table) => {
                let outcome = self.insert(alloc, code, row, table)?;
                Ok(outcome)
            }
            Instr::Remove(target, table, n) => {
                let outcome = self.remove(alloc, code, target, table, *n)?;
                Ok(outcome)
            }
            Instr::Get(target, table, n) => {
                let outcome = self.get(alloc, code, target, table, *n)?;
                Ok(outcome)
            }
            _ => Ok(Some(Outcome::Stuck)),
        }
    }

    /// Moves a row into a table. None only where the table cannot have the key of its type, or the row is no record with its fields.
    fn insert(
        &mut self,
        alloc: Global,
        code: &Code,
        row: &Path,
        table: &Path,
    ) -> Result<Option<Outcome>, AllocError>
        ensures performed { IfOk result (λ o. IfSome o (λ o. (b : frames.Frame ⊤) → Stands self.old.frame b → Performs o self.new (effect forget_name (ready_view code.now) (instructions.Insert (path_view row.now) (path_view table.now)) (on_stack self.old.stack) b))) }
        ensures refused { IfOk result (λ o. IfNone o ((b : frames.Frame ⊤) → Stands self.old.frame b → CanBeKeyed (ready_view code.now) (instructions.Insert (path_view row.now) (path_view table.now)) b → ⊥)) }
    {
        let of = code.code.vars.as_slice();
        let Some(outcome) = self.frame.insert_row(alloc, code.types, of, row, table)? else {
            return Ok(None);
        };
        Ok(Some(outcome))
    }

    /// Takes the row out of a table that has the key of so many values on the stack. None only where the table cannot have the key of
    /// its type.
    fn remove(
        &mut self,
        alloc: Global,
        code: &Code,
        target: &Path,
        table: &Path,
        n: u32,
    ) -> Result<Option<Outcome>, AllocError>
        ensures performed { IfOk result (λ o. IfSome o (λ o. (b : frames.Frame ⊤) → Stands self.old.frame b → Performs o self.new (effect forget_name (ready_view code.now) (instructions.Remove (path_view target.now) (path_view table.now) n) (on_stack self.old.stack) b))) }
        ensures refused { IfOk result (λ o. IfNone o ((b : frames.Frame ⊤) → Stands self.old.frame b → CanBeKeyed (ready_view code.now) (instructions.Remove (path_view target.now) (path_view table.now) n) b → ⊥)) }
    {
        let Some(key) = self.stack.take_key(alloc, n as usize)? else {
            return Ok(Some(Outcome::Stuck));
        };
        let of = code.code.vars.as_slice();
        let Some(outcome) = self
            .frame
            .take_row(alloc, code.types, of, target, table, &key)?
        else {
            return Ok(None);
        };
        Ok(Some(outcome))
    }

    /// Copies the row of a table that has the key of so many values on the stack. None only where the table cannot have the key of its
    /// type.
    fn get(
        &mut self,
        alloc: Global,
        code: &Code,
        target: &Path,
        table: &Path,
        n: u32,
    ) -> Result<Option<Outcome>, AllocError>
        ensures performed { IfOk result (λ o. IfSome o (λ o. (b : frames.Frame ⊤) → Stands self.old.frame b → Performs o self.new (effect forget_name (ready_view code.now) (instructions.Get (path_view target.now) (path_view table.now) n) (on_stack self.old.stack) b))) }
        ensures refused { IfOk result (λ o. IfNone o ((b : frames.Frame ⊤) → Stands self.old.frame b → CanBeKeyed (ready_view code.now) (instructions.Get (path_view target.now) (path_view table.now) n) b → ⊥)) }
    {
        let Some(key) = self.stack.take_key(alloc, n as usize)? else {
            return Ok(Some(Outcome::Stuck));
        };
        let of = code.code.vars.as_slice();
        let Some(outcome) = self
            .frame
            .copy_row(alloc, code.types, of, target, table, &key)?
        else {
            return Ok(None);
        };
        Ok(Some(outcome))
    }
}
