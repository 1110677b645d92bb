//! Loops over rows: their turns, and where they are left.
ghost use Rattle.std.specs.Prelude.{◌≡◌, IfOk, List, ℕ, Some, None, ⊤};
ghost use Rattle.herm_journal.specs.Renaming.{forget_name};
ghost use Rattle.herm_model.specs.Values as model;
ghost use Rattle.herm_forms.specs.Frames.{Frame as ModelFrame};
ghost use Rattle.herm_instructions.specs.Instructions as instructions;
ghost use Rattle.herm_code_machine.specs.ReadyCode.{ReadyCode};
ghost use Rattle.herm_code_machine.specs.Effects.{effect};
ghost use Rattle.herm_types.specs.View.{path_view};
ghost use Rattle.herm_frames.specs.Completed.{Effects};
ghost use Rattle.herm_frames.specs.Standing.{Stands};

use crate::counts::sum;
use crate::frame::Frame;
use crate::loops::Loop;
use crate::outcome::Outcome;
use crate::rows::{NextRow, copies_of, leave, next_row};
use herm_types::Path;
use std::alloc::{AllocError, Global};

impl Frame {
    /// Finalises what is left in a slot, and the slot is gone.
    pub fn drop_loop(&mut self, slot: u32) -> Result<Outcome, AllocError>
        ensures effect { IfOk result (λ r. (c : ReadyCode) (stack : List model.Value) (s : ModelFrame ⊤) → Stands self.old s → Effects r self.new stack (effect forget_name c (instructions.LoopDrop slot) stack s)) }
    {
        let count = leave(&mut self.loops, slot, &mut self.work, self.finalised)?;
        self.finalised = count;
        Ok(Outcome::Next)
    }

    /// Copies the rows of a table into a slot.
    pub fn start_loop(
        &mut self,
        alloc: Global,
        table: &Path,
        slot: u32,
    ) -> Result<Outcome, AllocError>
        ensures effect { IfOk result (λ r. (c : ReadyCode) (stack : List model.Value) (s : ModelFrame ⊤) → Stands self.old s → Effects r self.new stack (effect forget_name c (instructions.LoopStart (path_view table.now) slot) stack s)) }
    {
        let Some(v) = self.read(table) else {
            return Ok(Outcome::Stuck);
        };
        let copies = copies_of(alloc, v)?;
        self.made = sum(self.made, copies.cells);
        self.loops.push(Loop {
            slot,
            rows: copies.rows,
        })?;
        Ok(Outcome::Next)
    }

    /// Moves the next row of a slot to a path, where one is left.
    pub fn next_turn(&mut self, target: &Path, slot: u32) -> Result<Outcome, AllocError>
        ensures effect { IfOk result (λ r. (c : ReadyCode) (index : ℕ) (stack : List model.Value) (s : ModelFrame ⊤) → Stands self.old s → Effects r self.new stack (effect forget_name c (instructions.LoopNext (path_view target.now) slot index) stack s)) }
    {
        let next = next_row(&mut self.loops, slot)?;
        match next {
            NextRow::NoLoop => Ok(Outcome::Stuck),
            NextRow::NoRow => Ok(Outcome::Done),
            NextRow::Empty => Ok(Outcome::Stuck),
            NextRow::Row(row) => {
                let r = self.put_at_end(target, row, Outcome::Turn)?;
                Ok(r)
            }
        }
    }
}
