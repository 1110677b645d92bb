//! Loops over rows.
ghost use Rattle.std.specs.Prelude.{◌≡◌, IfOk, true, ⊤};
ghost use Rattle.herm_journal.specs.Renaming.{forget_name};
ghost use Rattle.herm_forms.specs.Frames as frames;
ghost use Rattle.herm_code.specs.View.{instr_view};
ghost use Rattle.herm_code_machine.specs.Effects.{effect};
ghost use Rattle.herm_frames.specs.Standing.{Stands};
ghost use Rattle.herm_pieces.specs.View.{ready_view};
ghost use Rattle.herm_stack.specs.Answers.{on_stack};
ghost use Rattle.herm_steps.specs.Kinds.{is_looping};
ghost use Rattle.herm_steps.specs.Performed.{Performs};

use crate::running::Running;
use herm_code::Instr;
use herm_frames::Outcome;
use herm_pieces::Code;
use std::alloc::{AllocError, Global};

impl Running {
    /// Begins a loop over rows, takes its next turn, or lets go what is left of it.
    pub fn visit(
        &mut self,
        alloc: Global,
        code: &Code,
        instruction: &Instr,
    ) -> Result<Outcome, AllocError>
        requires kind { is_looping (instr_view instruction.now) ≡ true }
        ensures performed { IfOk result (λ o. (b : frames.Frame ⊤) → Stands self.old.frame b → Performs o self.new (effect forget_name (ready_view code.now) (instr_view instruction.now) (on_stack self.old.stack) b)) }
    {
        match instruction {
            Instr::LoopStart(table, slot) => {
                let outcome = self.frame.start_loop(alloc, table, *slot)?;
                Ok(outcome)
            }
            Instr::LoopNext(target, slot, _) => {
                let outcome = self.frame.next_turn(target, *slot)?;
                Ok(outcome)
            }
            Instr::LoopDrop(slot) => {
                let outcome = self.frame.drop_loop(*slot)?;
                Ok(outcome)
            }
            _ => Ok(Outcome::Stuck),
        }
    }
}
