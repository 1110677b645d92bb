//! Instructions that lead elsewhere and leave the frame as it is.
ghost use Rattle.std.specs.Prelude.{◌≡◌, ℕ, true, ⊤};
ghost use Rattle.herm_journal.specs.Renaming.{forget_name};
ghost use Rattle.herm_forms.specs.Frames as frames;
ghost use Rattle.herm_code.specs.View.{instr_view};
ghost use Rattle.herm_code_machine.specs.Effects.{effect};
ghost use Rattle.herm_frames.specs.Standing.{Stands};
ghost use Rattle.herm_pieces.specs.View.{ready_view};
ghost use Rattle.herm_stack.specs.Answers.{on_stack};
ghost use Rattle.herm_code_machine.specs.ReadyCode.{ReadyCode};
ghost use Rattle.herm_instructions.specs.Instructions as instructions;
ghost use Rattle.herm_steps.specs.Kinds.{is_leading};
ghost use Rattle.herm_steps.specs.Performed.{Performs};

use crate::running::Running;
use herm_code::Instr;
use herm_frames::{Outcome, tested};
use herm_pieces::Code;

impl Running {
    /// Jumps, tests the top of the stack, or raises an exception. No memory.
    #[inline(always)]
    pub fn lead(&mut self, code: &Code, instruction: &Instr) -> Outcome
        requires kind { is_leading (instr_view instruction.now) ≡ true }
        ensures performed { (b : frames.Frame ⊤) → Stands self.old.frame b → Performs result self.new (effect forget_name (ready_view code.now) (instr_view instruction.now) (on_stack self.old.stack) b) }
    {
        match instruction {
            Instr::Jump(_) => Outcome::Next,
            Instr::JumpFalse(_) => self.test(),
            Instr::Raise(e) => Outcome::Raised(*e),
            _ => Outcome::Stuck,
        }
    }

    /// Takes the top of the stack and tests it.
    #[inline(always)]
    fn test(&mut self) -> Outcome
        ensures performed { (c : ReadyCode) (index : ℕ) (b : frames.Frame ⊤) → Stands self.old.frame b → Performs result self.new (effect forget_name c (instructions.JumpFalse index) (on_stack self.old.stack) b) }
    {
        let Some(v) = self.stack.top() else {
            return Outcome::Stuck;
        };
        let outcome = tested(v);
        let _gone = self.stack.let_go();
        outcome
    }
}
