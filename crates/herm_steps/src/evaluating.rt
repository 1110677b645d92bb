//! A process does the instructions of expressions.
ghost use Rattle.std.specs.Prelude.{◌≡◌, IfOk, true, ⊤};
ghost use Rattle.herm_journal.specs.Renaming.{forget_name};
ghost use Rattle.herm_forms.specs.Frames as frames;
ghost use Rattle.herm_code.specs.View.{instr_view};
ghost use Rattle.herm_code_machine.specs.Effects.{effect};
ghost use Rattle.herm_code_machine.specs.ReadyCode.{ReadyCode};
ghost use Rattle.herm_frames.specs.Standing.{Stands};
ghost use Rattle.herm_instructions.specs.Instructions.{Apply, Combine, as_text};
ghost use Rattle.herm_model.specs.Expressions.{concatenated};
ghost use Rattle.herm_pieces.specs.View.{ready_view};
ghost use Rattle.herm_stack.specs.Answers.{binary_view, effect_of, on_stack, unary_view};
ghost use Rattle.herm_steps.specs.HeldStates.{HeldState};
ghost use Rattle.herm_steps.specs.Kinds.{is_pushing, is_sizing};
ghost use Rattle.herm_steps.specs.Performed.{Performs};

use crate::expressions::{push_size, push_value};
use crate::running::Running;
use herm_code::Instr;
use herm_frames::Outcome;
use herm_pieces::Code;
use herm_stack::{Binary, Completion, Unary};
use std::alloc::{AllocError, Global};

/// What an instruction of an expression came to.
fn outcome_by(done: Completion) -> Outcome
    ensures performed { (p : HeldState) (b : frames.Frame ⊤) → Stands p.frame b → Performs result p (effect_of done (on_stack p.stack) b) }
{
    match done {
        Completion::Next => Outcome::Next,
        Completion::Raised(e) => Outcome::Raised(e),
        Completion::Stuck => Outcome::Stuck,
    }
}

impl Running {
    /// Pushes a constant or a copy.
    #[inline(always)]
    pub fn push(
        &mut self,
        alloc: Global,
        code: &Code,
        instruction: &Instr,
    ) -> Result<Outcome, AllocError>
        requires kind { is_pushing (instr_view instruction.now) ≡ true }
        ensures performed { IfOk result (λ o. (b : frames.Frame ⊤) → Stands self.old.frame b → Performs o self.new (effect forget_name (ready_view code.now) (instr_view instruction.now) (on_stack self.old.stack) b)) }
    {
        let Some(done) = push_value(alloc, code, &self.frame, &mut self.stack, instruction)? else {
            return Ok(Outcome::Stuck);
        };
        Ok(outcome_by(done))
    }

    /// Pushes the number of rows of a table.
    pub fn size(&mut self, code: &Code, instruction: &Instr) -> Result<Outcome, AllocError>
        requires kind { is_sizing (instr_view instruction.now) ≡ true }
        ensures performed { IfOk result (λ o. (b : frames.Frame ⊤) → Stands self.old.frame b → Performs o self.new (effect forget_name (ready_view code.now) (instr_view instruction.now) (on_stack self.old.stack) b)) }
    {
        let Some(done) = push_size(code, &self.frame, &mut self.stack, instruction)? else {
            return Ok(Outcome::Stuck);
        };
        Ok(outcome_by(done))
    }

    /// Applies an operator to the top of the stack. It takes no memory.
    pub fn apply(&mut self, operator: Unary) -> Outcome
        ensures performed { (c : ReadyCode) (b : frames.Frame ⊤) → Stands self.old.frame b → Performs result self.new (effect forget_name c (Apply (unary_view operator)) (on_stack self.old.stack) b) }
    {
        outcome_by(self.stack.apply(operator))
    }

    /// Replaces the top of the stack by its decimal text.
    pub fn tell(&mut self, alloc: Global) -> Result<Outcome, AllocError>
        ensures performed { IfOk result (λ o. (c : ReadyCode) (b : frames.Frame ⊤) → Stands self.old.frame b → Performs o self.new (effect forget_name c (Apply as_text) (on_stack self.old.stack) b)) }
    {
        let done = self.stack.text(alloc)?;
        Ok(outcome_by(done))
    }

    /// Combines the top two of the stack. It takes no memory.
    #[inline(always)]
    pub fn combine(&mut self, operator: Binary) -> Outcome
        ensures performed { (c : ReadyCode) (b : frames.Frame ⊤) → Stands self.old.frame b → Performs result self.new (effect forget_name c (Combine (binary_view operator)) (on_stack self.old.stack) b) }
    {
        outcome_by(self.stack.combine(operator))
    }

    /// Replaces the top two strings of the stack by the one behind the other.
    pub fn join(&mut self, alloc: Global) -> Result<Outcome, AllocError>
        ensures performed { IfOk result (λ o. (c : ReadyCode) (b : frames.Frame ⊤) → Stands self.old.frame b → Performs o self.new (effect forget_name c (Combine concatenated) (on_stack self.old.stack) b)) }
    {
        let done = self.stack.concatenate(alloc)?;
        Ok(outcome_by(done))
    }
}
