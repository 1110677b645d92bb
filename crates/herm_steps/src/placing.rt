//! Values at paths that are placed, made, moved and let go.
ghost use Rattle.std.specs.Prelude.{◌≡◌, IfOk, true, ⊤};
ghost use Rattle.herm_journal.specs.Renaming.{forget_name};
ghost use Rattle.herm_forms.specs.Frames as frames;
ghost use Rattle.herm_code.specs.View.{instr_view};
ghost use Rattle.herm_code_machine.specs.Effects.{effect};
ghost use Rattle.herm_frames.specs.Standing.{Stands};
ghost use Rattle.herm_pieces.specs.View.{ready_view};
ghost use Rattle.herm_stack.specs.Answers.{on_stack};
ghost use Rattle.herm_code_machine.specs.ReadyCode.{ReadyCode};
ghost use Rattle.herm_instructions.specs.Instructions as instructions;
ghost use Rattle.herm_types.specs.View.{path_view};
ghost use Rattle.herm_steps.specs.Kinds.{is_placing, is_storing};
ghost use Rattle.herm_steps.specs.Performed.{Performs};

use crate::running::Running;
use herm_code::Instr;
use herm_frames::Outcome;
use herm_pieces::Code;
use herm_types::Path;
use std::alloc::{AllocError, Global};

impl Running {
    /// Makes, moves or lets go a value at a path.
    pub fn place(
        &mut self,
        alloc: Global,
        code: &Code,
        instruction: &Instr,
    ) -> Result<Outcome, AllocError>
        requires kind { is_placing (instr_view instruction.now) ≡ true }
        ensures performed { IfOk result (λ o. (b : frames.Frame ⊤) → Stands self.old.frame b → Performs o self.new (effect forget_name (ready_view code.now) (instr_view instruction.now) (on_stack self.old.stack) b)) }
    {
        match instruction {
            Instr::Move(source, target) => {
                let outcome = self.frame.move_value(
                    alloc,
                    code.types,
                    code.code.vars.as_slice(),
                    source,
                    target,
                )?;
                Ok(outcome)
            }
            Instr::New(target, t) => {
                let outcome = self.frame.new_value(alloc, code.types, target, *t)?;
                Ok(outcome)
            }
            Instr::Discard(source) => {
                let outcome = self.frame.discard(source)?;
                Ok(outcome)
            }
            Instr::Connect(target, port) => {
                let outcome = self.frame.connect(target, port)?;
                Ok(outcome)
            }
            Instr::Drop(path) => {
                let outcome = self.frame.drop_path(path)?;
                Ok(outcome)
            }
            _ => Ok(Outcome::Stuck),
        }
    }

    /// Places the top of the stack, as an instruction says.
    #[inline(always)]
    pub fn store_by(&mut self, instruction: &Instr) -> Result<Outcome, AllocError>
        requires kind { is_storing (instr_view instruction.now) ≡ true }
        ensures performed { IfOk result (λ o. (c : ReadyCode) (b : frames.Frame ⊤) → Stands self.old.frame b → Performs o self.new (effect forget_name c (instr_view instruction.now) (on_stack self.old.stack) b)) }
    {
        match instruction {
            Instr::Store(target) => {
                let outcome = self.store(target)?;
                Ok(outcome)
            }
            _ => Ok(Outcome::Stuck),
        }
    }

    /// Places the top of the stack.
    #[inline(always)]
    fn store(&mut self, target: &Path) -> Result<Outcome, AllocError>
        ensures performed { IfOk result (λ o. (c : ReadyCode) (b : frames.Frame ⊤) → Stands self.old.frame b → Performs o self.new (effect forget_name c (instructions.Store (path_view target.now)) (on_stack self.old.stack) b)) }
    {
        let Some(v) = self.stack.pop() else {
            return Ok(Outcome::Stuck);
        };
        let outcome = self.frame.store(target, v)?;
        Ok(outcome)
    }
}
