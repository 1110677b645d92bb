//! What variants and polymorphs hold.
ghost use Rattle.std.specs.Prelude.{◌≡◌, IfOk, true, ⊤};
ghost use Rattle.herm_journal.specs.Renaming.{forget_name};
ghost use Rattle.herm_forms.specs.Frames as frames;
ghost use Rattle.herm_code.specs.View.{instr_view};
ghost use Rattle.herm_code_machine.specs.Effects.{effect};
ghost use Rattle.herm_frames.specs.Standing.{Stands};
ghost use Rattle.herm_pieces.specs.View.{ready_view};
ghost use Rattle.herm_stack.specs.Answers.{on_stack};
ghost use Rattle.herm_steps.specs.Kinds.{is_holding};
ghost use Rattle.herm_steps.specs.Performed.{Performs};

use crate::running::Running;
use herm_code::Instr;
use herm_frames::Outcome;
use herm_pieces::Code;
use std::alloc::{AllocError, Global};

impl Running {
    /// Looks at what a variant or a polymorph holds, takes it out, or makes one that holds a value.
    pub fn hold(
        &mut self,
        alloc: Global,
        code: &Code,
        instruction: &Instr,
    ) -> Result<Outcome, AllocError>
        requires kind { is_holding (instr_view instruction.now) ≡ true }
        ensures performed { IfOk result (λ o. (b : frames.Frame ⊤) → Stands self.old.frame b → Performs o self.new (effect forget_name (ready_view code.now) (instr_view instruction.now) (on_stack self.old.stack) b)) }
    {
        match instruction {
            Instr::Unite(target, component, source) => {
                let outcome = self.frame.unite(
                    alloc,
                    code.types,
                    code.code.vars.as_slice(),
                    target,
                    *component,
                    source,
                )?;
                Ok(outcome)
            }
            Instr::Dissolve(source, component, target) => {
                let outcome = self.frame.dissolve(source, *component, target)?;
                Ok(outcome)
            }
            Instr::Reveal(path, component) => Ok(self.frame.reveal(path, *component)),
            Instr::CaseOf(path, _) => Ok(self.frame.choose(path)),
            Instr::Wrap(source, t, target) => {
                let outcome = self.frame.wrap(
                    alloc,
                    code.types,
                    code.code.vars.as_slice(),
                    source,
                    *t,
                    target,
                )?;
                Ok(outcome)
            }
            Instr::Unwrap(source, t, target) => {
                let outcome = self.frame.unwrap(source, *t, target)?;
                Ok(outcome)
            }
            _ => Ok(Outcome::Stuck),
        }
    }
}
