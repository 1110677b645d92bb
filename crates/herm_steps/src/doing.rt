//! Instructions that are neither steps nor actions.
ghost use Rattle.std.specs.Prelude.{◌≡◌, ◌<◌, IfOk, IfNone, IfSome, OnOk, true, length, ⊤};
ghost use Rattle.herm_journal.specs.Renaming.{forget_name};
ghost use Rattle.herm_forms.specs.Frames as frames;
ghost use Rattle.herm_code.specs.View.{instr_view};
ghost use Rattle.herm_code_machine.specs.CodeStates.{CodeState, done_instruction};
ghost use Rattle.herm_code_machine.specs.Effects.{effect};
ghost use Rattle.herm_code_machine.specs.Stacks.{Effect};
ghost use Rattle.herm_frames.specs.Standing.{Stands};
ghost use Rattle.herm_instructions.specs.Instructions.{Instruction};
ghost use Rattle.herm_pieces.specs.View.{position_view, ready_view};
ghost use Rattle.herm_stack.specs.Answers.{on_stack};
ghost use Rattle.herm_steps.specs.Behind.{IsBehind};
ghost use Rattle.herm_steps.specs.Coming.{end_position, end_view};
ghost use Rattle.herm_steps.specs.KeysThere.{CanBeKeyed};
ghost use Rattle.herm_steps.specs.Kinds.{PassesOn};
ghost use Rattle.herm_steps.specs.KindsOfCode.{IsEndOf, IsKind, IsRare};
ghost use Rattle.herm_steps.specs.Performed.{Performs, behind_effect};
ghost use Rattle.herm_steps.specs.StandingAt.{StandsAt};

use crate::kinds::{Kind, Rare};
use crate::leading::outcome_of;
use crate::running::{End, Running};
use herm_code::Instr;
use herm_frames::Outcome;
use herm_pieces::{Code, Outcome as Led, Position};
use std::alloc::{AllocError, Global};

impl Running {
    /// Does the instruction of this kind at an index, which is neither a step nor an action. False where it is stuck. A table that is refused the
    /// key of its type is told as want of memory: no run of a sound process has one.
    #[inline(always)]
    pub(crate) fn do_instruction(
        &mut self,
        alloc: Global,
        code: &Code,
        index: usize,
        instruction: &Instr,
        kind: Kind,
    ) -> Result<bool, AllocError>
        requires within { index < length code.now.code.now.code.items }
        requires kind { IsKind kind (instr_view instruction.now) }
        ensures done { IfOk result (λ r. (s : CodeState ⊤) → StandsAt self.old s → IsBehind r self.new s (done_instruction forget_name (ready_view code.now) s index (instr_view instruction.now))) }
    {
        match kind {
            Kind::Pushing => {
                let outcome = self.push(alloc, code, instruction)?;
                Ok(self.go_behind(code, index, instruction, outcome))
            }
            Kind::Combining(operator) => {
                let outcome = self.combine(operator);
                Ok(self.go_behind(code, index, instruction, outcome))
            }
            Kind::Storing => {
                let outcome = self.store_by(instruction)?;
                Ok(self.go_behind(code, index, instruction, outcome))
            }
            Kind::Leading => {
                let outcome = self.lead(code, instruction);
                Ok(self.go_on(code, index, instruction, outcome))
            }
            Kind::Ending(end) => {
                self.end_at(alloc, code, end)?;
                Ok(true)
            }
            Kind::Rare(rare) => {
                let done = self.do_rare(alloc, code, index, instruction, rare)?;
                Ok(done)
            }
        }
    }

    /// The same of an instruction of a rarer kind.
    #[inline(never)]
    fn do_rare(
        &mut self,
        alloc: Global,
        code: &Code,
        index: usize,
        instruction: &Instr,
        rare: Rare,
    ) -> Result<bool, AllocError>
        requires within { index < length code.now.code.now.code.items }
        requires kind { IsRare rare (instr_view instruction.now) }
        ensures done { IfOk result (λ r. (s : CodeState ⊤) → StandsAt self.old s → IsBehind r self.new s (done_instruction forget_name (ready_view code.now) s index (instr_view instruction.now))) }
    {
        let Some(outcome) = self.perform(alloc, code, instruction, rare)? else {
            return Err(AllocError);
        };
        Ok(self.go_on(code, index, instruction, outcome))
    }

    /// Finalises everything, and ends.
    #[inline(never)]
    fn end_at(&mut self, alloc: Global, code: &Code, end: End) -> Result<(), AllocError>
        ensures done { OnOk result ((s : CodeState ⊤) (index : _) (i : Instruction) → IsEndOf end i → StandsAt self.old s → IsBehind true self.new s (done_instruction forget_name (ready_view code.now) s index i)) }
    {
        self.frame.end(alloc, code.code.vars.as_slice())?;
        self.stack.clear();
        self.position = position_of(end);
        Ok(())
    }

    /// Goes on behind what an instruction came to. False where it was stuck, or its outcome leads nowhere.
    #[inline(always)]
    fn go_on(&mut self, code: &Code, index: usize, instruction: &Instr, outcome: Outcome) -> bool
        requires within { index < length code.now.code.now.code.items }
        ensures behind { (s : CodeState ⊤) (e : Effect ⊤) → Performs outcome self.old e → IsBehind result self.new s (behind_effect (ready_view code.now) s index (instr_view instruction.now) e) }
    {
        match outcome_of(outcome) {
            Some(Led::Ok) => {
                self.pass_on(code, index, instruction);
                true
            }
            Some(led) => self.lead_on(code, index, instruction, led),
            None => false,
        }
    }

    /// The same of an instruction that jumps nowhere.
    #[inline(always)]
    fn go_behind(
        &mut self,
        code: &Code,
        index: usize,
        instruction: &Instr,
        outcome: Outcome,
    ) -> bool
        requires within { index < length code.now.code.now.code.items }
        requires passes { PassesOn (instr_view instruction.now) }
        ensures behind { (s : CodeState ⊤) (e : Effect ⊤) → Performs outcome self.old e → IsBehind result self.new s (behind_effect (ready_view code.now) s index (instr_view instruction.now) e) }
    {
        match outcome_of(outcome) {
            Some(Led::Ok) => {
                self.pass_behind(code, index, instruction);
                true
            }
            Some(led) => self.lead_on(code, index, instruction, led),
            None => false,
        }
    }

    /// Performs an instruction of a rarer kind. None only where a table cannot have the key of its type.
    fn perform(
        &mut self,
        alloc: Global,
        code: &Code,
        instruction: &Instr,
        rare: Rare,
    ) -> Result<Option<Outcome>, AllocError>
        requires kind { IsRare rare (instr_view instruction.now) }
        ensures performed { IfOk result (λ o. IfSome o (λ o. (b : frames.Frame ⊤) → Stands self.old.frame b → Performs o self.new (effect forget_name (ready_view code.now) (instr_view instruction.now) (on_stack self.old.stack) b))) }
        ensures refused { IfOk result (λ o. IfNone o ((b : frames.Frame ⊤) → Stands self.old.frame b → CanBeKeyed (ready_view code.now) (instr_view instruction.now) b → ⊥)) }
    {
        match rare {
            Rare::Sizing => {
                let outcome = self.size(code, instruction)?;
                Ok(Some(outcome))
            }
            Rare::Applying(operator) => Ok(Some(self.apply(operator))),
            Rare::Telling => {
                let outcome = self.tell(alloc)?;
                Ok(Some(outcome))
            }
            Rare::Joining => {
                let outcome = self.join(alloc)?;
                Ok(Some(outcome))
            }
            Rare::Placing => {
                let outcome = self.place(alloc, code, instruction)?;
                Ok(Some(outcome))
            }
            Rare::Holding => {
                let outcome = self.hold(alloc, code, instruction)?;
                Ok(Some(outcome))
            }
            Rare::Tabular => {
                let outcome = self.tabulate(alloc, code, instruction)?;
                Ok(outcome)
            }
            Rare::Looping => {
                let outcome = self.visit(alloc, code, instruction)?;
                Ok(Some(outcome))
            }
            Rare::Other => Ok(Some(Outcome::Stuck)),
        }
    }
}

/// Where a process is behind its end.
fn position_of(end: End) -> Position
    ensures position { position_view result ≡ end_position (end_view end) }
{
    match end {
        End::Normal => Position::End,
        End::By(e) => Position::EndBy(e),
    }
}
