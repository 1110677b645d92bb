//! Where a process is behind an instruction.
ghost use Rattle.std.specs.Prelude.{◌≡◌, ◌<◌, length, option_map, true, ⊤};
ghost use Rattle.herm_forms.specs.Frames as frames;
ghost use Rattle.herm_forms.specs.Frames.{goes};
ghost use Rattle.herm_model.specs.Outcomes.{ok};
ghost use Rattle.herm_code.specs.View.{instr_view};
ghost use Rattle.herm_code_machine.specs.CodeStates.{CodeState, stack_after, state_behind};
ghost use Rattle.herm_frames.specs.Completed as completed;
ghost use Rattle.herm_frames.specs.Standing.{Stands};
ghost use Rattle.herm_pieces.specs.View.{outcome_view, ready_view};
ghost use Rattle.herm_stack.specs.Answers.{on_stack};
ghost use Rattle.herm_steps.specs.Behind.{IsBehind};
ghost use Rattle.herm_steps.specs.Kinds.{PassesOn};

use crate::running::Running;
use herm_code::Instr;
use herm_frames as done;
use herm_pieces::{Code, Outcome, Position};

impl Running {
    /// Goes on behind the instruction at an index, by its outcome: an exception leads on with an empty stack. False where the
    /// outcome leads nowhere.
    #[inline(always)]
    pub fn lead_on(
        &mut self,
        code: &Code,
        index: usize,
        instruction: &Instr,
        outcome: Outcome,
    ) -> bool
        requires within { index < length code.now.code.now.code.items }
        ensures behind { (s : CodeState ⊤) (b : frames.Frame ⊤) → Stands self.old.frame b → IsBehind result self.new s (state_behind (ready_view code.now) s index (instr_view instruction.now) (on_stack self.old.stack) (goes (outcome_view outcome) b)) }
    {
        let Some(next) = code.leads(index, instruction, outcome) else {
            return false;
        };
        self.clear_raised(outcome);
        self.position = Position::At(next);
        true
    }

    /// Goes on behind the instruction at an index, or where it jumps.
    #[inline(always)]
    pub fn pass_on(&mut self, code: &Code, index: usize, instruction: &Instr)
        requires within { index < length code.now.code.now.code.items }
        ensures behind { (s : CodeState ⊤) (b : frames.Frame ⊤) → Stands self.old.frame b → IsBehind true self.new s (state_behind (ready_view code.now) s index (instr_view instruction.now) (on_stack self.old.stack) (goes ok b)) }
    {
        self.position = Position::At(code.goes_to(index, instruction));
    }

    /// Goes on behind the instruction at an index, which jumps nowhere.
    #[inline(always)]
    pub fn pass_behind(&mut self, code: &Code, index: usize, instruction: &Instr)
        requires within { index < length code.now.code.now.code.items }
        requires passes { PassesOn (instr_view instruction.now) }
        ensures behind { (s : CodeState ⊤) (b : frames.Frame ⊤) → Stands self.old.frame b → IsBehind true self.new s (state_behind (ready_view code.now) s index (instr_view instruction.now) (on_stack self.old.stack) (goes ok b)) }
    {
        self.position = Position::At(code.behind(index));
    }

    /// An exception leads on with an empty stack.
    #[inline(always)]
    fn clear_raised(&mut self, outcome: Outcome)
        ensures process { self.new ≡ record self.old { stack = self.new.stack } }
        ensures stack { on_stack self.new.stack ≡ stack_after (outcome_view outcome) (on_stack self.old.stack) }
    {
        match outcome {
            Outcome::Raised(_) => self.stack.clear(),
            _ => (),
        }
    }
}

/// What an instruction comes to, and none where it is stuck.
pub fn outcome_of(outcome: done::Outcome) -> Option<Outcome>
    ensures outcome { option_map outcome_view result ≡ completed.outcome_view outcome }
{
    match outcome {
        done::Outcome::Next => Some(Outcome::Ok),
        done::Outcome::True => Some(Outcome::True),
        done::Outcome::False => Some(Outcome::False),
        done::Outcome::Turn => Some(Outcome::Turn),
        done::Outcome::Done => Some(Outcome::Done),
        done::Outcome::Component(k) => Some(Outcome::Component(k)),
        done::Outcome::Raised(e) => Some(Outcome::Raised(e)),
        done::Outcome::Stuck => None,
    }
}
