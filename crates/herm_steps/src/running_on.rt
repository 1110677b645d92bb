//! The run from one piece to the next.
ghost use Rattle.std.specs.Prelude.{◌≡◌, IfOk, ⊤};
ghost use Rattle.herm_journal.specs.Renaming.{forget_name};
ghost use Rattle.herm_code_machine.specs.CodeStates.{CodeState, at_index, to_next_piece};
ghost use Rattle.herm_pieces.specs.View.{ready_view};
ghost use Rattle.herm_steps.specs.Behind.{IsBehind};
ghost use Rattle.herm_steps.specs.StandingAt.{StandsAt};
ghost use Rattle.herm_steps.specs.Turns.{IsTurned};

use crate::kinds::{begins_here, kind_of};
use crate::running::Running;
use herm_pieces::{Code, Position};
use std::alloc::{AllocError, Global};

impl Running {
    /// Goes on to the beginning of the next piece, or to an end. False where an instruction is stuck, or where the run does more
    /// instructions than the code has, which the run of good code never does.
    pub fn run_on(&mut self, alloc: Global, code: &Code) -> Result<bool, AllocError>
        ensures runs { IfOk result (λ r. (s : CodeState ⊤) → StandsAt self.old s → IsBehind r self.new s (to_next_piece forget_name (ready_view code.now) s)) }
    {
        let mut left = code.code.code.len();
        'turns: loop {
            if let Some(here) = self.turn(alloc, code)? {
                return Ok(here);
            }
            if left == 0 {
                return Ok(false);
            }
            left -= 1;
        }
    }

    /// Does the instruction that it is at, if no piece begins there. None where the run goes on behind it; true at a piece or an
    /// end; false where nothing is there behind it.
    fn turn(&mut self, alloc: Global, code: &Code) -> Result<Option<bool>, AllocError>
        ensures turned { IfOk result (λ r. (s : CodeState ⊤) → StandsAt self.old s → IsTurned r self.new (ready_view code.now) s) }
    {
        match self.position {
            Position::At(index) => {
                let turned = self.turn_at(alloc, code, index)?;
                Ok(turned)
            }
            Position::End => Ok(Some(true)),
            Position::EndBy(_) => Ok(Some(true)),
        }
    }

    /// The same at an index.
    fn turn_at(
        &mut self,
        alloc: Global,
        code: &Code,
        index: usize,
    ) -> Result<Option<bool>, AllocError>
        ensures turned { IfOk result (λ r. (s : CodeState ⊤) → StandsAt self.old s → s.position ≡ at_index index → IsTurned r self.new (ready_view code.now) s) }
    {
        let Some(instruction) = code.instruction_at(index) else {
            return Ok(Some(false));
        };
        let kind = kind_of(instruction);
        if begins_here(code, instruction, kind) {
            return Ok(Some(true));
        }
        if self.do_instruction(alloc, code, index, instruction, kind)? {
            return Ok(None);
        }
        Ok(Some(false))
    }
}
