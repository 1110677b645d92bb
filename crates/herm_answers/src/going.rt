//! On from what an action came to, to the next piece.
ghost use Rattle.std.specs.Prelude.{◌≡◌, ◌<◌, length, IfOk, ⊤};
ghost use Rattle.herm_forms.specs.Frames.{Frame, stays};
ghost use Rattle.herm_journal.specs.Renaming.{forget_name};
ghost use Rattle.herm_code.specs.View.{instr_view};
ghost use Rattle.herm_code_machine.specs.CodeStates.{CodeState};
ghost use Rattle.herm_code_machine.specs.CodeSteps.{settled};
ghost use Rattle.herm_code_machine.specs.Stacks.{Effect, leaving};
ghost use Rattle.herm_frames.specs.Standing.{Stands};
ghost use Rattle.herm_instructions.specs.Instructions.{Instruction};
ghost use Rattle.herm_pieces.specs.View.{ready_view};
ghost use Rattle.herm_stack.specs.Answers.{on_stack};
ghost use Rattle.herm_steps.specs.Behind.{IsBehind};
ghost use Rattle.herm_answers.specs.Settled.{Settles};

use herm_code::Instr;
use herm_pieces::{Code, Outcome, Position};
use herm_steps::Running;
use std::alloc::{AllocError, Global};

/// Goes on behind the action at an index of the code, which came to this outcome, up to the next piece. False where that leads
/// nowhere, or the action is stuck.
pub fn go_on(
    process: &mut Running,
    alloc: Global,
    code: &Code,
    index: usize,
    instruction: &Instr,
    outcome: Option<Outcome>,
) -> Result<bool, AllocError>
    ensures settled { IfOk result (λ r. (s : CodeState ⊤) (e : Effect ⊤) → Settles outcome process.old.frame (on_stack process.old.stack) e → index < length code.now.code.now.code.items → IsBehind r process.new s (settled forget_name (ready_view code.now) s index (instr_view instruction.now) e.stack e.completion)) }
{
    let Some(outcome) = outcome else {
        return Ok(false);
    };
    if index >= code.code.code.len() {
        return Ok(false);
    }
    if !process.lead_on(code, index, instruction, outcome) {
        return Ok(false);
    }
    let runs = process.run_on(alloc, code)?;
    Ok(runs)
}

/// Waits at an index of the code for the answer of the call there. False where nothing is there.
pub fn wait_at(
    process: &mut Running,
    alloc: Global,
    code: &Code,
    index: usize,
) -> Result<bool, AllocError>
    ensures waits { IfOk result (λ r. (s : CodeState ⊤) (e : Effect ⊤) (i : Instruction) (b : Frame ⊤) → e ≡ leaving (on_stack process.old.stack) (stays b) → Stands process.old.frame b → IsBehind r process.new s (settled forget_name (ready_view code.now) s index i e.stack e.completion)) }
{
    process.position = Position::At(index);
    let waits = process.run_on(alloc, code)?;
    Ok(waits)
}
