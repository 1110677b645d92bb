//! What the answer of the open call leaves.
ghost use Rattle.std.specs.Prelude.{◌≡◌, ◌<◌, ℕ, Some, map, false, IfNone, IfOk, IfSome, ⊤};
ghost use Rattle.herm_journal.specs.Actions.{hear};
ghost use Rattle.herm_journal.specs.Renaming.{forget_name};
ghost use Rattle.herm_model.specs.Paths.{Path};
ghost use Rattle.herm_code.specs.View.{argument_view, instr_view};
ghost use Rattle.herm_instructions.specs.Instructions as instructions;
ghost use Rattle.herm_types.specs.View.{raise_decl_view};
ghost use Rattle.herm_code_machine.specs.CodeStates.{CodeState};
ghost use Rattle.herm_code_machine.specs.CodeSteps.{code_answered, code_next};
ghost use Rattle.herm_letters.specs.Letters.{IsWholeReply};
ghost use Rattle.herm_letters.specs.View.{reply_view};
ghost use Rattle.herm_pieces.specs.View.{ready_view};
ghost use Rattle.herm_steps.specs.Behind.{IsBehind};
ghost use Rattle.herm_steps.specs.Coming.{coming, coming_reply};
ghost use Rattle.herm_steps.specs.StandingAt.{StandsAt};
ghost use Rattle.herm_answers.specs.Calling.{is_call};

use crate::going::go_on;
use herm_code::{Arg, Instr};
use herm_exchanges::heard;
use herm_letters::Reply;
use herm_pieces::{Code, Met};
use herm_steps::{Running, outcome_of};
use herm_types::RaiseDecl;
use std::alloc::{AllocError, Global};

/// The answer of the open call, at its instruction: it goes where the call says. False where it is stuck.
pub fn was_heard(
    process: &mut Running,
    alloc: Global,
    code: &Code,
    met: Met,
    reply: Reply,
) -> Result<bool, AllocError>
    requires actions { process.old.frame.actions < u64.MAX }
    requires whole { IsWholeReply reply }
    ensures answered { IfOk result (λ r. (s : CodeState ⊤) (at call : ℕ) → StandsAt process.old s → coming_reply met.entry.index (instr_view met.entry.instruction.now) ≡ coming (code_next (ready_view code.now) s) → s.frame.call ≡ Some call → IsBehind r process.new s (code_answered forget_name (ready_view code.now) s at (hear call (reply_view reply)))) }
{
    let Some((arguments, keeps)) = call_of(met.instruction) else {
        return Ok(false);
    };
    process.frame.count_action();
    let outcome = heard(&mut process.frame, arguments, keeps, reply)?;
    let outcome = outcome_of(outcome);
    let runs = go_on(process, alloc, code, met.index, met.instruction, outcome)?;
    Ok(runs)
}

/// The arguments of a call, and what its exceptions keep.
pub fn call_of(instruction: &Instr) -> Option<(&[Arg], &[RaiseDecl])>
    ensures call { IfSome result (λ a. (o : Path) × (instr_view instruction.now ≡ instructions.Call o (map argument_view a.0.now) (map raise_decl_view a.1.now))) }
    ensures other { IfNone result (is_call (instr_view instruction.now) ≡ false) }
{
    match instruction {
        Instr::Call(_, arguments, keeps) => Some((arguments.as_slice(), keeps.as_slice())),
        _ => None,
    }
}
