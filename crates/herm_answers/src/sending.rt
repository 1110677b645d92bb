//! The message that an action gives away.
ghost use Rattle.std.specs.Prelude.{◌≡◌, ◌<◌, Some, map, false, IfOk, IfSome, IfNone, ⊤};
ghost use Rattle.herm_journal.specs.Messages.{CellWant};
ghost use Rattle.herm_journal.specs.Renaming.{forget_name};
ghost use Rattle.herm_model.specs.Paths as paths;
ghost use Rattle.herm_model.specs.Values as model;
ghost use Rattle.herm_code.specs.View.{instr_view};
ghost use Rattle.herm_code_machine.specs.CodeStates.{CodeState};
ghost use Rattle.herm_code_machine.specs.CodeSteps.{code_next, code_wanted};
ghost use Rattle.herm_instructions.specs.Instructions as instructions;
ghost use Rattle.herm_pieces.specs.View.{met_view, piece_view, ready_view};
ghost use Rattle.herm_types.specs.View.{path_view};
ghost use Rattle.herm_values.specs.View.{value_view};
ghost use Rattle.herm_values.specs.Whole.{IsWhole};
ghost use Rattle.herm_steps.specs.Coming.{coming, coming_action};
ghost use Rattle.herm_steps.specs.StandingAt.{StandsAt};
ghost use Rattle.herm_answers.specs.Calling.{is_send};
ghost use Rattle.herm_answers.specs.Orders.{HoldsOrder, IsPutOf, IsWanted};

use crate::composing::take_called;
use crate::hearing::call_of;
use herm_code::Instr;
use herm_pieces::{Code, Met, Piece};
use herm_steps::{Running, take_sent};
use herm_types::Path;
use herm_values::Value;
use std::alloc::{AllocError, Global};

/// Takes out what the action of this piece puts: the message of a `Send`, or the callmessage of a call, which is open then. It
/// leaves the process, whose order is out. None only where nothing is wanted to be put.
pub fn take_message(
    process: &mut Running,
    alloc: Global,
    code: &Code,
    piece: Piece,
    met: Met,
) -> Result<Option<Value>, AllocError>
    requires steps { process.old.frame.steps < u64.MAX }
    requires actions { process.old.frame.actions < u64.MAX }
    ensures wanted { IfOk result (λ r. IfSome r (λ v. (s : CodeState ⊤) (w : CellWant ⊤) → StandsAt process.old s → coming_action (piece_view piece) (met_view met.entry) ≡ coming (code_next (ready_view code.now) s) → code_wanted forget_name (ready_view code.now) s ≡ Some w → IsPutOf (value_view v) w)) }
    ensures out { IfOk result (λ r. IfSome r (λ v. (s : CodeState ⊤) (w : CellWant ⊤) → StandsAt process.old s → coming_action (piece_view piece) (met_view met.entry) ≡ coming (code_next (ready_view code.now) s) → code_wanted forget_name (ready_view code.now) s ≡ Some w → HoldsOrder (ready_view code.now) process.new s)) }
    ensures absent { IfOk result (λ r. IfNone r ((s : CodeState ⊤) (m : model.Value) → StandsAt process.old s → coming_action (piece_view piece) (met_view met.entry) ≡ coming (code_next (ready_view code.now) s) → IsWanted (ready_view code.now) m s → ⊥)) }
    ensures whole { IfOk result (λ r. IfSome r IsWhole) }
{
    if let Some((source, trim)) = sent_by(met.instruction) {
        let message = take_sent(
            alloc,
            code,
            &mut process.frame,
            &mut process.stack,
            piece,
            source,
            trim,
        )?;
        return Ok(message);
    }
    let Some((arguments, _)) = call_of(met.instruction) else {
        return Ok(None);
    };
    let message = take_called(
        alloc,
        code,
        &mut process.frame,
        &mut process.stack,
        piece,
        arguments,
    )?;
    Ok(message)
}

/// Where the message of a `Send` stands, and the paths that it trims.
fn sent_by(instruction: &Instr) -> Option<(&Path, &[Path])>
    ensures sent { IfSome result (λ a. (o : paths.Path) × (instr_view instruction.now ≡ instructions.Send (path_view a.0.now) o (map path_view a.1.now))) }
    ensures other { IfNone result (is_send (instr_view instruction.now) ≡ false) }
{
    match instruction {
        Instr::Send(source, _, trim) => Some((source, trim.as_slice())),
        _ => None,
    }
}
