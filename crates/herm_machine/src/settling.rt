//! What a process leaves behind what it got.
ghost use Rattle.std.specs.Prelude.{◌≡◌, ◌<◌, ℕ, Some, map, IfOk, ⊤};
ghost use Rattle.herm_journal.specs.Actions.{answer, close, hear};
ghost use Rattle.herm_journal.specs.Messages.{CellAction, CellReply, CellWant};
ghost use Rattle.herm_journal.specs.Renaming.{forget_name};
ghost use Rattle.herm_system.specs.Suiting.{Answers};
ghost use Rattle.herm_code_machine.specs.CodeStates.{CodeState};
ghost use Rattle.herm_code_machine.specs.CodeSteps.{code_answered, code_wanted};
ghost use Rattle.herm_letters.specs.Letters.{IsWholeReply};
ghost use Rattle.herm_letters.specs.View.{reply_view};
ghost use Rattle.herm_pieces.specs.View.{ready_view};
ghost use Rattle.herm_values.specs.View.{value_view};
ghost use Rattle.herm_steps.specs.Behind.{IsBehind};
ghost use Rattle.herm_steps.specs.StandingAt.{StandsAt};
ghost use Rattle.herm_answers.specs.Incomings.{IsWholeIncoming, TellsIncoming};
ghost use Rattle.herm_machine.specs.Gots.{HearsOpen, IsFrom, IsWholeGot, TellsGot};
ghost use Rattle.herm_machine.specs.Machines.{IsOut};
ghost use Rattle.herm_machine.specs.Kinds.{IsBringing, IsClosing, IsHearing};

use crate::order::Got;
use crate::taking::is_full;
use herm_answers::{
    Incoming, came_in, was_answered, was_closed, was_heard, was_placed, was_returned, was_sent_back,
};
use herm_letters::{Parcels, Reply};
use herm_pieces::Code;
use herm_steps::{Next, Running};
use std::alloc::{AllocError, Global};

/// Goes on behind what a process got, up to its next piece; of the front of the work list where that is said. False where
/// nothing is there.
pub fn settle(
    process: &mut Running,
    alloc: Global,
    code: &Code,
    is_front: bool,
    got: Got,
) -> Result<bool, AllocError>
    requires whole { IsWholeGot got }
    ensures answered { IfOk result (λ r. (s : CodeState ⊤) (w : CellWant ⊤) (at : ℕ) (a : CellAction ⊤) → IsFrom got is_front (ready_view code.now) process.old s → code_wanted forget_name (ready_view code.now) s ≡ Some w → Answers w a → HearsOpen got s → TellsGot got at a → IsBehind r process.new s (code_answered forget_name (ready_view code.now) s at a)) }
{
    match got {
        Got::Port(made) => {
            let goes = bring(process, alloc, code, Incoming::Port(made))?;
            Ok(goes)
        }
        Got::Process(made) => {
            let goes = bring(process, alloc, code, Incoming::Process(made))?;
            Ok(goes)
        }
        Got::Placed { .. } => {
            let goes = was_placed(process, alloc, code)?;
            Ok(goes)
        }
        Got::Back { value, .. } => {
            let goes = was_sent_back(process, alloc, code, value)?;
            Ok(goes)
        }
        Got::Message { port, parcel } => {
            let goes = bring(process, alloc, code, Incoming::Message(port, parcel))?;
            Ok(goes)
        }
        Got::Left(left) => {
            let goes = let_close(process, code, left)?;
            Ok(goes)
        }
        Got::Answered => {
            let goes = let_answer(process, alloc, code, is_front)?;
            Ok(goes)
        }
        Got::Heard { reply, .. } => {
            let goes = let_hear(process, alloc, code, reply)?;
            Ok(goes)
        }
    }
}

/// What comes in goes where the action that is next says.
fn bring(
    process: &mut Running,
    alloc: Global,
    code: &Code,
    incoming: Incoming,
) -> Result<bool, AllocError>
    requires whole { IsWholeIncoming incoming }
    ensures answered { IfOk result (λ r. (s : CodeState ⊤) (w : CellWant ⊤) (at : ℕ) (a : CellAction ⊤) → StandsAt process.old s → code_wanted forget_name (ready_view code.now) s ≡ Some w → IsBringing w → TellsIncoming incoming at a → IsBehind r process.new s (code_answered forget_name (ready_view code.now) s at a)) }
{
    if is_full(process) {
        return Err(AllocError);
    }
    match process.next(code) {
        Next::Item => Ok(false),
        Next::Reply(_) => Ok(false),
        Next::Action(piece, met) => {
            let goes = came_in(process, alloc, code, piece, met, incoming)?;
            Ok(goes)
        }
        Next::Local(_) => Ok(false),
        Next::Nothing => Ok(false),
    }
}

/// The inport at the front of the work list is closed.
fn let_close(process: &mut Running, code: &Code, left: Parcels) -> Result<bool, AllocError>
    ensures answered { IfOk result (λ r. (s : CodeState ⊤) (w : CellWant ⊤) (at count : ℕ) → StandsAt process.old s → code_wanted forget_name (ready_view code.now) s ≡ Some w → IsClosing w → IsBehind r process.new s (code_answered forget_name (ready_view code.now) s at (close count (map (λ p. value_view p.value) left.parcels)))) }
{
    if is_full(process) {
        return Err(AllocError);
    }
    match process.next(code) {
        Next::Item => {
            was_closed(process, left)?;
            Ok(true)
        }
        Next::Reply(_) => Ok(false),
        Next::Action(_, _) => Ok(false),
        Next::Local(_) => Ok(false),
        Next::Nothing => Ok(false),
    }
}

/// The caller is answered whose order is out: that of a return, or of the callmessage at the front of the work list.
fn let_answer(
    process: &mut Running,
    alloc: Global,
    code: &Code,
    is_front: bool,
) -> Result<bool, AllocError>
    ensures answered { IfOk result (λ r. (s : CodeState ⊤) (at call : ℕ) (reply : CellReply ⊤) → IsOut is_front (ready_view code.now) process.old s → IsBehind r process.new s (code_answered forget_name (ready_view code.now) s at (answer call reply))) }
{
    if is_full(process) {
        return Err(AllocError);
    }
    if is_front {
        was_answered(process);
        return Ok(true);
    }
    let goes = was_returned(process, alloc, code)?;
    Ok(goes)
}

/// The reply of the open call goes where the call says.
fn let_hear(
    process: &mut Running,
    alloc: Global,
    code: &Code,
    reply: Reply,
) -> Result<bool, AllocError>
    requires whole { IsWholeReply reply }
    ensures answered { IfOk result (λ r. (s : CodeState ⊤) (w : CellWant ⊤) (at call : ℕ) → StandsAt process.old s → s.frame.call ≡ Some call → code_wanted forget_name (ready_view code.now) s ≡ Some w → IsHearing w → IsBehind r process.new s (code_answered forget_name (ready_view code.now) s at (hear call (reply_view reply)))) }
{
    if is_full(process) {
        return Err(AllocError);
    }
    match process.next(code) {
        Next::Item => Ok(false),
        Next::Reply(met) => {
            let goes = was_heard(process, alloc, code, met, reply)?;
            Ok(goes)
        }
        Next::Action(_, _) => Ok(false),
        Next::Local(_) => Ok(false),
        Next::Nothing => Ok(false),
    }
}
