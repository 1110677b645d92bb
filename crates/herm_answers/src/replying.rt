//! What the answers to callers give back.
ghost use Rattle.std.specs.Prelude.{◌≡◌, ◌<◌, Some, option_map, option_and_then, IfNone, IfOk, IfSome, ⊤};
ghost use Rattle.herm_journal.specs.Messages.{CellReply, CellWant};
ghost use Rattle.herm_journal.specs.Renaming.{forget_name};
ghost use Rattle.herm_code_machine.specs.CodeStates.{CodeState};
ghost use Rattle.herm_code_machine.specs.CodeSteps.{code_next, code_wanted};
ghost use Rattle.herm_code_machine.specs.ReadyCode.{ReadyCode};
ghost use Rattle.herm_letters.specs.Letters.{IsWholeReply};
ghost use Rattle.herm_letters.specs.View.{reply_view};
ghost use Rattle.herm_pieces.specs.View.{met_view, piece_view, ready_view};
ghost use Rattle.herm_steps.specs.Coming.{coming, coming_action, coming_item};
ghost use Rattle.herm_steps.specs.StandingAt.{StandsAt};
ghost use Rattle.herm_answers.specs.Orders.{HoldsOrder, IsAnswerBy, IsWantedReply};
ghost use Rattle.herm_answers.specs.Replies.{reply_in};

use crate::returning::{Returning, returning_of, take_raised, take_values};
use herm_letters::Reply;
use herm_pieces::{Code, Met, Piece};
use herm_steps::Running;
use herm_values::WorkItem;
use std::alloc::{AllocError, Global};

/// Takes out what a return gives back, which is the action of this piece: its callmessage stays, and its order is out then. None
/// only where no caller is to be answered.
pub fn take_reply(
    process: &mut Running,
    alloc: Global,
    code: &Code,
    piece: Piece,
    met: Met,
) -> Result<Option<Reply>, AllocError>
    requires steps { process.old.frame.steps < u64.MAX }
    requires actions { process.old.frame.actions < u64.MAX }
    ensures wanted { IfOk result (λ r. IfSome r (λ v. (s : CodeState ⊤) (w : CellWant ⊤) → StandsAt process.old s → coming_action (piece_view piece) (met_view met.entry) ≡ coming (code_next (ready_view code.now) s) → code_wanted forget_name (ready_view code.now) s ≡ Some w → IsAnswerBy (reply_view v) w)) }
    ensures out { IfOk result (λ r. IfSome r (λ v. (s : CodeState ⊤) (w : CellWant ⊤) → StandsAt process.old s → coming_action (piece_view piece) (met_view met.entry) ≡ coming (code_next (ready_view code.now) s) → code_wanted forget_name (ready_view code.now) s ≡ Some w → HoldsOrder (ready_view code.now) process.new s)) }
    ensures absent { IfOk result (λ r. IfNone r ((s : CodeState ⊤) (reply : CellReply ⊤) → StandsAt process.old s → coming_action (piece_view piece) (met_view met.entry) ≡ coming (code_next (ready_view code.now) s) → IsWantedReply (ready_view code.now) reply s → ⊥)) }
    ensures whole { IfOk result (λ r. IfSome r IsWholeReply) }
{
    match returning_of(met.instruction) {
        Returning::Values(source) => {
            let reply = take_values(
                alloc,
                code,
                &mut process.frame,
                &mut process.stack,
                piece,
                source,
            )?;
            Ok(reply)
        }
        Returning::Raised(source, exception, kept) => {
            let reply = take_raised(
                alloc,
                code,
                &mut process.frame,
                &mut process.stack,
                piece,
                source,
                exception,
                kept,
            )?;
            Ok(reply)
        }
        Returning::Other => Ok(None),
    }
}

/// The reply to the callmessage at the front of the work list, which was finalised without a return: nothing is taken out for
/// it. None where an inport is at the front. No memory.
pub fn front_reply(process: &Running) -> Option<Reply>
    ensures reply { (c : ReadyCode) (s : CodeState ⊤) → StandsAt process.now s → coming_item ≡ coming (code_next c s) → option_map reply_view result ≡ option_and_then reply_in (code_wanted forget_name c s) }
    ensures whole { IfSome result IsWholeReply }
{
    match process.frame.front() {
        Some(WorkItem::Answer(_, _)) => Some(Reply::Gone),
        _ => None,
    }
}
