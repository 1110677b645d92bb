//! The message or the reply that a process gives away.
ghost use Rattle.std.specs.Prelude.{◌≡◌, ◌<◌, ◌||◌, nat_eq, Some, false, IfNone, IfOk, IfSome, ⊤};
ghost use Rattle.herm_journal.specs.Messages.{CellReply, CellWant};
ghost use Rattle.herm_journal.specs.Renaming.{forget_name};
ghost use Rattle.herm_model.specs.Values as model;
ghost use Rattle.herm_forms.specs.Frames.{counted_action};
ghost use Rattle.herm_code_machine.specs.CodeStates.{CodeState};
ghost use Rattle.herm_code_machine.specs.CodeSteps.{code_wanted};
ghost use Rattle.herm_letters.specs.Letters.{IsWholeReply};
ghost use Rattle.herm_letters.specs.View.{reply_view};
ghost use Rattle.herm_pieces.specs.View.{ready_view};
ghost use Rattle.herm_values.specs.View.{value_view};
ghost use Rattle.herm_values.specs.Whole.{IsWhole};
ghost use Rattle.herm_steps.specs.StandingAt.{StandsAt};
ghost use Rattle.herm_answers.specs.Orders.{HoldsOrder, IsAnswerBy, IsPutOf, IsWanted, IsWantedReply};
ghost use Rattle.herm_machine.specs.Machines.{IsOut};

use herm_answers::{front_reply, take_message, take_reply};
use herm_letters::Reply;
use herm_pieces::Code;
use herm_steps::{Next, Running};
use herm_values::Value;
use std::alloc::{AllocError, Global};

/// Whether no more steps or actions can be counted.
pub fn is_full(process: &Running) -> bool
    ensures steps { result ≡ false → process.now.frame.steps < u64.MAX }
    ensures actions { result ≡ false → process.now.frame.actions < u64.MAX }
    ensures exactly { result ≡ (nat_eq process.now.frame.steps u64.MAX || nat_eq process.now.frame.actions u64.MAX) }
{
    process.frame.steps() == u64::MAX || process.frame.actions() == u64::MAX
}

/// Counts one action more.
pub fn count_aside(process: &mut Running)
    requires few { process.old.frame.actions < u64.MAX }
    ensures stands { (s : CodeState ⊤) → StandsAt process.old s → StandsAt process.new (record s { frame = counted_action s.frame }) }
{
    process.frame.count_action();
}

/// Takes out the message that is wanted to be put: the order is out then. None only where none is wanted to be put.
pub fn message_of(
    process: &mut Running,
    alloc: Global,
    code: &Code,
) -> Result<Option<Value>, AllocError>
    ensures wanted { IfOk result (λ r. IfSome r (λ v. (s : CodeState ⊤) (w : CellWant ⊤) → StandsAt process.old s → code_wanted forget_name (ready_view code.now) s ≡ Some w → IsPutOf (value_view v) w)) }
    ensures out { IfOk result (λ r. IfSome r (λ v. (s : CodeState ⊤) (w : CellWant ⊤) → StandsAt process.old s → code_wanted forget_name (ready_view code.now) s ≡ Some w → HoldsOrder (ready_view code.now) process.new s)) }
    ensures absent { IfOk result (λ r. IfNone r ((s : CodeState ⊤) (m : model.Value) → StandsAt process.old s → IsWanted (ready_view code.now) m s → ⊥)) }
    ensures whole { IfOk result (λ r. IfSome r IsWhole) }
{
    if is_full(process) {
        return Err(AllocError);
    }
    match process.next(code) {
        Next::Item => Ok(None),
        Next::Reply(_) => Ok(None),
        Next::Action(piece, met) => {
            let message = take_message(process, alloc, code, piece, met)?;
            Ok(message)
        }
        Next::Local(_) => Ok(None),
        Next::Nothing => Ok(None),
    }
}

/// Takes out the reply with which a caller is to be answered, and tells whether it is one of the front of the work list: the
/// order is out then. None only where no caller is to be answered.
pub fn reply_of(
    process: &mut Running,
    alloc: Global,
    code: &Code,
) -> Result<Option<(Reply, bool)>, AllocError>
    ensures wanted { IfOk result (λ r. IfSome r (λ v. (s : CodeState ⊤) (w : CellWant ⊤) → StandsAt process.old s → code_wanted forget_name (ready_view code.now) s ≡ Some w → IsAnswerBy (reply_view v.0) w)) }
    ensures out { IfOk result (λ r. IfSome r (λ v. (s : CodeState ⊤) (w : CellWant ⊤) → StandsAt process.old s → code_wanted forget_name (ready_view code.now) s ≡ Some w → IsOut v.1 (ready_view code.now) process.new s)) }
    ensures absent { IfOk result (λ r. IfNone r ((s : CodeState ⊤) (reply : CellReply ⊤) → StandsAt process.old s → IsWantedReply (ready_view code.now) reply s → ⊥)) }
    ensures whole { IfOk result (λ r. IfSome r (λ v. IsWholeReply v.0)) }
{
    if is_full(process) {
        return Err(AllocError);
    }
    match process.next(code) {
        Next::Item => match front_reply(process) {
            Some(reply) => Ok(Some((reply, true))),
            None => Ok(None),
        },
        Next::Reply(_) => Ok(None),
        Next::Action(piece, met) => match take_reply(process, alloc, code, piece, met)? {
            Some(reply) => Ok(Some((reply, false))),
            None => Ok(None),
        },
        Next::Local(_) => Ok(None),
        Next::Nothing => Ok(None),
    }
}
