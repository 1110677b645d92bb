//! Whether what came in is what a process waits for.
ghost use Rattle.std.specs.Prelude.{◌↔◌, None, IsTrue, ⊤};
ghost use Rattle.herm_model.specs.Types.{TypeTable};
ghost use Rattle.herm_journal.specs.Messages.{IsReplyTo};
ghost use Rattle.herm_code_machine.specs.CodeStates.{CodeState};
ghost use Rattle.herm_code.specs.View.{instr_view};
ghost use Rattle.herm_letters.specs.Letters.{IsWholeReply};
ghost use Rattle.herm_letters.specs.View.{reply_view};
ghost use Rattle.herm_pieces.specs.View.{position_view, ready_view};
ghost use Rattle.herm_values.specs.View.{value_view};
ghost use Rattle.herm_values.specs.Whole.{IsWhole};
ghost use Rattle.herm_steps.specs.StandingAt.{StandsAt};
ghost use Rattle.herm_machine.specs.Awaited.{IsAwaited, IsHeard, IsHeardAt, IsHeardBy};

use crate::looking::port_type;
use crate::types::message_at;
use herm_base::PortNo;
use herm_code::Instr;
use herm_letters::Reply;
use herm_pieces::{Code, Position};
use herm_steps::Running;
use herm_suits::{is_message, is_reply_to};
use herm_values::Value;

/// Whether the value is a message of the port of this number, at which the process looks.
pub fn is_awaited(process: &Running, code: &Code, port: PortNo, message: &Value) -> bool
    requires whole { IsWhole message.now }
    ensures exactly { (s : CodeState ⊤) → StandsAt process.now s → IsTrue result ↔ IsAwaited (ready_view code.now) s port.number (value_view message.now) }
{
    match port_type(code, process.position, &process.frame, port) {
        Some(t) => is_message(code.types, t, message),
        None => false,
    }
}

/// Whether the reply is one to the open call, which has this number.
pub fn is_heard(process: &Running, code: &Code, call: u64, reply: &Reply) -> bool
    requires whole { IsWholeReply reply.now }
    ensures exactly { (s : CodeState ⊤) → StandsAt process.now s → IsTrue result ↔ IsHeard (ready_view code.now) s call (reply_view reply.now) }
{
    match process.frame.call() {
        Some(open) => {
            if open == call {
                return is_heard_at(code, process.position, reply);
            }
            false
        }
        None => false,
    }
}

/// Whether the reply is one to the call at a position.
fn is_heard_at(code: &Code, position: Position, reply: &Reply) -> bool
    requires whole { IsWholeReply reply.now }
    ensures exactly { IsTrue result ↔ IsHeardAt (ready_view code.now) (position_view position) (reply_view reply.now) }
{
    let Position::At(index) = position else {
        return false;
    };
    let Some(instruction) = code.instruction_at(index) else {
        return false;
    };
    is_heard_by(code, instruction, reply)
}

/// Whether the reply is one to this call.
fn is_heard_by(code: &Code, instruction: &Instr, reply: &Reply) -> bool
    requires whole { IsWholeReply reply.now }
    ensures exactly { IsTrue result ↔ IsHeardBy (ready_view code.now) (instr_view instruction.now) (reply_view reply.now) }
{
    match instruction {
        Instr::Call(port, _, _) => match message_at(code.types, code.code.vars.as_slice(), port) {
            Some(t) => is_reply_to(code.types, t, reply),
            None => is_empty(reply),
        },
        _ => false,
    }
}

/// Whether the reply is one to a call without a type: no values, or none at all.
fn is_empty(reply: &Reply) -> bool
    ensures exactly { (types : TypeTable) → IsTrue result ↔ IsReplyTo types None (reply_view reply.now) }
{
    match reply {
        Reply::Values(values) => values.is_empty(),
        Reply::Raised(_, _) => false,
        Reply::Gone => true,
    }
}
