//! What the answers to a put leave whose message is out.
ghost use Rattle.std.specs.Prelude.{◌≡◌, ℕ, Some, None, List, map, option_map, IfOk, ⊤};
ghost use Rattle.herm_journal.specs.Actions.{put};
ghost use Rattle.herm_journal.specs.Renaming.{forget_name};
ghost use Rattle.herm_model.specs.Paths as paths;
ghost use Rattle.herm_model.specs.Types as types;
ghost use Rattle.herm_model.specs.Values as model;
ghost use Rattle.herm_code.specs.View.{argument_view, instr_view};
ghost use Rattle.herm_code_machine.specs.CodeStates.{CodeState};
ghost use Rattle.herm_code_machine.specs.CodeSteps.{code_answered};
ghost use Rattle.herm_instructions.specs.Instructions as instructions;
ghost use Rattle.herm_pieces.specs.View.{met_view, ready_view};
ghost use Rattle.herm_types.specs.View.{path_view};
ghost use Rattle.herm_values.specs.View.{value_view};
ghost use Rattle.herm_values.specs.Whole.{IsWhole};
ghost use Rattle.herm_steps.specs.Behind.{IsBehind};
ghost use Rattle.herm_answers.specs.Orders.{HoldsOrder, IsWanted};
ghost use Rattle.herm_answers.specs.Puttings.{IsPutting};

use crate::acting::action_at;
use crate::going::{go_on, wait_at};
use herm_code::{Arg, Instr};
use herm_exchanges::{came_back, refused};
use herm_pieces::{Code, Met, Outcome};
use herm_steps::{Running, outcome_of};
use herm_types::Path;
use herm_values::Value;
use std::alloc::{AllocError, Global};

/// An instruction that puts a message: a `Send` with the message's place, or a call with its arguments.
pub enum Putting<'i> {
    Sending(&'i Path),
    Calling(&'i [Arg]),
    Other,
}

/// What an instruction puts.
fn putting_of(instruction: &Instr) -> Putting
    ensures putting { IsPutting result (instr_view instruction.now) }
{
    match instruction {
        Instr::Send(source, _, _) => Putting::Sending(source),
        Instr::Call(_, arguments, _) => Putting::Calling(arguments.as_slice()),
        _ => Putting::Other,
    }
}

/// The action whose order is out.
pub fn ordered<'i>(process: &Running, code: &Code<'i>) -> Option<Met<'i>>
    ensures ordered { (s : CodeState ⊤) (o : HoldsOrder (ready_view code.now) process.now s) → option_map met_view result ≡ Some o.met }
{
    action_at(code, process.position)
}

/// The message was placed: a `Send` goes on, and a call waits for its answer. False where that leads nowhere.
pub fn was_placed(process: &mut Running, alloc: Global, code: &Code) -> Result<bool, AllocError>
    ensures answered { IfOk result (λ r. (s : CodeState ⊤) (at number : ℕ) (m : model.Value) → HoldsOrder (ready_view code.now) process.old s → IsBehind r process.new s (code_answered forget_name (ready_view code.now) s at (put (Some number) m))) }
{
    let Some(met) = ordered(process, code) else {
        return Ok(false);
    };
    match putting_of(met.instruction) {
        Putting::Sending(_) => {
            let outcome = Some(Outcome::Ok);
            let runs = go_on(process, alloc, code, met.index, met.instruction, outcome)?;
            Ok(runs)
        }
        Putting::Calling(_) => {
            let runs = wait_at(process, alloc, code, met.index)?;
            Ok(runs)
        }
        Putting::Other => Ok(false),
    }
}

/// The message came back, since the port is closed: that of a `Send` goes back where it was, and a call's is finalised without
/// an answer. False where it leads nowhere.
pub fn was_sent_back(
    process: &mut Running,
    alloc: Global,
    code: &Code,
    message: Value,
) -> Result<bool, AllocError>
    requires whole { IsWhole message }
    ensures answered { IfOk result (λ r. (s : CodeState ⊤) (at : ℕ) → HoldsOrder (ready_view code.now) process.old s → IsWanted (ready_view code.now) (value_view message) s → IsBehind r process.new s (code_answered forget_name (ready_view code.now) s at (put None (value_view message)))) }
{
    let Some(met) = ordered(process, code) else {
        return Ok(false);
    };
    match putting_of(met.instruction) {
        Putting::Sending(source) => {
            let runs = send_came_back(process, alloc, code, met, source, message)?;
            Ok(runs)
        }
        Putting::Calling(arguments) => {
            let runs = call_came_back(process, alloc, code, met, arguments, message)?;
            Ok(runs)
        }
        Putting::Other => Ok(false),
    }
}

/// The message of a `Send` goes back where it was.
fn send_came_back(
    process: &mut Running,
    alloc: Global,
    code: &Code,
    met: Met,
    source: &Path,
    message: Value,
) -> Result<bool, AllocError>
    requires whole { IsWhole message }
    ensures answered { IfOk result (λ r. (s : CodeState ⊤) (at : ℕ) (o : HoldsOrder (ready_view code.now) process.old s) (port : paths.Path) (trim : List paths.Path) → o.met ≡ met_view met.entry → instr_view met.entry.instruction.now ≡ instructions.Send (path_view source.now) port trim → IsBehind r process.new s (code_answered forget_name (ready_view code.now) s at (put None (value_view message)))) }
{
    let outcome = came_back(&mut process.frame, source, message)?;
    let outcome = outcome_of(outcome);
    let runs = go_on(process, alloc, code, met.index, met.instruction, outcome)?;
    Ok(runs)
}

/// The callmessage of a call is finalised without an answer.
fn call_came_back(
    process: &mut Running,
    alloc: Global,
    code: &Code,
    met: Met,
    arguments: &[Arg],
    message: Value,
) -> Result<bool, AllocError>
    ensures answered { IfOk result (λ r. (s : CodeState ⊤) (at : ℕ) (o : HoldsOrder (ready_view code.now) process.old s) (port : paths.Path) (keeps : List types.Raised) → o.met ≡ met_view met.entry → instr_view met.entry.instruction.now ≡ instructions.Call port (map argument_view arguments.now) keeps → IsWanted (ready_view code.now) (value_view message) s → IsBehind r process.new s (code_answered forget_name (ready_view code.now) s at (put None (value_view message)))) }
{
    let outcome = refused(&mut process.frame, arguments, message)?;
    let outcome = outcome_of(outcome);
    let runs = go_on(process, alloc, code, met.index, met.instruction, outcome)?;
    Ok(runs)
}
