//! The callmessage that a call gives away.
ghost use Rattle.std.specs.Prelude.{◌≡◌, ◌<◌, Some, map, option_map, IfOk, IfSome, ⊤};
ghost use Rattle.herm_code.specs.View.{argument_view};
ghost use Rattle.herm_code_machine.specs.CodeActions.{called, inouts};
ghost use Rattle.herm_code_machine.specs.CodeSteps.{counted_if};
ghost use Rattle.herm_code_machine.specs.Pieces.{stack_before_action};
ghost use Rattle.herm_code_machine.specs.Stacks as stacks;
ghost use Rattle.herm_exchanges.specs.Composed.{IsComposed};
ghost use Rattle.herm_forms.specs.Frames as frames;
ghost use Rattle.herm_forms.specs.Frames.{counted_action};
ghost use Rattle.herm_frames.specs.Standing.{Stands};
ghost use Rattle.herm_instructions.specs.Operands.{count_inputs};
ghost use Rattle.herm_journal.specs.Renaming.{forget_name};
ghost use Rattle.herm_pieces.specs.View.{piece_view, ready_view};
ghost use Rattle.herm_stack.specs.Answers.{on_stack};
ghost use Rattle.herm_types.specs.View.{path_view};
ghost use Rattle.herm_values.specs.Whole.{IsWhole};
ghost use Rattle.herm_answers.specs.Takings.{IsCallOut};

use crate::paths::{excess_of, inout_paths};
use herm_code::Arg;
use herm_exchanges::compose;
use herm_frames::Frame;
use herm_pieces::{Code, Piece};
use herm_stack::Stack;
use herm_steps::{count_piece, push_operands};
use herm_types::Path;
use herm_values::Value;
use std::alloc::{AllocError, Global};

/// Takes out the callmessage of a call, which is the action of this piece: its operands are pushed, its step and action are
/// counted, and the call is open. None where something is not there.
pub fn take_called(
    alloc: Global,
    code: &Code,
    frame: &mut Frame,
    stack: &mut Stack,
    piece: Piece,
    arguments: &[Arg],
) -> Result<Option<Value>, AllocError>
    requires steps { frame.old.steps < u64.MAX }
    requires actions { frame.old.actions < u64.MAX }
    ensures out { IfOk result (λ r. (s : frames.Frame ⊤) → Stands frame.old s → IsCallOut r frame.new (on_stack stack.new) (count_inputs (map argument_view arguments.now)) (stack_before_action (ready_view code.now) (piece_view piece) s.variables (on_stack stack.old)) (λ st. called forget_name (ready_view code.now) (map argument_view arguments.now) st (counted_action (counted_if piece.has_step s)))) }
    ensures whole { IfOk result (λ r. IfSome r IsWhole) }
{
    if !push_operands(alloc, code, frame, piece, stack)? {
        return Ok(None);
    }
    count_piece(frame, piece);
    let moved = inout_paths(alloc, arguments)?;
    let message = compose_call(alloc, code, frame, stack, arguments, moved.as_slice())?;
    Ok(message)
}

/// Composes the callmessage of a call whose arguments of mode inout are at these paths, without what they hold beyond full
/// values, and opens the call. None where something is not there.
fn compose_call(
    alloc: Global,
    code: &Code,
    frame: &mut Frame,
    stack: &mut Stack,
    arguments: &[Arg],
    moved: &[Path],
) -> Result<Option<Value>, AllocError>
    requires paths { map path_view moved.now ≡ inouts (map argument_view arguments.now) }
    ensures composed { IfOk result (λ r. (s : frames.Frame ⊤) → Stands frame.old s → IsComposed r frame.new (called forget_name (ready_view code.now) (map argument_view arguments.now) (on_stack stack.old) s)) }
    ensures rest { IfOk result (λ r. IfSome r (λ v. option_map (λ (p : stacks.Popped). p.rest) (stacks.pop (count_inputs (map argument_view arguments.now)) (on_stack stack.old)) ≡ Some (on_stack stack.new))) }
    ensures whole { IfOk result (λ r. IfSome r IsWhole) }
{
    // Calls are numbered by 64 bits.
    if frame.calls() == u64::MAX {
        return Err(AllocError);
    }
    let lost = excess_of(alloc, code, frame, moved)?;
    let message = compose(alloc, frame, stack, arguments, lost.as_slice())?;
    Ok(message)
}
