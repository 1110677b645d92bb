//! Messages that are taken out before they are put.
ghost use Rattle.std.specs.Prelude.{◌≡◌, ◌<◌, ℕ, Some, None, map, option_and_then, IfOk, IfSome, IfNone, ⊤};
ghost use Rattle.herm_journal.specs.Actions.{put, to_put};
ghost use Rattle.herm_journal.specs.Renaming.{forget_name};
ghost use Rattle.herm_model.specs.Paths as paths;
ghost use Rattle.herm_model.specs.Values as model;
ghost use Rattle.herm_forms.specs.Exchanges.{outport_at};
ghost use Rattle.herm_forms.specs.Frames as frames;
ghost use Rattle.herm_forms.specs.Frames.{counted_action};
ghost use Rattle.herm_code_machine.specs.CodeActions.{code_settles, code_wants};
ghost use Rattle.herm_code_machine.specs.CodeSteps.{counted_if};
ghost use Rattle.herm_code_machine.specs.Pieces.{stack_before_action};
ghost use Rattle.herm_frames.specs.Standing.{Stands};
ghost use Rattle.herm_instructions.specs.Instructions as instructions;
ghost use Rattle.herm_pieces.specs.View.{piece_view, ready_view};
ghost use Rattle.herm_stack.specs.Answers.{on_stack};
ghost use Rattle.herm_types.specs.View.{path_view};
ghost use Rattle.herm_values.specs.View.{value_view};
ghost use Rattle.herm_values.specs.Whole.{IsWhole};
ghost use Rattle.herm_steps.specs.Sent.{Places, Wants};

use crate::operands::push_operands;
use herm_exchanges::take_message;
use herm_frames::Frame;
use herm_pieces::{Code, Piece};
use herm_stack::Stack;
use herm_types::Path;
use herm_values::Value;
use std::alloc::{AllocError, Global};

/// Takes out the message of a piece's `Send`: its operands are pushed, the step of the piece and the action are counted, and
/// what is left is what the placed message leaves. None where something is not there.
pub fn take_sent(
    alloc: Global,
    code: &Code,
    frame: &mut Frame,
    stack: &mut Stack,
    piece: Piece,
    source: &Path,
    trim: &[Path],
) -> Result<Option<Value>, AllocError>
    requires steps { frame.old.steps < u64.MAX }
    requires actions { frame.old.actions < u64.MAX }
    ensures wanted { IfOk result (λ r. IfSome r (λ v. (s : frames.Frame ⊤) (port : paths.Path) (p : ℕ) → Stands frame.old s → outport_at port s ≡ Some p → Wants (ready_view code.now) (instructions.Send (path_view source.now) port (map path_view trim.now)) (to_put p (value_view v)) s (stack_before_action (ready_view code.now) (piece_view piece) s.variables (on_stack stack.old)))) }
    ensures placed { IfOk result (λ r. IfSome r (λ v. (s : frames.Frame ⊤) (port : paths.Path) (at number : ℕ) (m : model.Value) → Stands frame.old s → Places (ready_view code.now) (instructions.Send (path_view source.now) port (map path_view trim.now)) at (put (Some number) m) (counted_action (counted_if piece.has_step s)) (stack_before_action (ready_view code.now) (piece_view piece) s.variables (on_stack stack.old)) (on_stack stack.new) frame.new)) }
    ensures absent { IfOk result (λ r. IfNone r ((s : frames.Frame ⊤) (port : paths.Path) → Stands frame.old s → option_and_then (λ st. code_wants forget_name (ready_view code.now) (instructions.Send (path_view source.now) port (map path_view trim.now)) st s) (stack_before_action (ready_view code.now) (piece_view piece) s.variables (on_stack stack.old)) ≡ None)) }
    ensures whole { IfOk result (λ r. IfSome r IsWhole) }
{
    if !push_operands(alloc, code, frame, piece, stack)? {
        return Ok(None);
    }
    count_piece(frame, piece);
    let Some(message) = take_message(frame, source, trim)? else {
        return Ok(None);
    };
    Ok(Some(message))
}

/// Counts the step of a piece, if it has one, and its action.
pub fn count_piece(frame: &mut Frame, piece: Piece)
    requires steps { frame.old.steps < u64.MAX }
    requires actions { frame.old.actions < u64.MAX }
    ensures stands { (s : frames.Frame ⊤) → Stands frame.old s → Stands frame.new (counted_action (counted_if piece.has_step s)) }
{
    count_step(frame, piece.has_step);
    frame.count_action();
}

/// Counts a step, if there is one.
pub fn count_step(frame: &mut Frame, has_step: bool)
    requires steps { frame.old.steps < u64.MAX }
    ensures stands { (s : frames.Frame ⊤) → Stands frame.old s → Stands frame.new (counted_if has_step s) }
    ensures actions { frame.new.actions ≡ frame.old.actions }
{
    if has_step {
        frame.count_step();
    }
}
