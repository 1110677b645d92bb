//! What a return gives back, and what its answer leaves.
ghost use Rattle.std.specs.Prelude.{◌≡◌, ◌<◌, ℕ, Some, map, option_map, IfOk, IfSome, ⊤};
ghost use Rattle.std.specs.List.{All};
ghost use Rattle.herm_journal.specs.Actions as actions;
ghost use Rattle.herm_journal.specs.Actions.{answer};
ghost use Rattle.herm_journal.specs.Messages.{CellReply};
ghost use Rattle.herm_journal.specs.Renaming.{forget_name};
ghost use Rattle.herm_code.specs.View.{instr_view};
ghost use Rattle.herm_code_machine.specs.CodeActions.{kept_parameters};
ghost use Rattle.herm_code_machine.specs.CodeStates.{CodeState};
ghost use Rattle.herm_code_machine.specs.CodeSteps.{code_answered, counted_if};
ghost use Rattle.herm_code_machine.specs.Pieces.{stack_before_action};
ghost use Rattle.herm_forms.specs.Acts.{given_at, given_back};
ghost use Rattle.herm_forms.specs.Frames as frames;
ghost use Rattle.herm_forms.specs.Frames.{counted_action};
ghost use Rattle.herm_frames.specs.Standing.{Stands};
ghost use Rattle.herm_letters.specs.Letters.{IsWholeReply};
ghost use Rattle.herm_letters.specs.View.{reply_view};
ghost use Rattle.herm_pieces.specs.View.{met_view, piece_view, ready_view};
ghost use Rattle.herm_stack.specs.Answers.{on_stack};
ghost use Rattle.herm_types.specs.View.{path_view};
ghost use Rattle.herm_values.specs.Whole.{IsWhole};
ghost use Rattle.herm_steps.specs.Behind.{IsBehind};
ghost use Rattle.herm_answers.specs.Orders.{HoldsOrder};
ghost use Rattle.herm_answers.specs.Returning.{IsReturning, returned_from};
ghost use Rattle.herm_answers.specs.Takings.{IsReplyOut, IsTakenOut};

use crate::going::go_on;
use crate::paths::{excess_of, parts_at, returned_places};
use crate::putting::ordered;
use crate::types::parameters_at;
use herm_base::ExcNo;
use herm_code::Instr;
use herm_exchanges::{given, take_given};
use herm_frames::Frame;
use herm_letters::Reply;
use herm_pieces::{Code, Met, Piece};
use herm_stack::Stack;
use herm_steps::{Running, count_piece, outcome_of, push_operands};
use herm_types::Path;
use herm_values::Value;
use std::alloc::{AllocError, Global};

/// An instruction that answers a caller: where its callmessage stands, and for an exception the places of the parameters that
/// are given back.
pub enum Returning<'i> {
    Values(&'i Path),
    Raised(&'i Path, ExcNo, &'i [u32]),
    Other,
}

/// The return of an instruction.
pub fn returning_of(instruction: &Instr) -> Returning
    ensures returning { IsReturning result (instr_view instruction.now) }
{
    match instruction {
        Instr::Return(source) => Returning::Values(source),
        Instr::ReturnBy(source, e, kept) => Returning::Raised(source, *e, kept.as_slice()),
        _ => Returning::Other,
    }
}

/// Takes out the values that come back of the callmessage at a path, for the action of this piece. None where something is not
/// there.
pub fn take_values(
    alloc: Global,
    code: &Code,
    frame: &mut Frame,
    stack: &mut Stack,
    piece: Piece,
    source: &Path,
) -> Result<Option<Reply>, AllocError>
    requires steps { frame.old.steps < u64.MAX }
    requires actions { frame.old.actions < u64.MAX }
    ensures out { IfOk result (λ r. (s : frames.Frame ⊤) → Stands frame.old s → IsReplyOut (option_map reply_view r) frame.new (on_stack stack.new) (stack_before_action (ready_view code.now) (piece_view piece) s.variables (on_stack stack.old)) actions.values (given_back (ready_view code.now).scope (given_at (ready_view code.now).scope (path_view source.now)) (counted_action (counted_if piece.has_step s)))) }
    ensures whole { IfOk result (λ r. IfSome r IsWholeReply) }
{
    let paths = value_paths(alloc, code, source)?;
    let taken = take_parameters(alloc, code, frame, stack, piece, paths.as_slice())?;
    let Some(values) = taken else {
        return Ok(None);
    };
    Ok(Some(Reply::Values(values)))
}

/// The paths of the parameters that come back of the callmessage at a path.
fn value_paths(alloc: Global, code: &Code, source: &Path) -> Result<Vec<Path>, AllocError>
    ensures paths { IfOk result (λ v. map path_view v.items ≡ given_at (ready_view code.now).scope (path_view source.now)) }
{
    let params = parameters_at(code.types, code.code.vars.as_slice(), source);
    let places = returned_places(alloc, params)?;
    let paths = parts_at(alloc, source, places.as_slice())?;
    Ok(paths)
}

/// Takes out the values that an exception keeps of the callmessage at a path, which are at these places of it, for the action of
/// this piece. None where something is not there.
pub fn take_raised(
    alloc: Global,
    code: &Code,
    frame: &mut Frame,
    stack: &mut Stack,
    piece: Piece,
    source: &Path,
    exception: ExcNo,
    kept: &[u32],
) -> Result<Option<Reply>, AllocError>
    requires steps { frame.old.steps < u64.MAX }
    requires actions { frame.old.actions < u64.MAX }
    ensures out { IfOk result (λ r. (s : frames.Frame ⊤) → Stands frame.old s → IsReplyOut (option_map reply_view r) frame.new (on_stack stack.new) (stack_before_action (ready_view code.now) (piece_view piece) s.variables (on_stack stack.old)) (actions.raised exception.0) (given_back (ready_view code.now).scope (kept_parameters (ready_view code.now) (path_view source.now) kept.now) (counted_action (counted_if piece.has_step s)))) }
    ensures whole { IfOk result (λ r. IfSome r IsWholeReply) }
{
    let paths = parts_at(alloc, source, kept)?;
    let taken = take_parameters(alloc, code, frame, stack, piece, paths.as_slice())?;
    let Some(values) = taken else {
        return Ok(None);
    };
    Ok(Some(Reply::Raised(exception, values)))
}

/// Takes out what stands at these paths, without what it holds beyond full values, for the action of this piece: its operands are
/// pushed, and its step and action are counted. None where something is not there.
fn take_parameters(
    alloc: Global,
    code: &Code,
    frame: &mut Frame,
    stack: &mut Stack,
    piece: Piece,
    paths: &[Path],
) -> Result<Option<Vec<Value>>, AllocError>
    requires steps { frame.old.steps < u64.MAX }
    requires actions { frame.old.actions < u64.MAX }
    ensures out { IfOk result (λ r. (s : frames.Frame ⊤) → Stands frame.old s → IsTakenOut (option_map (λ vs. vs.items) r) frame.new (on_stack stack.new) (stack_before_action (ready_view code.now) (piece_view piece) s.variables (on_stack stack.old)) (given_back (ready_view code.now).scope (map path_view paths.now) (counted_action (counted_if piece.has_step s)))) }
    ensures whole { IfOk result (λ r. IfSome r (λ vs. All IsWhole vs.items)) }
{
    if !push_operands(alloc, code, frame, piece, stack)? {
        return Ok(None);
    }
    count_piece(frame, piece);
    let lost = excess_of(alloc, code, frame, paths)?;
    let values = take_given(alloc, frame, lost.as_slice(), paths)?;
    Ok(values)
}

/// The caller was answered whose return is out: the callmessage's cell is finalised, and then what else it holds. False where
/// that leads nowhere.
pub fn was_returned(process: &mut Running, alloc: Global, code: &Code) -> Result<bool, AllocError>
    ensures answered { IfOk result (λ r. (s : CodeState ⊤) (at call : ℕ) (reply : CellReply ⊤) → HoldsOrder (ready_view code.now) process.old s → IsBehind r process.new s (code_answered forget_name (ready_view code.now) s at (answer call reply))) }
{
    let Some(met) = ordered(process, code) else {
        return Ok(false);
    };
    match returning_of(met.instruction) {
        Returning::Values(source) => {
            let runs = call_was_given(process, alloc, code, met, source)?;
            Ok(runs)
        }
        Returning::Raised(source, _, _) => {
            let runs = call_was_given(process, alloc, code, met, source)?;
            Ok(runs)
        }
        Returning::Other => Ok(false),
    }
}

/// The callmessage at this path, whose caller was answered, is finalised.
fn call_was_given(
    process: &mut Running,
    alloc: Global,
    code: &Code,
    met: Met,
    source: &Path,
) -> Result<bool, AllocError>
    ensures answered { IfOk result (λ r. (s : CodeState ⊤) (at call : ℕ) (reply : CellReply ⊤) (o : HoldsOrder (ready_view code.now) process.old s) → o.met ≡ met_view met.entry → returned_from (instr_view met.entry.instruction.now) ≡ Some (path_view source.now) → IsBehind r process.new s (code_answered forget_name (ready_view code.now) s at (answer call reply))) }
{
    let outcome = given(&mut process.frame, source)?;
    let outcome = outcome_of(outcome);
    let runs = go_on(process, alloc, code, met.index, met.instruction, outcome)?;
    Ok(runs)
}
