//! What the answer of a call leaves in the caller.
ghost use Rattle.std.specs.Prelude.{◌≡◌, ℕ, List, Some, [], map, option_map, option_to_list, slice_get, IfOk, OnOk, ⊤};
ghost use Rattle.std.specs.List.{All};
ghost use Rattle.herm_model.specs.Calls.{kept_for};
ghost use Rattle.herm_model.specs.Lists.{any_pass};
ghost use Rattle.herm_model.specs.Outcomes as model;
ghost use Rattle.herm_model.specs.Paths as paths;
ghost use Rattle.herm_model.specs.Paths.{same_path};
ghost use Rattle.herm_journal.specs.Actions.{hear};
ghost use Rattle.herm_forms.specs.Frames as frames;
ghost use Rattle.herm_forms.specs.Frames.{drop, putting_all};
ghost use Rattle.herm_types.specs.View.{path_view, raise_decl_view};
ghost use Rattle.herm_values.specs.View.{value_view};
ghost use Rattle.herm_values.specs.Whole.{IsWhole};
ghost use Rattle.herm_letters.specs.Letters.{IsWholeReply};
ghost use Rattle.herm_letters.specs.View.{reply_view};
ghost use Rattle.herm_code.specs.View.{argument_view};
ghost use Rattle.herm_instructions.specs.Instructions as instructions;
ghost use Rattle.herm_code_machine.specs.CodeActions.{code_hears, outs, path_in, returned};
ghost use Rattle.herm_frames.specs.Completed.{outcome_view, Completes};
ghost use Rattle.herm_frames.specs.Standing.{Stands};
ghost use Rattle.herm_exchanges.specs.Heard.{IsPut, left_of, paths_at};

use crate::queues::pop_first;
use herm_base::ExcNo;
use herm_code::Arg;
use herm_frames::{Frame, Outcome};
use herm_letters::Reply;
use herm_types::{Path, RaiseDecl};
use herm_values::Value;
use std::alloc::AllocError;
use std::collections::VecDeque;

/// The exception where nothing came back.
const DISCONNECTED: ExcNo = ExcNo(6);

/// The answer of the open call: its values go to the arguments of modes inout and out. At an exception those that it keeps
/// go to theirs, after what the other arguments of mode out hold was finalised. Without an answer all that they hold is
/// finalised.
pub fn heard(
    frame: &mut Frame,
    arguments: &[Arg],
    keeps: &[RaiseDecl],
    reply: Reply,
) -> Result<Outcome, AllocError>
    requires whole { IsWholeReply reply }
    ensures settles { IfOk result (λ r. (s : frames.Frame ⊤) (port : paths.Path) (call : ℕ) → Stands frame.old s → Completes (outcome_view r) frame.new (code_hears (instructions.Call port (map argument_view arguments.now) (map raise_decl_view keeps.now)) call (hear call (reply_view reply)) s)) }
{
    frame.close_call();
    match reply {
        Reply::Values(values) => {
            let outcome = put_returned(frame, arguments, values, Outcome::Next)?;
            Ok(outcome)
        }
        Reply::Raised(e, values) => {
            let kept = kept_places(keeps, e);
            drop_left(frame, arguments, kept)?;
            let outcome = put_kept(frame, arguments, kept, values, Outcome::Raised(e))?;
            Ok(outcome)
        }
        Reply::Gone => {
            drop_left(frame, arguments, &[])?;
            Ok(Outcome::Raised(DISCONNECTED))
        }
    }
}

/// The places of the parameters that an exception keeps.
fn kept_places(keeps: &[RaiseDecl], e: ExcNo) -> &[u32]
    ensures places { result.now ≡ kept_for (map raise_decl_view keeps.now) e.0 }
{
    'keeps: for declared in keeps {
        if declared.exc.0 == e.0 {
            return declared.keeps.as_slice();
        }
    }
    &[]
}

/// The path of an argument, if it has one.
fn path_of(a: &Arg) -> Option<&Path>
    ensures path { option_to_list (option_map (λ p. path_view p.now) result) ≡ path_in (Some (argument_view a.now)) }
{
    match a {
        Arg::In => None,
        Arg::Inout(path) => Some(path),
        Arg::Out(path) => Some(path),
    }
}

/// The path of the argument at a place, if it has one.
fn path_at(arguments: &[Arg], place: u32) -> Option<&Path>
    ensures path { option_to_list (option_map (λ p. path_view p.now) result) ≡ path_in (slice_get (map argument_view arguments.now) place) }
{
    match arguments.get(place as usize) {
        Some(a) => path_of(a),
        None => None,
    }
}

/// Finalises what stands at the arguments of mode out that are not at these places, in order.
pub fn drop_left(frame: &mut Frame, arguments: &[Arg], kept: &[u32]) -> Result<(), AllocError>
    ensures stands { OnOk result ((s : frames.Frame ⊤) → Stands frame.old s → Stands frame.new (drop (left_of (paths_at (map argument_view arguments.now) kept.now) (outs (map argument_view arguments.now))) s)) }
{
    'arguments: for a in arguments {
        if let Arg::Out(path) = a {
            if !is_at(arguments, kept, path) {
                frame.drop_at(path)?;
            }
        }
    }
    Ok(())
}

/// Whether the path is that of an argument at one of these places.
fn is_at(arguments: &[Arg], places: &[u32], path: &Path) -> bool
    ensures at { result ≡ any_pass (same_path (path_view path.now)) (paths_at (map argument_view arguments.now) places.now) }
{
    'places: for place in places {
        if let Some(other) = path_at(arguments, *place) {
            if is_same(path, other) {
                return true;
            }
        }
    }
    false
}

/// Whether two paths are the same.
fn is_same(a: &Path, b: &Path) -> bool
    ensures same { result ≡ same_path (path_view a.now) (path_view b.now) }
{
    a.var == b.var && a.parts.as_slice() == b.parts.as_slice()
}

/// Puts values at the arguments of modes inout and out, in order, where there are as many.
fn put_returned(
    frame: &mut Frame,
    arguments: &[Arg],
    values: Vec<Value>,
    outcome: Outcome,
) -> Result<Outcome, AllocError>
    requires whole { All IsWhole values.items }
    ensures settles { IfOk result (λ r. (s : frames.Frame ⊤) (o : model.Outcome) → Stands frame.old s → outcome_view outcome ≡ Some o → Completes (outcome_view r) frame.new (putting_all (returned (map argument_view arguments.now)) o (map value_view values.items) s)) }
{
    let mut left = VecDeque::from(values);
    'arguments: for a in arguments {
        if !put_next(frame, path_of(a), &mut left)? {
            return Ok(Outcome::Stuck);
        }
    }
    if left.is_empty() {
        return Ok(outcome);
    }
    Ok(Outcome::Stuck)
}

/// Puts values at the arguments at these places, in order, where there are as many.
fn put_kept(
    frame: &mut Frame,
    arguments: &[Arg],
    places: &[u32],
    values: Vec<Value>,
    outcome: Outcome,
) -> Result<Outcome, AllocError>
    requires whole { All IsWhole values.items }
    ensures settles { IfOk result (λ r. (s : frames.Frame ⊤) (o : model.Outcome) → Stands frame.old s → outcome_view outcome ≡ Some o → Completes (outcome_view r) frame.new (putting_all (paths_at (map argument_view arguments.now) places.now) o (map value_view values.items) s)) }
{
    let mut left = VecDeque::from(values);
    'places: for place in places {
        if !put_next(frame, path_at(arguments, *place), &mut left)? {
            return Ok(Outcome::Stuck);
        }
    }
    if left.is_empty() {
        return Ok(outcome);
    }
    Ok(Outcome::Stuck)
}

/// Puts the first value at this path, if it is one. False where there is no value or no such place.
fn put_next(
    frame: &mut Frame,
    path: Option<&Path>,
    left: &mut VecDeque<Value>,
) -> Result<bool, AllocError>
    requires whole { All IsWhole left.old.items }
    ensures put { IfOk result (λ t. (s : frames.Frame ⊤) → Stands frame.old s → IsPut t frame.new (option_to_list (option_map (λ p. path_view p.now) path.entry)) (map value_view left.old.items) (map value_view left.new.items) s) }
    ensures left_whole { All IsWhole left.new.items }
{
    let Some(path) = path else {
        return Ok(true);
    };
    let Some(v) = pop_first(left) else {
        return Ok(false);
    };
    let is_there = frame.put(path, v)?;
    Ok(is_there)
}
