//! What a return gives back, and what its answer leaves.
ghost use Rattle.std.specs.Prelude.{◌≡◌, ◌++◌, ◌∷◌, [], ℕ, List, Some, None, map, option_map, option_and_then, IfOk, IfSome, OnOk, ⊤};
ghost use Rattle.std.specs.List.{All};
ghost use Rattle.herm_model.specs.Paths.{Path as ModelPath};
ghost use Rattle.herm_model.specs.Values as model;
ghost use Rattle.herm_model.specs.Values.{cell_at};
ghost use Rattle.herm_journal.specs.Actions.{answer};
ghost use Rattle.herm_journal.specs.Messages.{CellReply};
ghost use Rattle.herm_forms.specs.Frames as frames;
ghost use Rattle.herm_forms.specs.Frames.{finalise_at_once, finalise_parts, take_all};
ghost use Rattle.herm_forms.specs.ReturnForms as returns;
ghost use Rattle.herm_forms.specs.ReturnForms.{caller_of, give_back};
ghost use Rattle.herm_types.specs.View.{path_view};
ghost use Rattle.herm_values.specs.Parts.{parts_from};
ghost use Rattle.herm_values.specs.View.{value_view, views_of};
ghost use Rattle.herm_values.specs.Whole.{IsWhole};
ghost use Rattle.herm_frames.specs.Completed.{outcome_view, Completes};
ghost use Rattle.herm_frames.specs.Standing.{Stands};
ghost use Rattle.herm_exchanges.specs.Worked.{IsTaken};

use crate::sending::drop_all;
use herm_frames::{Frame, Outcome};
use herm_types::Path;
use herm_values::Value;
use std::alloc::{AllocError, Global};
use std::collections::VecDeque;

/// Takes out what is given back of a callmessage: what is at the paths `lost` is finalised, and then what is at the paths
/// `given` is taken out, in order. None where nothing is at one of them.
pub fn take_given(
    alloc: Global,
    frame: &mut Frame,
    lost: &[Path],
    given: &[Path],
) -> Result<Option<Vec<Value>>, AllocError>
    ensures taken { IfOk result (λ r. (s : frames.Frame ⊤) → Stands frame.old s → IsTaken (option_map (λ vs. vs.items) r) frame.new (give_back (map path_view lost.now) (map path_view given.now) s)) }
    ensures whole { IfOk result (λ r. IfSome r (λ vs. All IsWhole vs.items)) }
{
    drop_all(frame, lost)?;
    let taken = take_all(alloc, frame, given)?;
    Ok(taken)
}

/// Takes out what stands at these paths, in order. None where nothing is at one of them.
pub fn take_all(
    alloc: Global,
    frame: &mut Frame,
    paths: &[Path],
) -> Result<Option<Vec<Value>>, AllocError>
    ensures taken { IfOk result (λ r. (s : frames.Frame ⊤) → Stands frame.old s → IsTaken (option_map (λ vs. vs.items) r) frame.new (take_all (map path_view paths.now) s)) }
    ensures whole { IfOk result (λ r. IfSome r (λ vs. All IsWhole vs.items)) }
{
    let mut taken = Vec::with_capacity(alloc, paths.len())?;
    'paths: for path in paths {
        let Some(v) = frame.take(path) else {
            return Ok(None);
        };
        taken.push(v)?;
    }
    Ok(Some(taken))
}

/// The call was answered whose callmessage stands at a path: the callmessage's cell is finalised, and then what else it
/// holds.
pub fn given(frame: &mut Frame, source: &Path) -> Result<Outcome, AllocError>
    ensures settles { IfOk result (λ r. (s : frames.Frame ⊤) (cells : List model.Value) (who : ℕ × ℕ) (call : ℕ) (reply : CellReply ⊤) → Stands frame.old s → option_and_then caller_of (cell_at (path_view source.now) s.variables) ≡ Some who → Completes (outcome_view r) frame.new (returns.return (Some (record { cells = cells; frame = s })) (path_view source.now) (answer call reply))) }
{
    let Some(v) = frame.take(source) else {
        return Ok(Outcome::Stuck);
    };
    finalise_call(frame, v)?;
    Ok(Outcome::Next)
}

/// The cell of a callmessage is finalised at once, and then what it holds.
#[tactic(auto, using(herm_values::proofs::Seen::layers))]
pub fn finalise_call(frame: &mut Frame, message: Value) -> Result<(), AllocError>
    ensures stands { OnOk result ((s : frames.Frame ⊤) (who : ℕ × ℕ) → Stands frame.old s → caller_of (value_view message) ≡ Some who → Stands frame.new (finalise_at_once (value_view message) s)) }
{
    frame.finalise_cell();
    match message {
        Value::Call(call) => {
            finalise_places(frame, call.into_params())?;
            Ok(())
        }
        _ => Ok(()),
    }
}

/// Finalises what stands at places, in order.
fn finalise_places(frame: &mut Frame, places: Vec<Option<Value>>) -> Result<(), AllocError>
    ensures stands { OnOk result ((s : frames.Frame ⊤) → Stands frame.old s → Stands frame.new (finalise_parts (parts_from (views_of places.items)) s)) }
{
    let mut left = VecDeque::from(places);
    'places: while let Some(held) = left.pop_front() {
        finalise_held(frame, held)?;
    }
    Ok(())
}

/// Finalises what stands at a place, if something does.
fn finalise_held(frame: &mut Frame, held: Option<Value>) -> Result<(), AllocError>
    ensures stands { OnOk result ((s : frames.Frame ⊤) → Stands frame.old s → Stands frame.new (frames.finalise_old (option_map value_view held) s)) }
{
    match held {
        Some(v) => {
            frame.finalise(v)?;
            Ok(())
        }
        None => Ok(()),
    }
}
