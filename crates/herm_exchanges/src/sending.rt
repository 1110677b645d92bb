//! What a `Send` puts, and what its answer leaves.
ghost use Rattle.std.specs.Prelude.{◌≡◌, ℕ, Some, None, map, option_map, option_and_then, IfOk, IfSome, IsErr, OnOk, ⊤};
ghost use Rattle.herm_model.specs.Outcomes.{ok, raised, disconnected};
ghost use Rattle.herm_model.specs.Paths as paths;
ghost use Rattle.herm_model.specs.Values as model;
ghost use Rattle.herm_model.specs.Values.{cell_at};
ghost use Rattle.herm_journal.specs.Actions.{put, to_put};
ghost use Rattle.herm_forms.specs.Exchanges as exchanges;
ghost use Rattle.herm_forms.specs.Frames as frames;
ghost use Rattle.herm_forms.specs.Frames.{cleared, drop, putting};
ghost use Rattle.herm_types.specs.View.{path_view};
ghost use Rattle.herm_values.specs.View.{value_view};
ghost use Rattle.herm_values.specs.Whole.{IsWhole};
ghost use Rattle.herm_places.specs.Held.{seen_places};
ghost use Rattle.herm_frames.specs.Completed.{outcome_view, Completes};
ghost use Rattle.herm_frames.specs.Standing.{Stands};
ghost use Rattle.herm_frames.specs.Waiting.{Waits};

use herm_base::ExcNo;
use herm_frames::{Frame, Outcome};
use herm_types::Path;
use herm_values::Value;
use std::alloc::AllocError;

/// The exception where a port is closed.
const DISCONNECTED: ExcNo = ExcNo(6);

/// Finalises what stands at these paths, in order.
pub fn drop_all(frame: &mut Frame, paths: &[Path]) -> Result<(), AllocError>
    ensures stands { OnOk result ((s : frames.Frame ⊤) → Stands frame.old s → Stands frame.new (drop (map path_view paths.now) s)) }
    ensures calls { OnOk result (frame.new.calls ≡ frame.old.calls) }
{
    'paths: for path in paths {
        frame.drop_at(path)?;
    }
    Ok(())
}

/// Takes out what a `Send` puts: what is at the paths of `trim` is finalised, and the rest of the message goes. None
/// where there is no message. What is left is what the placed message leaves.
pub fn take_message(
    frame: &mut Frame,
    source: &Path,
    trim: &[Path],
) -> Result<Option<Value>, AllocError>
    ensures wanted { IfOk result (λ r. (s : frames.Frame ⊤) (port : paths.Path) → Stands frame.old s → exchanges.send_wants (map path_view trim.now) (path_view source.now) port s ≡ option_and_then (λ p. option_map (λ v. to_put p (value_view v)) r) (exchanges.outport_at port s)) }
    ensures placed { IfOk result (λ r. (s : frames.Frame ⊤) (number : ℕ) (m : model.Value) → Stands frame.old s → Completes (option_map (λ v. ok) r) frame.new (exchanges.send (map path_view trim.now) (path_view source.now) (put (Some number) m) s)) }
    ensures taken { IfOk result (λ r. (s : frames.Frame ⊤) → Stands frame.old s → Stands frame.new (cleared (path_view source.now) (drop (map path_view trim.now) s))) }
    ensures whole { IfOk result (λ r. IfSome r IsWhole) }
{
    drop_all(frame, trim)?;
    let taken = frame.take(source);
    Ok(taken)
}

/// The message of a `Send` comes back where it was taken out, and the port is closed.
pub fn came_back(frame: &mut Frame, source: &Path, message: Value) -> Result<Outcome, AllocError>
    requires whole { IsWhole message }
    ensures settles { IfOk result (λ r. (s : frames.Frame ⊤) → Stands frame.old s → Completes (outcome_view r) frame.new (putting (path_view source.now) (raised disconnected) (value_view message) s)) }
    ensures refused { IsErr result → Waits (cell_at (path_view source.now) (seen_places frame.old.variables)) }
{
    let outcome = frame.put_at_end(source, message, Outcome::Raised(DISCONNECTED))?;
    Ok(outcome)
}
