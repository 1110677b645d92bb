//! What the answers leave of an instruction that makes a port or a process.
ghost use Rattle.std.specs.Prelude.{◌≡◌, ℕ, option_map, IfOk, IsErr, ⊤};
ghost use Rattle.herm_journal.specs.Actions.{make_port, make_process};
ghost use Rattle.herm_journal.specs.Renaming.{forget_name};
ghost use Rattle.herm_model.specs.Values.{cell_at};
ghost use Rattle.herm_forms.specs.Exchanges as exchanges;
ghost use Rattle.herm_forms.specs.Frames as frames;
ghost use Rattle.herm_types.specs.View.{path_view};
ghost use Rattle.herm_places.specs.Held.{seen_places};
ghost use Rattle.herm_frames.specs.Completed.{outcome_view, Completes};
ghost use Rattle.herm_frames.specs.Standing.{Stands};
ghost use Rattle.herm_frames.specs.Waiting.{Waits};

use herm_base::{ExcNo, PortNo, ProcNo};
use herm_frames::{Frame, Outcome};
use herm_types::Path;
use herm_values::Value;
use std::alloc::AllocError;

/// The exception where the ports or the processes are as many as their limit.
const DEPLETION: ExcNo = ExcNo(1);

/// The answer to `New` of an inport type: the new port, or none. Memory is wanted only where an inport or a callmessage stood at
/// the target.
pub fn new_inport(
    frame: &mut Frame,
    target: &Path,
    made: Option<PortNo>,
) -> Result<Outcome, AllocError>
    ensures settles { IfOk result (λ r. (s : frames.Frame ⊤) → Stands frame.old s → Completes (outcome_view r) frame.new (exchanges.new_inport forget_name (path_view target.now) (make_port (option_map (λ p. p.number) made)) s)) }
    ensures refused { IsErr result → Waits (cell_at (path_view target.now) (seen_places frame.old.variables)) }
{
    let Some(port) = made else {
        return Ok(Outcome::Raised(DEPLETION));
    };
    frame.make_cell();
    let outcome = frame.put_at_end(target, Value::Inport(port), Outcome::Next)?;
    Ok(outcome)
}

/// The answer to `Create`: the new process and its port, or none. The inport that goes to it and the outport are made. Memory is
/// wanted only where an inport or a callmessage stood at the target.
pub fn create(
    frame: &mut Frame,
    target: &Path,
    made: Option<(ProcNo, PortNo)>,
) -> Result<Outcome, AllocError>
    ensures settles { IfOk result (λ r. (s : frames.Frame ⊤) (code : ℕ) → Stands frame.old s → Completes (outcome_view r) frame.new (exchanges.create forget_name (path_view target.now) (make_process code (option_map (λ m. (m.0.number, m.1.number)) made)) s)) }
    ensures refused { IsErr result → Waits (cell_at (path_view target.now) (seen_places frame.old.variables)) }
{
    let Some(numbers) = made else {
        return Ok(Outcome::Raised(DEPLETION));
    };
    frame.make_cell();
    frame.make_cell();
    let outcome = frame.put_at_end(target, Value::Outport(numbers.1), Outcome::Next)?;
    Ok(outcome)
}
