//! What a message leaves that was taken.
ghost use Rattle.std.specs.Prelude.{◌≡◌, ◌<◌, ℕ, length, map, option_map, option_and_then, IfOk, IfSome, IsErr, ⊤};
ghost use Rattle.herm_model.specs.Outcomes.{arm};
ghost use Rattle.herm_model.specs.Values.{cell_at};
ghost use Rattle.herm_journal.specs.Actions.{take};
ghost use Rattle.herm_forms.specs.Exchanges as exchanges;
ghost use Rattle.herm_forms.specs.Exchanges.{place_of_port};
ghost use Rattle.herm_forms.specs.Frames as frames;
ghost use Rattle.herm_types.specs.View.{path_view};
ghost use Rattle.herm_values.specs.View.{value_view};
ghost use Rattle.herm_values.specs.Whole.{IsWhole};
ghost use Rattle.herm_code.specs.View.{choice_view};
ghost use Rattle.herm_code_machine.specs.CodeActions.{ports_of_choices, targets_of_choices};
ghost use Rattle.herm_places.specs.Held.{seen_places};
ghost use Rattle.herm_frames.specs.Completed.{outcome_view, Completes};
ghost use Rattle.herm_frames.specs.Standing.{Stands};
ghost use Rattle.herm_frames.specs.Waiting.{Waits};
ghost use Rattle.herm_exchanges.specs.Arms.{first_looking, have_ports, is_port};

use crate::ports::inport_at;
use herm_base::PortNo;
use herm_code::Arm;
use herm_frames::{Frame, Outcome};
use herm_types::Path;
use herm_values::Value;
use std::alloc::AllocError;

/// The message of a `Receive` is placed at its target.
pub fn receive(frame: &mut Frame, target: &Path, message: Value) -> Result<Outcome, AllocError>
    requires whole { IsWhole message }
    ensures settles { IfOk result (λ r. (s : frames.Frame ⊤) (number : ℕ) → Stands frame.old s → Completes (outcome_view r) frame.new (exchanges.receive (path_view target.now) (take number (value_view message)) s)) }
    ensures refused { IsErr result → Waits (cell_at (path_view target.now) (seen_places frame.old.variables)) }
{
    let outcome = frame.put_at_end(target, message, Outcome::Next)?;
    Ok(outcome)
}

/// The message of a `Select` that came from a port is placed at the target of the first arm that looks at this port. The
/// answer is the place of the arm, and none where it is stuck.
pub fn select(
    frame: &mut Frame,
    arms: &[Arm],
    port: PortNo,
    message: Value,
) -> Result<Option<usize>, AllocError>
    requires whole { IsWhole message }
    ensures settles { IfOk result (λ r. (s : frames.Frame ⊤) (number : ℕ) → Stands frame.old s → Completes (option_map arm r) frame.new (exchanges.select (targets_of_choices (map choice_view arms.now)) (ports_of_choices (map choice_view arms.now)) port.number (take number (value_view message)) s)) }
{
    let Some(place) = arm_of(frame, arms, port) else {
        return Ok(None);
    };
    let is_there = frame.put(&arms[place].target, message)?;
    if is_there {
        return Ok(Some(place));
    }
    Ok(None)
}

/// The place of the first arm that looks at this port, where each has a port.
fn arm_of(frame: &Frame, arms: &[Arm], port: PortNo) -> Option<usize>
    ensures place { (s : frames.Frame ⊤) → Stands frame.now s → result ≡ option_and_then (place_of_port 0 port.number) (exchanges.ports_at (ports_of_choices (map choice_view arms.now)) s) }
    ensures within { IfSome result (λ p. p < length arms.now) }
{
    if !have_ports(frame, arms) {
        return None;
    }
    let place = first_looking(frame, arms, port);
    place
}

/// Whether each arm has a port.
fn have_ports(frame: &Frame, arms: &[Arm]) -> bool
    ensures have { (s : frames.Frame ⊤) → Stands frame.now s → result ≡ have_ports (ports_of_choices (map choice_view arms.now)) s }
{
    'arms: for a in arms {
        if inport_at(frame, &a.port).is_none() {
            return false;
        }
    }
    true
}

/// The place of the first arm at whose path this port's inport is.
fn first_looking(frame: &Frame, arms: &[Arm], port: PortNo) -> Option<usize>
    ensures place { (s : frames.Frame ⊤) → Stands frame.now s → result ≡ first_looking 0 port.number (ports_of_choices (map choice_view arms.now)) s }
    ensures within { IfSome result (λ p. p < length arms.now) }
{
    'places: for place in 0..arms.len() {
        if is_looking(frame, &arms[place], port) {
            return Some(place);
        }
    }
    None
}

/// Whether this port's inport is at an arm's path.
fn is_looking(frame: &Frame, a: &Arm, port: PortNo) -> bool
    ensures looking { (s : frames.Frame ⊤) → Stands frame.now s → result ≡ is_port port.number (exchanges.inport_at (path_view a.now.port) s) }
{
    match inport_at(frame, &a.port) {
        Some(other) => port.number == other.number,
        None => false,
    }
}
