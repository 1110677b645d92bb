//! What is left behind what was done with the front of the work list.
ghost use Rattle.std.specs.Prelude.{◌≡◌, ◌∷◌, ℕ, List, map, OnOk, ⊤};
ghost use Rattle.herm_model.specs.Values as model;
ghost use Rattle.herm_journal.specs.Actions.{close, answer};
ghost use Rattle.herm_journal.specs.Messages.{CellReply};
ghost use Rattle.herm_forms.specs.ClosesAndAnswers.{work_done};
ghost use Rattle.herm_forms.specs.Frames as frames;
ghost use Rattle.herm_forms.specs.Frames.{finalise_all, stays};
ghost use Rattle.herm_values.specs.View.{value_view};
ghost use Rattle.herm_frames.specs.Standing.{Stands};
ghost use Rattle.herm_exchanges.specs.Worked.{Stays};

use herm_frames::Frame;
use herm_letters::Parcels;
use std::alloc::AllocError;

/// The inport at the front of the work list was closed: the messages that were left are finalised in their order, and then
/// its own cell is.
pub fn closed(frame: &mut Frame, left: Parcels) -> Result<(), AllocError>
    ensures settles { OnOk result ((s : frames.Frame ⊤) (item : model.Value) (more : List model.Value) (count : ℕ) → Stands frame.old s → s.work ≡ item ∷ more → Stays frame.new (work_done item (close count (map (λ p. value_view p.value) left.parcels)) (record s { work = more }))) }
{
    let _ = frame.take_work();
    finalise_parcels(frame, left)?;
    frame.finalise_cell();
    Ok(())
}

/// Finalises messages in order.
fn finalise_parcels(frame: &mut Frame, left: Parcels) -> Result<(), AllocError>
    ensures stands { OnOk result ((s : frames.Frame ⊤) → Stands frame.old s → Stands frame.new (finalise_all (map (λ p. value_view p.value) left.parcels) s)) }
{
    let mut left = left;
    'parcels: while let Some(parcel) = left.take() {
        frame.finalise(parcel.value)?;
    }
    Ok(())
}

/// The callmessage at the front of the work list was answered: its cell is finalised.
pub fn answered(frame: &mut Frame)
    ensures settles { (s : frames.Frame ⊤) (item : model.Value) (more : List model.Value) (call : ℕ) (r : CellReply ⊤) → Stands frame.old s → s.work ≡ item ∷ more → Stays frame.new (work_done item (answer call r) (record s { work = more })) }
{
    let _ = frame.take_work();
    frame.finalise_cell();
}
