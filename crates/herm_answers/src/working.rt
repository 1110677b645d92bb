//! What the answer for the front of a work list leaves.
ghost use Rattle.std.specs.Prelude.{◌≡◌, ◌<◌, ℕ, true, map, OnOk, ⊤};
ghost use Rattle.herm_journal.specs.Actions.{answer, close};
ghost use Rattle.herm_journal.specs.Messages.{CellReply};
ghost use Rattle.herm_journal.specs.Renaming.{forget_name};
ghost use Rattle.herm_code_machine.specs.CodeStates.{CodeState};
ghost use Rattle.herm_code_machine.specs.CodeSteps.{code_answered, code_next};
ghost use Rattle.herm_code_machine.specs.ReadyCode.{ReadyCode};
ghost use Rattle.herm_values.specs.View.{value_view};
ghost use Rattle.herm_steps.specs.Behind.{IsBehind};
ghost use Rattle.herm_steps.specs.Coming.{coming, coming_item};
ghost use Rattle.herm_steps.specs.StandingAt.{StandsAt};

use herm_exchanges::{answered, closed};
use herm_letters::Parcels;
use herm_steps::Running;
use std::alloc::AllocError;

/// The inport at the front of the work list was closed, and these messages were left: they are finalised, and then its own
/// cell. The action is counted.
pub fn was_closed(process: &mut Running, left: Parcels) -> Result<(), AllocError>
    requires actions { process.old.frame.actions < u64.MAX }
    ensures answered { OnOk result ((c : ReadyCode) (s : CodeState ⊤) (at count : ℕ) → StandsAt process.old s → coming_item ≡ coming (code_next c s) → IsBehind true process.new s (code_answered forget_name c s at (close count (map (λ p. value_view p.value) left.parcels)))) }
{
    process.frame.count_action();
    closed(&mut process.frame, left)?;
    Ok(())
}

/// The callmessage at the front of the work list was answered: its cell is finalised. The action is counted.
pub fn was_answered(process: &mut Running)
    requires actions { process.old.frame.actions < u64.MAX }
    ensures answered { (c : ReadyCode) (s : CodeState ⊤) (at call : ℕ) (r : CellReply ⊤) → StandsAt process.old s → coming_item ≡ coming (code_next c s) → IsBehind true process.new s (code_answered forget_name c s at (answer call r)) }
{
    process.frame.count_action();
    answered(&mut process.frame);
}
