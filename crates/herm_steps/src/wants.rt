//! What a process wants of a place.
ghost use Rattle.std.specs.Prelude.{◌≡◌, ℕ, List, Some, map, option_map, slice_get, ⊤};
ghost use Rattle.herm_journal.specs.Actions.{to_take};
ghost use Rattle.herm_journal.specs.Messages.{CellWant};
ghost use Rattle.herm_forms.specs.ClosesAndAnswers.{work_wants};
ghost use Rattle.herm_values.specs.Works.{item_view};
ghost use Rattle.herm_journal.specs.Renaming.{forget_name};
ghost use Rattle.herm_code_machine.specs.CodeSteps.{code_next, code_wanted};
ghost use Rattle.herm_code_machine.specs.CodeStates.{CodeState};
ghost use Rattle.herm_model.specs.Values as model;
ghost use Rattle.herm_pieces.specs.View.{ready_view};
ghost use Rattle.herm_exchanges.specs.Told.{told, want_view};
ghost use Rattle.herm_steps.specs.Coming.{coming};
ghost use Rattle.herm_steps.specs.StandingAt.{StandsAt};
ghost use Rattle.herm_steps.specs.ToldNext.{looked_next, told_front};

use crate::next::Next;
use crate::running::Running;
use herm_base::PortNo;
use herm_exchanges::{Want, port_at, work_want};
use herm_pieces::Code;

impl Running {
    /// The port at a place among those that it looks at, where it wants to take a message. None where it looks at none there.
    pub fn look(&self, code: &Code, place: usize) -> Option<PortNo>
        ensures port { (s : CodeState ⊤) (ports : List ℕ) → StandsAt self.now s → code_wanted forget_name (ready_view code.now) s ≡ Some (to_take ports) → option_map (λ p. p.number) result ≡ slice_get ports place }
        ensures exactly { (s : CodeState ⊤) → StandsAt self.now s → option_map (λ p. p.number) result ≡ looked_next place (coming (code_next (ready_view code.now) s)) s.frame }
    {
        match self.next(code) {
            Next::Item => None,
            Next::Reply(_) => None,
            Next::Action(_, met) => port_at(&self.frame, met.instruction, place),
            Next::Local(_) => None,
            Next::Nothing => None,
        }
    }

    /// What the front of its work list wants.
    pub(crate) fn work_wanted(&self) -> Option<Want>
        ensures want { (item : model.Value) (w : CellWant ⊤) → slice_get (map item_view self.now.frame.work) 0 ≡ Some item → work_wants item ≡ Some w → option_map want_view result ≡ told w }
        ensures exactly { option_map want_view result ≡ told_front (map item_view self.now.frame.work) }
    {
        match self.frame.front() {
            Some(item) => Some(work_want(item)),
            None => None,
        }
    }
}
