//! What comes next, told at once.
ghost use Rattle.std.specs.Prelude.{◌≡◌, Some, None, option_map, true, ⊤};
ghost use Rattle.herm_journal.specs.Messages.{CellWant};
ghost use Rattle.herm_journal.specs.Renaming.{forget_name};
ghost use Rattle.herm_code_machine.specs.CodeSteps.{code_next, code_wanted};
ghost use Rattle.herm_code_machine.specs.CodeStates.{CodeState};
ghost use Rattle.herm_pieces.specs.View.{ready_view};
ghost use Rattle.herm_exchanges.specs.Told.{told, want_view};
ghost use Rattle.herm_steps.specs.Coming.{begins_with_step, coming, ended_at, end_view, wants_nothing};
ghost use Rattle.herm_steps.specs.StandingAt.{StandsAt};
ghost use Rattle.herm_steps.specs.ToldNext.{told_next};

use crate::next::Next;
use crate::running::{End, Running};
use herm_exchanges::{Want, want_of};
use herm_pieces::Code;

/// What comes next in a process: how it has ended, if it has; whether a step begins it; and what it wants of a place.
#[derive(Clone, Copy, Debug, PartialEq, Eq)]
pub struct Coming {
    pub end: Option<End>,
    pub has_step: bool,
    pub want: Option<Want>,
}

impl Running {
    /// What comes next: the end that it is at, where nothing comes next; whether a step begins it; and what it wants of a place, without
    /// what is carried: none while a local step or nothing comes next, and at an action without its port or callmessage.
    #[inline(always)]
    pub fn coming(&self, code: &Code) -> Coming
        ensures end { (s : CodeState ⊤) → StandsAt self.now s → option_map end_view result.end ≡ ended_at (coming (code_next (ready_view code.now) s)) s.position }
        ensures step { (s : CodeState ⊤) → StandsAt self.now s → result.has_step ≡ begins_with_step (coming (code_next (ready_view code.now) s)) }
        ensures want { (s : CodeState ⊤) (w : CellWant ⊤) → StandsAt self.now s → code_wanted forget_name (ready_view code.now) s ≡ Some w → option_map want_view result.want ≡ told w }
        ensures nothing { (s : CodeState ⊤) → StandsAt self.now s → wants_nothing (coming (code_next (ready_view code.now) s)) ≡ true → result.want ≡ None }
        ensures exactly { (s : CodeState ⊤) → StandsAt self.now s → option_map want_view result.want ≡ told_next (coming (code_next (ready_view code.now) s)) s.frame }
    {
        match self.next(code) {
            Next::Item => Coming {
                end: None,
                has_step: false,
                want: self.work_wanted(),
            },
            Next::Reply(_) => Coming {
                end: None,
                has_step: false,
                want: Some(Want::Hear),
            },
            Next::Action(piece, met) => Coming {
                end: None,
                has_step: piece.has_step,
                want: want_of(&self.frame, met.instruction),
            },
            Next::Local(piece) => Coming {
                end: None,
                has_step: piece.has_step,
                want: None,
            },
            Next::Nothing => Coming {
                end: self.end(),
                has_step: false,
                want: None,
            },
        }
    }
}
