//! How the process of a number stands: whether it makes a local step or an action next, or why it makes none.
ghost use Rattle.std.specs.Prelude.{◌≡◌, false};
ghost use Rattle.herm_world.specs.Places.{places_of};
ghost use Rattle.herm_world.specs.Turns.{TurnsAs};

use crate::looks::can_do;
use crate::places::Places;
use herm_base::ProcNo;
use herm_process::{Next, Process};

/// What a process does at its turn: a local step, an action that can be done now, or nothing, since it waits, has ended, or has
/// reached a limit.
#[derive(Clone, Copy, Debug, PartialEq, Eq)]
pub enum Turn {
    Local,
    Act,
    Waiting,
    Ended,
    Stopped,
}

/// What a process of this number does at its turn.
pub fn turn_of(process: &Process, places: &Places, who: ProcNo) -> Turn
    requires alive { process.now.is_dead ≡ false }
    ensures turn { TurnsAs result process.now (places_of places.now) who.number }
{
    match process.next() {
        Next::Local => Turn::Local,
        Next::Act(want) => {
            if can_do(process, places, who, want) {
                return Turn::Act;
            }
            Turn::Waiting
        }
        Next::Ended(_) => Turn::Ended,
        Next::Stopped(_) => Turn::Stopped,
    }
}
