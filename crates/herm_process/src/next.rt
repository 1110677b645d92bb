//! What comes next in a process.
ghost use Rattle.std.specs.Prelude.{◌≡◌, ℕ, Some, ⊤};
ghost use Rattle.herm_journal.specs.Messages.{CellWant};
ghost use Rattle.herm_system.specs.Machines.{acting};
ghost use Rattle.herm_instructions.specs.Images.{Image};
ghost use Rattle.herm_code_machine.specs.CodeStates.{CodeState};
ghost use Rattle.herm_code_machine.specs.CodeSteps.{code_next};
ghost use Rattle.herm_steps.specs.Coming.{begins_with_step, coming};
ghost use Rattle.herm_machine.specs.Machines.{IsAt, StandsFor, code_of, nameless};
ghost use Rattle.herm_process.specs.Nexts.{IsNext, is_spent};

use herm_exchanges::Want;
use herm_machine::Machine;
use herm_steps::End;

/// The limit that a process has reached: of steps or of actions.
#[derive(Clone, Copy, Debug, PartialEq, Eq)]
pub enum Spent {
    Steps(u32),
    Actions(u32),
}

/// What comes next: a local step; an action, with what it wants of a place; or nothing, since the process has ended or has
/// reached a limit.
#[derive(Clone, Copy, Debug, PartialEq, Eq)]
pub enum Next {
    Local,
    Act(Want),
    Ended(End),
    Stopped(Spent),
}

/// The most actions that a process makes.
const MOST_ACTIONS: u32 = 16384;

/// What comes next under this limit of steps, where no order is out.
#[inline(always)]
pub fn next_of(machine: &Machine, limit: u32) -> Next
    ensures next { (image : Image) (main : ℕ) (s : CodeState ⊤) → StandsFor image main machine.now s → IsNext (nameless image main) limit s result }
{
    let coming = machine.coming();
    if let Some(end) = coming.end {
        return Next::Ended(end);
    }
    if is_out_of_steps(machine, coming.has_step, limit) {
        return Next::Stopped(Spent::Steps(limit));
    }
    let Some(want) = coming.want else {
        return Next::Local;
    };
    let (_, actions) = machine.counts();
    if actions >= MOST_ACTIONS as u64 {
        return Next::Stopped(Spent::Actions(MOST_ACTIONS));
    }
    Next::Act(want)
}

/// Whether a step is next, and none is left.
fn is_out_of_steps(machine: &Machine, has_step: bool, limit: u32) -> bool
    ensures spent { (image : Image) (main : ℕ) (s : CodeState ⊤) → StandsFor image main machine.now s → has_step ≡ begins_with_step (coming (code_next (code_of machine.now) s)) → result ≡ is_spent (code_of machine.now) limit s }
{
    let (steps, _) = machine.counts();
    has_step && !(steps < limit as u64)
}

/// What comes next where an action does: what it wants.
pub fn next_action(machine: &Machine) -> Next
    ensures next { (image : Image) (main limit : ℕ) (s : CodeState ⊤) (w : CellWant ⊤) → IsAt image main machine.now s → (nameless image main).ready limit s ≡ acting → (nameless image main).wanted s ≡ Some w → IsNext (nameless image main) limit s result }
{
    match machine.wants() {
        Some(want) => Next::Act(want),
        None => Next::Local,
    }
}
