//! What a process remembers of an order while its answer has not come.
ghost use Rattle.std.specs.Prelude.{◌≡◌, ℕ, Some, ⊤};
ghost use Rattle.herm_instructions.specs.Images.{Image};
ghost use Rattle.herm_code_machine.specs.CodeStates.{CodeState};
ghost use Rattle.herm_machine.specs.Machines.{StandsFor, nameless};
ghost use Rattle.herm_process.specs.Sums.{AreSums, sums_in};

use herm_base::{PortNo, ProcNo};
use herm_events::ReplyTrace;
use herm_machine::Machine;

/// The steps and the actions of a process.
#[derive(Clone, Copy, Debug, PartialEq, Eq)]
pub struct Sums {
    pub steps: u64,
    pub actions: u64,
}

/// The sums of a machine with no order out.
pub fn sums_of(machine: &Machine) -> Sums
    ensures sums { (image : Image) (main : ℕ) (s : CodeState ⊤) → StandsFor image main machine.now s → AreSums (nameless image main) s result }
{
    let (steps, actions) = machine.counts();
    Sums { steps, actions }
}

/// What was ordered, with what the entry of its answer tells beside what is got: the port, or the caller and the call with the
/// text of the reply; and the sums of the process from before a message or a reply went out.
#[derive(Drop)]
pub enum Ordered {
    MakePort,
    MakeProcess(u32),
    Put(PortNo, Sums),
    Take,
    Close(PortNo),
    Answer(ProcNo, u64, ReplyTrace, Sums),
    Hear,
}

/// The sums that an order remembers, if there is one that gave something away.
pub fn remembered(ordered: &Option<Ordered>) -> Option<Sums>
    ensures sums { result ≡ sums_in ordered.now }
{
    match ordered {
        None => None,
        Some(ordered) => sums_before(ordered),
    }
}

/// The sums that an order remembers, if it gave something away.
fn sums_before(ordered: &Ordered) -> Option<Sums>
    ensures sums { result ≡ sums_in (Some ordered.now) }
{
    match ordered {
        Ordered::MakePort => None,
        Ordered::MakeProcess(_) => None,
        Ordered::Put(_, sums) => Some(*sums),
        Ordered::Take => None,
        Ordered::Close(_) => None,
        Ordered::Answer(_, _, _, sums) => Some(*sums),
        Ordered::Hear => None,
    }
}
