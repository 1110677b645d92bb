//! What a process looks at: whether what it wants can be done now.
ghost use Rattle.std.specs.Prelude.{◌≡◌, ℕ, List, Some, false, find, option_map, ⊤};
ghost use Rattle.herm_journal.specs.Actions.{to_take};
ghost use Rattle.herm_journal.specs.Messages.{CellWant};
ghost use Rattle.herm_instructions.specs.Images as images;
ghost use Rattle.herm_code_machine.specs.CodeStates.{CodeState};
ghost use Rattle.herm_waking.specs.Unnamed.{bare_can};
ghost use Rattle.herm_exchanges.specs.declared.wants.Want.TheVariants as wants;
ghost use Rattle.herm_machine.specs.Machines.{nameless};
ghost use Rattle.herm_process.specs.Processes.{IsProcess};
ghost use Rattle.herm_world.specs.Looks.{Takes, IsToldWant};
ghost use Rattle.herm_world.specs.Places.{places_of, seen_of, is_filled};

use crate::places::Places;
use herm_base::{PortNo, ProcNo};
use herm_exchanges::{PortList, Want};
use herm_process::Process;

/// The first of these ports, at which the process looks, that has a message.
pub fn first_filled(process: &Process, places: &Places, ports: PortList) -> Option<PortNo>
    requires alive { process.now.is_dead ≡ false }
    requires takes { (image : images.Image) (main : ℕ) (x : CodeState ⊤) → IsProcess image main process.now x → IsToldWant (wants.Take ports) ((nameless image main).wanted x) }
    ensures first { (image : images.Image) (main : ℕ) (x : CodeState ⊤) (ports : List ℕ) → IsProcess image main process.now x → (nameless image main).wanted x ≡ Some (to_take ports) → option_map (λ p. p.number) result ≡ find (is_filled (places_of places.now)) ports }
{
    if ports.count == 1 {
        if places.is_filled(ports.first) {
            return Some(ports.first);
        }
        return None;
    }
    let port = first_among(process, places, ports.count);
    port
}

/// The first of so many ports, at which the process looks, that has a message.
#[inline(never)]
fn first_among(process: &Process, places: &Places, count: usize) -> Option<PortNo>
    requires alive { process.now.is_dead ≡ false }
    requires takes { (image : images.Image) (main : ℕ) (x : CodeState ⊤) → IsProcess image main process.now x → Takes count ((nameless image main).wanted x) }
    ensures first { (image : images.Image) (main : ℕ) (x : CodeState ⊤) (ports : List ℕ) → IsProcess image main process.now x → (nameless image main).wanted x ≡ Some (to_take ports) → option_map (λ p. p.number) result ≡ find (is_filled (places_of places.now)) ports }
{
    for place in 0..count {
        let port = process.look(place);
        if places.is_filled(port) {
            return Some(port);
        }
    }
    None
}

/// Whether what the process wants can be done now.
pub fn can_do(process: &Process, places: &Places, who: ProcNo, want: Want) -> bool
    requires alive { process.now.is_dead ≡ false }
    requires wants { (image : images.Image) (main : ℕ) (x : CodeState ⊤) → IsProcess image main process.now x → IsToldWant want ((nameless image main).wanted x) }
    ensures can { (image : images.Image) (main : ℕ) (x : CodeState ⊤) (w : CellWant ⊤) → IsProcess image main process.now x → (nameless image main).wanted x ≡ Some w → (qs : List (CodeState ⊤)) → result ≡ bare_can (seen_of qs (places_of places.now)) who.number w }
{
    match want {
        Want::MakePort => true,
        Want::MakeProcess(_) => true,
        Want::Put(port) => places.has_port(port),
        Want::Take(ports) => first_filled(process, places, ports).is_some(),
        Want::Close(port) => places.has_port(port),
        Want::Answer(caller, _) => places.has_replies(caller),
        Want::Hear => places.is_answered(who),
    }
}
