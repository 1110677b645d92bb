//! Who waits at which port.
ghost use Rattle.std.specs.Prelude.{◌≡◌, ◌≤◌, ◌∷◌, [], ℕ, List, Some, false, OnOk, ⊤};
ghost use Rattle.herm_journal.specs.Actions.{to_take};
ghost use Rattle.herm_instructions.specs.Images as images;
ghost use Rattle.herm_code_machine.specs.CodeStates.{CodeState};
ghost use Rattle.herm_waking.specs.Waking.{noted_at};
ghost use Rattle.herm_exchanges.specs.declared.wants.Want.TheVariants as wants;
ghost use Rattle.herm_machine.specs.Machines.{nameless};
ghost use Rattle.herm_process.specs.Nexts.{IsNext};
ghost use Rattle.herm_process.specs.Processes.{IsProcess};
ghost use Rattle.herm_process.specs.declared.next.Next.TheVariants as nexts;
ghost use Rattle.herm_waking.specs.Unnamed.{bare_can, ports_of_want};
ghost use Rattle.herm_world.specs.Looks.{Takes, IsToldWant};
ghost use Rattle.herm_world.specs.Places.{places_of, seen_of, waiters_of};
ghost use Rattle.herm_world.specs.Waits.{IsSameBut, IsLookedAt, opened};

use crate::looks::can_do;
use crate::places::Places;
use herm_base::{PortNo, ProcNo};
use herm_exchanges::{PortList, Want};
use herm_process::{Next, Process};
use herm_ready::Ready;
use std::alloc::AllocError;

/// Notes at a port that a process waits there. At a port that is closed, or not there, nothing changes.
fn note_at(places: &mut Places, who: ProcNo, port: PortNo) -> Result<(), AllocError>
    ensures same { OnOk result (IsSameBut (places_of places.old) (places_of places.new)) }
    ensures noted { OnOk result (waiters_of (places_of places.new) ≡ noted_at (opened (places_of places.old)) who.number (port.number ∷ []) (waiters_of (places_of places.old))) }
{
    let n = port.number as usize;
    if n >= places.ports.len() {
        return Ok(());
    }
    places.ports[n].wait_here(who)?;
    Ok(())
}

/// Notes at each of these ports, at which a process looks, that it waits there.
fn note(
    process: &Process,
    places: &mut Places,
    who: ProcNo,
    ports: PortList,
) -> Result<(), AllocError>
    requires alive { process.now.is_dead ≡ false }
    requires takes { (image : images.Image) (main : ℕ) (x : CodeState ⊤) → IsProcess image main process.now x → IsToldWant (wants.Take ports) ((nameless image main).wanted x) }
    ensures same { OnOk result (IsSameBut (places_of places.old) (places_of places.new)) }
    ensures noted { OnOk result ((image : images.Image) (main : ℕ) (x : CodeState ⊤) (ports : List ℕ) → IsProcess image main process.now x → (nameless image main).wanted x ≡ Some (to_take ports) → waiters_of (places_of places.new) ≡ noted_at (opened (places_of places.old)) who.number ports (waiters_of (places_of places.old))) }
{
    if ports.count == 1 {
        note_at(places, who, ports.first)?;
        return Ok(());
    }
    note_each(process, places, who, ports.count)?;
    Ok(())
}

/// Notes at each of so many ports, at which a process looks, that it waits there.
#[inline(never)]
fn note_each(
    process: &Process,
    places: &mut Places,
    who: ProcNo,
    count: usize,
) -> Result<(), AllocError>
    requires alive { process.now.is_dead ≡ false }
    requires takes { (image : images.Image) (main : ℕ) (x : CodeState ⊤) → IsProcess image main process.now x → Takes count ((nameless image main).wanted x) }
    ensures same { OnOk result (IsSameBut (places_of places.old) (places_of places.new)) }
    ensures noted { OnOk result ((image : images.Image) (main : ℕ) (x : CodeState ⊤) (ports : List ℕ) → IsProcess image main process.now x → (nameless image main).wanted x ≡ Some (to_take ports) → waiters_of (places_of places.new) ≡ noted_at (opened (places_of places.old)) who.number ports (waiters_of (places_of places.old))) }
{
    for place in 0..count {
        let port = process.look(place);
        note_at(places, who, port)?;
    }
    Ok(())
}

/// Notes who waits, where this is wanted and cannot be done now.
fn wait_for(
    process: &Process,
    places: &mut Places,
    who: ProcNo,
    want: Want,
) -> Result<(), AllocError>
    requires alive { process.now.is_dead ≡ false }
    requires wants { (image : images.Image) (main : ℕ) (x : CodeState ⊤) → IsProcess image main process.now x → IsToldWant want ((nameless image main).wanted x) }
    ensures same { OnOk result (IsSameBut (places_of places.old) (places_of places.new)) }
    ensures noted { OnOk result ((image : images.Image) (main : ℕ) (x : CodeState ⊤) → IsProcess image main process.now x → waiters_of (places_of places.new) ≡ noted_at (opened (places_of places.old)) who.number (ports_of_want ((nameless image main).wanted x)) (waiters_of (places_of places.old))) }
{
    match want {
        Want::Take(ports) => {
            note(process, places, who, ports)?;
            return Ok(());
        }
        Want::MakePort => return Ok(()),
        Want::MakeProcess(_) => return Ok(()),
        Want::Put(_) => return Ok(()),
        Want::Close(_) => return Ok(()),
        Want::Answer(_, _) => return Ok(()),
        Want::Hear => return Ok(()),
    }
}

/// Looks again at a process whose action is next: it is kept exactly where what it wants can be done, and else noted at each port at
/// which it waits.
#[inline(always)]
fn look_at_want(
    process: &Process,
    places: &mut Places,
    ready: &mut Ready,
    who: ProcNo,
    want: Want,
) -> Result<(), AllocError>
    requires alive { process.now.is_dead ≡ false }
    requires room { who.number ≤ ready.old.limit }
    requires next { (image : images.Image) (main : ℕ) (x : CodeState ⊤) → IsProcess image main process.now x → IsNext (nameless image main) process.now.limit x (nexts.Act want) }
    ensures same { OnOk result (IsSameBut (places_of places.old) (places_of places.new)) }
    ensures limit { ready.new.limit ≡ ready.old.limit }
    ensures kept { OnOk result ((image : images.Image) (main : ℕ) (x : CodeState ⊤) → IsProcess image main process.now x → (qs : List (CodeState ⊤)) → IsLookedAt (nameless image main) process.now.limit (bare_can (seen_of qs (places_of places.old)) who.number) x who.number (places_of places.old) ready.old.members (places_of places.new) ready.new.members) }
{
    if can_do(process, places, who, want) {
        ready.insert(who.number);
        return Ok(());
    }
    ready.remove(who.number);
    wait_for(process, places, who, want)?;
    Ok(())
}

/// Looks again at a process: it is kept exactly where it can step, and noted at each port at which it waits.
#[inline(always)]
pub fn look_again(
    process: &Process,
    places: &mut Places,
    ready: &mut Ready,
    who: ProcNo,
) -> Result<(), AllocError>
    requires alive { process.now.is_dead ≡ false }
    requires room { who.number ≤ ready.old.limit }
    ensures same { OnOk result (IsSameBut (places_of places.old) (places_of places.new)) }
    ensures limit { ready.new.limit ≡ ready.old.limit }
    ensures kept { OnOk result ((image : images.Image) (main : ℕ) (x : CodeState ⊤) → IsProcess image main process.now x → (qs : List (CodeState ⊤)) → IsLookedAt (nameless image main) process.now.limit (bare_can (seen_of qs (places_of places.old)) who.number) x who.number (places_of places.old) ready.old.members (places_of places.new) ready.new.members) }
{
    match process.next() {
        Next::Local => {
            ready.insert(who.number);
            return Ok(());
        }
        Next::Act(want) => {
            look_at_want(process, places, ready, who, want)?;
            return Ok(());
        }
        Next::Ended(_) => {
            ready.remove(who.number);
            return Ok(());
        }
        Next::Stopped(_) => {
            ready.remove(who.number);
            return Ok(());
        }
    }
}
