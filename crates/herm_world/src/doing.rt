//! What is done for an order of a process.
ghost use Rattle.std.specs.Prelude.{◌≡◌, ◌<◌, ◌^◌, ℕ, List, [], ◌∷◌, false, None, Some, IfOk, option_map, ⊤};
ghost use Rattle.herm_journal.specs.Messages.{CellWant};
ghost use Rattle.herm_model.specs.Lists.{list_of};
ghost use Rattle.herm_instructions.specs.Images as images;
ghost use Rattle.herm_code_machine.specs.CodeStates.{CodeState};
ghost use Rattle.herm_exchanges.specs.Told.{a_take, want_view};
ghost use Rattle.herm_exchanges.specs.declared.wants.Want.TheVariants as wants;
ghost use Rattle.herm_machine.specs.Machines.{nameless};
ghost use Rattle.herm_process.specs.Entries.{IsOrderOf, IsWholeOrder};
ghost use Rattle.herm_process.specs.Processes.{IsProcess};
ghost use Rattle.herm_world.specs.Doing.{Does, numbers_in};
ghost use Rattle.herm_world.specs.Looks.{IsToldWant};
ghost use Rattle.herm_world.specs.Orders.{CanBeServed, CanTake, IsTaking, made_in, made_view};
ghost use Rattle.herm_world.specs.Places.{places_of, ClocksFit, AreNumbered, AreOwned};

use crate::looks::first_filled;
use crate::places::Places;
use herm_base::{PortNo, ProcNo};
use herm_events::Stamp;
use herm_exchanges::{PortList, Want};
use herm_machine::{Got, Order};
use herm_process::{Next, Process};
use std::alloc::AllocError;

/// A process that was made: its module, its number and its port.
#[derive(Clone, Copy)]
pub struct Made {
    pub module: u32,
    pub number: ProcNo,
    pub port: PortNo,
}

/// What a process got at a place, with the stamp of its entry there, the process that is woken by it, and the process that it made.
#[derive(Drop)]
pub struct Done {
    pub got: Got,
    pub stamp: Stamp,
    pub woken: Option<ProcNo>,
    pub made: Option<Made>,
}

fn woken_of(made: Option<(ProcNo, PortNo)>) -> Option<ProcNo>
    ensures woken { numbers_in result ≡ list_of (λ m. m.0.number ∷ []) made }
{
    match made {
        Some((number, _)) => Some(number),
        None => None,
    }
}

fn made_of(module: u32, made: Option<(ProcNo, PortNo)>) -> Option<Made>
    ensures made { option_map made_view result ≡ option_map (λ m. («module», m.0.number, m.1.number)) made }
{
    match made {
        Some((number, port)) => Some(Made {
            module,
            number,
            port,
        }),
        None => None,
    }
}

/// No port.
const NO_PORTS: PortList = PortList {
    first: PortNo { number: 0 },
    count: 0,
};

/// The ports of which a message is wanted; none where none is.
fn ports_in(want: Want) -> PortList
    ensures ports { (first count : ℕ) → want_view want ≡ a_take first count → want ≡ wants.Take result }
{
    match want {
        Want::Take(ports) => ports,
        Want::MakePort => NO_PORTS,
        Want::MakeProcess(_) => NO_PORTS,
        Want::Put(_) => NO_PORTS,
        Want::Close(_) => NO_PORTS,
        Want::Answer(_, _) => NO_PORTS,
        Want::Hear => NO_PORTS,
    }
}

/// The ports of which the process wants a message.
fn ports_of(process: &Process) -> PortList
    requires alive { process.now.is_dead ≡ false }
    requires taking { IsTaking process.now }
    ensures takes { (image : images.Image) (main : ℕ) (x : CodeState ⊤) → IsProcess image main process.now x → IsToldWant (wants.Take result) ((nameless image main).wanted x) }
{
    match process.next() {
        Next::Act(want) => ports_in(want),
        Next::Local => unreachable!(),
        Next::Ended(_) => unreachable!(),
        Next::Stopped(_) => unreachable!(),
    }
}

/// Takes a message from the first of the ports at which a process looks that has one.
fn take_first(
    process: &Process,
    places: &mut Places,
    who: ProcNo,
    clock: Stamp,
) -> Result<(Got, Stamp), AllocError>
    requires alive { process.now.is_dead ≡ false }
    requires can { CanTake process.now (places_of places.old) who.number }
    requires clock { clock.0 < 2 ^ 63 }
    requires clocks { ClocksFit (places_of places.old) }
    ensures does { IfOk result (λ r. (image : images.Image) (main : ℕ) (x : CodeState ⊤) (w : CellWant ⊤) → IsProcess image main process.now x → (nameless image main).wanted x ≡ Some w → Does who.number clock.0 w (places_of places.old) (places_of places.new) r.0 r.1.0 [] × (None ≡ made_in w r.0)) }
{
    let ports = ports_of(process);
    match first_filled(process, places, ports) {
        Some(port) => {
            let (got, stamp) = places.take(who, clock, port)?;
            return Ok((got, stamp));
        }
        None => unreachable!(),
    }
}

/// Does what a process ordered, which can be done now.
pub fn do_order(
    process: &Process,
    places: &mut Places,
    who: ProcNo,
    clock: Stamp,
    order: Order,
) -> Result<Done, AllocError>
    requires alive { process.now.is_dead ≡ false }
    requires can { CanBeServed process.now (places_of places.old) who.number order }
    requires whole { IsWholeOrder order }
    requires clock { clock.0 < 2 ^ 63 }
    requires clocks { ClocksFit (places_of places.old) }
    requires numbered { AreNumbered (places_of places.old) }
    requires owned { AreOwned (places_of places.old) }
    ensures does { IfOk result (λ r. (image : images.Image) (main : ℕ) (x : CodeState ⊤) (w : CellWant ⊤) → IsProcess image main process.now x → (nameless image main).wanted x ≡ Some w → IsOrderOf order w → Does who.number clock.0 w (places_of places.old) (places_of places.new) r.got r.stamp.0 (numbers_in r.woken) × (option_map made_view r.made ≡ made_in w r.got)) }
{
    match order {
        Order::MakePort => {
            let (got, stamp) = places.make_port(who, clock)?;
            return Ok(Done {
                got,
                stamp,
                woken: None,
                made: None,
            });
        }
        Order::MakeProcess(module) => {
            let (got, stamp, made) = places.make_process(who, clock, module)?;
            return Ok(Done {
                got,
                stamp,
                woken: woken_of(made),
                made: made_of(module, made),
            });
        }
        Order::Put(port, letter) => {
            let (got, stamp, woken) = places.put(who, clock, port, letter)?;
            return Ok(Done {
                got,
                stamp,
                woken,
                made: None,
            });
        }
        Order::Take(_) => {
            let (got, stamp) = take_first(process, places, who, clock)?;
            return Ok(Done {
                got,
                stamp,
                woken: None,
                made: None,
            });
        }
        Order::Close(port) => {
            let (got, stamp) = places.close(who, clock, port)?;
            return Ok(Done {
                got,
                stamp,
                woken: None,
                made: None,
            });
        }
        Order::Answer(caller, call, reply, recorded, heard) => {
            let (got, stamp) = places.answer(who, clock, caller, call, reply, (heard, recorded))?;
            return Ok(Done {
                got,
                stamp,
                woken: Some(caller),
                made: None,
            });
        }
        Order::Hear => {
            let (got, stamp) = places.hear(who, clock)?;
            return Ok(Done {
                got,
                stamp,
                woken: None,
                made: None,
            });
        }
    }
}
