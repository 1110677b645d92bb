//! Processes of an image with their ports, in rounds.
ghost use Rattle.std.specs.Prelude.{IfOk, IfSome};
ghost use Rattle.herm_letters.specs.Letters.{IsParcel};
ghost use Rattle.herm_values.specs.Whole.{IsWhole};

use crate::actor::Actor;
use crate::hearing::Hearing;
use herm_base::{PortNo, ProcNo, Word};
use herm_code::Image;
use herm_exchanges::{PortList, Want};
use herm_letters::{Parcel, Parcels, trace_of};
use herm_steps::End;
use herm_values::Value;
use std::alloc::{AllocError, Global};

/// A port: what waits there, how many messages were placed, and whether it is closed.
#[derive(Drop)]
struct Port {
    waiting: Parcels,
    placed: u64,
    is_closed: bool,
}

/// A process, with the call that it is to hear of and its reply.
#[derive(Drop)]
struct Seat<'i> {
    actor: Actor<'i>,
    heard: Option<(u64, Hearing)>,
}

/// The most steps of a process, and the most processes and ports besides the console's.
#[derive(Clone, Copy)]
pub struct Most {
    pub steps: u64,
    pub processes: usize,
    pub ports: usize,
}

/// How a process is at the end of a run: its end, if it has come to one, its steps and actions, and the cells that it has made,
/// holds and has finalised.
pub type Sums = (Option<End>, u64, u64, u64, u64, u64);

/// Processes by number, from 1 on, and ports by number, from that of the console on.
#[derive(Drop)]
pub struct World<'i> {
    alloc: Global,
    image: &'i Image,
    most: Most,
    ports: Vec<Port>,
    seats: Vec<Seat<'i>>,
}

fn text(alloc: Global, bytes: &[u8]) -> Result<Value, AllocError>
    ensures { IfOk result IsWhole }
{
    let word = Word::of(alloc, bytes)?;
    Ok(Value::Text(word))
}

/// The number of the next port where there are so many; none where ports have no such number.
fn port_behind(count: usize) -> Option<PortNo> {
    match u32::try_from(count) {
        Ok(number) => PortNo::new(number),
        Err(_) => None,
    }
}

/// The number of the next process where there are so many; none where processes have no such number.
fn process_behind(count: usize) -> Option<ProcNo> {
    match u32::try_from(count) {
        Ok(number) => ProcNo::new(number.wrapping_add(1)),
        Err(_) => None,
    }
}

/// The start message: a text and an outport to the console.
#[tactic(auto, using(herm_values::proofs::Wholes::records))]
fn start_value(alloc: Global) -> Result<Value, AllocError>
    ensures { IfOk result IsWhole }
{
    let arg = text(alloc, b"")?;
    let mut fields = Vec::new(alloc);
    fields.push(Some(arg))?;
    fields.push(Some(Value::Outport(PortNo { number: 0 })))?;
    Ok(Value::Fields(fields))
}

fn parcel_of(alloc: Global, number: u64, value: Value) -> Result<Parcel, AllocError>
    requires { IsWhole value }
    ensures { IfOk result IsParcel }
{
    let trace = trace_of(alloc, &value)?;
    Ok(Parcel {
        number,
        value,
        trace,
    })
}

fn place(port: &mut Port, parcel: Parcel) -> Result<(), AllocError>
    requires { IsParcel parcel }
{
    port.waiting.reserve()?;
    port.waiting.push(parcel);
    port.placed = port.placed.wrapping_add(1);
    Ok(())
}

fn open_port(alloc: Global) -> Port {
    Port {
        waiting: Parcels::new(alloc),
        placed: 0,
        is_closed: false,
    }
}

/// A port with one message.
fn port_with(alloc: Global, message: Value) -> Result<Port, AllocError>
    requires { IsWhole message }
{
    let mut port = open_port(alloc);
    let message = parcel_of(alloc, 0, message)?;
    place(&mut port, message)?;
    Ok(port)
}

/// The message that a process wants to put is placed, or comes back.
fn put(actor: &mut Actor, ports: &mut Vec<Port>, number: PortNo) -> Result<bool, AllocError> {
    let Some(port) = ports.get_mut(number.number as usize) else {
        return Ok(false);
    };
    if port.is_closed {
        let goes = actor.send_back()?;
        return Ok(goes);
    }
    let Some(parcel) = actor.put(port.placed)? else {
        return Ok(false);
    };
    place(port, parcel)?;
    Ok(true)
}

/// The oldest message of a port, if there is one.
fn oldest(ports: &mut Vec<Port>, number: PortNo) -> Option<Parcel>
    ensures { IfSome result IsParcel }
{
    match ports.get_mut(number.number as usize) {
        Some(port) => port.waiting.take(),
        None => None,
    }
}

/// A message of the first port that has one.
fn take(actor: &mut Actor, ports: &mut Vec<Port>, looked: PortList) -> Result<bool, AllocError> {
    'places: for place in 0..looked.count {
        let Some(number) = actor.look(place) else {
            return Ok(false);
        };
        if let Some(parcel) = oldest(ports, number) {
            let goes = actor.take(number, parcel)?;
            return Ok(goes);
        }
    }
    Ok(false)
}

fn close(
    actor: &mut Actor,
    alloc: Global,
    ports: &mut Vec<Port>,
    number: PortNo,
) -> Result<bool, AllocError> {
    let Some(port) = ports.get_mut(number.number as usize) else {
        return Ok(false);
    };
    port.is_closed = true;
    let left = std::mem::replace(&mut port.waiting, Parcels::new(alloc));
    let goes = actor.close(left)?;
    Ok(goes)
}

/// Whether the limit of steps lets a process do what is next.
fn has_leave(actor: &Actor, most: u64) -> bool {
    actor.steps() < most || !actor.has_step()
}

fn sums_of(actor: &Actor) -> Sums {
    let (steps, actions, made, held, finalised) = actor.sums();
    (actor.ended(), steps, actions, made, held, finalised)
}

impl<'i> World<'i> {
    /// The process of this module, with the start message of a program. None where there is no such module.
    pub fn begin(
        alloc: Global,
        image: &'i Image,
        module_number: u32,
        most: Most,
    ) -> Result<Option<World<'i>>, AllocError> {
        let message = start_value(alloc)?;
        let world = World::begin_with(alloc, image, module_number, most, message)?;
        Ok(world)
    }

    /// The process of this module, with this message at its port. None where there is no such module.
    pub fn begin_with(
        alloc: Global,
        image: &'i Image,
        module_number: u32,
        most: Most,
        message: Value,
    ) -> Result<Option<World<'i>>, AllocError>
        requires { IsWhole message }
    {
        let mut ports = Vec::new(alloc);
        ports.push(open_port(alloc))?;
        let start = port_with(alloc, message)?;
        ports.push(start)?;
        let mut world = World {
            alloc,
            image,
            most,
            ports,
            seats: Vec::new(alloc),
        };
        let number = ProcNo { number: 1 };
        let has_begun = world.seat(number, module_number, PortNo { number: 1 })?;
        if !has_begun {
            return Ok(None);
        }
        Ok(Some(world))
    }

    fn seat(&mut self, number: ProcNo, module: u32, first: PortNo) -> Result<bool, AllocError> {
        let Some(actor) = Actor::begin(self.alloc, number, self.image, module, first)? else {
            return Ok(false);
        };
        self.seats.push(Seat { actor, heard: None })?;
        Ok(true)
    }

    fn make_port(&mut self, place: usize) -> Result<bool, AllocError> {
        let Some(seat) = self.seats.get_mut(place) else {
            return Ok(false);
        };
        if self.ports.len() > self.most.ports {
            let goes = seat.actor.make_port(None)?;
            return Ok(goes);
        }
        let made = port_behind(self.ports.len());
        self.ports.push(open_port(self.alloc))?;
        let goes = seat.actor.make_port(made)?;
        Ok(goes)
    }

    fn make_process(&mut self, place: usize, module: u32) -> Result<bool, AllocError> {
        let is_full = self.ports.len() > self.most.ports || self.seats.len() >= self.most.processes;
        let port_number = port_behind(self.ports.len());
        let number = process_behind(self.seats.len());
        let Some(seat) = self.seats.get_mut(place) else {
            return Ok(false);
        };
        if is_full {
            let goes = seat.actor.make_process(None)?;
            return Ok(goes);
        }
        let Some(port_number) = port_number else {
            return Ok(false);
        };
        let Some(number) = number else {
            return Ok(false);
        };
        let goes = seat.actor.make_process(Some((number, port_number)))?;
        self.ports.push(open_port(self.alloc))?;
        let has_begun = self.seat(number, module, port_number)?;
        Ok(goes && has_begun)
    }

    fn answer(&mut self, place: usize, caller: ProcNo, call: u64) -> Result<bool, AllocError> {
        let Some(seat) = self.seats.get_mut(place) else {
            return Ok(false);
        };
        let Some(reply) = seat.actor.answer()? else {
            return Ok(false);
        };
        let Some(caller) = self.seats.get_mut((caller.number as usize).wrapping_sub(1)) else {
            return Ok(false);
        };
        caller.heard = Some((call, reply));
        Ok(true)
    }

    fn hear(&mut self, place: usize) -> Result<bool, AllocError> {
        let Some(seat) = self.seats.get_mut(place) else {
            return Ok(false);
        };
        let Some((call, reply)) = seat.heard.take() else {
            return Ok(false);
        };
        let goes = seat.actor.hear(call, reply)?;
        Ok(goes)
    }

    /// What this process wants is done, if it can be.
    fn serve(&mut self, place: usize, want: Want) -> Result<bool, AllocError> {
        match want {
            Want::MakePort => self.make_port(place),
            Want::MakeProcess(module) => self.make_process(place, module),
            Want::Answer(caller, call) => self.answer(place, caller, call),
            Want::Hear => self.hear(place),
            _ => {
                let Some(seat) = self.seats.get_mut(place) else {
                    return Ok(false);
                };
                match want {
                    Want::Put(number) => put(&mut seat.actor, &mut self.ports, number),
                    Want::Take(looked) => take(&mut seat.actor, &mut self.ports, looked),
                    Want::Close(number) => close(
                        &mut seat.actor,
                        self.alloc,
                        &mut self.ports,
                        number,
                    ),
                    _ => Ok(false),
                }
            }
        }
    }

    /// Makes the local steps of a process that are next, and tells how many they were.
    pub fn local_steps(&mut self, place: usize) -> Result<u64, AllocError> {
        let most = self.most.steps;
        let mut made: u64 = 0;
        let Some(seat) = self.seats.get_mut(place) else {
            return Ok(0);
        };
        'steps: for _ in 0..1_000_000 {
            if !has_leave(&seat.actor, most) {
                return Ok(made);
            }
            if !seat.actor.step()? {
                return Ok(made);
            }
            made = made.wrapping_add(1);
        }
        Ok(made)
    }

    /// The action of a process that is next, if it can be done now.
    pub fn act(&mut self, place: usize) -> Result<bool, AllocError> {
        let Some(seat) = self.seats.get(place) else {
            return Ok(false);
        };
        if !has_leave(&seat.actor, self.most.steps) {
            return Ok(false);
        }
        let Some(want) = seat.actor.wants() else {
            return Ok(false);
        };
        let acts = self.serve(place, want)?;
        Ok(acts)
    }

    fn turn(&mut self, place: usize) -> Result<bool, AllocError> {
        let made = self.local_steps(place)?;
        let acts = self.act(place)?;
        Ok(made > 0 || acts)
    }

    /// Rounds, up to the first in which no process does anything.
    pub fn run(&mut self) -> Result<(), AllocError> {
        let count = self.most.processes;
        'rounds: for _ in 0..100_000 {
            let mut goes_on = false;
            'turns: for place in 0..count {
                if self.turn(place)? {
                    goes_on = true;
                }
            }
            if !goes_on {
                return Ok(());
            }
        }
        Ok(())
    }

    /// How the process at this place is.
    pub fn sums(&self, place: usize) -> Option<Sums> {
        match self.seats.get(place) {
            Some(seat) => Some(sums_of(&seat.actor)),
            None => None,
        }
    }

    /// The oldest message that waits at the console's port.
    pub fn shown(&mut self) -> Option<Value> {
        match oldest(&mut self.ports, PortNo { number: 0 }) {
            Some(parcel) => Some(parcel.value),
            None => None,
        }
    }
}
