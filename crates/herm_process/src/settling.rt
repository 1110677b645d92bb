//! What a process got for its order: its entry, and how it goes on.
ghost use Rattle.std.specs.Prelude.{◌≡◌, ◌<◌, ◌↔◌, ℕ, Some, true, false, IfOk, IsSome, OnOk, ⊤};
ghost use Rattle.herm_journal.specs.Actions.{new_process, to_close, to_put};
ghost use Rattle.herm_journal.specs.Messages.{CellAction, CellWant};
ghost use Rattle.herm_events.specs.declared.entry.Action.TheVariants as actions;
ghost use Rattle.herm_events.specs.declared.entry.Place.TheVariants as places;
ghost use Rattle.herm_model.specs.Values as model;
ghost use Rattle.herm_instructions.specs.Images.{Image};
ghost use Rattle.herm_code_machine.specs.CodeStates.{CodeState};
ghost use Rattle.herm_machine.specs.Gots.{Fits, FitsWant, IsOrdered, IsWholeGot, TellsGot};
ghost use Rattle.herm_machine.specs.Machines.{IsAt, IsInside, nameless};
ghost use Rattle.herm_machine.specs.declared.order.Got.TheVariants as gots;
ghost use Rattle.herm_process.specs.Entries.{IsEntryOf, IsFor, comes_in};
ghost use Rattle.herm_process.specs.Processes.{IsTakenIn};
ghost use Rattle.herm_system.specs.Suiting.{Answers, Suits};

use crate::ordered::Ordered;
use herm_base::{PortNo, ProcNo};
use herm_events::{Action, Place, ReplyTrace, Trace, Traces};
use herm_letters::{Parcel, Parcels};
use herm_machine::{Got, Machine};
use std::alloc::AllocError;

/// The place and the action of what the process of this number got for its order.
pub fn entry_of(
    number: ProcNo,
    ordered: &Option<Ordered>,
    got: &Got,
) -> Result<(Place, Action), AllocError>
    requires out { IsSome ordered.now }
    requires whole { IsWholeGot got.now }
    ensures entry { IfOk result (λ r. (o : Ordered) (w : CellWant ⊤) → ordered.now ≡ Some o → IsFor o w → FitsWant got.now w → IsEntryOf number.number r.0 r.1 got.now w) }
{
    match ordered {
        Some(ordered) => {
            let entry = told_entry(number, ordered, got);
            entry
        }
        None => unreachable!(),
    }
}

/// The place and the action of what was got for an order.
fn told_entry(number: ProcNo, ordered: &Ordered, got: &Got) -> Result<(Place, Action), AllocError>
    requires whole { IsWholeGot got.now }
    ensures entry { IfOk result (λ r. (w : CellWant ⊤) → IsFor ordered.now w → FitsWant got.now w → IsEntryOf number.number r.0 r.1 got.now w) }
{
    match got {
        Got::Port(made) => Ok((Place::Book, Action::MakePort { made: *made })),
        Got::Process(made) => {
            let module = module_of(ordered);
            Ok((
                Place::Book,
                Action::MakeProcess {
                    module,
                    made: *made,
                },
            ))
        }
        Got::Placed { number, trace } => {
            let entry = placed(port_of(ordered), Some(*number), trace)?;
            Ok(entry)
        }
        Got::Back { value: _, trace } => {
            let entry = placed(port_of(ordered), None, trace)?;
            Ok(entry)
        }
        Got::Message { port, parcel } => {
            let entry = taken(*port, parcel)?;
            Ok(entry)
        }
        Got::Left(left) => {
            let entry = closed(port_of(ordered), left)?;
            Ok(entry)
        }
        Got::Answered => {
            let entry = answered(ordered)?;
            Ok(entry)
        }
        Got::Heard {
            call,
            reply: _,
            trace,
        } => {
            let entry = heard(number, *call, trace)?;
            Ok(entry)
        }
    }
}

/// A message with this text was put on a port: it was placed under this number, or came back.
fn placed(port: PortNo, number: Option<u64>, trace: &Trace) -> Result<(Place, Action), AllocError>
    ensures entry { IfOk result (λ r. r ≡ (places.Port port, actions.Put number trace.now)) }
{
    let trace = trace.again()?;
    Ok((Place::Port(port), Action::Put { number, trace }))
}

/// A message of this port was taken.
fn taken(port: PortNo, parcel: &Parcel) -> Result<(Place, Action), AllocError>
    ensures entry { IfOk result (λ r. r ≡ (places.Port port, actions.Take parcel.now.number parcel.now.trace)) }
{
    let trace = parcel.trace.again()?;
    Ok((
        Place::Port(port),
        Action::Take {
            number: parcel.number,
            trace,
        },
    ))
}

/// A reply to the call of this number, with this text, was heard by this process.
fn heard(number: ProcNo, call: u64, trace: &ReplyTrace) -> Result<(Place, Action), AllocError>
    ensures entry { IfOk result (λ r. r ≡ (places.Reply number, actions.Hear call trace.now)) }
{
    let reply = trace.again()?;
    Ok((Place::Reply(number), Action::Hear { call, reply }))
}

/// A port was closed, in which these messages were left.
fn closed(port: PortNo, left: &Parcels) -> Result<(Place, Action), AllocError>
    ensures entry { IfOk result (λ r. (p : ℕ) → IsEntryOf p r.0 r.1 (gots.Left left.now) (to_close port.number)) }
{
    let count = left.len() as u64;
    let texts = left.traces()?;
    let left = Traces::from_vec(texts);
    Ok((Place::Port(port), Action::Close { count, left }))
}

/// A call was answered, for which this order was.
fn answered(ordered: &Ordered) -> Result<(Place, Action), AllocError>
    ensures entry { IfOk result (λ r. (p : ℕ) (w : CellWant ⊤) → IsFor ordered.now w → FitsWant gots.Answered w → IsEntryOf p r.0 r.1 gots.Answered w) }
{
    match ordered {
        Ordered::Answer(caller, call, text, _) => {
            let reply = text.again()?;
            Ok((Place::Reply(*caller), Action::Answer { call: *call, reply }))
        }
        _ => Ok((Place::Book, Action::MakePort { made: None })),
    }
}

/// The module of an order for a new process; 0 for any other order.
fn module_of(ordered: &Ordered) -> u32
    ensures module_number { (code : ℕ) → IsFor ordered.now (new_process code) → code ≡ result }
{
    match ordered {
        Ordered::MakeProcess(module) => *module,
        _ => 0,
    }
}

/// The port of an order to put or to close; port 0 for any other order.
fn port_of(ordered: &Ordered) -> PortNo
    ensures put { (n : ℕ) (m : model.Value) → IsFor ordered.now (to_put n m) → n ≡ result.number }
    ensures close { (n : ℕ) → IsFor ordered.now (to_close n) → n ≡ result.number }
{
    match ordered {
        Ordered::Put(port, _) => *port,
        Ordered::Close(port) => *port,
        _ => PortNo { number: 0 },
    }
}

/// The machine goes on with what it got, where it suits; else it is put aside.
pub fn take_in(machine: &mut Machine, got: Got) -> Result<(), AllocError>
    requires whole { IsWholeGot got }
    requires fits { Fits machine.old got }
    requires ordered { IsOrdered machine.old got }
    requires inside { comes_in got ≡ true → IsInside machine.old }
    requires few { comes_in got ≡ true → machine.old.held.frame.actions < u64.MAX }
    requires alive { machine.old.is_dead ≡ false }
    ensures taken { OnOk result ((image : Image) (main : ℕ) (s : CodeState ⊤) (w : CellWant ⊤) (at : ℕ) (a : CellAction ⊤) → IsAt image main machine.old s → (nameless image main).wanted s ≡ Some w → Answers w a → TellsGot got at a → IsTakenIn image main machine.new s at a) }
{
    if goes_on_with(machine, &got) {
        machine.took(got)?;
        return Ok(());
    }
    machine.put_aside();
    let_go(got);
    Ok(())
}

/// Whether it goes on with what it got: where that suits.
fn goes_on_with(machine: &Machine, got: &Got) -> bool
    requires whole { IsWholeGot got.now }
    ensures suits { (image : Image) (main : ℕ) (s : CodeState ⊤) (at : ℕ) (a : CellAction ⊤) → IsAt image main machine.now s → TellsGot got.now at a → (result ≡ true) ↔ Suits (nameless image main) s at a }
{
    machine.suits(got)
}

/// What does not suit is let go.
fn let_go(_got: Got) {}
