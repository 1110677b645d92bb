//! What is done with a process: each call does one thing that is next, and tells whether it was next.
ghost use Rattle.std.specs.Prelude.{◌≡◌, IfErr, IfNone, IfOk, IfSome};
ghost use Rattle.herm_journal.specs.Entries.{map_reply, texts_of};
ghost use Rattle.herm_events.specs.View.{reply_trace_view};
ghost use Rattle.herm_letters.specs.Letters.{IsParcel, IsWholeReply};
ghost use Rattle.herm_letters.specs.View.{reply_view};
ghost use Rattle.herm_machine.specs.Gots.{Fits, IsOrdered, IsSuiting, IsWholeGot};
ghost use Rattle.herm_machine_tests.specs.Going.{HasSent, IsGoing};

use herm_base::{PortNo, ProcNo};
use herm_code::Image;
use herm_events::ReplyTrace;
use herm_exchanges::Want;
use herm_letters::{Letter, Parcel, Parcels, Reply};
use herm_machine::{Got, Machine};
use std::alloc::{AllocError, Global};

/// The process of a module that is there.
pub fn begun<'i>(
    alloc: Global,
    number: ProcNo,
    image: &'i Image,
    module_number: u32,
    first: PortNo,
) -> Result<Option<Machine<'i>>, AllocError>
    ensures going { IfOk result (λ r. IfSome r IsGoing) }
{
    if module_number as usize >= image.modules().len() {
        return Ok(None);
    }
    let machine = Machine::begin(alloc, number, image, module_number, first)?;
    Ok(Some(machine))
}

/// A local step.
#[tactic(auto, using(crate::proofs::Going::dead_goes))]
pub fn step(machine: &mut Machine) -> Result<bool, AllocError>
    requires going { IsGoing machine.old }
    ensures going { IsGoing machine.new }
{
    let None = machine.wants() else {
        return Ok(false);
    };
    let None = machine.ended() else {
        return Ok(false);
    };
    machine.local_step()?;
    Ok(true)
}

/// It goes on with what it got.
#[tactic(auto, using(crate::proofs::Going::dead_goes))]
fn go_on(machine: &mut Machine, got: Got) -> Result<(), AllocError>
    requires whole { IsWholeGot got }
    requires fits { Fits machine.old got }
    requires suits { IsSuiting machine.old got }
    requires ordered { IsOrdered machine.old got }
    ensures going { IsGoing machine.new }
{
    machine.took(got)?;
    Ok(())
}

/// Counts an action more, for what is put aside.
fn put_aside(machine: &mut Machine)
    requires going { IsGoing machine.old }
    ensures going { IsGoing machine.new }
{
    let (_, actions) = machine.counts();
    if actions == u64::MAX {
        return;
    }
    machine.put_aside();
}

/// It goes on with what it got, if that suits it; if not, that is put aside.
fn take_in(machine: &mut Machine, got: Got) -> Result<bool, AllocError>
    requires going { IsGoing machine.old }
    requires whole { IsWholeGot got }
    requires fits { Fits machine.old got }
    requires ordered { IsOrdered machine.old got }
    ensures going { IsGoing machine.new }
{
    if machine.suits(&got) {
        go_on(machine, got)?;
        return Ok(true);
    }
    put_aside(machine);
    Ok(false)
}

/// The new port that it wants.
pub fn make_port(machine: &mut Machine, made: Option<PortNo>) -> Result<bool, AllocError>
    requires going { IsGoing machine.old }
    ensures going { IsGoing machine.new }
{
    let Some(Want::MakePort) = machine.wants() else {
        return Ok(false);
    };
    let goes = take_in(machine, Got::Port(made))?;
    Ok(goes)
}

/// The new process that it wants, with its port.
pub fn make_process(
    machine: &mut Machine,
    made: Option<(ProcNo, PortNo)>,
) -> Result<bool, AllocError>
    requires going { IsGoing machine.old }
    ensures going { IsGoing machine.new }
{
    let Some(Want::MakeProcess(_)) = machine.wants() else {
        return Ok(false);
    };
    let goes = take_in(machine, Got::Process(made))?;
    Ok(goes)
}

/// A message of a port at which it looks.
pub fn take(machine: &mut Machine, port: PortNo, parcel: Parcel) -> Result<bool, AllocError>
    requires going { IsGoing machine.old }
    requires parcel { IsParcel parcel }
    ensures going { IsGoing machine.new }
{
    let Some(Want::Take(_)) = machine.wants() else {
        return Ok(false);
    };
    let goes = take_in(machine, Got::Message { port, parcel })?;
    Ok(goes)
}

/// What was left in the port that it wants to close.
pub fn close(machine: &mut Machine, left: Parcels) -> Result<bool, AllocError>
    requires going { IsGoing machine.old }
    ensures going { IsGoing machine.new }
{
    let Some(Want::Close(_)) = machine.wants() else {
        return Ok(false);
    };
    let goes = take_in(machine, Got::Left(left))?;
    Ok(goes)
}

/// The reply to the call of this number.
pub fn hear(
    machine: &mut Machine,
    call: u64,
    reply: Reply,
    trace: ReplyTrace,
) -> Result<bool, AllocError>
    requires going { IsGoing machine.old }
    requires whole { IsWholeReply reply }
    requires text { reply_trace_view trace ≡ map_reply texts_of (reply_view reply) }
    ensures going { IsGoing machine.new }
{
    let Some(Want::Hear) = machine.wants() else {
        return Ok(false);
    };
    let goes = take_in(machine, Got::Heard { call, reply, trace })?;
    Ok(goes)
}

/// The letter that it wants to put.
#[tactic(auto, using(crate::proofs::Going::dead_goes))]
fn letter_of(machine: &mut Machine) -> Result<Option<Letter>, AllocError>
    requires going { IsGoing machine.old }
    ensures sent { IfOk result (λ r. IfSome r (HasSent machine.new)) }
    ensures none { IfOk result (λ r. IfNone r (IsGoing machine.new)) }
    ensures failed { IfErr result (λ e. IsGoing machine.new) }
{
    let Some(Want::Put(_)) = machine.wants() else {
        return Ok(None);
    };
    let letter = machine.letter()?;
    Ok(Some(letter))
}

/// The message that it wants to put is placed under this number, and given.
pub fn put(machine: &mut Machine, number: u64) -> Result<Option<Parcel>, AllocError>
    requires going { IsGoing machine.old }
    ensures going { IsGoing machine.new }
    ensures parcel { IfOk result (λ r. IfSome r IsParcel) }
{
    let Some(letter) = letter_of(machine)? else {
        return Ok(None);
    };
    let (value, diary, _put, parcel, _taken) = letter.into_parts();
    go_on(
        machine,
        Got::Placed {
            number,
            trace: diary,
        },
    )?;
    Ok(Some(Parcel {
        number,
        value,
        trace: parcel,
    }))
}

/// The message that it wants to put comes back.
pub fn send_back(machine: &mut Machine) -> Result<bool, AllocError>
    requires going { IsGoing machine.old }
    ensures going { IsGoing machine.new }
{
    let Some(letter) = letter_of(machine)? else {
        return Ok(false);
    };
    let (value, diary, _put, _parcel, _taken) = letter.into_parts();
    go_on(
        machine,
        Got::Back {
            value,
            trace: diary,
        },
    )?;
    Ok(true)
}

/// The reply with which it wants to answer a call, and its text.
#[tactic(auto, using(crate::proofs::Going::dead_goes))]
pub fn answer(machine: &mut Machine) -> Result<Option<(Reply, ReplyTrace)>, AllocError>
    requires going { IsGoing machine.old }
    ensures going { IsGoing machine.new }
    ensures whole { IfOk result (λ r. IfSome r (λ a. IsWholeReply a.0)) }
    ensures text { IfOk result (λ r. IfSome r (λ a. reply_trace_view a.1 ≡ map_reply texts_of (reply_view a.0))) }
{
    let Some(Want::Answer(_, _)) = machine.wants() else {
        return Ok(None);
    };
    let (reply, text, _history) = machine.reply()?;
    go_on(machine, Got::Answered)?;
    Ok(Some((reply, text)))
}

/// The port at a place among those at which it looks for a message.
pub fn look(machine: &Machine, place: usize) -> Option<PortNo>
    requires going { IsGoing machine.now }
{
    let Some(Want::Take(ports)) = machine.wants() else {
        return None;
    };
    if place >= ports.count {
        return None;
    }
    Some(machine.look(place))
}
