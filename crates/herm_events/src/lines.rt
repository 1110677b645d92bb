//! The text of an entry.
ghost use Rattle.std.specs.Prelude.{◌≡◌, ◌++◌, ◌<◌, [], OnOk, OnErr, length, codes, Option, Some, option_map};
ghost use Rattle.herm_model.specs.ValueTexts.{numeral};
ghost use Rattle.herm_journal.specs.Actions.{make_port, make_process, put};
ghost use Rattle.herm_journal.specs.EntryTexts;
ghost use Rattle.herm_journal.specs.EntryTexts.{and_number, and_text, action_text};
ghost use Rattle.herm_events.specs.Names.{IsReplyNamed, IsNamed};
ghost use Rattle.herm_events.specs.View.{place_view, reply_trace_view, action_view, entry_view};

use crate::{Action, Entry, Place, ReplyTrace, Trace};
use herm_base::{ExcNo, PortNo, ProcNo, Word, decimal};
use std::alloc::AllocError;

/// As many bytes as most lines have at most.
const USUAL_LENGTH: usize = 96;

/// Appends a number in decimal.
#[tactic(auto, using(crate::proofs::Decimals::numeral_is))]
fn push_decimal(out: &mut Vec<u8>, number: u64) -> Result<(), AllocError>
    ensures { OnOk result (out.new.items ≡ out.old.items ++ numeral number) }
{
    decimal(out, number)?;
    Ok(())
}

/// Appends a space and a number.
fn push_number(out: &mut Vec<u8>, number: u64) -> Result<(), AllocError>
    ensures { OnOk result (out.new.items ≡ out.old.items ++ and_number number) }
{
    out.push(b' ')?;
    push_decimal(out, number)?;
    Ok(())
}

/// Appends the text of a place.
fn push_place(out: &mut Vec<u8>, place: Place) -> Result<(), AllocError>
    ensures { OnOk result (out.new.items ≡ out.old.items ++ EntryTexts.place_text (place_view place)) }
{
    match place {
        Place::Port(port) => {
            out.extend_from_slice(b"port")?;
            push_number(out, port.get() as u64)?;
            Ok(())
        }
        Place::Reply(proc) => {
            out.extend_from_slice(b"reply")?;
            push_number(out, proc.get() as u64)?;
            Ok(())
        }
        Place::Book => {
            out.extend_from_slice(b"book")?;
            Ok(())
        }
    }
}

/// Appends a space and the text, where it is not empty.
fn push_values(out: &mut Vec<u8>, values: &Trace) -> Result<(), AllocError>
    ensures { OnOk result (out.new.items ≡ out.old.items ++ and_text values.now) }
{
    match values.bytes() {
        [] => Ok(()),
        bytes => {
            out.push(b' ')?;
            out.extend_from_slice(bytes)?;
            Ok(())
        }
    }
}

/// The name of an exception.
#[tactic(auto, using(crate::proofs::Named::name_is))]
fn name_of(names: &[Word], exception: ExcNo) -> &[u8]
    requires named { exception.0 < length names.now }
    ensures name { result.now ≡ EntryTexts.name_in names.now exception.0 }
{
    names[exception.0 as usize].bytes()
}

/// Appends the text of an answer to a call, with the name of its exception.
fn push_reply(out: &mut Vec<u8>, reply: &ReplyTrace, names: &[Word]) -> Result<(), AllocError>
    requires named { IsReplyNamed (length names.now) (reply_trace_view reply.now) }
    ensures { OnOk result (out.new.items ≡ out.old.items ++ EntryTexts.reply_text names.now (reply_trace_view reply.now)) }
{
    match reply {
        ReplyTrace::Values(values) => {
            out.extend_from_slice(b"ok")?;
            push_values(out, values)?;
            Ok(())
        }
        ReplyTrace::Raised(exception, kept) => {
            out.extend_from_slice(b"raise ")?;
            out.extend_from_slice(name_of(names, *exception))?;
            push_values(out, kept)?;
            Ok(())
        }
        ReplyTrace::Gone => {
            out.extend_from_slice(b"gone")?;
            Ok(())
        }
    }
}

/// Appends that a port was made, or that the limit was reached.
fn push_made_port(out: &mut Vec<u8>, made: Option<PortNo>) -> Result<(), AllocError>
    ensures { OnOk result (out.new.items ≡ out.old.items ++ action_text [] (make_port (option_map (λ (p : PortNo). p.number) made))) }
{
    match made {
        None => {
            out.extend_from_slice(b"port full")?;
            Ok(())
        }
        Some(port) => {
            out.extend_from_slice(b"port")?;
            push_number(out, port.get() as u64)?;
            Ok(())
        }
    }
}

/// Appends that a process of a module was made with its port, or that a limit was reached.
fn push_made_process(
    out: &mut Vec<u8>,
    code: u32,
    made: Option<(ProcNo, PortNo)>,
) -> Result<(), AllocError>
    ensures { OnOk result (out.new.items ≡ out.old.items
        ++ action_text [] (make_process code (option_map (λ (m : ProcNo × PortNo). (m.0.number, m.1.number)) made))) }
{
    match made {
        None => {
            out.extend_from_slice(b"process full")?;
            push_number(out, code as u64)?;
            Ok(())
        }
        Some((proc, port)) => {
            out.extend_from_slice(b"process")?;
            push_number(out, proc.get() as u64)?;
            push_number(out, port.get() as u64)?;
            push_number(out, code as u64)?;
            Ok(())
        }
    }
}

/// Appends that a message was queued under a number, or found the port closed.
fn push_put(out: &mut Vec<u8>, number: Option<u64>, trace: &Trace) -> Result<(), AllocError>
    ensures { OnOk result (out.new.items ≡ out.old.items ++ action_text [] (put number trace.now)) }
{
    match number {
        None => {
            out.extend_from_slice(b"put closed ")?;
            out.extend_from_slice(trace.bytes())?;
            Ok(())
        }
        Some(number) => {
            out.extend_from_slice(b"put")?;
            push_number(out, number)?;
            out.push(b' ')?;
            out.extend_from_slice(trace.bytes())?;
            Ok(())
        }
    }
}

/// Appends the text of what was done.
fn push_action(out: &mut Vec<u8>, action: &Action, names: &[Word]) -> Result<(), AllocError>
    requires named { IsNamed (length names.now) (action_view action.now) }
    ensures { OnOk result (out.new.items ≡ out.old.items ++ action_text names.now (action_view action.now)) }
{
    match action {
        Action::MakePort { made } => {
            push_made_port(out, *made)?;
            Ok(())
        }
        Action::MakeProcess { module, made } => {
            push_made_process(out, *module, *made)?;
            Ok(())
        }
        Action::Put { number, trace } => {
            push_put(out, *number, trace)?;
            Ok(())
        }
        Action::Take { number, trace } => {
            out.extend_from_slice(b"take")?;
            push_number(out, *number)?;
            out.push(b' ')?;
            out.extend_from_slice(trace.bytes())?;
            Ok(())
        }
        Action::Close { count, left: _ } => {
            out.extend_from_slice(b"close")?;
            push_number(out, *count)?;
            Ok(())
        }
        Action::Answer { call, reply } => {
            out.extend_from_slice(b"answer")?;
            push_number(out, *call)?;
            out.push(b' ')?;
            push_reply(out, reply, names)?;
            Ok(())
        }
        Action::Hear { call, reply } => {
            out.extend_from_slice(b"hear")?;
            push_number(out, *call)?;
            out.push(b' ')?;
            push_reply(out, reply, names)?;
            Ok(())
        }
    }
}

/// Appends the text of an entry: stamp, process, place and action.
fn push_entry(out: &mut Vec<u8>, entry: &Entry, names: &[Word]) -> Result<(), AllocError>
    requires named { IsNamed (length names.now) (action_view entry.now.action) }
    ensures { OnOk result (out.new.items ≡ out.old.items ++ EntryTexts.entry_text names.now (entry_view entry.now)) }
{
    push_decimal(out, entry.stamp.0)?;
    push_number(out, entry.proc.get() as u64)?;
    out.push(b' ')?;
    push_place(out, entry.place)?;
    out.push(b' ')?;
    push_action(out, &entry.action, names)?;
    Ok(())
}

/// Appends the text of an entry, whole or not at all: its stamp, process, place and action. `names` are the exceptions'
/// names by number, and reach to each exception in the entry.
pub fn entry_text(out: &mut Vec<u8>, entry: &Entry, names: &[Word]) -> Result<(), AllocError>
    requires named { IsNamed (length names.now) (action_view entry.now.action) }
    ensures ok { OnOk result (out.new.items ≡ out.old.items ++ EntryTexts.entry_text names.now (entry_view entry.now)) }
    ensures err { OnErr result (out.new.items ≡ out.old.items) }
{
    let mut text = Vec::with_capacity(*out.allocator(), USUAL_LENGTH)?;
    push_entry(&mut text, entry, names)?;
    out.extend_from_slice(text.as_slice())?;
    Ok(())
}
