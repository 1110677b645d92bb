//! The lines of a journal.
ghost use Rattle.std.specs.Prelude.{◌≡◌, ◌++◌, ◌∷◌, [], OnOk, IfOk, true, false, codes, length, map};
ghost use Rattle.herm_journal.specs.EntryTexts as texts;
ghost use Rattle.herm_system.specs.RunTexts.{journal_text};
ghost use Rattle.herm_system.specs.TextLines.{line};
ghost use Rattle.herm_events.specs.Names.{IsNamed, IsReplyNamed};
ghost use Rattle.herm_events.specs.View.{action_view, entry_view, entries_view, reply_trace_view};
ghost use Rattle.herm_text.specs.NamelessEntries.{IsNameless, IsNamelessReply, action_at_zero, entry_at_zero, reply_at_zero};

use herm_base::{ExcNo, Word};
use herm_events::{Action, Entry, ReplyTrace, entry_text};
use std::alloc::{AllocError, Global};

/// Whether the exception of a reply, if it has one, is among so many.
fn is_reply_named(reply: &ReplyTrace, count: usize) -> bool
    ensures named { result ≡ true → IsReplyNamed count (reply_trace_view reply.now) }
    ensures nameless { result ≡ false → IsNamelessReply count (reply_trace_view reply.now) }
{
    match reply {
        ReplyTrace::Raised(exception, _) => (exception.0 as usize) < count,
        ReplyTrace::Values(_) => true,
        ReplyTrace::Gone => true,
    }
}

/// Whether the exception of an action, if it has one, is among so many.
fn is_named(action: &Action, count: usize) -> bool
    ensures named { result ≡ true → IsNamed count (action_view action.now) }
    ensures nameless { result ≡ false → IsNameless count (action_view action.now) }
{
    match action {
        Action::Answer { call: _, reply } => is_reply_named(reply, count),
        Action::Hear { call: _, reply } => is_reply_named(reply, count),
        Action::MakePort { made: _ } => true,
        Action::MakeProcess { module: _, made: _ } => true,
        Action::Put {
            number: _,
            trace: _,
        } => true,
        Action::Take {
            number: _,
            trace: _,
        } => true,
        Action::Close { count: _, left: _ } => true,
    }
}

/// The reply with exception 0.
fn reply_of_zero(reply: &ReplyTrace) -> Result<ReplyTrace, AllocError>
    ensures reply { IfOk result (λ r. reply_trace_view r ≡ reply_at_zero (reply_trace_view reply.now)) }
{
    match reply {
        ReplyTrace::Raised(_, kept) => {
            let kept = kept.again()?;
            Ok(ReplyTrace::Raised(ExcNo(0), kept))
        }
        ReplyTrace::Values(values) => {
            let values = values.again()?;
            Ok(ReplyTrace::Values(values))
        }
        ReplyTrace::Gone => Ok(ReplyTrace::Gone),
    }
}

/// The action with exception 0, whose exception has no name.
fn action_of_zero(action: &Action) -> Result<Action, AllocError>
    requires nameless { IsNameless 0 (action_view action.now) }
    ensures action { IfOk result (λ a. action_view a ≡ action_at_zero (action_view action.now)) }
{
    match action {
        Action::Answer { call, reply } => {
            let reply = reply_of_zero(reply)?;
            Ok(Action::Answer { call: *call, reply })
        }
        Action::Hear { call, reply } => {
            let reply = reply_of_zero(reply)?;
            Ok(Action::Hear { call: *call, reply })
        }
        Action::MakePort { made: _ } => unreachable!(),
        Action::MakeProcess { module: _, made: _ } => unreachable!(),
        Action::Put {
            number: _,
            trace: _,
        } => unreachable!(),
        Action::Take {
            number: _,
            trace: _,
        } => unreachable!(),
        Action::Close { count: _, left: _ } => unreachable!(),
    }
}

/// One name, which is empty.
fn one_name(alloc: Global) -> Result<Vec<Word>, AllocError>
    ensures names { IfOk result (λ v. v.items ≡ [] ∷ []) }
{
    let mut names = Vec::new(alloc);
    let name = Word::of(alloc, b"")?;
    names.push(name)?;
    Ok(names)
}

/// Appends the text of an entry whose exception has no name.
fn push_nameless(out: &mut Vec<u8>, entry: &Entry) -> Result<(), AllocError>
    requires nameless { IsNameless 0 (action_view entry.now.action) }
    ensures { OnOk result (out.new.items ≡ out.old.items ++ texts.entry_text ([] ∷ []) (entry_at_zero (entry_view entry.now))) }
{
    let names = one_name(*out.allocator())?;
    let action = action_of_zero(&entry.action)?;
    let entry = Entry {
        stamp: entry.stamp,
        proc: entry.proc,
        place: entry.place,
        action,
    };
    entry_text(out, &entry, names.as_slice())?;
    Ok(())
}

/// Appends the text of an entry, in which an exception that has no name is told by none.
fn push_entry(out: &mut Vec<u8>, entry: &Entry, names: &[Word]) -> Result<(), AllocError>
    ensures { OnOk result (out.new.items ≡ out.old.items ++ texts.entry_text names.now (entry_view entry.now)) }
{
    if is_named(&entry.action, names.len()) {
        entry_text(out, entry, names)?;
        return Ok(());
    }
    push_nameless(out, entry)?;
    Ok(())
}

/// Appends the line of an entry.
fn push_journal_line(out: &mut Vec<u8>, entry: &Entry, names: &[Word]) -> Result<(), AllocError>
    ensures { OnOk result (out.new.items ≡ out.old.items ++ line (codes "journal: " ++ texts.entry_text names.now (entry_view entry.now))) }
{
    out.extend_from_slice(b"journal: ")?;
    push_entry(out, entry, names)?;
    out.push(b'\n')?;
    Ok(())
}

/// Appends the lines of a journal.
pub fn push_journal(out: &mut Vec<u8>, entries: &[&Entry], names: &[Word]) -> Result<(), AllocError>
    ensures { OnOk result (out.new.items ≡ out.old.items ++ journal_text names.now (entries_view (map (λ e. e.now) entries.now))) }
{
    for entry in entries {
        push_journal_line(out, entry, names)?;
    }
    Ok(())
}
