ghost use Rattle.std.specs.Prelude.{◌≡◌, IsTrue};
ghost use Rattle.herm_journal.specs.Entries.{book};
ghost use Rattle.herm_events.specs.Names.{IsReplyNamed, IsNamed};
ghost use Rattle.herm_events.specs.View.{reply_trace_view, action_view, place_view};

use herm_base::{ExcNo, PortNo, ProcNo, Word};
use herm_events::{
    Action, Diary, Entry, History, Place, ReplyTrace, Stamp, Trace, Traces, entry_text, next_stamp,
};
use std::alloc::{AllocError, Global};
use std::test::Fail;

const LONG: &[u8] = b"\"a text of more than twenty-two bytes\"";

/// Whether so many names reach to the exception of the reply.
fn is_reply_named(reply: &ReplyTrace, count: usize) -> bool
    ensures { IsTrue result → IsReplyNamed count (reply_trace_view reply.now) }
{
    match reply {
        ReplyTrace::Values(_) => true,
        ReplyTrace::Raised(exception, _) => (exception.0 as usize) < count,
        ReplyTrace::Gone => true,
    }
}

fn is_named(action: &Action, count: usize) -> bool
    ensures { IsTrue result → IsNamed count (action_view action.now) }
{
    match action {
        Action::Answer { call: _, reply } => is_reply_named(reply, count),
        Action::Hear { call: _, reply } => is_reply_named(reply, count),
        Action::MakePort { made: _ } => true,
        Action::MakeProcess { module: _, made: _ } => true,
        Action::Put {
            number: _,
            trace: _,
        } => true,
        Action::Take {
            number: _,
            trace: _,
        } => true,
        Action::Close { count: _, left: _ } => true,
    }
}

/// Whether an entry is appended as this line, behind a byte that is there. Its exceptions need names.
fn is_line(alloc: Global, names: &[Word], entry: Entry, want: &str) -> Result<bool, AllocError> {
    let mut out = Vec::new(alloc);
    out.push(b'|')?;
    if is_named(&entry.action, names.len()) {
        entry_text(&mut out, &entry, names)?;
    }
    Ok(out.as_slice() == want.as_bytes())
}

fn at(stamp: u64, proc: ProcNo, place: Place, action: Action) -> Entry
    ensures { result ≡ record { stamp = record { 0 = stamp }; proc = proc; place = place; action = action } }
{
    Entry {
        stamp: Stamp(stamp),
        proc,
        place,
        action,
    }
}

/// A text, its copy and the text of a `Vec` have these bytes.
fn are_bytes(alloc: Global, bytes: &[u8]) -> Result<bool, AllocError> {
    let text = Trace::of(alloc, bytes)?;
    let again = text.again()?;
    let same = Trace::from_vec(Vec::from_slice(alloc, bytes)?)?;
    Ok(text.bytes() == bytes && again.bytes() == bytes && same == text)
}

#[test]
fn texts_have_their_bytes(rt: HostRuntime) -> Result<(), Fail> {
    for bytes in [
        b"".as_slice(),
        b"-9223372036854775808".as_slice(),
        b"\"nineteen and quotes\"".as_slice(),
        b"\"twenty and its quotes\"".as_slice(),
        b"\"twenty-one and quotes \"".as_slice(),
        LONG,
    ] {
        assert!(rt; are_bytes(rt.alloc(), bytes)?);
    }
    Ok(())
}

/// An answer and its copy have one text, which is this one.
fn is_answer(alloc: Global, reply: ReplyTrace, want: &str) -> Result<bool, AllocError> {
    let mut names = Vec::new(alloc);
    names.push(Word::of(alloc, b"Disconnected")?)?;
    names.push(Word::of(alloc, b"Busy")?)?;
    let cell = Place::Reply(ProcNo { number: 6 });
    let same = reply.again()? == reply;
    let call = 18446744073709551615;
    let hear = at(21, ProcNo { number: 6 }, cell, Action::Hear { call, reply });
    Ok(same && is_line(alloc, &names, hear, want)?)
}

#[test]
fn answers_have_their_texts(rt: HostRuntime) -> Result<(), Fail> {
    let alloc = rt.alloc();
    let values = |bytes: &[u8]| Trace::of(alloc, bytes);
    let none = ReplyTrace::Values(values(b"")?);
    assert!(rt; is_answer(alloc, none, "|21 6 reply 6 hear 18446744073709551615 ok")?);
    let some = ReplyTrace::Values(values(b"1,\"w\",@3")?);
    assert!(rt;
        is_answer(
            alloc,
            some,
            "|21 6 reply 6 hear 18446744073709551615 ok 1,\"w\",@3"
        )?
    );
    let kept = ReplyTrace::Raised(ExcNo(1), values(b"\"w\"")?);
    assert!(rt;
        is_answer(
            alloc,
            kept,
            "|21 6 reply 6 hear 18446744073709551615 raise Busy \"w\""
        )?
    );
    let bare = ReplyTrace::Raised(ExcNo(0), values(b"")?);
    assert!(rt;
        is_answer(
            alloc,
            bare,
            "|21 6 reply 6 hear 18446744073709551615 raise Disconnected"
        )?
    );
    assert!(rt;
        is_answer(
            alloc,
            ReplyTrace::Gone,
            "|21 6 reply 6 hear 18446744073709551615 gone"
        )?
    );
    Ok(())
}

const ONE: ProcNo = ProcNo { number: 1 };

const TWO: PortNo = PortNo { number: 2 };

fn is_book_line(alloc: Global, action: Action, want: &str) -> Result<bool, AllocError> {
    is_line(
        alloc,
        &[],
        at(18446744073709551615, ONE, Place::Book, action),
        want,
    )
}

fn is_port_line(alloc: Global, action: Action, want: &str) -> Result<bool, AllocError> {
    is_line(alloc, &[], at(7, ONE, Place::Port(TWO), action), want)
}

#[test]
fn what_is_made_has_its_line(rt: HostRuntime) -> Result<(), Fail> {
    let alloc = rt.alloc();
    let port = Action::MakePort { made: Some(TWO) };
    assert!(rt; is_book_line(alloc, port, "|18446744073709551615 1 book port 2")?);
    let full = Action::MakePort { made: None };
    assert!(rt; is_book_line(alloc, full, "|18446744073709551615 1 book port full")?);
    let made = Some((ProcNo { number: 1024 }, PortNo { number: 16384 }));
    let process = Action::MakeProcess { module: 0, made };
    assert!(rt;
        is_book_line(
            alloc,
            process,
            "|18446744073709551615 1 book process 1024 16384 0"
        )?
    );
    let full = Action::MakeProcess {
        module: 5,
        made: None,
    };
    assert!(rt; is_book_line(alloc, full, "|18446744073709551615 1 book process full 5")?);
    Ok(())
}

#[test]
fn messages_have_their_lines(rt: HostRuntime) -> Result<(), Fail> {
    let alloc = rt.alloc();
    let trace = Trace::of(alloc, b"\"a\\n\\\"\\\\\"")?;
    let put = Action::Put {
        number: Some(3),
        trace,
    };
    assert!(rt; is_port_line(alloc, put, "|7 1 port 2 put 3 \"a\\n\\\"\\\\\"")?);
    let trace = Trace::of(alloc, LONG)?;
    let closed = Action::Put {
        number: None,
        trace,
    };
    assert!(rt;
        is_port_line(
            alloc,
            closed,
            "|7 1 port 2 put closed \"a text of more than twenty-two bytes\""
        )?
    );
    let trace = Trace::of(alloc, b"{\"\",>0,_}")?;
    let take = Action::Take { number: 0, trace };
    assert!(rt; is_port_line(alloc, take, "|7 1 port 2 take 0 {\"\",>0,_}")?);
    let mut left = Traces::new(alloc);
    left.push(Trace::of(alloc, b"1")?)?;
    left.push(Trace::of(alloc, LONG)?)?;
    assert!(rt; left.len() == 2 && !left.is_empty() && left.as_slice()[1].bytes() == LONG);
    let close = Action::Close { count: 2, left };
    assert!(rt; is_port_line(alloc, close, "|7 1 port 2 close 2")?);
    Ok(())
}

fn full_at(stamp: u64) -> Entry
    ensures stamp { result.stamp.0 ≡ stamp }
    ensures proc { result.proc.number ≡ 1 }
    ensures place { place_view result.place ≡ book }
{
    at(stamp, ONE, Place::Book, Action::MakePort { made: None })
}

#[test]
fn entries_come_behind_one_another(rt: HostRuntime) -> Result<(), Fail> {
    let first = next_stamp(Stamp(0), Stamp(4));
    assert!(rt; first == Stamp(5) && next_stamp(first, Stamp(2)) == Stamp(6));
    let mut diary = Diary::new(rt.alloc(), ONE);
    diary.reserve()?;
    diary.push(full_at(5));
    diary.reserve()?;
    diary.push(full_at(6));
    assert!(rt; diary.entries().len() == 2 && diary.entries()[1].stamp == Stamp(6));
    let mut history = History::new(rt.alloc(), Place::Book);
    history.reserve()?;
    history.push(full_at(6));
    assert!(rt; history.entries().len() == 1 && history.entries()[0].proc == ONE);
    Ok(())
}
