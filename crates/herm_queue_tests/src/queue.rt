ghost use Rattle.std.specs.Prelude.{IsTrue, IfOk, ◌≡◌, ◌≤◌, ◌<◌, ◌^◌};
ghost use Rattle.herm_events.specs.Names.{IsReplyNamed, IsNamed};
ghost use Rattle.herm_events.specs.View.{reply_trace_view, action_view};
ghost use Rattle.herm_letters.specs.Letters.{IsWholeReply};
ghost use Rattle.herm_queue.specs.CellStates.{reply_text};

use herm_base::{Limits, PortNo, ProcNo, Word};
use herm_events::{Action, History, ReplyTrace, Stamp, entry_text};
use herm_letters::{Letter, reply_trace_of};
use herm_queue::{Book, PortCell, Put, Reply, ReplyCell};
use herm_values::Value;
use std::alloc::{AllocError, Global};
use std::test::Fail;

/// A clock of 63 bits reaches beyond every run.
const LATEST: u64 = 9_223_372_036_854_775_808;

/// Whether so many names reach to the exception of the reply.
fn is_reply_named(reply: &ReplyTrace, count: usize) -> bool
    ensures { IsTrue result → IsReplyNamed count (reply_trace_view reply.now) }
{
    match reply {
        ReplyTrace::Values(_) => true,
        ReplyTrace::Raised(exception, _) => (exception.0 as usize) < count,
        ReplyTrace::Gone => true,
    }
}

fn is_named(action: &Action, count: usize) -> bool
    ensures { IsTrue result → IsNamed count (action_view action.now) }
{
    match action {
        Action::Answer { call: _, reply } => is_reply_named(reply, count),
        Action::Hear { call: _, reply } => is_reply_named(reply, count),
        Action::MakePort { made: _ } => true,
        Action::MakeProcess { module: _, made: _ } => true,
        Action::Put {
            number: _,
            trace: _,
        } => true,
        Action::Take {
            number: _,
            trace: _,
        } => true,
        Action::Close { count: _, left: _ } => true,
    }
}

/// Whether the history has these lines.
fn has_lines(
    alloc: Global,
    history: &History,
    names: &[Word],
    want: &str,
) -> Result<bool, AllocError> {
    let mut text = Vec::new(alloc);
    for entry in history.entries() {
        if is_named(&entry.action, names.len()) {
            entry_text(&mut text, entry, names)?;
        }
        text.push(b'\n')?;
    }
    Ok(text.as_slice() == want.as_bytes())
}

fn letter(alloc: Global, integer: i64) -> Result<Letter, AllocError> {
    match Letter::of(alloc, Value::Int(integer)) {
        Ok(letter) => Ok(letter),
        Err((_, error)) => Err(error),
    }
}

/// Puts an integer on the port: the number that it gets.
fn put(
    alloc: Global,
    cell: &mut PortCell,
    who: ProcNo,
    clock: u64,
    integer: i64,
) -> Result<Option<u64>, AllocError> {
    let letter = letter(alloc, integer)?;
    cell.reserve()?;
    if clock >= LATEST || cell.clock().0 >= LATEST {
        return Ok(None);
    }
    match cell.put(who, Stamp(clock), letter) {
        Put::Placed {
            stamp: _,
            number,
            trace: _,
        } => Ok(Some(number)),
        Put::Closed {
            stamp: _,
            value: _,
            trace: _,
        } => Ok(None),
    }
}

/// Takes an integer from the port.
fn take(cell: &mut PortCell, who: ProcNo, clock: u64) -> Result<Option<i64>, AllocError> {
    cell.reserve()?;
    if clock >= LATEST || cell.clock().0 >= LATEST {
        return Ok(None);
    }
    match cell.take(who, Stamp(clock)) {
        Some((_, parcel)) => match parcel.value {
            Value::Int(integer) => Ok(Some(integer)),
            _ => Ok(None),
        },
        None => Ok(None),
    }
}

/// Closes the port: how many messages it hands over.
fn close(cell: &mut PortCell, who: ProcNo, clock: u64) -> Result<Option<usize>, AllocError> {
    cell.reserve()?;
    if clock >= LATEST || cell.clock().0 >= LATEST {
        return Ok(None);
    }
    let (_, parcels) = cell.close(who, Stamp(clock));
    Ok(Some(parcels.len()))
}

const P1: ProcNo = ProcNo { number: 1 };

const P2: ProcNo = ProcNo { number: 2 };

const P3: ProcNo = ProcNo { number: 3 };

/// Puts, takes or closes: the number of the message, the integer taken, or how many messages are handed over.
fn port_step(
    alloc: Global,
    cell: &mut PortCell,
    what: u8,
    who: ProcNo,
    clock: u64,
    integer: i64,
) -> Result<Option<i64>, AllocError> {
    match what {
        b'p' => {
            let number = put(alloc, cell, who, clock, integer)?;
            Ok(number.map(|n| (n % 100) as i64))
        }
        b't' => {
            let taken = take(cell, who, clock)?;
            Ok(taken)
        }
        _ => {
            let left = close(cell, who, clock)?;
            Ok(left.map(|n| (n % 100) as i64))
        }
    }
}

#[test]
fn a_port_records_what_is_done(rt: HostRuntime) -> Result<(), Fail> {
    let alloc = rt.alloc();
    let mut cell = PortCell::new(alloc, PortNo { number: 5 });
    for (what, who, clock, integer, want) in [
        (b'p', P1, 0, 10, Some(0)),
        (b'p', P2, 7, -11, Some(1)),
        (b't', P3, 2, 0, Some(10)),
        (b'p', P1, 1, 12, Some(2)),
        (b't', P3, 9, 0, Some(-11)),
        (b't', P3, 11, 0, Some(12)),
        (b't', P3, 40, 0, None),
        (b'p', P2, 20, 13, Some(3)),
        (b'p', P2, 21, 14, Some(4)),
        (b'c', P3, 12, 0, Some(2)),
        (b'p', P1, 10, 15, None),
        (b'c', P3, 30, 0, Some(0)),
        (b't', P3, 31, 0, None),
    ] {
        let answer = port_step(alloc, &mut cell, what, who, clock, integer)?;
        assert!(rt; answer == want);
    }
    let want =
        "1 1 port 5 put 0 10\n8 2 port 5 put 1 -11\n9 3 port 5 take 0 10\n10 1 port 5 put 2 12\n11 3 port 5 take 1 -11\n12 3 port 5 take 2 12\n21 2 port 5 put 3 13\n22 2 port 5 put 4 14\n23 3 port 5 close 2\n24 1 port 5 put closed 15\n31 3 port 5 close 0\n";
    assert!(rt; has_lines(alloc, cell.history(), &[], want)?);
    Ok(())
}

#[test]
fn port_one_opens_with_its_message(rt: HostRuntime) -> Result<(), Fail> {
    let alloc = rt.alloc();
    let mut cell = PortCell::first(alloc, letter(alloc, 7)?)?;
    assert!(rt; cell.history().entries().is_empty());
    assert!(rt; put(alloc, &mut cell, P2, 0, 8)? == Some(1));
    assert!(rt; take(&mut cell, P1, 0)? == Some(7));
    let want = "1 2 port 1 put 1 8\n2 1 port 1 take 0 7\n";
    assert!(rt; has_lines(alloc, &cell.into_history(), &[], want)?);
    Ok(())
}

/// Notes that a process waits.
fn wait(cell: &mut PortCell, who: ProcNo) -> Result<(), AllocError> {
    cell.reserve()?;
    cell.wait_here(who);
    Ok(())
}

/// Whether this process waits, or nobody. Nobody does afterwards.
fn is_waiter(cell: &mut PortCell, want: Option<ProcNo>) -> bool {
    cell.take_waiter() == want
}

#[test]
fn one_process_waits_until_the_port_is_closed(rt: HostRuntime) -> Result<(), Fail> {
    let alloc = rt.alloc();
    let mut cell = PortCell::new(alloc, PortNo { number: 2 });
    wait(&mut cell, P1)?;
    wait(&mut cell, P2)?;
    assert!(rt; is_waiter(&mut cell, Some(P2)));
    assert!(rt; is_waiter(&mut cell, None));
    wait(&mut cell, P3)?;
    close(&mut cell, P2, 0)?;
    assert!(rt; is_waiter(&mut cell, None));
    wait(&mut cell, P1)?;
    assert!(rt; is_waiter(&mut cell, None));
    Ok(())
}

/// The text of a reply, twice.
fn two_texts(alloc: Global, reply: &Reply) -> Result<(ReplyTrace, ReplyTrace), AllocError>
    ensures first { IfOk result (λ t. reply_trace_view t.0 ≡ reply_text reply.now) }
    ensures second { IfOk result (λ t. reply_trace_view t.1 ≡ reply_text reply.now) }
{
    let first = reply_trace_of(alloc, reply)?;
    let second = first.again()?;
    Ok((first, second))
}

/// Answers a call with an integer, or with nothing.
fn answer(
    alloc: Global,
    cell: &mut ReplyCell,
    who: ProcNo,
    clock: u64,
    call: u64,
    integer: Option<i64>,
) -> Result<Option<u64>, AllocError> {
    let reply = match integer {
        Some(integer) => {
            let mut values = Vec::new(alloc);
            values.push(Value::Int(integer))?;
            Reply::Values(values)
        }
        None => Reply::Gone,
    };
    let traces = two_texts(alloc, &reply)?;
    cell.reserve()?;
    if clock >= LATEST || cell.clock().0 >= LATEST {
        return Ok(None);
    }
    Ok(Some(cell.answer(who, Stamp(clock), call, reply, traces).0))
}

/// Hears an answer: the number of its call.
fn hear(cell: &mut ReplyCell, clock: u64) -> Result<Option<u64>, AllocError> {
    cell.reserve()?;
    if clock >= LATEST || cell.clock().0 >= LATEST {
        return Ok(None);
    }
    match cell.hear(Stamp(clock)) {
        Some((_, call, _, _)) => Ok(Some(call)),
        None => Ok(None),
    }
}

/// Answers or hears: the stamp, or the number of the call.
fn reply_step(
    alloc: Global,
    cell: &mut ReplyCell,
    who: Option<ProcNo>,
    clock: u64,
    call: u64,
    integer: Option<i64>,
) -> Result<Option<u64>, AllocError> {
    match who {
        Some(who) => {
            let stamp = answer(alloc, cell, who, clock, call, integer)?;
            Ok(stamp)
        }
        None => {
            let heard = hear(cell, clock)?;
            Ok(heard)
        }
    }
}

#[test]
fn a_reply_cell_records_what_is_done(rt: HostRuntime) -> Result<(), Fail> {
    let alloc = rt.alloc();
    let mut cell = ReplyCell::new(alloc, P2);
    for (who, clock, call, integer, want) in [
        (None, 3, 0, None, None),
        (Some(P1), 0, 0, Some(5), Some(1)),
        (Some(P3), 6, 1, None, Some(7)),
        (Some(P1), 1, 2, Some(-6), Some(8)),
        (None, 20, 0, None, Some(0)),
        (None, 21, 0, None, Some(1)),
        (Some(P3), 8, 3, Some(7), Some(23)),
        (None, 22, 0, None, Some(2)),
        (None, 24, 0, None, Some(3)),
        (None, 25, 0, None, None),
        (Some(P1), 30, 4, None, Some(31)),
        (None, 25, 0, None, Some(4)),
    ] {
        let answer = reply_step(alloc, &mut cell, who, clock, call, integer)?;
        assert!(rt; answer == want);
    }
    let want =
        "1 1 reply 2 answer 0 ok 5\n7 3 reply 2 answer 1 gone\n8 1 reply 2 answer 2 ok -6\n21 2 reply 2 hear 0 ok 5\n22 2 reply 2 hear 1 gone\n23 3 reply 2 answer 3 ok 7\n24 2 reply 2 hear 2 ok -6\n25 2 reply 2 hear 3 ok 7\n31 1 reply 2 answer 4 gone\n32 2 reply 2 hear 4 gone\n";
    assert!(rt; has_lines(alloc, cell.history(), &[], want)?);
    Ok(())
}

/// Makes a port, or a process of this module: the port's number.
fn make(
    book: &mut Book,
    who: ProcNo,
    clock: u64,
    code: Option<u32>,
) -> Result<Option<u32>, AllocError> {
    book.reserve()?;
    if clock >= LATEST || book.clock().0 >= LATEST {
        return Ok(None);
    }
    match code {
        Some(code) => {
            let (_, made) = book.make_process(who, Stamp(clock), code);
            Ok(made.map(|m| m.1.get()))
        }
        None => {
            let (_, made) = book.make_port(who, Stamp(clock));
            Ok(made.map(|port| port.get()))
        }
    }
}

const SMALL: Limits = Limits {
    processes: 3,
    ports: 5,
    steps: 1,
    workers: 1,
};

#[test]
fn the_book_records_what_is_done(rt: HostRuntime) -> Result<(), Fail> {
    let alloc = rt.alloc();
    let mut book = Book::new(alloc, &SMALL);
    for (who, clock, code, want) in [
        (P1, 0, None, Some(2)),
        (P1, 1, Some(7), Some(3)),
        (P2, 9, Some(0), Some(4)),
        (P3, 2, Some(4), None),
        (P3, 11, None, Some(5)),
        (P2, 10, None, None),
        (P1, 2, Some(1), None),
    ] {
        let made = make(&mut book, who, clock, code)?;
        assert!(rt; made == want);
    }
    let want =
        "1 1 book port 2\n2 1 book process 2 3 7\n10 2 book process 3 4 0\n11 3 book process full 4\n12 3 book port 5\n13 2 book port full\n14 1 book process full 1\n";
    assert!(rt; has_lines(alloc, book.history(), &[], want)?);
    Ok(())
}

/// A string whose text is not kept in itself.
fn long_letter(alloc: Global) -> Result<Letter, AllocError> {
    let word = Word::of(alloc, b"a text of more than twenty-two bytes")?;
    match Letter::of(alloc, Value::Text(word)) {
        Ok(letter) => Ok(letter),
        Err((_, error)) => Err(error),
    }
}

/// Puts a string on the port.
fn put_long(alloc: Global, cell: &mut PortCell) -> Result<(), AllocError> {
    let letter = long_letter(alloc)?;
    cell.reserve()?;
    if cell.clock().0 < LATEST {
        let _ = cell.put(P1, Stamp(0), letter);
    }
    Ok(())
}

/// An open port with so many strings, ready for one action.
fn ready_port(alloc: Global, count: u8) -> Result<PortCell, AllocError>
    ensures spare { IfOk result (λ c. 1 ≤ c.spare) }
    ensures clock { IfOk result (λ c. c.clock < 2 ^ 63) }
{
    let mut cell = PortCell::new(alloc, PortNo { number: 2 });
    for _ in 0..count {
        put_long(alloc, &mut cell)?;
    }
    cell.reserve()?;
    if cell.clock().0 >= LATEST {
        return Err(AllocError);
    }
    Ok(cell)
}

/// A closed port, ready for one action.
fn shut_port(alloc: Global) -> Result<PortCell, AllocError>
    ensures spare { IfOk result (λ c. 1 ≤ c.spare) }
    ensures clock { IfOk result (λ c. c.clock < 2 ^ 63) }
{
    let mut cell = PortCell::new(alloc, PortNo { number: 3 });
    let _ = close(&mut cell, P1, 0)?;
    cell.reserve()?;
    if cell.clock().0 >= LATEST {
        return Err(AllocError);
    }
    Ok(cell)
}

/// A string that comes back.
fn long_reply(alloc: Global) -> Result<Reply, AllocError>
    ensures { IfOk result IsWholeReply }
{
    let word = Word::of(alloc, b"a text of more than twenty-two bytes")?;
    let mut values = Vec::new(alloc);
    values.push(Value::Text(word))?;
    Ok(Reply::Values(values))
}

/// Answers a call with a string.
fn answer_long(alloc: Global, cell: &mut ReplyCell) -> Result<(), AllocError> {
    let reply = long_reply(alloc)?;
    let traces = two_texts(alloc, &reply)?;
    cell.reserve()?;
    if cell.clock().0 < LATEST {
        let _ = cell.answer(P1, Stamp(0), 7, reply, traces);
    }
    Ok(())
}

/// A reply cell with so many strings, ready for one action.
fn ready_cell(alloc: Global, count: u8) -> Result<ReplyCell, AllocError>
    ensures spare { IfOk result (λ c. 1 ≤ c.spare) }
    ensures clock { IfOk result (λ c. c.clock < 2 ^ 63) }
{
    let mut cell = ReplyCell::new(alloc, P2);
    for _ in 0..count {
        answer_long(alloc, &mut cell)?;
    }
    cell.reserve()?;
    if cell.clock().0 >= LATEST {
        return Err(AllocError);
    }
    Ok(cell)
}

/// A book, ready for one action.
fn ready_book(alloc: Global) -> Result<Book, AllocError>
    ensures spare { IfOk result (λ b. 1 ≤ b.spare) }
    ensures clock { IfOk result (λ b. b.clock < 2 ^ 63) }
{
    let mut book = Book::new(alloc, &SMALL);
    book.reserve()?;
    if book.clock().0 >= LATEST {
        return Err(AllocError);
    }
    Ok(book)
}

/// Whether the port is open: it takes the message.
fn is_placed(cell: &mut PortCell, letter: Letter) -> bool
    requires spare { 1 ≤ cell.old.spare }
    requires clock { cell.old.clock < 2 ^ 63 }
{
    match cell.put(P1, Stamp(0), letter) {
        Put::Placed {
            stamp: _,
            number: _,
            trace: _,
        } => true,
        Put::Closed {
            stamp: _,
            value: _,
            trace: _,
        } => false,
    }
}

/// Notes that a process waits, and takes it from there.
fn is_noted(cell: &mut PortCell) -> bool
    requires spare { 1 ≤ cell.old.spare }
{
    cell.wait_here(P2);
    cell.take_waiter() == Some(P2)
}

/// Each action of a port with ready memory: whether it is done.
fn ports_act(
    mut ports: (PortCell, PortCell, PortCell, PortCell, PortCell),
    letters: (Letter, Letter),
) -> bool
    requires first { (1 ≤ ports.0.spare) × (ports.0.clock < 2 ^ 63) }
    requires second { (1 ≤ ports.1.spare) × (ports.1.clock < 2 ^ 63) }
    requires third { (1 ≤ ports.2.spare) × (ports.2.clock < 2 ^ 63) }
    requires fourth { (1 ≤ ports.3.spare) × (ports.3.clock < 2 ^ 63) }
    requires fifth { 1 ≤ ports.4.spare }
{
    let placed = is_placed(&mut ports.0, letters.0);
    let back = !is_placed(&mut ports.1, letters.1);
    let taken = ports.2.take(P1, Stamp(0)).is_some();
    let closed = ports.3.close(P1, Stamp(0)).1.len() == 3;
    placed && back && taken && closed && is_noted(&mut ports.4)
}

#[test]
fn actions_take_no_memory_after_reserve(rt: HostRuntime) -> Result<(), Fail> {
    let alloc = rt.alloc();
    let ports = (
        ready_port(alloc, 0)?,
        shut_port(alloc)?,
        ready_port(alloc, 2)?,
        ready_port(alloc, 3)?,
        ready_port(alloc, 0)?,
    );
    let letters = (long_letter(alloc)?, long_letter(alloc)?);
    let mut answered = ready_cell(alloc, 1)?;
    let mut heard = ready_cell(alloc, 2)?;
    let reply = long_reply(alloc)?;
    let traces = two_texts(alloc, &reply)?;
    let mut ports_made = ready_book(alloc)?;
    let mut processes_made = ready_book(alloc)?;
    assert!(rt; ports_act(ports, letters));
    assert!(rt; answered.answer(P1, Stamp(0), 8, reply, traces).0 == 2);
    assert!(rt; heard.hear(Stamp(5)).is_some());
    assert!(rt; ports_made.make_port(P1, Stamp(0)).1.is_some());
    assert!(rt; processes_made.make_process(P1, Stamp(0), 3).1.is_some());
    // The first that takes memory behind the last `reserve`.
    assert!(rt; Vec::<u8>::with_capacity(alloc, 1).is_ok());
    Ok(())
}
