use herm_base::{ExcNo, PortNo, ProcNo, Word};
use herm_events::{Action, Entry, Place, ReplyTrace, Stamp, Trace, Traces};
use herm_report::{Counts, End, Journal, ProcEnd, Report, Spent};
use herm_text::{Asked, run_text, status};
use std::alloc::{AllocError, Global};
use std::test::Fail;

const COUNTS: Counts = Counts {
    processes: 2,
    ended: 1,
    waiting: 0,
    stopped: 1,
    ports: 3,
    unclosed: 2,
    steps: 1000005,
    actions: 4,
    made: 9223372036854775808,
    held: 1,
    queued: 2,
    finalised: 6,
};

/// An entry in which a process hears an exception, and one in which it puts a message.
fn entries(alloc: Global) -> Result<Vec<Entry>, AllocError> {
    let proc = ProcNo { number: 1 };
    let mut entries = Vec::new(alloc);
    let kept = Trace::of(alloc, b"7")?;
    entries.push(Entry {
        stamp: Stamp(4),
        proc,
        place: Place::Reply(proc),
        action: Action::Hear {
            call: 2,
            reply: ReplyTrace::Raised(ExcNo(9), kept),
        },
    })?;
    let trace = Trace::of(alloc, b"\"a\\nb\"")?;
    entries.push(Entry {
        stamp: Stamp(5),
        proc,
        place: Place::Port(PortNo { number: 0 }),
        action: Action::Put {
            number: Some(0),
            trace,
        },
    })?;
    Ok(entries)
}

/// Two strings at the console, the first with a quote and a backslash, the second with a newline.
fn console(alloc: Global) -> Result<Vec<(PortNo, Traces)>, AllocError> {
    let mut texts = Traces::new(alloc);
    texts.push(Trace::of(alloc, b"\"one \\\"two\\\" \\\\n\"")?)?;
    texts.push(Trace::of(alloc, b"\"a\\nb\"")?)?;
    let mut queued = Vec::new(alloc);
    queued.push((PortNo { number: 0 }, texts))?;
    Ok(queued)
}

fn names(alloc: Global) -> Result<Vec<Word>, AllocError> {
    let mut names = Vec::new(alloc);
    names.push(Word::of(alloc, b"Disconnected")?)?;
    names.push(Word::of(alloc, b"Busy")?)?;
    Ok(names)
}

/// Whether the report of two processes that came to this has this text and this status.
fn is_text(
    alloc: Global,
    ends: [ProcEnd; 2],
    asked: Asked,
    want: &str,
    code: u8,
) -> Result<bool, AllocError> {
    let report = Report {
        journal: Journal::in_order(entries(alloc)?)?,
        ends: Vec::from_array(alloc, ends)?,
        queued: console(alloc)?,
        counts: COUNTS,
    };
    let text = run_text(alloc, &report, &names(alloc)?, asked)?;
    Ok(text.as_slice() == want.as_bytes() && status(&report) == code)
}

#[test]
fn an_end_by_an_exception_has_its_name(rt: HostRuntime) -> Result<(), Fail> {
    let ends = [
        ProcEnd::Ended(End::By(ExcNo(1))),
        ProcEnd::Ended(End::Normal),
    ];
    let want = "one \"two\" \\n\na\nb\nhermes: main ended by Busy\n";
    assert!(rt; is_text(rt.alloc(), ends, Asked::Plain, want, 6)?);
    Ok(())
}

#[test]
fn a_stopped_process_comes_before_a_wait(rt: HostRuntime) -> Result<(), Fail> {
    let alloc = rt.alloc();
    let ports = Vec::from_array(alloc, [PortNo { number: 3 }, PortNo { number: 12 }])?;
    let ends = [
        ProcEnd::Waiting(ports),
        ProcEnd::Stopped(Spent::Steps(1000000)),
    ];
    let want = "one \"two\" \\n\na\nb\nhermes: process 2 spent 1000000 steps\n";
    assert!(rt; is_text(alloc, ends, Asked::Plain, want, 8)?);
    Ok(())
}

#[test]
fn a_wait_names_its_ports(rt: HostRuntime) -> Result<(), Fail> {
    let alloc = rt.alloc();
    let ports = Vec::from_array(alloc, [PortNo { number: 3 }, PortNo { number: 12 }])?;
    let ends = [ProcEnd::Waiting(ports), ProcEnd::Ended(End::Normal)];
    let want = "one \"two\" \\n\na\nb\nhermes: process 1 waits on port 3 12\n";
    assert!(rt; is_text(alloc, ends, Asked::Plain, want, 7)?);
    Ok(())
}

#[test]
fn the_summary_has_four_lines(rt: HostRuntime) -> Result<(), Fail> {
    let ends = [
        ProcEnd::Ended(End::Normal),
        ProcEnd::Stopped(Spent::Actions(16384)),
    ];
    let want =
        "one \"two\" \\n\na\nb\nsummary: processes 2 ended 1 waiting 0 stopped 1\nsummary: ports 3 open 2\nsummary: steps 1000005 actions 4\nsummary: cells made 9223372036854775808 held 1 queued 2 finalised 6\n";
    assert!(rt; is_text(rt.alloc(), ends, Asked::WithSummary, want, 0)?);
    Ok(())
}

#[test]
fn a_journal_stands_alone(rt: HostRuntime) -> Result<(), Fail> {
    let ends = [ProcEnd::Ended(End::Normal), ProcEnd::Ended(End::Normal)];
    let want = "journal: 4 1 reply 1 hear 2 raise  7\njournal: 5 1 port 0 put 0 \"a\\nb\"\n";
    assert!(rt; is_text(rt.alloc(), ends, Asked::Journal, want, 0)?);
    Ok(())
}

/// A diary of a process with an entry at each of these stamps.
fn diary(alloc: Global, proc: ProcNo, stamps: &[u64]) -> Result<Vec<Entry>, AllocError> {
    let mut diary = Vec::new(alloc);
    for stamp in stamps {
        diary.push(Entry {
            stamp: Stamp(*stamp),
            proc,
            place: Place::Book,
            action: Action::MakePort { made: None },
        })?;
    }
    Ok(diary)
}

/// Whether these are the stamps and the processes of a journal, in order.
fn has_entries(journal: &Journal, want: &[(u64, u32)]) -> Result<bool, AllocError> {
    let entries = journal.entries()?;
    if entries.len() != want.len() {
        return Ok(false);
    }
    for (entry, (stamp, number)) in entries.iter().zip(want) {
        if entry.stamp.0 != *stamp || entry.proc.get() != *number {
            return Ok(false);
        }
    }
    Ok(true)
}

#[test]
fn a_turn_of_a_list_with_none_left_is_passed_over(rt: HostRuntime) -> Result<(), Fail> {
    let alloc = rt.alloc();
    let (one, two) = (ProcNo { number: 1 }, ProcNo { number: 2 });
    let lists = Vec::from_array(
        alloc,
        [diary(alloc, one, &[3, 5])?, diary(alloc, two, &[4])?],
    )?;
    let turns = Vec::from_array(alloc, [2, 1, 2048, 2, 2049, 3, 1])?;
    let journal = Journal::in_turn(lists, turns);
    assert!(rt; has_entries(&journal, &[(4, 2), (3, 1), (5, 1)])?);
    Ok(())
}
