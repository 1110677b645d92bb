//! The greeting program, and each status that a call of it can have.
use crate::call::{Outside, call, plain};
use herm_driver::Outcome;
use herm_events::{Action, Entry, Place};
use herm_report::{End, ProcEnd};
use std::process::Abort;
use std::test::Fail;

const HELLO: &[u8] = b"process main(start: main_start) {
  var m: main_message, s: string;
  receive m from start;
  s := \"hi\";
  send s to m.out;
}
";

const USAGE: &str = "usage: hermes check FILE.. | hermes run OPTIONS FILE.. | hermes make N\n";

fn ends(rt: &impl Abort, got: &(Outcome, Vec<u8>), status: u8, text: &[u8], about: &str) {
    assert_eq!(rt; got.0.status, status, "{about}");
    assert_eq!(rt; got.1.as_slice(), text, "{about}");
    assert!(rt; got.0.aside.is_none(), "{about}");
}

#[test]
fn the_greeting_is_written(rt: HostRuntime) -> Result<(), Fail> {
    let files: [(&str, &[u8]); 1] = [("a.hm", HELLO)];
    let got = call(rt.alloc(), &["run", "a.hm"], &plain(&files))?;
    ends(&rt, &got, 0, b"hi\n", "the greeting");
    Ok(())
}

#[test]
fn words_that_are_not_taken_give_the_usage(rt: HostRuntime) -> Result<(), Fail> {
    let files: [(&str, &[u8]); 1] = [("a.hm", HELLO)];
    let rows: [&[&str]; 7] = [
        &[],
        &["run"],
        &["a.hm"],
        &["run", "-a.hm"],
        &["run", "a.hm", "a.hm"],
        &["ran", "a.hm"],
        &["run", "--a.hm", "a.hm"],
    ];
    for words in rows {
        let got = call(rt.alloc(), words, &plain(&files))?;
        ends(&rt, &got, 2, USAGE.as_bytes(), "words");
        assert!(rt; got.0.report.is_none());
    }
    Ok(())
}

#[test]
fn a_missing_file_and_a_failing_load_are_told(rt: HostRuntime) -> Result<(), Fail> {
    let files: [(&str, &[u8]); 1] = [("a.hm", HELLO)];
    let got = call(rt.alloc(), &["run", "gone.hm"], &plain(&files))?;
    ends(&rt, &got, 10, b"hermes: gone.hm: not found\n", "missing");
    let failing = Outside {
        failing_loads: &[1],
        ..plain(&files)
    };
    let got = call(rt.alloc(), &["run", "a.hm"], &failing)?;
    ends(&rt, &got, 3, b"hermes: a.hm: read fault\n", "failing");
    Ok(())
}

#[test]
fn a_failing_write_cuts_the_text_off(rt: HostRuntime) -> Result<(), Fail> {
    let files: [(&str, &[u8]); 1] = [("a.hm", HELLO)];
    let failing = Outside {
        piece: 2,
        failing_writes: &[2],
        ..plain(&files)
    };
    let got = call(rt.alloc(), &["run", "a.hm"], &failing)?;
    ends(&rt, &got, 4, b"hi", "the second write fails");
    assert!(rt; got.0.report.is_some());
    Ok(())
}

#[test]
fn other_files_are_refused(rt: HostRuntime) -> Result<(), Fail> {
    let rows: [(&str, &[u8], &[u8]); 6] = [
        ("empty", b"", b"hermes: F19 no main\n"),
        ("a comment", b"-- hi", b"hermes: F19 no main\n"),
        (
            "cut",
            b"process main(start: main_start) {",
            b"a.hm:1:34: F4 syntax\n",
        ),
        (
            "cut before a comment",
            b"process main(start: main_start) { send -- x\n",
            b"a.hm:1:39: F4 syntax\n",
        ),
        ("closed", b"\n } {", b"a.hm:2:2: F4 syntax\n"),
        (
            "nested",
            b"\n((((((((((((((((((((((((((((((((((((((((((((((((((((((((((((((((((",
            b"a.hm:2:65: F5 nesting\n",
        ),
    ];
    for (about, bytes, text) in rows {
        let files: [(&str, &[u8]); 1] = [("a.hm", bytes)];
        let got = call(rt.alloc(), &["run", "a.hm"], &plain(&files))?;
        ends(&rt, &got, 1, text, about);
        assert!(rt; got.0.report.is_none());
    }
    Ok(())
}

const WRONG_TYPES: &[u8] = b"definitions d {
  type a = record { x: b };
  type c = record { x: c };
  type f = record { k: integer };
  type e = table of f key (y);
}
";

const WRONG_KEPT: &[u8] = b"definitions d {
  exception Busy;
  type ask = callmessage (in q: string, inout w: string) raises (Busy {full(q)});
}
";

#[test]
fn definitions_are_refused_at_their_names(rt: HostRuntime) -> Result<(), Fail> {
    let rows: [(&str, &[u8], &[u8]); 4] = [
        (
            "three codes",
            WRONG_TYPES,
            b"a.hm:2:24: F6 unknown\na.hm:3:8: F8 cycle\na.hm:5:28: F10 bad key\n",
        ),
        ("an input kept", WRONG_KEPT, b"a.hm:3:8: F11 bad state\n"),
        (
            "twice",
            b"definitions d { exception E; } definitions e { type integer = enum {a, a}; exception E; }",
            b"a.hm:1:53: F7 twice\na.hm:1:72: F7 twice\na.hm:1:86: F7 twice\n",
        ),
        (
            "two that reach each other",
            b"definitions d { type a = table of b key (k); type b = record {k: integer, x: a}; }",
            b"a.hm:1:22: F8 cycle\na.hm:1:51: F8 cycle\n",
        ),
    ];
    for (about, bytes, text) in rows {
        let files: [(&str, &[u8]); 1] = [("a.hm", bytes)];
        let got = call(rt.alloc(), &["run", "a.hm"], &plain(&files))?;
        ends(&rt, &got, 1, text, about);
        assert!(rt; got.0.report.is_none());
    }
    Ok(())
}

#[test]
fn the_greeting_cut_at_any_byte_has_one_fault(rt: HostRuntime) -> Result<(), Fail> {
    let brace = HELLO.iter().rposition(|byte| *byte == b'}');
    for length in 1..brace.unwrap_or(0) {
        let files: [(&str, &[u8]); 1] = [("a.hm", &HELLO[..length])];
        let got = call(rt.alloc(), &["run", "a.hm"], &plain(&files))?;
        assert_eq!(rt; got.0.status, 1);
        let line = got.1.as_slice();
        assert!(rt;
            line.ends_with(b": F4 syntax\n") || line.ends_with(b": F2 token\n"),
            "{length}"
        );
        let lines = line.iter().filter(|byte| **byte == b'\n').count();
        assert_eq!(rt; lines, 1, "{length}");
    }
    Ok(())
}

fn is_put(entry: &Entry) -> bool {
    match &entry.action {
        Action::Put { number, trace } => *number == Some(0)
            && trace.bytes() == b"\"hi\"".as_slice(),
        _ => false,
    }
}

fn is_take(entry: &Entry) -> bool {
    match &entry.action {
        Action::Take { number, trace } => *number == 0 && trace.bytes() == b"{\"\",>0}".as_slice(),
        _ => false,
    }
}

fn is_close(entry: &Entry) -> bool {
    match &entry.action {
        Action::Close { count, left } => *count == 0 && left.is_empty(),
        _ => false,
    }
}

fn port_of(entry: &Entry) -> u32 {
    match entry.place {
        Place::Port(port) => port.get(),
        _ => 99,
    }
}

#[test]
fn the_greeting_is_reported(rt: HostRuntime) -> Result<(), Fail> {
    let files: [(&str, &[u8]); 1] = [("a.hm", HELLO)];
    let (outcome, _) = call(rt.alloc(), &["run", "a.hm"], &plain(&files))?;
    let report = outcome.report.expect(&rt, "a report");
    let entries = report.journal.entries()?;
    assert_eq!(rt; entries.len(), 3);
    for (i, entry) in entries.iter().enumerate() {
        assert_eq!(rt; entry.stamp.0, i as u64 + 1);
        assert_eq!(rt; entry.proc.get(), 1);
    }
    assert!(rt; is_take(&entries[0]) && port_of(&entries[0]) == 1);
    assert!(rt; is_put(&entries[1]) && port_of(&entries[1]) == 0);
    assert!(rt; is_close(&entries[2]) && port_of(&entries[2]) == 1);
    assert_eq!(rt; report.ends.len(), 1);
    assert!(rt; matches!(report.ends[0], ProcEnd::Ended(End::Normal)));
    assert_eq!(rt; report.queued.len(), 2);
    assert!(rt; report.queued[0].0.get() == 0 && report.queued[1].0.get() == 1);
    let console = report.queued[0].1.as_slice();
    assert_eq!(rt; console.len(), 1);
    assert_eq!(rt; console[0].bytes(), b"\"hi\"".as_slice());
    assert!(rt; report.queued[1].1.as_slice().is_empty());
    let c = report.counts;
    assert_eq!(rt; [c.processes, c.ended, c.waiting, c.stopped], [1, 1, 0, 0]);
    assert_eq!(rt; [c.ports, c.unclosed, c.steps, c.actions], [2, 1, 3, 3]);
    assert_eq!(rt; [c.made, c.held, c.queued, c.finalised], [6, 1, 1, 4]);
    Ok(())
}
