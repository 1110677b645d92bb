//! Programs that set, send and discard strings: what they write, and where they are refused.
use crate::call::{call, plain};
use std::alloc::{AllocError, Global};
use std::process::Abort;
use std::test::Fail;

const HEAD: &str =
    "process main(start: main_start) {\n  var m: main_message, s: string;\n  receive m from start;\n";

/// A program of one declared string with these lines.
fn program(alloc: Global, lines: &[&str]) -> Result<Vec<u8>, AllocError> {
    let mut bytes = HEAD.as_bytes().to_vec(alloc)?;
    for line in lines {
        bytes.extend_from_slice(b"  ")?;
        bytes.extend_from_slice(line.as_bytes())?;
        bytes.push(b'\n')?;
    }
    bytes.extend_from_slice(b"}\n")?;
    Ok(bytes)
}

/// Runs a file and compares the status and the text.
fn gives(
    rt: &impl Abort,
    alloc: Global,
    bytes: &[u8],
    status: u8,
    text: &[u8],
) -> Result<(), AllocError> {
    let files: [(&str, &[u8]); 1] = [("a.hm", bytes)];
    let got = call(alloc, &["run", "a.hm"], &plain(&files))?;
    assert_eq!(rt; got.0.status, status);
    assert_eq!(rt; got.1.as_slice(), text);
    Ok(())
}

#[test]
fn lines_run_or_are_refused_where_a_fact_is_missing(rt: HostRuntime) -> Result<(), Fail> {
    let rows: [(&[&str], u8, &str); 9] = [
        (&["s := \"hi\";", "send s to m.out;"], 0, "hi\n"),
        (&[], 0, ""),
        (
            &["send s to m.out;"],
            1,
            "a.hm:4:3: F13 needs init(s) by start 1:ok\n",
        ),
        (
            &["s := \"hi\";", "send s to m.out;", "send s to m.out;"],
            1,
            "a.hm:6:3: F13 needs init(s) by start 1:ok 2:ok 3:ok\n",
        ),
        (
            &[
                "discard s;",
                "s := \"a\";",
                "discard s;",
                "send s to m.out;",
            ],
            1,
            "a.hm:4:3: F13 needs init(s) by start 1:ok\na.hm:7:3: F13 needs init(s) by start 1:ok 2:ok 3:ok 4:ok\n",
        ),
        (
            &[
                "s := \"a\";",
                "s := \"b\";",
                "send s to m.out;",
                "s := \"c\";",
                "send s to m.out;",
            ],
            0,
            "b\nc\n",
        ),
        (
            &["-- \"", "s := \"hi\"; -- send", "send s to m.out;"],
            0,
            "hi\n",
        ),
        (
            &["s := \"a\\nb\\\"\\\\\";", "send s to m.out;"],
            0,
            "a\nb\"\\\n",
        ),
        (&["s := 7;"], 1, "a.hm:4:3: F16 type\n"),
    ];
    for (lines, status, text) in rows {
        let bytes = program(rt.alloc(), lines)?;
        gives(&rt, rt.alloc(), &bytes, status, text.as_bytes())?;
    }
    Ok(())
}

#[test]
fn a_fault_of_the_bytes_is_told_at_its_place(rt: HostRuntime) -> Result<(), Fail> {
    let rows: [(&[&str], &str); 5] = [
        (&["s := \"\u{7f}\";"], "a.hm:4:9: F1 byte\n"),
        (&["-- \u{7f}", "s := 00;"], "a.hm:4:6: F1 byte\n"),
        (&["s := 00;"], "a.hm:4:8: F2 token\n"),
        (&["s := \"\\t\";"], "a.hm:4:8: F2 token\n"),
        (&["s := 9223372036854775808;"], "a.hm:4:8: F3 too long\n"),
    ];
    for (lines, text) in rows {
        let bytes = program(rt.alloc(), lines)?;
        gives(&rt, rt.alloc(), &bytes, 1, text.as_bytes())?;
    }
    Ok(())
}

#[test]
fn a_program_of_the_most_statements_runs(rt: HostRuntime) -> Result<(), Fail> {
    let mut bytes = program(rt.alloc(), &[])?;
    bytes.truncate(HEAD.len());
    let mut text = Vec::new(rt.alloc());
    for _ in 0..511 {
        bytes.extend_from_slice(b"s := \"x\"; send s to m.out;\n")?;
        text.extend_from_slice(b"x\n")?;
    }
    bytes.extend_from_slice(b"}")?;
    let files: [(&str, &[u8]); 1] = [("a.hm", bytes.as_slice())];
    let (outcome, written) = call(rt.alloc(), &["run", "a.hm"], &plain(&files))?;
    assert_eq!(rt; outcome.status, 0);
    assert_eq!(rt; written.as_slice(), text.as_slice());
    let report = outcome.report.expect(&rt, "a report");
    assert_eq!(rt; report.counts.actions, 513);
    assert_eq!(rt; report.journal.entries()?.len(), 513);
    Ok(())
}
