//! Lines by hand: each statement counts, whichever form it has and wherever it stands.
use crate::answer::line_of;
use crate::examples::{BEFORE, BEHIND};
use std::test::Fail;

/// Statements of process 1, and the line; process 2 has two.
const LINES: [(&str, &str); 12] = [
    ("", "accepted: processes 2 statements 2\n"),
    ("i := 1;", "accepted: processes 2 statements 3\n"),
    (
        "if b { i := 1; j := 1; } else { i := 2; }",
        "accepted: processes 2 statements 6\n",
    ),
    ("if b { i := 1; }", "accepted: processes 2 statements 4\n"),
    (
        "if b { } else { if b { } else { i := 1; } }",
        "accepted: processes 2 statements 5\n",
    ),
    (
        "try { i := i + 1; raise e; } on e { j := 1; j := 2; } on Overflow { i := 3; }",
        "accepted: processes 2 statements 8\n",
    ),
    ("try { } on e { }", "accepted: processes 2 statements 3\n"),
    (
        "while b { i := 1; try { j := j + 1; } on Overflow { leave; } }",
        "accepted: processes 2 statements 7\n",
    ),
    (
        "select { when li receive i { j := 1; b := true; } when mi receive j { } }",
        "accepted: processes 2 statements 5\n",
    ),
    (
        "case v { when a { i := 1; } when b { i := 2; j := 2; } }",
        "accepted: processes 2 statements 6\n",
    ),
    (
        "for r in x { if b { leave; } }",
        "accepted: processes 2 statements 5\n",
    ),
    (
        "i := 1; if b { i := 2; } else { j := 2; } \
         try { i := i + 1; } on Overflow { while b { leave; } } \
         while b { select { when li receive i { } when mi receive j { } } } i := 3;",
        "accepted: processes 2 statements 13\n",
    ),
];

#[test]
fn each_statement_counts(rt: HostRuntime) -> Result<(), Fail> {
    for (statements, line) in LINES {
        let mut text = String::from_str(rt.alloc(), BEFORE)?;
        text.push_str(statements)?;
        text.push_str(BEHIND)?;
        let found = line_of(rt.alloc(), text.as_str())?;
        assert_eq!(rt; found.as_slice(), line.as_bytes(), "{statements}");
    }
    Ok(())
}

#[test]
fn an_empty_process_has_none(rt: HostRuntime) -> Result<(), Fail> {
    let found = line_of(rt.alloc(), "process main(start: main_start) { }")?;
    let line = b"accepted: processes 1 statements 0\n".as_slice();
    assert_eq!(rt; found.as_slice(), line);
    Ok(())
}
