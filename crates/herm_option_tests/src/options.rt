//! Calls with options, over files and a sink in memory.
use crate::call::told;
use std::alloc::{AllocError, Global};
use std::process::Abort;
use std::test::Fail;

const A_GREETING: &str = "process main(start: main_start) {
  var m: main_message, s: string;
  receive m from start;
  s := \"hi\";
  send s to m.out;
}
";

const A_JOIN: &str = "process main(start: main_start) {
  var m: main_message, x: string;
  receive m from start;
  if m.arg = \"\" {
    x := \"a\";
  }
  discard m;
}
";

const PORTS: &str = "definitions d {
  type li = inport of integer;
}
process main(start: main_start) {
  var m: main_message, a: li, b: li, c: li, s: string;
  receive m from start;
  try {
    new a;
    new b;
    new c;
  } on Depletion {
    s := \"full\";
    send s to m.out;
  }
}
";

const A_KEPT_PARAMETER: &str = "definitions d {
  exception Busy;
  type ask = callmessage (in q: string, inout w: string) raises (Busy {full(w)});
  type ask_in = inport of ask;
  type ask_out = outport of ask_in;
}
process deny(start: ask_in) {
  var c: ask;
  receive c from start;
  return c exception Busy;
}
process main(start: main_start) {
  var m: main_message, o: ask_out, q: string, w: string;
  receive m from start;
  create o of deny;
  q := \"q\";
  w := \"w\";
  try {
    call o(q, w);
  } on Busy {
    send w to m.out;
  } on Disconnected {
    send q to m.out;
  }
}
";

const TWO_SENDERS: &str = "definitions d {
  type item = record { who: integer, n: integer };
  type item_in = inport of item;
  type item_out = outport of item_in;
  type job = record { who: integer, dest: item_out };
  type job_in = inport of job;
  type job_out = outport of job_in;
}
process sender(start: job_in) {
  var j: job, x: item, k: integer;
  receive j from start;
  k := 1;
  while k <= 100 {
    new x;
    x.who := j.who;
    x.n := k;
    send x to j.dest;
    k := k + 1;
  }
}
process main(start: main_start) {
  var m: main_message, i: item_in, o: item_out, p: job_out, j: job,
    x: item, a: integer, b: integer, k: integer, s: string;
  receive m from start;
  new i;
  connect o to i;
  create p of sender;
  new j; j.who := 1; j.dest := o; send j to p;
  create p of sender;
  new j; j.who := 2; j.dest := o; send j to p;
  a := 0; b := 0; k := 0;
  while k < 200 {
    receive x from i;
    if x.who = 1 {
      if x.n = a + 1 { a := x.n; }
    } else {
      if x.n = b + 1 { b := x.n; }
    }
    k := k + 1;
  }
  s := text(a) & \" \" & text(b);
  send s to m.out;
}
";

const A_CREATION: &str = "definitions d {
  type li = inport of integer;
  type lo = outport of li;
}
process idle(start: li) { }
process main(start: main_start) {
  var m: main_message, o: lo;
  receive m from start;
  create o of idle;
}
";

const A_SPENDER: &str = "process main(start: main_start) {
  while true { }
}
";

const FEW: &str = "definitions d {
  type ask = callmessage (in q: string, inout w: string);
  type ask_in = inport of ask;
  type ask_out = outport of ask_in;
}
process drop(start: ask_in) {
  var c: ask;
  receive c from start;
  discard c;
}
process main(start: main_start) {
  var m: main_message, o: ask_out, q: string, w: string;
  receive m from start;
  create o of drop;
  q := \"q\";
  w := \"w\";
  try {
    call o(q, w);
  } on Disconnected {
    send q to m.out;
  }
}
";

const ROW_R10_TWO_FILES_D: &str = "definitions d {
  type ask = callmessage (in q: string, inout w: string);
  type ask_in = inport of ask;
  type ask_out = outport of ask_in;
}
";

const ROW_R10_TWO_FILES_A: &str = "process drop(start: ask_in) {
  var c: ask;
  receive c from start;
  discard c;
}
process main(start: main_start) {
  var m: main_message, o: ask_out, q: string, w: string;
  receive m from start;
  create o of drop;
  q := \"q\";
  w := \"w\";
  try {
    call o(q, w);
  } on Disconnected {
    send q to m.out;
  }
}
";

const NO_MAIN: &str = "";

const USAGE: &str = "usage: hermes check FILE.. | hermes run OPTIONS FILE.. | hermes make N\n";

/// Calls the program with these words over these files, and compares the status and the text.
fn gives(
    rt: &impl Abort,
    alloc: Global,
    files: &[(&str, &str)],
    words: &[&str],
    status: u8,
    text: &str,
) -> Result<(), AllocError> {
    let got = told(alloc, files, words)?;
    assert_eq!(rt; got.0, status);
    assert_eq!(rt; got.1.as_slice(), text.as_bytes());
    Ok(())
}

// Summaries behind the console and the status.
#[test]
fn summaries_are_told(rt: HostRuntime) -> Result<(), Fail> {
    gives(
        &rt,
        rt.alloc(),
        &[("a.hm", A_GREETING)],
        &["run", "--summary", "a.hm"],
        0,
        "hi
summary: processes 1 ended 1 waiting 0 stopped 0
summary: ports 2 open 1
summary: steps 3 actions 3
summary: cells made 6 held 1 queued 1 finalised 4
",
    )?;
    gives(
        &rt,
        rt.alloc(),
        &[("a.hm", A_JOIN)],
        &["run", "--summary", "a.hm"],
        0,
        "summary: processes 1 ended 1 waiting 0 stopped 0
summary: ports 2 open 1
summary: steps 4 actions 2
summary: cells made 6 held 1 queued 0 finalised 5
",
    )?;
    gives(
        &rt,
        rt.alloc(),
        &[("a.hm", A_JOIN)],
        &["run", "--summary", "--steps", "3", "a.hm"],
        8,
        "hermes: process 1 spent 3 steps
summary: processes 1 ended 0 waiting 0 stopped 1
summary: ports 2 open 2
summary: steps 3 actions 1
summary: cells made 6 held 5 queued 0 finalised 1
",
    )?;
    gives(
        &rt,
        rt.alloc(),
        &[("a.hm", PORTS)],
        &["run", "--ports", "3", "--summary", "a.hm"],
        0,
        "full
summary: processes 1 ended 1 waiting 0 stopped 0
summary: ports 4 open 1
summary: steps 6 actions 8
summary: cells made 8 held 1 queued 1 finalised 6
",
    )?;
    gives(
        &rt,
        rt.alloc(),
        &[("a.hm", PORTS)],
        &["run", "--ports", "4", "a.hm"],
        0,
        "",
    )?;
    gives(
        &rt,
        rt.alloc(),
        &[("a.hm", A_KEPT_PARAMETER)],
        &["run", "--workers", "1", "--summary", "a.hm"],
        0,
        "w
summary: processes 2 ended 2 waiting 0 stopped 0
summary: ports 3 open 1
summary: steps 8 actions 9
summary: cells made 11 held 1 queued 1 finalised 9
",
    )?;
    Ok(())
}

// Two senders, and rings by their number of nodes.
#[test]
fn many_messages_are_summed(rt: HostRuntime) -> Result<(), Fail> {
    gives(
        &rt,
        rt.alloc(),
        &[("a.hm", TWO_SENDERS)],
        &["run", "--workers", "1", "--summary", "a.hm"],
        0,
        "100 100
summary: processes 3 ended 3 waiting 0 stopped 0
summary: ports 5 open 1
summary: steps 2425 actions 413
summary: cells made 1223 held 1 queued 1 finalised 1221
",
    )?;
    gives(
        &rt,
        rt.alloc(),
        &[],
        &[
            "run",
            "--workers",
            "1",
            "--make",
            "64",
            "--processes",
            "65",
            "--summary",
        ],
        0,
        "token home
summary: processes 65 ended 65 waiting 0 stopped 0
summary: ports 130 open 1
summary: steps 39621 actions 13316
summary: cells made 7047 held 1 queued 1 finalised 7045
",
    )?;
    gives(
        &rt,
        rt.alloc(),
        &[],
        &["run", "--make", "200", "--processes", "201", "--summary"],
        0,
        "token home
summary: processes 201 ended 201 waiting 0 stopped 0
summary: ports 402 open 1
summary: steps 123805 actions 41604
summary: cells made 22007 held 1 queued 1 finalised 22005
",
    )?;
    gives(
        &rt,
        rt.alloc(),
        &[],
        &["run", "--make", "3", "--summary"],
        0,
        "token home
summary: processes 4 ended 4 waiting 0 stopped 0
summary: ports 8 open 1
summary: steps 1862 actions 628
summary: cells made 337 held 1 queued 1 finalised 335
",
    )?;
    Ok(())
}

// Journals in place of all else.
#[test]
fn journals_are_told(rt: HostRuntime) -> Result<(), Fail> {
    gives(
        &rt,
        rt.alloc(),
        &[("a.hm", A_GREETING)],
        &["run", "--journal", "a.hm"],
        0,
        "journal: 1 1 port 1 take 0 {\"\",>0}
journal: 2 1 port 0 put 0 \"hi\"
journal: 3 1 port 1 close 0
",
    )?;
    gives(
        &rt,
        rt.alloc(),
        &[("a.hm", A_CREATION)],
        &["run", "--journal", "a.hm"],
        0,
        "journal: 1 1 port 1 take 0 {\"\",>0}
journal: 2 1 book process 2 2 0
journal: 3 1 port 1 close 0
journal: 3 2 port 2 close 0
",
    )?;
    Ok(())
}

// Steps and processes.
#[test]
fn limits_are_those_of_the_words(rt: HostRuntime) -> Result<(), Fail> {
    gives(
        &rt,
        rt.alloc(),
        &[("a.hm", A_SPENDER)],
        &["run", "--steps", "1000", "a.hm"],
        8,
        "hermes: process 1 spent 1000 steps
",
    )?;
    gives(
        &rt,
        rt.alloc(),
        &[("a.hm", FEW)],
        &["run", "--processes", "1", "a.hm"],
        6,
        "hermes: main ended by Depletion
",
    )?;
    Ok(())
}

// Words that ask for nothing.
#[test]
fn words_are_refused(rt: HostRuntime) -> Result<(), Fail> {
    gives(&rt, rt.alloc(), &[("a.hm", A_GREETING)], &[], 2, USAGE)?;
    gives(&rt, rt.alloc(), &[("a.hm", A_GREETING)], &["run"], 2, USAGE)?;
    gives(
        &rt,
        rt.alloc(),
        &[("a.hm", A_GREETING)],
        &["run", "--workers", "17", "a.hm"],
        2,
        USAGE,
    )?;
    gives(
        &rt,
        rt.alloc(),
        &[("a.hm", A_GREETING)],
        &["run", "--steps", "0", "a.hm"],
        2,
        USAGE,
    )?;
    gives(
        &rt,
        rt.alloc(),
        &[("a.hm", A_GREETING)],
        &["run", "--journal", "--summary", "a.hm"],
        2,
        USAGE,
    )?;
    gives(
        &rt,
        rt.alloc(),
        &[("a.hm", A_GREETING)],
        &["check", "a.hm", "a.hm"],
        2,
        USAGE,
    )?;
    gives(
        &rt,
        rt.alloc(),
        &[("a.hm", A_GREETING)],
        &["make", "0"],
        2,
        USAGE,
    )?;
    Ok(())
}

// Files that are checked: accepted, in two files, and refused.
#[test]
fn files_are_checked(rt: HostRuntime) -> Result<(), Fail> {
    gives(
        &rt,
        rt.alloc(),
        &[("a.hm", A_GREETING)],
        &["check", "a.hm"],
        0,
        "accepted: processes 1 statements 3
",
    )?;
    gives(
        &rt,
        rt.alloc(),
        &[("a.hm", FEW)],
        &["check", "a.hm"],
        0,
        "accepted: processes 2 statements 9
",
    )?;
    gives(
        &rt,
        rt.alloc(),
        &[("d.hm", ROW_R10_TWO_FILES_D), ("a.hm", ROW_R10_TWO_FILES_A)],
        &["check", "d.hm", "a.hm"],
        0,
        "accepted: processes 2 statements 9
",
    )?;
    gives(
        &rt,
        rt.alloc(),
        &[("a.hm", NO_MAIN)],
        &["check", "a.hm"],
        1,
        "hermes: F19 no main
",
    )?;
    gives(
        &rt,
        rt.alloc(),
        &[("b.hm", A_GREETING)],
        &["run", "a.hm", "b.hm"],
        10,
        "hermes: a.hm: not found
",
    )?;
    Ok(())
}
