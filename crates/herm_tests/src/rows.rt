//! Programs of the whole language: what they write, and with which status they end.
use crate::call::{call, plain};
use herm_ring::ring_text;
use std::alloc::{AllocError, Global};
use std::process::Abort;
use std::test::Fail;

const EMPTY: &str = "process main(start: main_start) { }
";

const A_BRANCH: &str = "process main(start: main_start) {
  var m: main_message, x: string;
  receive m from start;
  if m.arg = \"\" {
    x := \"a\";
  }
  discard m;
}
";

const A_DUPLICATE: &str = "definitions d {
  type row = record { k: integer };
  type rows = table of row key (k);
}
process main(start: main_start) {
  var m: main_message, r: row, t: rows, s: string;
  receive m from start;
  new t;
  new r;
  r.k := 1;
  try {
    insert r into t;
    new r;
    r.k := 1;
    insert r into t;
  } on DuplicateKey {
    s := text(r.k);
    send s to m.out;
  }
}
";

const A_LOOP_LEFT_EARLY: &str = "definitions d {
  type row = record { k: integer };
  type rows = table of row key (k);
}
process main(start: main_start) {
  var m: main_message, r: row, t: rows, s: string;
  receive m from start;
  new t;
  new r;
  r.k := 1;
  insert r into t; new r; r.k := 2; insert r into t;
  for r in t { s := text(r.k); send s to m.out; leave; }
}
";

const A_CALL_DROPPED: &str = "definitions d {
  type ask = callmessage (in q: string, inout w: string);
  type ask_in = inport of ask;
  type ask_out = outport of ask_in;
}
process drop(start: ask_in) {
  var c: ask;
  receive c from start;
  discard c;
}
process main(start: main_start) {
  var m: main_message, o: ask_out, q: string, w: string;
  receive m from start;
  create o of drop;
  q := \"q\";
  w := \"w\";
  try {
    call o(q, w);
  } on Disconnected {
    send q to m.out;
  }
}
";

const A_CALL_NEVER_TAKEN: &str = "definitions d {
  type ask = callmessage (in q: string, inout w: string);
  type ask_in = inport of ask;
  type ask_out = outport of ask_in;
}
process drop(start: ask_in) { }
process main(start: main_start) {
  var m: main_message, o: ask_out, q: string, w: string;
  receive m from start;
  create o of drop;
  q := \"q\";
  w := \"w\";
  try {
    call o(q, w);
  } on Disconnected {
    send q to m.out;
  }
}
";

const A_CALL_ANSWERED: &str = "definitions d {
  type ask = callmessage (in q: string, inout w: string);
  type ask_in = inport of ask;
  type ask_out = outport of ask_in;
}
process drop(start: ask_in) {
  var c: ask;
  receive c from start;
  return c;
}
process main(start: main_start) {
  var m: main_message, o: ask_out, q: string, w: string;
  receive m from start;
  create o of drop;
  q := \"q\";
  w := \"w\";
  try {
    call o(q, w);
send w to m.out;
  } on Disconnected {
    send q to m.out;
  }
}
";

const AN_ARGUMENT_GONE: &str = "definitions d {
  type ask = callmessage (in q: string, inout w: string);
  type ask_in = inport of ask;
  type ask_out = outport of ask_in;
}
process drop(start: ask_in) {
  var c: ask;
  receive c from start;
  discard c;
}
process main(start: main_start) {
  var m: main_message, o: ask_out, q: string, w: string;
  receive m from start;
  create o of drop;
  q := \"q\";
  w := \"w\";
  try {
    call o(q, w);
  } on Disconnected {
    send w to m.out;
  }
}
";

const TWO_PATHS: &str = "definitions d {
  type r = record { a: integer, b: integer };
}
process main(start: main_start) {
  var m: main_message, x: r, k: integer;
  receive m from start;
  new x;
  x.a := 1;
  x.b := 1;
  k := 1;
  if k < 2 {
    discard x.a;
  }
  if k < 3 {
    discard x.b;
  }
  k := x.a + x.b;
  k := x.b + x.a;
}
";

const TWO_PATHS_SAID: &str =
    "a.hm:17:3: F13 needs init(x.a) by start 1:ok 2:ok 3:ok 4:ok 5:ok 6:true 7:ok 8:false
a.hm:17:3: F13 needs init(x.b) by start 1:ok 2:ok 3:ok 4:ok 5:ok 6:false 8:true 9:ok
a.hm:18:3: F13 needs init(x.b) by start 1:ok 2:ok 3:ok 4:ok 5:ok 6:false 8:true 9:ok 10:ok
a.hm:18:3: F13 needs init(x.a) by start 1:ok 2:ok 3:ok 4:ok 5:ok 6:true 7:ok 8:false 10:ok
";

const A_CASE_UNKNOWN: &str = "definitions d {
  type v = variant { a: integer, b: string };
}
process main(start: main_start) {
  var x: v, z: v, y: integer;
  y := 7;
  unite x.a from y;
  move x to z;
  dissolve z.a into y;
}
";

const A_CASE_REVEALED: &str = "definitions d {
  type v = variant { a: integer, b: string };
}
process main(start: main_start) {
  var x: v, z: v, y: integer;
  y := 7;
  unite x.a from y;
  move x to z;
  reveal z.a;
  dissolve z.a into y;
}
";

const WRAPPED_TOO_DEEP: &str = "process main(start: main_start) {
  var m: main_message, p: polymorph, q: polymorph, n: integer, s: string;
  receive m from start;
  n := 0;
  wrap n as p;
  n := 1;
  try {
    while true {
      wrap p as q;
      move q to p;
      n := n + 1;
    }
  } on Depletion {
    s := text(n);
    send s to m.out;
  }
}
";

const A_PORT_IN_ITS_QUEUE: &str = "definitions d {
  type loop_in = inport of polymorph;
  type loop_out = outport of loop_in;
}
process main(start: main_start) {
  var i: loop_in, o: loop_out, p: polymorph;
  new i;
  connect o to i;
  wrap i as p;
  send p to o;
}
";

const PORTS_IN_POLYMORPHS: &str = "definitions d {
  type li = inport of integer;
  type lo = outport of li;
  type pi = inport of polymorph;
  type po = outport of pi;
}
process main(start: main_start) {
  var a: pi, ao: po, b: li, bo: lo, n: integer, p: polymorph;
  new a; connect ao to a;
  new b; connect bo to b;
  n := 1; send n to bo;
  n := 2; send n to bo;
  n := 3; wrap n as p; send p to ao;
  wrap b as p; send p to ao;
  n := 4; wrap n as p; send p to ao;
  discard a;
}
";

const SENDERS: &str = "definitions d {
  type item = record { who: integer, n: integer };
  type item_in = inport of item;
  type item_out = outport of item_in;
  type job = record { who: integer, dest: item_out };
  type job_in = inport of job;
  type job_out = outport of job_in;
}
process sender(start: job_in) {
  var j: job, x: item, k: integer;
  receive j from start;
  k := 1;
  while k <= 100 {
    new x;
    x.who := j.who;
    x.n := k;
    send x to j.dest;
    k := k + 1;
  }
}
process main(start: main_start) {
  var m: main_message, i: item_in, o: item_out, p: job_out, j: job,
    x: item, a: integer, b: integer, k: integer, s: string;
  receive m from start;
  new i;
  connect o to i;
  create p of sender;
  new j; j.who := 1; j.dest := o; send j to p;
  create p of sender;
  new j; j.who := 2; j.dest := o; send j to p;
  a := 0; b := 0; k := 0;
  while k < 200 {
    receive x from i;
    if x.who = 1 {
      if x.n = a + 1 { a := x.n; }
    } else {
      if x.n = b + 1 { b := x.n; }
    }
    k := k + 1;
  }
  s := text(a) & \" \" & text(b);
  send s to m.out;
}
";

const CALLS_IN_A_CIRCLE: &str = "definitions d {
  type ask = callmessage (inout w: string);
  type ask_in = inport of ask;
  type ask_out = outport of ask_in;
  type boot = record { mine: ask_in, peer: ask_out };
  type boot_in = inport of boot;
  type boot_out = outport of boot_in;
}
process peer(start: boot_in) {
  var b: boot, w: string;
  receive b from start;
  w := \"b\";
  call b.peer(w);
}
process main(start: main_start) {
  var i: ask_in, b: boot, o: ask_out, p: boot_out, w: string;
  new b; new i;
  connect b.peer to i;
  new b.mine;
  connect o to b.mine;
  create p of peer;
  send b to p;
  w := \"a\";
  call o(w);
}
";

const A_SELECT_THAT_WAITS: &str = "definitions d {
  type li = inport of integer;
}
process main(start: main_start) {
  var a: li, b: li, n: integer;
  new a; new b; select { when b receive n { } when a receive n { } }
}
";

const A_LOOP_WITHOUT_END: &str = "process main(start: main_start) {
  while true { }
}
";

const AN_OVERFLOW: &str = "process main(start: main_start) {
  var n: integer;
  n := 9223372036854775807; n := n + 1;
}
";

const TWO_RECEIVES: &str = "process main(start: main_start) {
  var m: main_message;
  receive m from start; receive m from start;
}
";

const A_KEPT_PARAMETER: &str = "definitions d {
  exception Busy;
  type ask = callmessage (in q: string, inout w: string) raises (Busy {full(w)});
  type ask_in = inport of ask;
  type ask_out = outport of ask_in;
}
process deny(start: ask_in) {
  var c: ask;
  receive c from start;
  return c exception Busy;
}
process main(start: main_start) {
  var m: main_message, o: ask_out, q: string, w: string;
  receive m from start;
  create o of deny;
  q := \"q\";
  w := \"w\";
  try {
    call o(q, w);
  } on Busy {
    send w to m.out;
  } on Disconnected {
    send q to m.out;
  }
}
";

const A_DENIED_CALL: &str = "definitions d {
  exception Busy;
  type ask = callmessage (in q: string, inout w: string) raises (Busy {full(w)});
  type ask_in = inport of ask;
  type ask_out = outport of ask_in;
}
process deny(start: ask_in) {
  var c: ask;
  receive c from start;
  discard c;
}
process main(start: main_start) {
  var m: main_message, o: ask_out, q: string, w: string;
  receive m from start;
  create o of deny;
  q := \"q\";
  w := \"w\";
  try {
    call o(q, w);
  } on Busy {
    send w to m.out;
  } on Disconnected {
    send q to m.out;
  }
}
";

const THE_LONGEST_STRING: &str = "process main(start: main_start) {
  var m: main_message, s: string;
  receive m from start;
  s := \"a\";
  try { while true { s := s & s; } } on Depletion { s := text(length(s)); send s to m.out; }
}
";

const THE_LARGEST_TABLE: &str = "definitions d {
  type row = record { k: integer };
  type rows = table of row key (k);
}
process main(start: main_start) {
  var m: main_message, r: row, t: rows, s: string, n: integer;
  receive m from start;
  new t;
  n := 0;
  try {
    while true {
      new r;
      r.k := n;
      insert r into t;
      n := n + 1;
    }
  } on Depletion {
    s := text(size(t));
    send s to m.out;
  }
}
";

/// Runs a file and compares the status and the text.
fn gives(
    rt: &impl Abort,
    alloc: Global,
    bytes: &[u8],
    status: u8,
    text: &[u8],
) -> Result<(), AllocError> {
    let files: [(&str, &[u8]); 1] = [("a.hm", bytes)];
    let got = call(alloc, &["run", "a.hm"], &plain(&files))?;
    assert_eq!(rt; got.0.status, status);
    assert_eq!(rt; got.1.as_slice(), text);
    assert_eq!(rt; got.0.report.is_some(), status != 1);
    Ok(())
}

#[test]
fn programs_end_normally(rt: HostRuntime) -> Result<(), Fail> {
    let rows: [(&str, u8, &str); 6] = [
        (EMPTY, 0, ""),
        (A_BRANCH, 0, ""),
        (A_DUPLICATE, 0, "1\n"),
        (A_LOOP_LEFT_EARLY, 0, "1\n"),
        (A_CASE_REVEALED, 0, ""),
        (WRAPPED_TOO_DEEP, 0, "16\n"),
    ];
    for (program, status, text) in rows {
        gives(&rt, rt.alloc(), program.as_bytes(), status, text.as_bytes())?;
    }
    Ok(())
}

#[test]
fn calls_are_answered(rt: HostRuntime) -> Result<(), Fail> {
    let rows: [(&str, u8, &str); 5] = [
        (A_CALL_DROPPED, 0, "q\n"),
        (A_CALL_NEVER_TAKEN, 0, "q\n"),
        (A_CALL_ANSWERED, 0, "w\n"),
        (A_KEPT_PARAMETER, 0, "w\n"),
        (A_DENIED_CALL, 0, "q\n"),
    ];
    for (program, status, text) in rows {
        gives(&rt, rt.alloc(), program.as_bytes(), status, text.as_bytes())?;
    }
    Ok(())
}

#[test]
fn ports_go_with_messages(rt: HostRuntime) -> Result<(), Fail> {
    let rows: [(&str, u8, &str); 3] = [
        (A_PORT_IN_ITS_QUEUE, 0, ""),
        (PORTS_IN_POLYMORPHS, 0, ""),
        (SENDERS, 0, "100 100\n"),
    ];
    for (program, status, text) in rows {
        gives(&rt, rt.alloc(), program.as_bytes(), status, text.as_bytes())?;
    }
    Ok(())
}

#[test]
fn programs_wait_or_are_stopped(rt: HostRuntime) -> Result<(), Fail> {
    let rows: [(&str, u8, &str); 5] = [
        (
            CALLS_IN_A_CIRCLE,
            7,
            "hermes: process 1 waits for a reply\n",
        ),
        (
            A_SELECT_THAT_WAITS,
            7,
            "hermes: process 1 waits on port 3 2\n",
        ),
        (TWO_RECEIVES, 7, "hermes: process 1 waits on port 1\n"),
        (
            A_LOOP_WITHOUT_END,
            8,
            "hermes: process 1 spent 100000 steps\n",
        ),
        (AN_OVERFLOW, 6, "hermes: main ended by Overflow\n"),
    ];
    for (program, status, text) in rows {
        gives(&rt, rt.alloc(), program.as_bytes(), status, text.as_bytes())?;
    }
    Ok(())
}

#[test]
fn facts_are_missing(rt: HostRuntime) -> Result<(), Fail> {
    let rows: [(&str, u8, &str); 3] = [
        (TWO_PATHS, 1, TWO_PATHS_SAID),
        (
            AN_ARGUMENT_GONE,
            1,
            "a.hm:20:5: F13 needs init(w) by start 1:ok 2:ok 3:ok 4:ok 6:Disconnected\n",
        ),
        (
            A_CASE_UNKNOWN,
            1,
            "a.hm:9:3: F13 needs case(z,a) by start 1:ok 2:ok 3:ok\n",
        ),
    ];
    for (program, status, text) in rows {
        gives(&rt, rt.alloc(), program.as_bytes(), status, text.as_bytes())?;
    }
    Ok(())
}

#[test]
fn limits_of_values_are_met(rt: HostRuntime) -> Result<(), Fail> {
    let rows: [(&str, u8, &str); 2] = [
        (THE_LONGEST_STRING, 0, "4096\n"),
        (THE_LARGEST_TABLE, 0, "4096\n"),
    ];
    for (program, status, text) in rows {
        gives(&rt, rt.alloc(), program.as_bytes(), status, text.as_bytes())?;
    }
    Ok(())
}

#[test]
fn a_ring_of_sixty_three_comes_home(rt: HostRuntime) -> Result<(), Fail> {
    let text = ring_text(rt.alloc(), 63)?;
    gives(&rt, rt.alloc(), &text, 0, b"token home\n")?;
    Ok(())
}

#[test]
fn a_ring_of_sixty_four_is_one_process_too_many(rt: HostRuntime) -> Result<(), Fail> {
    let text = ring_text(rt.alloc(), 64)?;
    gives(
        &rt,
        rt.alloc(),
        &text,
        6,
        b"hermes: main ended by Depletion\n",
    )?;
    Ok(())
}
