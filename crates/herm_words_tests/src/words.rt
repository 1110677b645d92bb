//! Words of refusals, written by hand from the rules.
use crate::program::{Meant, read_program};
use crate::rows::{digit, fact_of, search_of};
use herm_base::StmtNo;
use herm_words::{LostFact, MissingFact, Paths, lost_of, paths_of, sites_of};
use std::alloc::{AllocError, Global};
use std::rc::Rc;
use std::test::Fail;

/// Processes 0 and 1: a call whose arguments come back or not.
const CALLS: &str = "\
definitions d {
  exception Busy;
  type ask = callmessage (in q: string, inout w: string) raises (Busy);
  type ask_in = inport of ask;
  type ask_out = outport of ask_in;
}
process deny(start: ask_in) {
  var c: ask;
  receive c from start;
  discard c.w;
  return c exception Busy;
}
process main(start: main_start) {
  var m: main_message, o: ask_out, q: string, w: string;
  receive m from start;
  create o of deny;
  q := \"q\";
  w := \"w\";
  try {
    call o(q, w);
  } on Busy {
    send w to m.out;
  } on Disconnected {
    send q to m.out;
  }
}
";

/// Process 0: every outcome.
const FORMS: &str = "\
definitions d {
  type leaf = record { low: integer, high: string };
  type branch = record { left: leaf, right: leaf };
  type shade = variant { dark: integer, pale: leaf };
  type v = variant { red: integer, some: branch };
  type row = record { n: integer };
  type rows = table of row key (n);
  type numbers = inport of integer;
  type letters = inport of string;
}
process main(start: main_start) {
  var v: v, u: shade, b: branch, r: row, t: rows, n: numbers, l: letters, i: integer, s: string;
  case v {
    when red { case u { when dark { i := 1; } when pale { i := 2; } } }
    when some { i := 3; }
  }
  if i = 1 { i := 4; } else { i := 5; }
  while i = 1 { i := 6; }
  for r in t { i := 7; }
  select {
    when n receive i { i := 8; }
    when l receive s { case v { when red { i := 9; } when some { i := 1; } } }
  }
  try { reveal v.some; } on CaseError { i := 2; }
}
";

/// Rows of missing facts, and their words.
const CALL_WORDS: [(&str, &str); 7] = [
    (
        "1 4 1o 2o 3o 4o 6e7",
        "needs init(w) by start 1:ok 2:ok 3:ok 4:ok 6:Busy",
    ),
    (
        "1 3 1o 2o 3o 4o 6e6",
        "needs init(q) by start 1:ok 2:ok 3:ok 4:ok 6:Disconnected",
    ),
    ("0 11 1o 2o", "needs init(c.w) by start 1:ok 2:ok"),
    ("0 0", "needs init(start) by start"),
    ("1 10", "needs init(m.arg) by start"),
    ("1 9 0c0 99c1 1c0", "needs init() by start 0: 99: 1:"),
    ("1 49 6e9", "needs init(w.) by start 6:"),
];

const FORM_WORDS: [(&str, &str); 13] = [
    ("0 1 1o", "needs init(v) by start 1:ok"),
    ("0 1=1 1o 3c0", "needs case(v,some) by start 1:ok 3:"),
    ("0 1=1 1c0 2c1", "needs case(v,some) by start 1:red 2:pale"),
    ("0 1=0 1c0 2c0", "needs case(v,red) by start 1:red 2:dark"),
    ("0 2=1 1c1", "needs case(u,pale) by start 1:some"),
    ("0 31 1c1 5o", "needs init(b.right) by start 1:some 5:ok"),
    (
        "0 311 6t 7o",
        "needs init(b.right.high) by start 6:true 7:ok",
    ),
    (
        "0 1101 6f 8o",
        "needs init(v.some.left.high) by start 6:false 8:ok",
    ),
    (
        "0 4 9t 10o 9f",
        "needs init(r) by start 9:true 10:ok 9:false",
    ),
    (
        "0 40 11u 12o 11d",
        "needs init(r.n) by start 11:turn 12:ok 11:done",
    ),
    ("0 8 13a0 14o", "needs init(i) by start 13:1 14:ok"),
    ("0 9 13a1 15c1", "needs init(s) by start 13:2 15:some"),
    (
        "0 3110 19e2 20o",
        "needs init(b.right.high.) by start 19:CaseError 20:ok",
    ),
];

/// Paths that share their beginnings, and parts of their texts.
const SHARED: &str = "0 8 6t 0>6f 1>7o 2>8o 3>9t 3>9f 5>10o 11u 4>9f 9>7o 12d";

/// The words at each visit, in their order, and at the place behind the last.
const SHARED_WORDS: &str = "\
needs init(i) by start
needs init(i) by start 6:true
needs init(i) by start 6:false
needs init(i) by start 6:true 7:ok
needs init(i) by start 6:false 8:ok
needs init(i) by start 6:true 7:ok 9:true
needs init(i) by start 6:true 7:ok 9:false
needs init(i) by start 6:true 7:ok 9:true 10:ok
needs init(i) by start 6:true 7:ok 9:true 10:ok 11:turn
needs init(i) by start 6:false 8:ok 9:false
needs init(i) by start 6:false 8:ok 9:false 7:ok
needs init(i) by start 6:false 8:ok 9:false 7:ok 12:done
needs init(i) by start
";

/// Links that lead from the same visit, or from one behind it: from nowhere.
const ASTRAY: &str = "0 8 9>6t 2>7o 1>8o 4>9t";

const ASTRAY_WORDS: &str = "\
needs init(i) by start
needs init(i) by start 6:true
needs init(i) by start 7:ok
needs init(i) by start 6:true 8:ok
needs init(i) by start 9:true
needs init(i) by start
";

/// Facts that share the paths of `SHARED`, and their words at the visit with this number.
const FACTS_WORDS: [(&str, usize, &str); 4] = [
    ("8", 7, "needs init(i) by start 6:true 7:ok 9:true 10:ok"),
    (
        "2=1",
        7,
        "needs case(u,pale) by start 6:true 7:ok 9:true 10:ok",
    ),
    ("31", 2, "needs init(b.right) by start 6:false"),
    ("1=0", 0, "needs case(v,red) by start"),
];

/// What is told of a fact and of a search.
#[derive(Drop)]
struct Told {
    lost: Rc<LostFact>,
    paths: Rc<Paths>,
}

/// The number of a row's process.
fn process_of(row: &str) -> usize {
    match row.as_bytes().first() {
        Some(byte) => digit(*byte) as usize,
        None => 0,
    }
}

/// What is told of a row; none where there is no process of its number.
fn told_of_row(alloc: Global, meant: &Meant, row: &str) -> Result<Option<Told>, AllocError> {
    let Some(process) = meant.program.processes.as_slice().get(process_of(row)) else {
        return Ok(None);
    };
    let sites = sites_of(alloc, process)?;
    let (fact, search) = search_of(alloc, row)?;
    let lost = lost_of(alloc, &meant.types, process, fact)?;
    let paths = paths_of(alloc, &meant.types, sites.as_slice(), search)?;
    Ok(Some(Told {
        lost: Rc::new(alloc, lost)?,
        paths: Rc::new(alloc, paths)?,
    }))
}

/// The words of a refusal at a place.
fn words_at(alloc: Global, told: &Told, place: usize) -> Result<String, AllocError> {
    let missing = MissingFact {
        stmt: StmtNo(0),
        lost: told.lost.clone()?,
        paths: told.paths.clone()?,
        place,
    };
    let mut text = String::new(alloc);
    for byte in missing.words(alloc)?.bytes() {
        text.push(*byte as char)?;
    }
    Ok(text)
}

/// The words of a refusal on the whole path of a row.
fn said(alloc: Global, meant: &Meant, row: &str) -> Result<String, AllocError> {
    let Some(told) = told_of_row(alloc, meant, row)? else {
        return String::from_str(alloc, "no process");
    };
    let hops = told.paths.visits.len().saturating_sub(1);
    words_at(alloc, &told, hops)
}

/// The words at each place of a row, and at the place behind the last, each in a line.
fn said_at_each(alloc: Global, meant: &Meant, row: &str) -> Result<String, AllocError> {
    let Some(told) = told_of_row(alloc, meant, row)? else {
        return String::from_str(alloc, "no process");
    };
    let mut text = String::new(alloc);
    for place in 0..=told.paths.visits.len() {
        text.push_str(words_at(alloc, &told, place)?.as_str())?;
        text.push('\n')?;
    }
    Ok(text)
}

#[test]
fn calls_name_their_exceptions(rt: HostRuntime) -> Result<(), Fail> {
    let alloc = rt.alloc();
    let Some(meant) = read_program(alloc, CALLS)? else {
        assert!(rt; false, "no program");
        return Ok(());
    };
    for (row, want) in CALL_WORDS {
        let said = said(alloc, &meant, row)?;
        assert_eq!(rt; said.as_str(), want, "{row}");
    }
    Ok(())
}

#[test]
fn outcomes_have_their_names(rt: HostRuntime) -> Result<(), Fail> {
    let alloc = rt.alloc();
    let Some(meant) = read_program(alloc, FORMS)? else {
        assert!(rt; false, "no program");
        return Ok(());
    };
    for (row, want) in FORM_WORDS {
        let said = said(alloc, &meant, row)?;
        assert_eq!(rt; said.as_str(), want, "{row}");
    }
    Ok(())
}

#[test]
fn paths_share_their_texts(rt: HostRuntime) -> Result<(), Fail> {
    let alloc = rt.alloc();
    let Some(meant) = read_program(alloc, FORMS)? else {
        assert!(rt; false, "no program");
        return Ok(());
    };
    for (row, wants) in [(SHARED, SHARED_WORDS), (ASTRAY, ASTRAY_WORDS)] {
        let said = said_at_each(alloc, &meant, row)?;
        assert_eq!(rt; said.as_str(), wants, "{row}");
    }
    Ok(())
}

#[test]
fn facts_share_a_search(rt: HostRuntime) -> Result<(), Fail> {
    let alloc = rt.alloc();
    let Some(meant) = read_program(alloc, FORMS)? else {
        assert!(rt; false, "no program");
        return Ok(());
    };
    let Some(process) = meant.program.processes.as_slice().first() else {
        assert!(rt; false, "no process");
        return Ok(());
    };
    let sites = sites_of(alloc, process)?;
    let (_, search) = search_of(alloc, SHARED)?;
    let paths = Rc::new(
        alloc,
        paths_of(alloc, &meant.types, sites.as_slice(), search)?,
    )?;
    for (fact, place, want) in FACTS_WORDS {
        let lost = lost_of(
            alloc,
            &meant.types,
            process,
            fact_of(alloc, fact.as_bytes())?,
        )?;
        let told = Told {
            lost: Rc::new(alloc, lost)?,
            paths: paths.clone()?,
        };
        let said = words_at(alloc, &told, place)?;
        assert_eq!(rt; said.as_str(), want, "{fact}");
    }
    Ok(())
}

/// The first word of each statement at its place, by number.
const FIRST_WORDS: &str = "receive create q w try call send send ";

#[test]
fn sites_are_places_of_statements(rt: HostRuntime) -> Result<(), Fail> {
    let alloc = rt.alloc();
    let Some(meant) = read_program(alloc, CALLS)? else {
        assert!(rt; false, "no program");
        return Ok(());
    };
    let Some(process) = meant.program.processes.as_slice().get(1) else {
        assert!(rt; false, "no process");
        return Ok(());
    };
    let mut text = String::new(alloc);
    for site in sites_of(alloc, process)? {
        let bytes = CALLS.as_bytes();
        for byte in bytes.iter().skip(site.span.start as usize) {
            text.push(*byte as char)?;
            if *byte == b' ' {
                break;
            }
        }
    }
    assert_eq!(rt; text.as_str(), FIRST_WORDS);
    Ok(())
}
