//! Flows by hand, from the rules of the language reference ("Control", "Exceptions", "The statement table").
use crate::answer::{Asked, line_for};
use std::test::Fail;

/// Blocks and loops: statements, and their flow.
const BLOCKS: [(&str, &str); 11] = [
    ("i := 1;", "1/0 o>."),
    (
        "while b { if b { leave; } i := 1; } j := 1;",
        "1/1 t>1 f>4; 2/1 t>2 f>3; 3/0 o>4; 4/0 o>0; 5/0 o>.",
    ),
    ("if b { i := 1; } j := 1;", "1/1 t>1 f>2; 2/0 o>2; 3/0 o>."),
    (
        "if b { i := 1; } else { j := 1; }",
        "1/1 t>1 f>2; 2/0 o>.; 3/0 o>.",
    ),
    (
        "while b { } if b { } else { } i := 1;",
        "1/1 t>0 f>1; 2/1 t>2 f>2; 3/0 o>.",
    ),
    (
        "while b { while b { leave; } }",
        "1/1 t>1 f>.; 2/1 t>2 f>0; 3/0 o>0",
    ),
    (
        "case v { when a { i := 1; } when b { } } j := 1;",
        "1/1 c0>1 c1>2; 2/0 o>2; 3/0 o>.",
    ),
    (
        "case v { when b { i := 1; j := 1; } when a { i := 2; } }",
        "1/1 c1>1 c0>3; 2/0 o>2; 3/0 o>.; 4/0 o>.",
    ),
    (
        "select { when li receive i { j := 1; } when ai receive q { } } i := 1;",
        "1/2 a0>1 a1>2; 2/0 o>2; 3/0 o>.",
    ),
    (
        "for r in x { if b { leave; } } i := 1;",
        "1/1 u>1 d>3; 2/1 t>2 f>0; 3/0 o>3; 4/0 o>.",
    ),
    ("", ""),
];

/// Exceptions and handlers: statements, and their flow.
const EXCEPTIONS: [(&str, &str); 10] = [
    ("i := i + 1;", "1/1 o>. :0>!0"),
    ("try { } on e { } i := 1;", "2/0 o>."),
    (
        "try { i := i + 1; } on Overflow { } j := 1;",
        "2/1 o>1 :0>1; 3/0 o>.",
    ),
    ("try { raise e; } on e { raise e; }", "2/0 :7>1; 3/0 :7>!7"),
    (
        "try { try { i := i + 1; raise e; } on e { raise Overflow; } } on Overflow { j := 1; } t := \"a\";",
        "3/1 o>1 :0>3; 4/0 :7>2; 5/0 :0>3; 6/0 o>4; 7/0 o>.",
    ),
    (
        "try { try { i := i + 1; } on Overflow { i := i * 2; } } on Overflow { j := 1; }",
        "3/1 o>. :0>1; 4/1 o>. :0>2; 5/0 o>.",
    ),
    (
        "try { i := i + 1; } on Overflow { j := 1; } try { j := j + 1; } on Overflow { } s := \"a\";",
        "2/1 o>2 :0>1; 3/0 o>2; 5/1 o>3 :0>3; 6/0 o>.",
    ),
    (
        "while b { try { raise e; } on e { leave; } } i := 1;",
        "1/1 t>1 f>3; 3/0 :7>2; 4/0 o>3; 5/0 o>.",
    ),
    (
        "try { call ao(s, t, i); } on Disconnected { i := 1; } on e { i := 2; }",
        "2/3 o>. :6>1 :7>2; 3/0 o>.; 4/0 o>.",
    ),
    (
        "while b { try { i := i + 1; } on Overflow { j := 1; } }",
        "1/1 t>1 f>.; 3/1 o>0 :0>2; 4/0 o>0",
    ),
];

/// Without edges to ends: statements, and their flow.
const ONWARD: [(&str, &str); 16] = [
    ("i := i + 1;", "1/1"),
    (
        "try { call ao(s, t, i); } on e { i := 1; } j := 1;",
        "2/3 o>2 :7>1; 3/0 o>2; 4/0",
    ),
    (
        "try { call ao(s, t, i); } on e { i := 1; } on Disconnected { i := 2; } j := 1;",
        "2/3 o>3 :6>2 :7>1; 3/0 o>3; 4/0 o>3; 5/0",
    ),
    (
        "while b { try { try { call ao(s, t, i); } on e { i := 1; } } on Disconnected { } }",
        "1/1 t>1; 4/3 o>0 :6>0 :7>2; 5/0 o>0",
    ),
    (
        "try { call mo(i, j); } on e { } on f { } on g { } on h { } on Disconnected { } b := true;",
        "2/1 o>1 :6>1; 3/0",
    ),
    (
        "try { call mo(i, j); } on e { } on f { } on g { } on h { } b := true;",
        "2/1 o>1 :7>1 :9>1; 3/0",
    ),
    (
        "try { call ro(i, j); } on e { } on f { } on g { } b := true;",
        "2/1 o>1 :7>1 :8>1; 3/0",
    ),
    (
        "try { call ro(u.m, u.n); } on e { } on f { } on g { } b := true;",
        "2/2 o>1 :7>1 :8>1 :9>1; 3/0",
    ),
    (
        "try { call mo(u.m, u.n); } on e { } on f { } on g { } on h { } b := true;",
        "2/2 o>1 :7>1 :9>1; 3/0",
    ),
    (
        "try { call so(z.a, z.b, z.c); } on e { } on f { } on g { } on h { } b := true;",
        "2/2 o>1 :7>1 :8>1 :9>1; 3/0",
    ),
    (
        "try { call go(\"a\", i, j); } on e { } on f { } on g { } b := true;",
        "2/1 o>1 :7>1 :8>1; 3/0",
    ),
    (
        "try { call wo(u, u.m, u.n); } on e { } on f { } on g { } on h { } b := true;",
        "2/4 o>1 :7>1 :9>1; 3/0",
    ),
    (
        "try { call mo(i, j); } on e { i := 1; } on f { } on g { j := 1; } on h { i := 2; } b := true;",
        "2/1 o>4 :7>1 :8>4 :9>2 :10>3; 3/0 o>4; 4/0 o>4; 5/0 o>4; 6/0",
    ),
    (
        "try { call mo(i, j); } on h { } on g { i := 1; } on e { } b := true;",
        "2/1 o>2 :7>2 :9>1; 3/0 o>2; 4/0",
    ),
    (
        "select { when li receive i { } when lj receive i { } } b := true;",
        "1/2 a0>1; 2/0",
    ),
    (
        "select { when li receive i { } when lj receive j { } } b := true;",
        "1/2 a0>1 a1>1; 2/0",
    ),
];

#[test]
fn control_goes_through_blocks_and_loops(rt: HostRuntime) -> Result<(), Fail> {
    for (statements, flow) in BLOCKS {
        let found = line_for(rt.alloc(), statements, Asked::Whole)?;
        assert_eq!(rt; found.as_str(), flow, "{statements}");
    }
    Ok(())
}

#[test]
fn exceptions_lead_to_the_nearest_handlers(rt: HostRuntime) -> Result<(), Fail> {
    for (statements, flow) in EXCEPTIONS {
        let found = line_for(rt.alloc(), statements, Asked::Whole)?;
        assert_eq!(rt; found.as_str(), flow, "{statements}");
    }
    Ok(())
}

#[test]
fn edges_to_ends_and_repeats_are_left_out(rt: HostRuntime) -> Result<(), Fail> {
    for (statements, flow) in ONWARD {
        let found = line_for(rt.alloc(), statements, Asked::Onward)?;
        assert_eq!(rt; found.as_str(), flow, "{statements}");
    }
    Ok(())
}
