//! Programs of any forms, and the refusals of all phases, compiled and checked.
use crate::answers::{check_answer_to, image_answer_to};
use std::test::Fail;

const TYPES: &[u8] = b"definitions d { type ask = callmessage (in q: string, inout w: string); \
type ask_in = inport of ask; type ask_out = outport of ask_in; }";

const SERVICE: &[u8] =
    b"process drop(start: ask_in) { var c: ask; receive c from start; discard c; }";

const CLIENT: &[u8] =
    b"process main(start: main_start) { var m: main_message, o: ask_out, q: string, w: string; \
receive m from start; create o of drop; q := \"q\"; w := \"w\"; \
try { call o(q, w); } on Disconnected { send q to m.out; } }";

const ENDLESS: &[u8] = b"process main(start: main_start) { while true { } }";

#[test]
fn programs_of_any_forms_have_images(rt: HostRuntime) -> Result<(), Fail> {
    let cases: [(&[&[u8]], &str); 4] = [
        (&[TYPES, SERVICE, CLIENT], "drop 6|main 22|"),
        (&[CLIENT, SERVICE, TYPES], "main 22|drop 6|"),
        (&[ENDLESS], "main 6|"),
        (&[b"process main(start: main_start) { }"], "main 1|"),
    ];
    for (contents, expected) in cases {
        let found = image_answer_to(rt.alloc(), contents)?;
        assert_eq!(rt; found.as_str(), expected);
    }
    Ok(())
}

#[test]
fn programs_of_any_forms_are_checked(rt: HostRuntime) -> Result<(), Fail> {
    let cases: [(&[&[u8]], &str); 3] = [
        (&[TYPES, SERVICE, CLIENT], "main 1|drop|main|"),
        (&[CLIENT, SERVICE, TYPES], "main 0|main|drop|"),
        (&[ENDLESS], "main 0|main|"),
    ];
    for (contents, expected) in cases {
        let found = check_answer_to(rt.alloc(), contents)?;
        assert_eq!(rt; found.as_str(), expected);
    }
    Ok(())
}

#[test]
fn each_phase_refuses_its_faults(rt: HostRuntime) -> Result<(), Fail> {
    let cases: [(&[&[u8]], &str); 7] = [
        (&[], "0/0:0: F19 no main|"),
        (&[b"12a", TYPES, b"}"], "0/1:1: F2 token|2/1:1: F4 syntax|"),
        (
            &[TYPES, TYPES, ENDLESS],
            "1/1:22: F7 twice|1/1:78: F7 twice|1/1:107: F7 twice|",
        ),
        (
            &[
                b"definitions e { type r = record {k: b}; }",
                b"process p(s: b) { }",
            ],
            "0/1:37: F6 unknown|",
        ),
        (&[SERVICE, TYPES], "0/0:0: F19 no main|"),
        (
            &[
                ENDLESS,
                TYPES,
                b"process p(s: ask_in) { var c: ask; discard c; }",
            ],
            "2/1:36: F13 needs init(c) by start (1 init 1 0:)|",
        ),
        (
            &[
                b"process p(s: ask_in) { var c: ask; discard c;\n discard c; }",
                TYPES,
                SERVICE,
                ENDLESS,
                b"process q(s: ask_in) { var c: ask;\n discard c; }",
            ],
            "0/1:36: F13 needs init(c) by start (1 init 1 0:)|0/2:2: F13 needs init(c) by start 1:ok (2 init 1 0: 1)|4/2:2: F13 needs init(c) by start (1 init 1 0:)|",
        ),
    ];
    for (contents, expected) in cases {
        let found = image_answer_to(rt.alloc(), contents)?;
        assert_eq!(rt; found.as_str(), expected);
        let checked = check_answer_to(rt.alloc(), contents)?;
        assert_eq!(rt; checked.as_str(), expected);
    }
    Ok(())
}
