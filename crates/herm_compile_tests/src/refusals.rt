//! The refusals of all phases with their places, and the limits of tokens and of a process.
use crate::answers::{image_answer, image_answer_to};
use std::alloc::{AllocError, Global};
use std::test::Fail;

#[test]
fn refusals_have_their_places_and_paths(rt: HostRuntime) -> Result<(), Fail> {
    let head =
        "process main(start: main_start) {\n  var m: main_message, s: string;\n  receive m from start;\n";
    let cases = [
        ("  s := \"hi\";\n  send s to m.out;\n}\n", "main 10|"),
        (
            "  send s to m.out;\n}\n",
            "0/4:3: F13 needs init(s) by start 1:ok (2 init 2 0: 1)|",
        ),
        (
            "  s := \"hi\";\n  send s to m.out;\n  send s to m.out;\n}\n",
            "0/6:3: F13 needs init(s) by start 1:ok 2:ok 3:ok (4 init 2 0: 1 2 3)|",
        ),
        ("}", "main 4|"),
        (
            "discard s;\r\n\t s := \"~ !\"; discard s; \n\n\t discard s; }",
            "0/4:1: F13 needs init(s) by start 1:ok (2 init 2 0: 1)|0/7:3: F13 needs init(s) by start 1:ok 2:ok 3:ok 4:ok (5 init 2 0: 1 2 3 4)|",
        ),
        ("s := \"a\\n\\\"\\\\\";\n}", "main 7|"),
        ("-- hello\n}", "main 4|"),
        ("s := \"a\" -- \"\n;-- }\n}--", "main 7|"),
        ("s := \"a\\t\";\n}", "0/4:6: F2 token|"),
        ("s : = \"a\";\n}", "0/4:3: F4 syntax|"),
        ("t := \"a\";\n}", "0/4:1: F14 unknown|"),
        ("receive m from start;\n}", "main 6|"),
        ("} }", "0/4:3: F4 syntax|"),
        ("send s to m.outport;\n}", "0/4:1: F14 unknown|"),
        ("s := 7;\n}", "0/4:1: F16 type|"),
        ("", "0/3:24: F4 syntax|"),
        ("-- behind the last token", "0/3:24: F4 syntax|"),
    ];
    for (body, expected) in cases {
        let mut file = String::from_str(rt.alloc(), head)?;
        file.push_str(body)?;
        let found = image_answer(rt.alloc(), file.as_bytes())?;
        assert_eq!(rt; found.as_str(), expected);
    }
    Ok(())
}

#[test]
fn names_that_are_taken_are_refused(rt: HostRuntime) -> Result<(), Fail> {
    let cases = [
        ("s: string, t: string", "main 7|"),
        ("s: string, s: string", "0/1:67: F15 twice|"),
        ("s: string, t: string, s: string", "0/1:78: F15 twice|"),
        ("m: string, s: string", "0/1:56: F15 twice|"),
        ("s: string, start: string", "0/1:67: F15 twice|"),
    ];
    for (declared, expected) in cases {
        let file = format!(in rt.alloc();
            "process main(start: main_start) {{ var m: main_message, {declared}; receive m from start; s := \"a\"; }}"
        )?;
        let found = image_answer(rt.alloc(), file.as_bytes())?;
        assert_eq!(rt; found.as_str(), expected, "{declared}");
    }
    Ok(())
}

#[test]
fn definitions_are_refused_over_all_files(rt: HostRuntime) -> Result<(), Fail> {
    let right: &[u8] = b"definitions d { type a = enum {x}; }";
    let cases: [(&[u8], &[u8], &str); 6] = [
        (right, b"", "0/0:0: F19 no main|"),
        (right, right, "1/1:22: F7 twice|"),
        (
            b"definitions d { type r = record {k: a}; }",
            right,
            "0/0:0: F19 no main|",
        ),
        (
            b"process p(s: a) { }",
            b"definitions d { type r =\n record {k: b}; }",
            "1/2:13: F6 unknown|",
        ),
        (
            b"definitions d { type r = record {k: b}; }",
            b"x",
            "1/1:1: F4 syntax|",
        ),
        (
            b"definitions d { type r = outport of integer; }",
            b"definitions d { exception Busy; exception Busy; }",
            "0/1:37: F11 bad state|1/1:43: F7 twice|",
        ),
    ];
    for (first, second, expected) in cases {
        let found = image_answer_to(rt.alloc(), &[first, second])?;
        assert_eq!(rt; found.as_str(), expected);
    }
    Ok(())
}

#[test]
fn a_fault_of_the_bytes_is_the_one_refusal(rt: HostRuntime) -> Result<(), Fail> {
    let cases: [(&[u8], &str); 9] = [
        (
            b"process main(start: main_start) { n := 00; }",
            "0/1:40: F2 token|",
        ),
        (b"\xff", "0/1:1: F1 byte|"),
        (b"\n\n -- \x7f 12a", "0/3:5: F1 byte|"),
        (b"12a", "0/1:1: F2 token|"),
        (b"process\n\t\"main", "0/2:2: F2 token|"),
        (b"12a \xff", "0/1:1: F2 token|"),
        (b"9223372036854775808", "0/1:1: F3 too long|"),
        (b"9223372036854775807", "0/1:1: F4 syntax|"),
        (b"", "0/0:0: F19 no main|"),
    ];
    for (bytes, expected) in cases {
        let found = image_answer(rt.alloc(), bytes)?;
        assert_eq!(rt; found.as_str(), expected);
    }
    Ok(())
}

#[test]
fn each_file_has_its_one_fault_in_order(rt: HostRuntime) -> Result<(), Fail> {
    let good: &[u8] =
        b"process main(start: main_start) { var m: main_message; receive m from start; }";
    let unread: &[u8] = b"process 12a";
    let cut: &[u8] = b"process main(start: main_start) { send";
    let other: &[u8] = b"process p(s: main_start) { var m: main_message; receive m from s; }";
    let lost: &[u8] = b"process p(s: main_start) { leave; send s to s; }";
    let cases: [(&[&[u8]], &str); 13] = [
        (&[], "0/0:0: F19 no main|"),
        (&[good], "main 4|"),
        (&[good, other], "main 4|p 4|"),
        (&[good, good], "1/1:9: F15 twice|"),
        (&[other, good, other], "2/1:9: F15 twice|"),
        (
            &[b"definitions d { }", lost, good, lost],
            "1/1:28: F14 unknown|1/1:35: F16 type|3/1:9: F15 twice|3/1:28: F14 unknown|3/1:35: F16 type|",
        ),
        (&[b"", b"definitions d { }"], "0/0:0: F19 no main|"),
        (&[cut, unread], "0/1:39: F4 syntax|1/1:9: F2 token|"),
        (&[unread, cut], "0/1:9: F2 token|1/1:39: F4 syntax|"),
        (&[good, cut, b"definitions d { }"], "1/1:39: F4 syntax|"),
        (&[cut, good, cut], "0/1:39: F4 syntax|2/1:39: F4 syntax|"),
        (&[b"}", b"\n\xff"], "0/1:1: F4 syntax|1/2:1: F1 byte|"),
        (&[good, b"-- a comment\nexception e;"], "1/2:1: F4 syntax|"),
    ];
    for (contents, expected) in cases {
        let found = image_answer_to(rt.alloc(), contents)?;
        assert_eq!(rt; found.as_str(), expected);
    }
    Ok(())
}

#[test]
fn a_bracket_too_many_comes_first(rt: HostRuntime) -> Result<(), Fail> {
    for (kind, count, expected) in [
        ("while true {", 63, "0/1:774: F4 syntax|"),
        ("while true {", 64, "0/64:12: F5 nesting|"),
    ] {
        let mut file = String::from_str(rt.alloc(), "process p(a: b) {")?;
        for _ in 0..count {
            file.push_str(kind)?;
            if count == 64 {
                file.push('\n')?;
            }
        }
        let found = image_answer(rt.alloc(), file.as_bytes())?;
        assert_eq!(rt; found.as_str(), expected, "{count}");
    }
    Ok(())
}

/// A program with so many strings, each named by so many letters, so many statements that set the last one to so many
/// letters, and so many blanks behind it.
fn sized(
    alloc: Global,
    names: u32,
    letters: u32,
    statements: u32,
    text: u32,
) -> Result<String, AllocError> {
    let mut file = String::from_str(alloc, "process main(start:main_start){var m:main_message")?;
    for number in 0..names {
        file.push(',')?;
        push_name(alloc, &mut file, number, letters)?;
        file.push_str(":string")?;
    }
    file.push_str(";receive m from start;")?;
    for _ in 0..statements {
        push_name(alloc, &mut file, 0, letters)?;
        file.push_str(":=\"")?;
        for _ in 0..text {
            file.push('x')?;
        }
        file.push_str("\";")?;
    }
    file.push('}')?;
    Ok(file)
}

/// Six digits behind letters.
fn push_name(
    alloc: Global,
    file: &mut String,
    number: u32,
    letters: u32,
) -> Result<(), AllocError> {
    for _ in 0..letters {
        file.push('a')?;
    }
    let digits = format!(in alloc; "{number:06}")?;
    file.push_str(digits.as_str())
}

#[test]
fn each_limit_is_taken_and_no_more(rt: HostRuntime) -> Result<(), Fail> {
    let cases = [
        ((1, 1, 1023, 1), "main 3073|"),
        ((1, 1, 1024, 1), "0/1:9: F20 too many|"),
        ((4092, 1, 1, 1), "main 7|"),
        ((4093, 1, 1, 1), "0/1:9: F20 too many|"),
        ((1, 58, 1, 1), "main 7|"),
        ((1, 59, 1, 1), "0/1:51: F3 too long|"),
        ((1, 1, 1, 4096), "main 7|"),
        ((1, 1, 1, 4097), "0/1:96: F3 too long|"),
    ];
    for ((names, letters, statements, text), expected) in cases {
        let file = sized(rt.alloc(), names, letters, statements, text)?;
        let found = image_answer(rt.alloc(), file.as_bytes())?;
        assert_eq!(rt;
            found.as_str(),
            expected,
            "{names} {letters} {statements} {text}"
        );
    }
    Ok(())
}

#[test]
fn a_file_has_its_most_bytes_and_no_more(rt: HostRuntime) -> Result<(), Fail> {
    let mut file = sized(rt.alloc(), 1, 1, 1, 1)?.into_bytes();
    for _ in file.len()..1_048_576 {
        file.push(b' ')?;
    }
    assert_eq!(rt;
        image_answer(rt.alloc(), file.as_slice())?.as_str(),
        "main 7|"
    );
    file.push(b' ')?;
    let found = image_answer(rt.alloc(), file.as_slice())?;
    assert_eq!(rt; found.as_str(), "0/1:1048577: F3 too long|");
    file[0] = b'_';
    let found = image_answer(rt.alloc(), file.as_slice())?;
    assert_eq!(rt; found.as_str(), "0/1:1: F2 token|");
    Ok(())
}
