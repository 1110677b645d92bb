//! Many brackets, and files of one repeated token.
use crate::shape::answer;
use std::alloc::{AllocError, Global};
use std::test::Fail;

/// Texts, each so many times.
fn repeated(alloc: Global, parts: &[(&str, u32)]) -> Result<String, AllocError> {
    let mut source = String::new(alloc);
    for (text, count) in parts {
        for _ in 0..*count {
            source.push_str(text)?;
        }
    }
    Ok(source)
}

#[test]
fn the_65th_open_bracket_is_the_fault(rt: HostRuntime) -> Result<(), Fail> {
    let rows: [(&[(&str, u32)], &str); 17] = [
        (&[("(", 64)], "F4 0"),
        (&[("(", 65)], "F5 64"),
        (&[("[", 64)], "F4 0"),
        (&[("[", 65)], "F5 64"),
        (&[("{", 64)], "F4 0"),
        (&[("{", 65)], "F5 64"),
        (&[("([{", 21), ("{", 1)], "F4 0"),
        (&[("([{", 21), ("{(", 1)], "F5 64"),
        (&[("(", 1_000_000)], "F5 64"),
        (&[(")", 10), ("(", 74)], "F4 0"),
        (&[(")", 10), ("(", 75)], "F5 84"),
        (&[("}]", 5), ("{", 75)], "F5 84"),
        (&[("()", 1000), ("(", 65)], "F5 2064"),
        (
            &[("process p(a: b) {", 1), ("while a {", 63), ("}", 63)],
            "F4 647",
        ),
        (
            &[("process p(a: b) {", 1), ("while a {", 64), ("}", 65)],
            "F5 592",
        ),
        (
            &[("process p(a: b) {x := ", 1), ("(", 63), ("1", 1)],
            "F4 86",
        ),
        (
            &[
                ("process p(a: b) {x := ", 1),
                ("(", 64),
                ("1", 1),
                (")", 64),
                (";}", 1),
            ],
            "F5 85",
        ),
    ];
    for (parts, expected) in rows {
        let source = repeated(rt.alloc(), parts)?;
        let found = answer(rt.alloc(), source.as_str())?;
        assert_eq!(rt; found.as_str(), expected);
    }
    Ok(())
}

#[test]
fn sixty_four_open_brackets_are_read(rt: HostRuntime) -> Result<(), Fail> {
    let parens = repeated(
        rt.alloc(),
        &[
            ("process p(a: b) {x := ", 1),
            ("(", 63),
            ("1", 1),
            (")", 63),
            (";}", 1),
        ],
    )?;
    let shape = repeated(
        rt.alloc(),
        &[
            ("P p(a:b)[]{1 Assign x ", 1),
            ("paren(", 63),
            ("1", 1),
            (")", 63),
            ("}", 1),
        ],
    )?;
    assert_eq!(rt;
        answer(rt.alloc(), parens.as_str())?.as_str(),
        shape.as_str()
    );
    let blocks = repeated(
        rt.alloc(),
        &[
            ("process p(a: b) {", 1),
            ("try {", 63),
            ("leave;", 1),
            ("} on e { leave; }", 63),
            ("}", 1),
        ],
    )?;
    let mut nested = String::from_str(rt.alloc(), "P p(a:b)[]{")?;
    for number in 1..64 {
        nested.push_str(format!(in rt.alloc(); "{number} Try{{")?.as_str())?;
    }
    nested.push_str("64 Leave")?;
    for number in 65..128 {
        nested.push_str(format!(in rt.alloc(); "}} on e{{{number} Leave}}")?.as_str())?;
    }
    nested.push('}')?;
    assert_eq!(rt;
        answer(rt.alloc(), blocks.as_str())?.as_str(),
        nested.as_str()
    );
    Ok(())
}

#[test]
fn one_repeated_token(rt: HostRuntime) -> Result<(), Fail> {
    let rows = [
        ("process ", "F4 8"),
        ("definitions ", "F4 12"),
        ("type ", "F4 0"),
        ("a ", "F4 0"),
        ("17 ", "F4 0"),
        ("\"a\" ", "F4 0"),
        (") ", "F4 0"),
        ("} ", "F4 0"),
        ("; ", "F4 0"),
        ("= ", "F4 0"),
        ("-- ", ""),
    ];
    for (text, expected) in rows {
        let source = repeated(rt.alloc(), &[(text, 10_000)])?;
        let found = answer(rt.alloc(), source.as_str())?;
        assert_eq!(rt; found.as_str(), expected, "{text}");
    }
    Ok(())
}
