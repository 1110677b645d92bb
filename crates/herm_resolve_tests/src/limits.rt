//! The limits of statements and of paths, and one beyond.
use crate::rows::has_its_faults;
use std::alloc::{AllocError, Global};
use std::process::Abort;
use std::test::Fail;

type Put = Result<(), AllocError>;

fn put_variables(alloc: Global, text: &mut String, of: &str, count: u32) -> Put {
    for n in 0..count {
        let next = format!(in alloc; ", v{n}: {of}")?;
        text.push_str(next.as_str())?;
    }
    text.push_str("; ")
}

fn put_statements(text: &mut String, statement: &str, count: u32) -> Put {
    for _ in 0..count {
        text.push_str(statement)?;
    }
    Ok(())
}

/// Behind a head, so many variables of a type and a statement so many times, and then a text.
fn has_its_faults_with(
    rt: &impl Abort,
    alloc: Global,
    head: &str,
    variables: (&str, u32),
    statements: (&str, u32),
    behind: &str,
) -> Result<(), Fail> {
    let mut text = String::new(alloc);
    text.push_str(head)?;
    put_variables(alloc, &mut text, variables.0, variables.1)?;
    put_statements(&mut text, statements.0, statements.1)?;
    text.push_str(behind)?;
    has_its_faults(rt, alloc, text.as_str())
}

/// No variable more.
const NONE: (&str, u32) = ("integer", 0);

const FEW: &str = "process main(start: main_start) { var i: integer, b: boolean, r: rec, x: tab";

const MANY: &str =
    "process @20main(start: main_start) { var i: integer, b: boolean, r: rec, x: tab";

#[test]
fn statements_of_1024_are_the_most(rt: HostRuntime) -> Result<(), Fail> {
    let rows: [(&str, &str, u32, &str); 13] = [
        (FEW, "i := 1; ", 1024, "}"),
        (MANY, "i := 1; ", 1025, "}"),
        (FEW, "try { i := i + 1; } on Overflow { } ", 512, "}"),
        (MANY, "try { i := i + 1; } on Overflow { } ", 513, "}"),
        (FEW, "if b { i := 1; } else { i := 2; } ", 341, "i := 1; }"),
        (
            MANY,
            "if b { i := 1; } else { i := 2; } ",
            341,
            "i := 1; i := 1; }",
        ),
        (FEW, "for r in x { leave; } ", 512, "}"),
        (MANY, "for r in x { leave; } ", 512, "i := 1; }"),
        (MANY, "while b { leave; } ", 2000, "}"),
        (MANY, "i := 1; ", 1024, "@14z := 1; @16i := b; }"),
        (MANY, "raise e; ", 1025, "}"),
        (MANY, "i := 1; ", 1025, "}|process @15main(start: li) { }"),
        (
            "process p(start: li) { }|process @15p(@16start: rec) { var i: integer",
            "i := 1; ",
            1025,
            "}|process main(start: main_start) { }",
        ),
    ];
    for (head, statement, count, behind) in rows {
        has_its_faults_with(&rt, rt.alloc(), head, NONE, (statement, count), behind)?;
    }
    Ok(())
}

/// With its port 2 paths.
const LITTLE: &str = "process main(start: main_start) { var i: integer";

const MUCH: &str = "process @20main(start: main_start) { var i: integer";

#[test]
fn paths_of_4096_are_the_most(rt: HostRuntime) -> Result<(), Fail> {
    let rows: [(&str, &str, u32, &str); 10] = [
        (LITTLE, "integer", 4094, "i := 1; }"),
        (MUCH, "integer", 4095, "i := 1; }"),
        (LITTLE, "rec", 1364, "}"),
        (MUCH, "rec", 1365, "}"),
        (LITTLE, "tab", 4094, "}"),
        (MUCH, "tab", 4095, "@14z := 1; }"),
        (LITTLE, "vr", 682, "}"),
        (MUCH, "vr", 683, "}"),
        (
            "process main(start: main_start) { var @14u: nope, i: integer",
            "integer",
            4094,
            "}",
        ),
        (
            "process @20main(start: main_start) { var i: integer, @15i: integer",
            "integer",
            4094,
            "}",
        ),
    ];
    for (head, of, count, behind) in rows {
        has_its_faults_with(&rt, rt.alloc(), head, (of, count), ("", 0), behind)?;
    }
    Ok(())
}
