//! Types at the limits of depth and of paths, and one beyond. In a form `$` stands for a name.
use crate::rows::has_its_faults;
use std::alloc::{AllocError, Global};
use std::test::Fail;

fn put_form(text: &mut String, form: &str, name: &str) -> Result<(), AllocError> {
    for byte in form.as_bytes() {
        if *byte == b'$' {
            text.push_str(name)?;
        } else {
            text.push(*byte as char)?;
        }
    }
    Ok(())
}

/// So many types that each name the next, by two forms in turn. From a number of names before the last type on, each must be too deep.
fn put_links(
    alloc: Global,
    text: &mut String,
    forms: (&str, &str),
    count: u32,
    first_deep: u32,
) -> Result<(), AllocError> {
    for t in 0..count {
        let distance = count.saturating_sub(t);
        let fault = if distance >= first_deep { "@09" } else { "" };
        let front = format!(in alloc; "type {fault}t{t} = ")?;
        text.push_str(front.as_str())?;
        let next = t.saturating_add(1);
        let name = format!(in alloc; "t{next}")?;
        let form = if distance % 2 == 1 { forms.0 } else { forms.1 };
        put_form(text, form, name.as_str())?;
        text.push_str("; ")?;
    }
    Ok(())
}

/// A chain of types, its last one, and what is written behind.
fn chain(
    alloc: Global,
    forms: (&str, &str),
    count: u32,
    last: &str,
    first_deep: u32,
    behind: &str,
) -> Result<String, AllocError> {
    let mut text = String::new(alloc);
    put_links(alloc, &mut text, forms, count, first_deep)?;
    let name = format!(in alloc; "t{count}")?;
    put_form(&mut text, last, name.as_str())?;
    text.push_str(behind)?;
    Ok(text)
}

const RECORD: &str = "record { x: $ }";

const ENUM: &str = "type $ = enum { p }; ";

#[test]
fn a_depth_of_32_is_the_greatest(rt: HostRuntime) -> Result<(), Fail> {
    let rows: [(&str, &str, &str, u32); 13] = [
        (RECORD, RECORD, ENUM, 32),
        (RECORD, RECORD, "type $ = callmessage (); ", 32),
        (RECORD, RECORD, "type $ = record { x: main_start }; ", 27),
        ("variant { x: $ }", RECORD, ENUM, 32),
        (
            "record { x: integer, y: $ }",
            "record { x: $, y: integer }",
            ENUM,
            32,
        ),
        (
            "variant { x: $, y: integer }",
            "variant { x: integer, y: $ }",
            ENUM,
            32,
        ),
        (
            "callmessage (out x: $)",
            "callmessage (in y: string, inout x: $)",
            ENUM,
            32,
        ),
        ("callmessage (out x: $)", RECORD, ENUM, 32),
        (
            "callmessage (in @11x: $)",
            RECORD,
            "type $ = record { z: polymorph }; ",
            31,
        ),
        (
            "outport of $",
            "inport of $",
            "type $ = inport of integer; ",
            31,
        ),
        (
            "table of $ key (k)",
            "record { k: integer, x: $ }",
            "type $ = record { k: integer }; ",
            31,
        ),
        (
            "table of $ key (@10n)",
            "record { k: integer, x: $ }",
            "type $ = record { k: integer }; ",
            31,
        ),
        (
            "table of $ key (k)",
            "record { k: integer, x: $ }",
            "type $ = record { k: integer, z: boolean, w: console_out }; ",
            29,
        ),
    ];
    for (odd, even, last, first_deep) in rows {
        for count in [26, 27, 28, 29, 30, 31, 32, 33, 40] {
            let text = chain(rt.alloc(), (odd, even), count, last, first_deep, "")?;
            has_its_faults(&rt, rt.alloc(), text.as_str())?;
        }
    }
    Ok(())
}

#[test]
fn unknown_names_and_cycles_hide_depth(rt: HostRuntime) -> Result<(), Fail> {
    let rows: [&str; 5] = [
        "type $ = record { x: @06nope };",
        "type $ = callmessage () raises (@06Nope);",
        "type @08$ = record { x: $ };",
        "type $ = outport of @06nope;",
        "type @08$ = callmessage (out x: c); type @08c = record { x: $ };",
    ];
    for last in rows {
        let text = chain(rt.alloc(), (RECORD, RECORD), 40, last, 100, "")?;
        has_its_faults(&rt, rt.alloc(), text.as_str())?;
    }
    Ok(())
}

#[test]
fn depth_comes_behind_names_and_before_states(rt: HostRuntime) -> Result<(), Fail> {
    let rows: [(u32, &str); 10] = [
        (30, "type @11i = inport of t0 { init(z) };"),
        (31, "type @09i = inport of t0 { init(z) };"),
        (
            30,
            "type @11m = callmessage (out x: t0) raises (Overflow { full(y) });",
        ),
        (
            31,
            "type @09m = callmessage (out x: t0) raises (Overflow { full(y) });",
        ),
        (
            31,
            "exception E; type @09m = callmessage (in x: t0) raises (E { full(x) }); type @07m = enum { p };",
        ),
        (
            31,
            "type a = enum { p }; type @07a = inport of t0 { init(z) };",
        ),
        (
            32,
            "type @09o = outport of @11t0; type @09t = table of t0 key (@10x);",
        ),
        (31, "type @09t = table of t0 key (@10x, @07x);"),
        (32, "type c = record { x: t1, y: @06nope };"),
        (600, "type m = enum { p };"),
    ];
    for (count, behind) in rows {
        let text = chain(rt.alloc(), (RECORD, RECORD), count, ENUM, 32, behind)?;
        has_its_faults(&rt, rt.alloc(), text.as_str())?;
    }
    Ok(())
}

#[test]
fn inputs_are_judged_behind_deep_types(rt: HostRuntime) -> Result<(), Fail> {
    let last = "type $ = record { z: polymorph };";
    let behind = "type @09m = callmessage (in @11y: t0);";
    let text = chain(rt.alloc(), (RECORD, RECORD), 32, last, 31, behind)?;
    has_its_faults(&rt, rt.alloc(), text.as_str())
}

/// So many parts of one type between what stands in front of them and behind them, each with a mode or nothing.
fn wide(
    alloc: Global,
    head: &str,
    mode: &str,
    count: u32,
    of: &str,
    behind: &str,
) -> Result<String, AllocError> {
    let mut text = String::new(alloc);
    text.push_str(head)?;
    for number in 0..count {
        let comma = if number == 0 { "" } else { ", " };
        let part = format!(in alloc; "{comma}{mode}f{number}: {of}")?;
        text.push_str(part.as_str())?;
    }
    text.push_str(behind)?;
    Ok(text)
}

#[test]
fn paths_of_1024_are_the_most(rt: HostRuntime) -> Result<(), Fail> {
    let rows: [(&str, &str, u32, &str, &str); 14] = [
        ("type r = record { ", "", 1023, "integer", " };"),
        ("type @09r = record { ", "", 1024, "integer", " };"),
        ("type r = variant { ", "", 1023, "console", " };"),
        ("type @09r = variant { ", "", 1024, "console", " };"),
        ("type m = callmessage (", "in ", 1023, "integer", ");"),
        ("type @09m = callmessage (", "in ", 1024, "integer", ");"),
        ("type m = callmessage (", "inout ", 1023, "polymorph", ");"),
        (
            "type @09m = callmessage (",
            "inout ",
            1024,
            "polymorph",
            ");",
        ),
        ("type m = callmessage (", "out ", 1023, "string", ");"),
        ("type @09m = callmessage (", "out ", 1024, "string", ");"),
        ("type r = record { z: @06nope, ", "", 1024, "integer", " };"),
        (
            "type m = callmessage (",
            "out ",
            1024,
            "integer",
            ") raises (@06E);",
        ),
        (
            "type @09r = record { ",
            "",
            1024,
            "integer",
            " }; type @09i = record { r: r }; type j = inport of r; type @09q = variant { r: r };",
        ),
        (
            "type r = record { ",
            "",
            1023,
            "integer",
            " }; type a = record { x: i, y: t, z: o }; type i = inport of r; type t = table of r key (f0); type o = outport of i; type @09b = record { x: r };",
        ),
    ];
    for (head, mode, count, of, behind) in rows {
        let text = wide(rt.alloc(), head, mode, count, of, behind)?;
        has_its_faults(&rt, rt.alloc(), text.as_str())?;
    }
    Ok(())
}

#[test]
fn paths_count_through_parts(rt: HostRuntime) -> Result<(), Fail> {
    let rows: [(&str, &str, u32, &str, &str, u32); 6] = [
        ("record { ", "", 30, " }; ", "type r = record { ", 33),
        ("record { ", "", 31, " }; ", "type @09r = record { ", 32),
        ("variant { ", "", 30, " }; ", "type r = record { ", 33),
        ("variant { ", "", 31, " }; ", "type @09r = variant { ", 32),
        (
            "callmessage (",
            "out ",
            30,
            "); ",
            "type r = variant { ",
            33,
        ),
        (
            "callmessage (",
            "out ",
            31,
            "); ",
            "type @09r = record { ",
            32,
        ),
    ];
    for (inner, mode, few, end, outer, many) in rows {
        let head = format!(in rt.alloc(); "type w = {inner}")?;
        let first = wide(rt.alloc(), head.as_str(), mode, few, "integer", end)?;
        let head = format!(in rt.alloc(); "{first}{outer}")?;
        let text = wide(rt.alloc(), head.as_str(), "", many, "w", " };")?;
        has_its_faults(&rt, rt.alloc(), text.as_str())?;
    }
    Ok(())
}
