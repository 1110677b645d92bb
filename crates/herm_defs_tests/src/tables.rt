//! Definitions and the tables that they mean. Of a table stand the types and exceptions behind the predefined ones: types by number from 8 on,
//! exceptions from 7 on.
use crate::answer::answer;
use crate::rows::modules_of;
use std::alloc::Global;
use std::process::Abort;
use std::test::Fail;

fn means(rt: &impl Abort, alloc: Global, row: &str, due: &str) -> Result<(), Fail> {
    let (modules, _) = modules_of(alloc, row)?;
    let found = answer(alloc, modules.as_slice())?;
    assert_eq!(rt; found.as_str(), due, "{row}");
    Ok(())
}

#[test]
fn definitions_mean_tables(rt: HostRuntime) -> Result<(), Fail> {
    let rows: [(&str, &str); 15] = [
        (
            "type a = record { x: integer, y: b }; type b = enum { p, q };",
            "table a record x:1 y:9; b enum p q;",
        ),
        (
            "type r = record { k: integer, s: string, b: boolean }; type t = table of r key (b, k);",
            "table r record k:1 s:2 b:0; t table 8 key 2 0;",
        ),
        (
            "type i = inport of r { init(y.z), init(x) }; type r = record { x: integer, y: q }; type q = record { w: string, z: integer };",
            "table i inport 9 init 0.1.1 init 0.0; r record x:1 y:10; q record w:2 z:1;",
        ),
        (
            "type i = inport of r { full(y), init(x), full(y) }; type r = record { x: integer, y: q }; type q = record { w: string, z: integer };",
            "table i inport 9 init 0.1 init 0.1.0 init 0.1.1 init 0.0; r record x:1 y:10; q record w:2 z:1;",
        ),
        (
            "type i = inport of r { init(y.z), full(y), init(x), init(y), init(y.z) }; type r = record { x: integer, y: q }; type q = record { w: string, z: integer };",
            "table i inport 9 init 0.1.1 init 0.1 init 0.1.0 init 0.0; r record x:1 y:10; q record w:2 z:1;",
        ),
        (
            "type i = inport of r { case(s.v, q), init(u), case(u, p), case(s.v, q), case(t, q) }; type r = record { u: w, s: n, t: w }; type n = record { v: w }; type w = variant { p: integer, q: string };",
            "table i inport 9 case 0.1.0=1 init 0.0 case 0.0=0 case 0.2=1; r record u:11 s:10 t:11; n record v:11; w variant p:1 q:2;",
        ),
        (
            "type i = inport of r { case(s.v, q), case(u, p) }; type r = record { u: w, s: n }; type n = record { v: w }; type w = variant { p: integer, q: string };",
            "table i inport 9 case 0.1.0=1 case 0.0=0; r record u:11 s:10; n record v:11; w variant p:1 q:2;",
        ),
        (
            "type i = inport of r { full(m) }; type r = record { x: integer, m: c }; type c = callmessage (in x: integer, out y: integer, inout z: integer);",
            "table i inport 9 init 0.1 init 0.1.0 init 0.1.2; r record x:1 m:10; c callmessage in x:1 out y:1 inout z:1;",
        ),
        (
            "type m = callmessage (out y: integer, in u: string, inout x: integer) raises (E { full(x), full(y) }, Overflow, Disconnected); exception E;",
            "table m callmessage out y:1 in u:2 inout x:1 raises 7 keeps 0 2 raises 0 keeps raises 6 keeps; E;",
        ),
        (
            "type o = outport of i; type i = inport of string; type p = outport of console; type j = inport of main_message { full(out), init(arg) };",
            "table o outport 9; i inport 2; p outport 4; j inport 6 init 0.1 init 0.0;",
        ),
        (
            "type a = record { x: b }; exception D;|type b = enum { p }; exception E;|exception F; type c = variant { y: a, z: polymorph }; type m = callmessage () raises (F, D);",
            "table a record x:9; b enum p; c variant y:8 z:3; m callmessage raises 9 keeps raises 7 keeps; D; E; F;",
        ),
        (
            "exception E; type E = record { E: E2 }; type E2 = enum { E, E2 }; type m = callmessage (inout E: E) raises (E { full(E) });",
            "table E record E:9; E2 enum E E2; m callmessage inout E:8 raises 7 keeps 0; E;",
        ),
        ("process main(start: main_start) { }", "table"),
        (
            "type t = table of r key (s, k); type r = record { k: integer, s: string };~exception E; type e = enum { key, out };",
            "table t table 9 key 1 0; r record k:1 s:2; e enum key out; E;",
        ),
        (
            "type m = callmessage (out a: integer, out b: integer, inout c: integer) raises (Overflow { full(c), full(b) }, NotFound { full(a) }, CaseError { full(b), full(a), full(c) });",
            "table m callmessage out a:1 out b:1 inout c:1 raises 0 keeps 1 2 raises 5 keeps 0 raises 2 keeps 0 1 2;",
        ),
    ];
    for (row, due) in rows {
        means(&rt, rt.alloc(), row, due)?;
    }
    Ok(())
}
