//! Whole programs: declarations, and the order of faults over processes and files.
use crate::answer::is_judged;
use crate::rows::{modules_of, programs_have_their_faults};
use std::test::Fail;

#[test]
fn programs_have_faults_in_order(rt: HostRuntime) -> Result<(), Fail> {
    let rows = "\
@19
process p(start: li) { }@19
process main(start: li) { }@19
process main(@14start: nope) { }@19
process main(@16start: rec) { }|process @15main(start: main_start) { }
process main(start: main_start) { var @15start: integer; }
process main(start: main_start) { var i: integer, @14j: nope, @15i: integer, @16out: integer; }
process main(start: main_start) { var @14u: nope; }
process main(start: main_start) { var @14u: nope, i: integer, s: string; u := i; i := u; s := u.a.b; move u to s; send u to u; call u(1, s); case u { when a { } } for i in u { } }
process main(start: main_start) { }|process @15main(start: main_start) { }
process p(start: li) { @14x := 1; }|process main(start: main_start) { @14y := 1; }
process a(start: li) { raise Overflow; @18raise Overflow; }|process main(start: main_start) { raise Overflow; @18raise Overflow; }
process a(start: li) { @14raise f; raise Overflow; raise Overflow; }|process main(start: main_start) { raise Overflow; @18raise Overflow; }
process main(start: main_start) { var lo: lo, mo: console_out; create lo of b; @16create mo of b; }|process b(start: li) { }
process b(start: li) { }|process @15b(start: li) { @14x := 1; }|process main(start: main_start) { }
process main(@16out: main_start) { }
process main(start: main_start) { var @14start: nope; }
process main(start: main_start) { var @16out: integer, @15out: integer; }
process p(start: li) { }|process @15p(start: li) { raise e; raise e; }|process main(start: main_start) { }
process p(@16start: rec) { raise e; raise e; }|process main(start: main_start) { }
process main(start: main_start) { var lo: lo; create lo of b; }|process b(@14start: nope) { }
process main(start: main_start) { var lo: lo; @16create lo of b; }|process b(@16start: rec) { }
process main(start: main_start) { var lo: lo; create lo of b; }|process b(start: li) { }|process @15b(start: main_start) { }
process main(start: main_start) { var lo: lo; @16create lo of b; }|process b(start: main_start) { }|process @15b(start: li) { }
process main(start: main_start) { var @14u: nope, p: polymorph, i: integer; @17u := p; @16move u.a to u.a; move u.a to u.b; @15case u { when a { } when a { } } @16i := u & u; i := u + u; @16p := -u; }
process main(start: main_start) { var i: integer, @15i: string, s: string; @16s := i; i := 1; }
process main(start: main_start) { raise e; try { @18raise e; } on e { @18raise e; } }|process p(start: li) { raise e; @18raise e; }
process p(start: li) { @14x := 1; }~process main(start: main_start) { @14y := 1; }~process q(@14start: nope) { var @16out: rec; @14leave; }
process p(start: li) { }~process @15p(start: li) { }~process main(start: main_start) { }|process @15main(@14start: nope) { }
type t = record { a: integer }; exception f;|process main(start: main_start) { var t: t, u: color; raise f; @18u := color#red; }~process p(start: li) { var u: t; raise f; @18new u; }
process main(start: main_start) { var lo: lo; create lo of z; }~process z(start: li) { }
process b(start: li) { @14leave; }~type t = enum { a };|process c(start: li) { raise e; @18raise e; }@19
process main(start: li) { }~process @15main(start: main_start) { }
process a(start: li) { var t: t; t := t#a; @14t := t#b; }|type t = enum { a };|process main(start: main_start) { }
type vv = variant { a: var_t };|process main(start: main_start) { var x: vv, i: integer; @16unite x.a.a from i; @16dissolve x.a.a into i; reveal x.a.a; case x.a { when a { } when b { } } i := x.a.a; }
type u = variant { t: tab, li: li, lo: lo, ao: ask_out };|process main(start: main_start) { var x: u, r: rec, i: integer, s: string, t: string; insert r into x.t; remove r from x.t[i, s]; get r from x.t[i, s]; for r in x.t { } i := size(x.t); receive i from x.li; send i to x.lo; call x.ao(s, t, i); }
type u = variant { t: tab, li: li, lo: lo, p: polymorph };|process main(start: main_start) { var x: u, i: integer; @16new x.t; @16connect x.lo to x.li; @16create x.lo of w; @16wrap i as x.p; @16unwrap x.p as integer into i; @16discard x.p; @16move x.t to x.t; }|process w(start: li) { }
";
    let count = programs_have_their_faults(&rt, rt.alloc(), rows)?;
    assert_eq!(rt; count, 37);
    Ok(())
}

#[test]
fn ample_memory_is_enough(rt: HostRuntime) -> Result<(), Fail> {
    let rows = [
        "process main(start: main_start) { var m: main_message; receive m from start; }",
        "process main(start: main_start) { x := 1; }",
        "process p(start: li) { raise e; }",
    ];
    for row in rows {
        let (modules, _) = modules_of(rt.alloc(), row)?;
        assert!(rt; is_judged(rt.alloc(), modules.as_slice()), "{row}");
    }
    Ok(())
}
