//! Definitions with the faults that must come, by the rules of refusals.
use crate::rows::have_their_faults;
use std::test::Fail;

#[test]
fn names_must_be_known(rt: HostRuntime) -> Result<(), Fail> {
    let rows = "\
type a = record { x: @06b };
type a = variant { x: @06y, z: integer };
type a = table of @06b key (k);
type a = inport of @06b;
type a = outport of @06b;
type a = callmessage (in x: @06b);
type a = callmessage (in x: integer) raises (@06nope, Overflow);
exception E; type a = record { x: @06E }; type b = callmessage () raises (@06a, E);
type m = callmessage (inout x: @06b, out y: @06c);
type a = record { x: @06Integer, y: @06x, z: @06b, w: @06b, a: integer };
type a = enum { p, q }; type b = variant { x: @06p, y: @06Overflow, z: @06d };
type a = callmessage () raises (@06integer, @06a, @06overflow, Overflow, @06p); type b = enum { p };
type a = callmessage (in x: @06b, inout y: @06b, out z: @06b, in w: integer);
type a = record { out: integer, in: @06outp };
type i = inport of @06b { init(x), full(x.y), case(x, p) };
type r = record { t: integer }; type t = table of r key (t); type x = inport of r { init(t) };
";
    let count = have_their_faults(&rt, rt.alloc(), rows)?;
    assert_eq!(rt; count, 16);
    Ok(())
}

#[test]
fn names_are_defined_once(rt: HostRuntime) -> Result<(), Fail> {
    let rows = "\
type a = record { x: integer }; type b = record { x: a };
type b = record { x: a }; type a = record { x: integer };
type a = enum { p, q }; type @07a = enum { r };
type @07integer = enum { p }; type a = record { x: integer };
exception E; exception @07E; exception @07Overflow; type E = enum { p };
type a = enum { p, q, @07p, r, @07p };
type a = record { x: integer, @07x: @06b }; type b2 = variant { x: integer, @07x: integer };
type r = record { k: integer }; type t = table of r key (k, @07k);
exception E; type a = callmessage () raises (E, @07E, @06F, @06F);
type a = callmessage (out x: integer, out y: integer) raises (Overflow { full(x), full(y), full(@07x) }, Depletion { full(x) });
type m = callmessage (inout x: integer, out @07x: integer, out y: integer, inout @07y: string, in z: integer, out @07z: @06b);
type m = callmessage (out x: integer, in @07x: polymorph) raises (Overflow { full(x) });
type m = callmessage (in @11x: polymorph, in @07x: integer);
exception E; exception @07E; type m = callmessage () raises (E); type E = record { x: integer }; type @07E = enum { p };
type a = record { x: integer }; type @07a = record { y: @06b }; type t = table of a key (x); type u = table of a key (@10y);
type r = record { k: integer, @07k: polymorph }; type t = table of r key (k);
type r = record { k: polymorph, @07k: integer }; type t = table of r key (@10k);
type @07boolean = enum { p }; type @07integer = enum { p }; type @07string = enum { p }; type @07polymorph = enum { p }; type @07console = enum { p }; type @07console_out = enum { p }; type @07main_message = enum { p }; type @07main_start = enum { p }; type main = enum { p };
exception @07Overflow; exception @07Depletion; exception @07CaseError; exception @07PolymorphMismatch; exception @07DuplicateKey; exception @07NotFound; exception @07Disconnected; exception boolean; exception integer;
type Overflow = enum { p }; type a = record { x: Overflow }; exception @07Overflow;
type a = enum { p }; type @07a = enum { p }; type @07a = record { x: a }; type A = enum { p };
type a = record { x: integer, X: integer, @07x: string, y: string, @07X: @06b };
type a = enum { a, b }; type b = record { a: a, b: a, @07a: a };
type a = record { a: integer, b: string, c: boolean, d: integer, e: integer, f: integer, g: integer, h: integer, i: integer, j: integer, @07j: integer, k: integer, @07a: string };
type r = record { a: integer, b: string, c: boolean, d: integer, e: integer, f: integer, g: integer, h: integer, i: integer, j: integer }; type t = table of r key (a, b, c, d, e, f, g, h, i, j, @07a, @07i, @10k, @07k);
type a = variant { p: integer, @07p: integer, @07p: integer }; type t = table of @06b key (k, @07k);
type m = callmessage (out a: integer, out b: string, inout c: boolean, out d: integer, out e: integer, out f: integer, out g: integer, out h: integer, out i: integer, out j: integer) raises (Overflow { full(j), full(i), full(h), full(g), full(f), full(e), full(d), full(c), full(b), full(a), full(@07j), full(@07a) });
exception A; exception B; exception C; exception D; exception E; exception F; exception G; exception H; exception I; exception @07A; exception @07I; type m = callmessage () raises (A, B, C, D, E, F, G, H, I, @07I, @07A, @06J, @06J);
";
    let count = have_their_faults(&rt, rt.alloc(), rows)?;
    assert_eq!(rt; count, 28);
    Ok(())
}

#[test]
fn types_do_not_reach_themselves(rt: HostRuntime) -> Result<(), Fail> {
    let rows = "\
type @08c = record { x: c };
type @08a = record { x: b }; type @08b = record { x: a }; type d = record { x: a, y: b };
type @08a = record { x: a, y: b }; type b = record { x: c }; type @08c = record { x: c };
type a = inport of b; type @08b = record { o: c }; type @08c = outport of b;
type a = inport of b; type @08b = record { o: c }; type @08c = outport of d; type @08d = inport of b;
type a = record { x: integer }; type @07a = record { x: a };
type @08a = record { x: @06b, y: a };
type @08t = table of t key (k);
type @08m = callmessage (in x: m);
type @07integer = record { x: integer };
type a = enum { p }; type @07a = record { x: b }; type @08b = record { y: b };
type @08a = variant { x: integer, y: b }; type @08b = outport of a;
type @07string = record { x: @06b };
type c2 = record { x: c }; type @08c = record { x: c }; type c3 = record { x: c2 };
type a = enum { p }; type @07a = record { x: b }; type b = record { y: a };
type @08a = record { x: b }; type @08b = record { y: a }; type @07a = enum { p }; type c = record { z: a };
type @08m = callmessage (in x: m) raises (Overflow { full(x) });
type @08m = callmessage (out x: b) raises (Disconnected { full(x) }); type @08b = record { y: m };
type @11m = callmessage (in x: c) raises (Overflow { full(x) }); type @08c = record { x: c };
type @11m = callmessage (out x: c) raises (Overflow { full(y) }); type @08c = record { x: c };
type @08i = inport of r { init(z) }; type @08r = record { o: i };
type j = inport of r { init(z) }; type @08r = record { o: r };
type a = enum { p }; type @07a = callmessage (in x: integer) raises (Overflow { full(x) });
type @08a = outport of b; type @08b = inport of a;
type @08a = table of r key (k); type @08r = record { k: integer, t: a };
type @08a = variant { x: a, y: a, z: @06b };
type @08a = record { x: b, y: c }; type @08b = record { x: a }; type @08c = inport of a; type e = variant { x: e2, y: a }; type e2 = enum { p };
type @08c = record { x: a };|type @08a = record { x: b }; type f = record { x: a };|type @08b = record { x: c };
type @08a = callmessage (inout x: b); type @08b = callmessage (out x: a); type c = callmessage (in @11x: a2); type a2 = callmessage (out x: integer);
exception m; type m = callmessage () raises (m); type n = enum { n };
";
    let count = have_their_faults(&rt, rt.alloc(), rows)?;
    assert_eq!(rt; count, 30);
    Ok(())
}

#[test]
fn rows_are_records_and_keys_are_scalar_fields(rt: HostRuntime) -> Result<(), Fail> {
    let rows = "\
type f = record { k: integer }; type e = table of f key (@10y);
type e = table of @10integer key (y);
type v = variant { k: integer }; type e = table of @10v key (k, k2);
type f = record { k: polymorph, s: string, b: boolean }; type e = table of f key (@10k, s, b);
type n = enum { p, q }; type f = record { k: n }; type e = table of f key (k);
type f = record { k: @06b, s: string }; type e = table of f key (k, s);
type @08f = record { k: f, s: string }; type e = table of f key (k, s, z);
type e = table of main_message key (arg, @10out);
type e = table of f key (@10z, @07z); type f = record { k: integer };
type e = table of @06f key (k);
type a = enum { p }; type @07a = record { x: integer }; type t = table of @10a key (x);
type e = enum { p }; type r = record { k: integer }; type s = table of r key (k); type v = variant { k: integer }; type m = callmessage (in k: integer); type o = outport of console; type te = table of @10e key (k); type ts = table of @10s key (k); type tm = table of @10m key (k, @07k); type to2 = table of @10o key (k); type tp = table of @10polymorph key (k); type tb = table of @10boolean key (k); type ti = table of @10main_start key (k);
type r = record { a: integer, b: string, c: boolean, d: e, f: v, g: s, h: t, i: o, j: m, k: polymorph, l: console }; type e = enum { p }; type v = variant { k: integer }; type s = record { k: integer }; type t = table of s key (k); type o = outport of console; type m = callmessage (); type u = table of r key (a, b, c, d, @10f, @10g, @10h, @10i, @10j, @10k, @10l);
type t = table of r key (z, x); type r = record { x: c }; type @08c = record { x: c };
type t = table of v key (x); type v = variant { x: c }; type @08c = record { x: c };
type t = table of v key (x); type @08v = variant { x: v };
type t = table of r key (@10z, x, @10y); type r = record { x: @06b, y: console };
type t = table of @10v key (x); type v = variant { x: @06b };
type t = table of r key (@10K, k); type r = record { k: integer };
type t = table of r key (k); type r = record { k: integer, x: t2 }; type t2 = table of q key (@10k); type q = record { x: integer };
";
    let count = have_their_faults(&rt, rt.alloc(), rows)?;
    assert_eq!(rt; count, 20);
    Ok(())
}

#[test]
fn outports_lead_to_inports_and_inputs_can_be_copied(rt: HostRuntime) -> Result<(), Fail> {
    let rows = "\
type o = outport of @11integer; type p = outport of console;
type o = outport of i; type i = inport of integer;
type o = outport of @06i;
type @08b = record { x: c }; type @08c = outport of b;
type m = callmessage (in @11x: polymorph);
type m = callmessage (in @11x: console);
type m = callmessage (in x: console_out, inout y: polymorph, out z: console);
type m = callmessage (in x: r); type r = record { a: integer, b: t }; type t = table of r2 key (k); type r2 = record { k: integer };
type m = callmessage (in @11x: r); type r = record { a: integer, b: polymorph };
type m = callmessage (in x: r); type r = record { a: @06z, b: polymorph };
type m = callmessage (in @11x: r); type r = record { a: i }; type i = inport of @06z;
type m = callmessage (in x: r); type r = record { a: i }; type i = outport of @06z;
type m = callmessage (in x: integer, in @07x: polymorph);
type m = callmessage (in @11x: m2); type m2 = callmessage ();
type a = enum { p }; type @07a = inport of integer; type o = outport of @11a;
type a = inport of integer; type @07a = enum { p }; type o = outport of a;
type a = inport of integer; type @07a = enum { p }; type m = callmessage (in @11x: a);
type a = enum { p }; type @07a = inport of integer; type m = callmessage (in x: a);
type e = enum { p }; type r = record { x: integer }; type v = variant { x: integer }; type t = table of r key (x); type m = callmessage (); type oe = outport of @11e; type ore = outport of @11r; type ov = outport of @11v; type ot = outport of @11t; type om = outport of @11m; type oo = outport of @11oe; type op = outport of @11polymorph; type ob = outport of @11boolean; type oc = outport of @11console_out; type os = outport of main_start;
type o = outport of b; type b = record { x: c }; type @08c = record { x: c };
type o = outport of @11r; type r = record { x: @06b }; type p = outport of i; type i = inport of @06b;
type m = callmessage (in @11a: polymorph, in @11b: console, in c: console_out, in @11d: v, in @11e: t, in @11f: n, in g: o, in h: e, in i: main_message, in @11j: main_start, inout k: polymorph, out l: t, in @11n: s); type v = variant { x: integer, y: polymorph }; type r = record { k: integer, p: polymorph }; type t = table of r key (k); type n = callmessage (); type o = outport of main_start; type e = enum { p }; type s = record { x: integer, v: v };
type m = callmessage (in x: b); type @08b = record { p: polymorph, o: b };
type m = callmessage (in x: b); type b = record { p: polymorph, o: c }; type @08c = outport of i; type @08i = inport of c;
type m = callmessage (in x: v, in y: t); type v = variant { x: polymorph, y: @06b }; type r = record { k: integer, z: v }; type t = table of r key (k);
type m = callmessage (in @11x: i, in @07x: @06b, in @11z: i); type i = inport of @06b;
";
    let count = have_their_faults(&rt, rt.alloc(), rows)?;
    assert_eq!(rt; count, 26);
    Ok(())
}

#[test]
fn declared_facts_are_of_fields_and_components(rt: HostRuntime) -> Result<(), Fail> {
    let rows = "\
type @11i = inport of integer { init(x) };
type @11i = inport of v { init(x) }; type v = variant { x: integer };
type i = inport of r { init(x), full(y), case(v, p) }; type r = record { x: integer, y: r2, v: w }; type r2 = record { z: integer }; type w = variant { p: integer, q: integer };
type @11i = inport of r { init(z) }; type r = record { x: integer };
type @11i = inport of r { init(x.y) }; type r = record { x: integer };
type i = inport of r { init(x.y) }; type r = record { x: r2 }; type r2 = record { y: string };
type i = inport of r { init(x.y), init(u), case(u, c) }; type r = record { x: r2, u: @06z }; type r2 = record { y: @06z };
type i = inport of r { init(u.y) }; type r = record { u: @06z };
type @11i = inport of r { case(v, s) }; type r = record { v: w }; type w = variant { p: integer, q: integer };
type @11i = inport of r { case(v, p), case(v, q) }; type r = record { v: w }; type w = variant { p: integer, q: integer };
type i = inport of r { case(v, p), case(v, p), init(v) }; type r = record { v: w }; type w = variant { p: integer, q: integer };
type @11i = inport of r { case(x, p) }; type r = record { x: integer };
type a = record { x: integer }; type @07a = record { y: integer }; type i = inport of a { init(x) }; type @11j = inport of a { init(y) };
type r = record { k: v, @07k: integer }; type v = variant { p: integer }; type i = inport of r { case(k, p) };
type @11i = inport of r { case(k, p) }; type r = record { k: integer, @07k: v }; type v = variant { p: integer };
type @11i = inport of r { init(v.p) }; type r = record { v: w }; type w = variant { p: integer };
type @11i = inport of r { init(t.k) }; type r = record { t: t }; type t = table of q key (k); type q = record { k: integer };
type @11i = inport of r { full(m.x) }; type r = record { m: m }; type m = callmessage (out x: integer);
type @11i = inport of m { init(x) }; type m = callmessage (out x: integer); type j = inport of m;
type @11i = inport of polymorph { full(x) }; type @11j = inport of console_out { init(x) }; type @11k = inport of e { case(x, p) }; type e = enum { p }; type @11l = inport of t { init(k) }; type q = record { k: integer }; type t = table of q key (k); type @11n = inport of console { init(x) };
type i = inport of r { init(a.b.c), full(a.b), case(a.b.d, p), full(a.b.d) }; type r = record { a: s }; type s = record { b: u }; type u = record { c: integer, d: w }; type w = variant { p: string };
type @11i = inport of r { init(a.b.c.d) }; type @11j = inport of r { full(a.c) }; type @11k = inport of r { case(a.b, p) }; type @11l = inport of r { case(a.b.c, c) }; type r = record { a: s }; type s = record { b: u }; type u = record { c: integer };
type @11i = inport of r { case(a.v, p), case(a.w, q), case(a.v, q) }; type r = record { a: s }; type s = record { v: w, w: w }; type w = variant { p: integer, q: integer };
type @11i = inport of r { case(v, p), init(v), case(v, p), case(v, q) }; type j = inport of r { case(v, q), case(v, q), case(v, q) }; type r = record { v: w }; type w = variant { p: integer, q: integer };
type i = inport of r { case(u, c), case(u, d) }; type j = inport of r { case(s.u.v, c), case(s.u.v, d) }; type r = record { u: @06z, s: s }; type s = record { u: @06z };
type @11i = inport of r { init(u.y), init(n.k) }; type @11j = inport of r { init(z), init(u.y) }; type k = inport of r { init(u.y), init(n) }; type r = record { u: @06z, n: integer };
type i = inport of r { case(a.b, p), case(ab, q) }; type r = record { a: s, ab: w }; type s = record { b: w }; type w = variant { p: integer, q: integer };
type @11i = inport of r { case(a, p), case(b, q), case(c, p), case(d, p), case(e, p), case(f, p), case(g, p), case(h, p), case(i, p), case(j, p), case(b, p) }; type j = inport of r { case(a, p), case(b, q), case(c, p), case(d, p), case(e, p), case(f, p), case(g, p), case(h, p), case(i, p), case(j, p), case(b, q) }; type r = record { a: w, b: w, c: w, d: w, e: w, f: w, g: w, h: w, i: w, j: w }; type w = variant { p: integer, q: integer };
type i = inport of r { init(z), case(z, p) }; type r = record { x: integer, c: c }; type @08c = record { x: c };
type i = inport of main_message { init(arg), init(out) }; type @11j = inport of main_message { init(out.x) }; type @11k = inport of main_message { init(in) };
type a = enum { p }; type @07a = inport of integer { init(x) }; type @07a = inport of a { full(p) };
type @11i = inport of w { case(p, p) }; type w = variant { p: integer };
";
    let count = have_their_faults(&rt, rt.alloc(), rows)?;
    assert_eq!(rt; count, 32);
    Ok(())
}

#[test]
fn kept_parameters_come_back(rt: HostRuntime) -> Result<(), Fail> {
    let rows = "\
type @11m = callmessage (in x: integer) raises (Overflow { full(x) });
type @11m = callmessage (out x: integer) raises (Overflow { full(y) });
type m = callmessage (out y: integer, inout x: integer) raises (Overflow { full(y), full(x) });
type @11m = callmessage (out y: integer) raises (Disconnected { full(y) });
type m = callmessage (out y: integer) raises (Disconnected, Overflow { full(y) });
type @11m = callmessage (in x: integer) raises (@06E { full(x) });
type @11i = inport of integer { full(x) }; type o = outport of @11i2; type i2 = enum { p }; type t = table of @10i2 key (p);
type @11m = callmessage (in x: integer, out @07x: integer) raises (Overflow { full(x) });
type @11m = callmessage (out y: integer) raises (Overflow, Disconnected { full(y) });
type m = callmessage (inout x: @06b) raises (Overflow { full(x) });
type @11m = callmessage (in x: @06b) raises (Overflow { full(x) });
type @11m = callmessage (out y: integer) raises (Disconnected { full(y), full(@07y) });
type @11m = callmessage (out y: integer) raises (Overflow { full(Y) });
type a = callmessage (out x: integer); type @11m = callmessage (out y: integer) raises (Overflow { full(y), full(x) });
exception Disconnect; type m = callmessage (out y: integer) raises (Disconnect { full(y) }, Disconnected);
exception @07Disconnected; type @11m = callmessage (out y: integer) raises (Disconnected { full(y) });
type @11m = callmessage (out y: integer) raises (Overflow { full(y) }, @07Overflow { full(z) });
type @11m = callmessage (out y: integer) raises (@06E { full(z) }); type n = callmessage (out y: integer) raises (@06E { full(y) });
type @11m = callmessage () raises (Overflow { full(y) });
type @11m = callmessage (out a: integer, out b: string, inout c: boolean, out d: integer, out e: integer, out f: integer, out g: integer, out h: integer, in i: integer, out j: integer) raises (Overflow { full(j), full(i) }); type n = callmessage (out a: integer, out b: string, inout c: boolean, out d: integer, out e: integer, out f: integer, out g: integer, out h: integer, in i: integer, out j: integer) raises (Overflow { full(j), full(a) });
";
    let count = have_their_faults(&rt, rt.alloc(), rows)?;
    assert_eq!(rt; count, 20);
    Ok(())
}

#[test]
fn faults_stand_in_the_order_of_the_text(rt: HostRuntime) -> Result<(), Fail> {
    let rows = "\
type a = record { x: b };|type b = record { y: a2 }; type a2 = enum { p };|type c = record { z: @06b2 };
type @08a = record { x: b };|type @08b = record { y: a, @07y: @06z };|type @07a = enum { p, @07p };
type a = record { x: b };~type b = enum { p }; type @07a = enum { p };
process p(s: main_start) { }|type a = record { x: @06b };|process q(s: nope) { }~process main(s: main_start) { }|type @07a = record { z: @06w };
type a = record { x: @06b };||type c = record { x: @06b };~|type e = outport of @11a; exception E;~exception @07E; type @08f = record { f: f };
process main(start: main_start) { }

type m = callmessage (in @11x: console, inout @07x: @06b, out y: @06c) raises (@06E { full(y), full(@07y) }, Overflow, @07Overflow); type t = table of @10m key (k, @07k);
";
    let count = have_their_faults(&rt, rt.alloc(), rows)?;
    assert_eq!(rt; count, 8);
    Ok(())
}
