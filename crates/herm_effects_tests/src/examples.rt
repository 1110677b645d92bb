//! Definitions with types of every shape, and variables of these types.

/// Stands before the statement of a row. The exceptions `e` and `f` have the numbers 7 and 8.
pub const BEFORE: &str = "\
definitions example {
exception e;
exception f;
type inner = record { k: integer, l: string };
type rec = record { n: inner, s: string };
type var_t = variant { a: integer, b: rec };
type box = record { v: var_t, i: integer };
type vv = variant { c: box, d: integer };
type tab = table of inner key (k);
type li = inport of rec { init(s), full(n) };
type lo = outport of li;
type ci = inport of box { case(v, b) };
type co = outport of ci;
type si = inport of string;
type so = outport of si;
type ask = callmessage (in q: string, inout w: inner, out r: integer) raises (e { full(w) }, f);
type ai = inport of ask;
type ao = outport of ai;
type back = callmessage (out a: string, inout b: rec, in c: string, out d: integer) raises (f, e { full(a), full(d) });
type bi = inport of back;
type bo = outport of bi;
type nest = record { p: polymorph, t: tab, v: var_t, r: rec, lo: lo, q: ask, li: li };
}
process main(start: main_start) { var i: integer, s: string, b: boolean, r: rec, k: rec, n: inner, v: var_t, x: box, u: vv, t: tab, li: li, lo: lo, \
ci: ci, co: co, so: so, q: ask, ao: ao, bo: bo, p: polymorph, z: nest; ";

/// Stands behind the statement of a row.
pub const BEHIND: &str = " } process worker(start: li) { }";
