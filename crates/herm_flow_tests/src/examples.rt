//! Definitions with types of every shape, and variables of these types.

/// Stands before each process.
pub const DEFINITIONS: &str = "\
definitions example {
exception e;
type color = enum { red, green };
type rec = record { n: integer, s: string };
type var_t = variant { a: integer, b: rec };
type tab = table of rec key (n, s);
type li = inport of integer;
type lo = outport of li;
type ask = callmessage (in q: string, inout w: string, out r: integer) raises (e);
type ask_in = inport of ask;
type ask_out = outport of ask_in;
type pi = inport of polymorph;
type pr = record { p: polymorph, n: integer };
type pt = table of pr key (n);
type cv = variant { c: ask };
type vr = record { v: var_t };
type pair = callmessage (inout a: rec, out b: string, in c: string, out d: rec);
type pair_in = inport of pair;
type pair_out = outport of pair_in;
exception f;
exception g;
exception h;
type many = callmessage (out r: integer, out s: integer) raises (e { full(r) }, g { full(s) }, f { full(r) }, h { full(r) });
type many_in = inport of many;
type many_out = outport of many_in;
type each = callmessage (out r: integer, out s: integer) raises (e { full(r) }, f { full(s) }, g);
type each_in = inport of each;
type each_out = outport of each_in;
type two = record { m: integer, n: integer };
type given = callmessage (in q: string, out r: integer, out s: integer) raises (e { full(r) }, f { full(s) }, g { full(r) });
type given_in = inport of given;
type given_out = outport of given_in;
type read = callmessage (in q: two, out r: integer, out s: integer) raises (e { full(r) }, f { full(r) }, g { full(s) }, h { full(r) });
type read_in = inport of read;
type read_out = outport of read_in;
type three = record { a: integer, b: integer, c: integer };
type pairs = callmessage (out x: integer, out y: integer, out z: integer) raises (e { full(x), full(y) }, f { full(y), full(z) }, g { full(x), full(z) }, h { full(x) });
type pairs_in = inport of pairs;
type pairs_out = outport of pairs_in;
}
";

/// Stands before the statements of a row.
pub const BEFORE: &str = "\
process main(start: main_start) { var i: integer, j: integer, s: string, t: string, b: boolean, c: color, r: rec, k: rec, v: var_t, w: var_t, \
x: tab, li: li, lo: lo, q: ask, ai: ask_in, ao: ask_out, p: polymorph, o: polymorph, pr: pr, pt: pt, cv: cv, vr: vr, po: pair_out, mo: many_out, lj: li, ro: each_out, u: two, go: given_out, wo: read_out, so: pairs_out, z: three; ";

/// Stands behind the statements of a row.
pub const BEHIND: &str = " }\n\
process worker(start: li) { }";
