//! Definitions with types of every shape, and variables of these types.

/// Stands before the process of a row.
pub const DEFINITIONS: &str = "\
definitions example {
exception busy;
exception late;
type rec = record { k: integer, s: string };
type nest = record { a: rec, b: integer };
type choice = variant { i: integer, r: rec };
type outer = variant { c: choice, n: integer };
type hold = record { v: choice, n: integer };
type box = record { p: polymorph, n: integer };
type tab = table of rec key (k);
type two = table of rec key (k, s);
type li = inport of integer;
type lo = outport of li;
type ri = inport of rec { init(k) };
type ro = outport of ri;
type fi = inport of rec;
type fo = outport of fi;
type hi = inport of hold { case(v, i) };
type ho = outport of hi;
type wi = inport of nest { full(a) };
type wo = outport of wi;
type ask = callmessage (in q: string, inout w: string, out r: integer) raises (busy { full(w) }, late);
type ask_in = inport of ask;
type ask_out = outport of ask_in;
type big = callmessage (in q: integer, inout a: rec, out b: rec) raises (late { full(b), full(a) }, busy { full(b) });
type big_in = inport of big;
type big_out = outport of big_in;
type ends = record { i: li, o: lo };
type way = variant { l: li, o: lo, t: tab, a: ask_out, k: ask };
type holds = table of hold key (n);
type ci = inport of choice;
type swap = callmessage (inout v: choice, out u: choice) raises (busy { full(u) });
type swap_in = inport of swap;
type swap_out = outport of swap_in;
}
";

/// Stands before the statements of a row: the first statement of the process `main`.
pub const BEFORE: &str = "\
process main(start: main_start) { var m: main_message, x: string, y: string, n: integer, j: integer, b: boolean, r: rec, q: rec, w: nest, \
v: choice, z: choice, u: outer, h: hold, k: hold, p: polymorph, d: box, t: tab, tt: two, li: li, lo: lo, ri: ri, ro: ro, fi: fi, fo: fo, \
hi: hi, ho: ho, wi: wi, wo: wo, c: ask, a: ask, g: big, ai: ask_in, ao: ask_out, bi: big_in, bo: big_out, e: ends, f: way, \
hs: holds, ci: ci, so: swap_out; \
receive m from start; ";

/// Stands behind the statements of a row.
pub const BEHIND: &str = "\
} process worker(start: li) { } process asked(start: ask_in) { } process bigger(start: big_in) { } process swapper(start: swap_in) { }";
