//! Programs with what their processes come to: written by hand from the language reference.
use crate::{Most, Sums};
use herm_base::ExcNo;
use herm_steps::End;

/// A program, the limits of its run, how each of its processes is at the end, and the strings that it shows, each followed by `;`.
#[derive(Clone, Copy)]
pub struct Row {
    pub source: &'static str,
    pub most: Most,
    pub sums: &'static [Sums],
    pub shown: &'static str,
}

const AMPLE: Most = Most {
    steps: 100_000,
    processes: 4,
    ports: 8,
};

const NORMAL: Option<End> = Some(End::Normal);

/// One string.
const GREETING: Row = Row {
    source: "\
process main(start: main_start) { var m: main_message, s: string; receive m from start; s := \"hi\"; send s to m.out; }",
    most: AMPLE,
    sums: &[(NORMAL, 3, 3, 1, 0, 4)],
    shown: "hi;",
};

/// No statement: the start port is closed at once.
const EMPTY: Row = Row {
    source: "\
process main(start: main_start) { }",
    most: AMPLE,
    sums: &[(NORMAL, 0, 1, 0, 0, 4)],
    shown: "",
};

/// Quotients toward zero and their remainders; the least integer.
const QUOTIENTS: Row = Row {
    source: "\
process main(start: main_start) { var m: main_message, s: string, l: integer; receive m from start; \
s := text(7 div 2) & \",\" & text(-7 div 2) & \",\" & text(7 div -2) & \",\" & text(-7 div -2) & \",\" & text(7 mod 2) & \
\",\" & text(-7 mod 2) & \",\" & text(7 mod -2) & \",\" & text(-7 mod -2); send s to m.out; l := -9223372036854775807 - 1; \
s := text(l mod -1) & \",\" & text(l div 1) & \",\" & text(l + 9223372036854775807) & \",\" & \
text(3037000499 * 3037000499) & \",\" & text(2 + 3 * 4 - 5) & \",\" & text(-(l + 1)); send s to m.out; }",
    most: AMPLE,
    sums: &[(NORMAL, 6, 4, 3, 0, 5)],
    shown: "3,-3,-3,3,1,-1,1,-1;0,-9223372036854775808,-1,9223372030926249001,9,9223372036854775807;",
};

/// Every comparison, and the operators on truth values.
const COMPARISONS: Row = Row {
    source: "\
process main(start: main_start) { var m: main_message, s: string; receive m from start; \
if 1 < 2 and not (2 < 2) and 2 <= 2 and not (3 <= 2) and 3 > 2 and not (2 > 2) and 2 >= 2 and not (1 >= 2) and 2 = 2 and \
not (2 = 3) and 2 <> 3 and not (2 <> 2) and -5 < 3 and not (-3 < -5) and \"a\" < \"ab\" and \"Z\" < \"a\" and \
not (\"b\" <= \"ab\") and \"b\" > \"ab\" and \"\" <= \"\" and \"\" = \"\" and \"a\" <> \"b\" and not (\"a\" = \"b\") and \
true <> false and not (true = false) and (false or true) and not (false or false) and not (true and false) and \
length(\"\") = 0 and length(\"abc\") = 3 { s := \"all\"; } else { s := \"some\"; } send s to m.out; }",
    most: AMPLE,
    sums: &[(NORMAL, 4, 3, 1, 0, 4)],
    shown: "all;",
};

/// Names of an enumeration.
const NAMES: Row = Row {
    source: "\
definitions d { type colour = enum { red, green }; } process main(start: main_start) { var m: main_message, c: \
colour, b: boolean, s: string; receive m from start; c := colour#green; b := c = colour#green and c <> colour#red \
and not (c = colour#red); if b { s := \"green\"; } else { s := \"red\"; } send s to m.out; }",
    most: AMPLE,
    sums: &[(NORMAL, 6, 3, 3, 0, 6)],
    shown: "green;",
};

/// Results outside 64 bits, and divisors of 0: the target is as before.
const OVERFLOWS: Row = Row {
    source: "\
process main(start: main_start) { var m: main_message, s: string, l: integer, k: integer, n: integer, z: integer; \
receive m from start; l := -9223372036854775807 - 1; k := 0; n := 5; z := 0; try { n := l div -1; } on Overflow { \
k := k + 1; } try { n := l mod z; } on Overflow { k := k + 1; } try { n := 1 div z; } on Overflow { k := k + 1; } try { \
n := l - 1; } on Overflow { k := k + 1; } try { n := 9223372036854775807 + 1; } on Overflow { k := k + 1; } try { \
n := l * -1; } on Overflow { k := k + 1; } try { n := -l; } on Overflow { k := k + 1; } try { n := 3037000500 * 3037000500; \
} on Overflow { k := k + 1; } s := text(k) & \",\" & text(n); send s to m.out; }",
    most: AMPLE,
    sums: &[(NORMAL, 23, 3, 13, 0, 16)],
    shown: "8,5;",
};

/// The greatest and the least integer as results, and one beyond each.
const BOUNDS: Row = Row {
    source: "\
process main(start: main_start) { var m: main_message, s: string, n: integer, l: integer, k: integer; receive m from \
start; l := -9223372036854775807 - 1; n := 9223372036854775806 + 1; s := text(n) & \",\" & text(4611686018427387904 * \
-2) & \",\" & text(-4611686018427387904 * 2) & \",\" & text(l div 2) & \",\" & text(l mod 9223372036854775807) & \",\" & \
text(9223372036854775807 mod l) & \",\" & text(l - l); send s to m.out; k := 0; try { n := l + -1; } on Overflow { k \
:= k + 1; } try { n := 9223372036854775807 - -1; } on Overflow { k := k + 1; } try { n := 0 - l; } on Overflow { k \
:= k + 1; } try { n := 4611686018427387904 * 2; } on Overflow { k := k + 1; } try { n := 4611686018427387905 * -2; } \
on Overflow { k := k + 1; } try { n := l * 2; } on Overflow { k := k + 1; } s := text(k) & \",\" & text(n); send s to \
m.out; }",
    most: AMPLE,
    sums: &[(NORMAL, 20, 4, 11, 0, 13)],
    shown: "9223372036854775807,-9223372036854775808,-9223372036854775808,-4611686018427387904,-1,9223372036854775807,0;6,9223372036854775807;",
};

/// Both operands of `or` and `and` are evaluated.
const BOTH: Row = Row {
    source: "\
process main(start: main_start) { var m: main_message, s: string, k: integer, z: integer, b: boolean; receive m from start; \
k := 0; z := 0; try { b := true or 1 div z = 0; } on Overflow { k := k + 1; } try { b := false and 1 div z = 0; } \
on Overflow { k := k + 1; } s := text(k); send s to m.out; }",
    most: AMPLE,
    sums: &[(NORMAL, 9, 3, 5, 0, 8)],
    shown: "2;",
};

/// A string of 4,096 bytes, and none longer.
const LONGEST: Row = Row {
    source: "\
process main(start: main_start) { var m: main_message, s: string, t: string, u: string, k: integer, n: integer; \
receive m from start; s := \"x\"; k := 0; while k < 12 { s := s & s; k := k + 1; } n := length(s); t := s & \"\"; try { \
t := s & \"y\"; } on Depletion { k := k + 1; } u := text(n) & \",\" & text(length(t)) & \",\" & text(k); send u to m.out; }",
    most: AMPLE,
    sums: &[(NORMAL, 46, 3, 30, 0, 33)],
    shown: "4096,4096,13;",
};

/// A string of 4,095 bytes takes one byte more on either side, and not two.
const NEAREST: Row = Row {
    source: "\
process main(start: main_start) { var m: main_message, s: string, t: string, u: string, k: integer; receive m from \
start; s := \"x\"; k := 0; while k < 11 { s := s & s & \"x\"; k := k + 1; } t := s & \"y\"; u := text(length(s)) & \",\" & \
text(length(t)); send u to m.out; t := \"y\" & s; u := text(length(t)); send u to m.out; try { t := s & \"yz\"; } on \
Depletion { k := k + 1; } try { t := \"yz\" & s; } on Depletion { k := k + 1; } try { t := s & s; } on Depletion { k \
:= k + 1; } try { if length(s & \"yz\") > 0 { k := 0; } } on Depletion { k := k + 1; } u := text(length(t)) & \",\" & \
text(k); send u to m.out; }",
    most: AMPLE,
    sums: &[(NORMAL, 53, 5, 33, 0, 34)],
    shown: "4095,4096;4096;4096,15;",
};

/// Records: copies, moves of parts, and what is discarded.
const RECORDS: Row = Row {
    source: "\
definitions d { type pair = record { a: integer, b: string }; type twice = record { x: pair, y: pair }; } \
process main(start: main_start) { var m: main_message, p: pair, q: pair, t: twice, s: string; receive m from start; new p; \
p.a := 1; p.b := \"u\"; q := p; q.a := 2; new t; move p to t.x; t.y := q; move t.x to p; \
s := text(p.a) & p.b & text(q.a) & text(t.y.a); send s to m.out; discard t; discard q.b; }",
    most: AMPLE,
    sums: &[(NORMAL, 14, 3, 12, 0, 15)],
    shown: "1u22;",
};

/// Tables: a key that is there and one that is not, rows in the order of insertion, and a loop that is left early.
const TABLES: Row = Row {
    source: "\
definitions d { type row = record { k: integer, w: string }; type rows = table of row key (k); } \
process main(start: main_start) { var m: main_message, t: rows, r: row, n: integer, s: string; receive m from start; new t; \
n := 1; while n <= 3 { new r; r.k := n; r.w := \"w\" & text(n); insert r into t; n := n + 1; } new r; r.k := 2; \
r.w := \"d\"; try { insert r into t; } on DuplicateKey { s := r.w; send s to m.out; } try { remove r from t[2]; \
s := r.w & text(size(t)); send s to m.out; } on NotFound { } try { get r from t[3]; s := r.w & text(size(t)); \
send s to m.out; } on NotFound { } try { get r from t[2]; } on NotFound { s := \"none\"; send s to m.out; } try { \
remove r from t[7]; } on NotFound { s := \"gone\"; send s to m.out; } new r; r.k := 2; r.w := \"z\"; insert r into t; \
for r in t { s := r.w; send s to m.out; } n := 0; for r in t { n := n + 1; if n = 2 { leave; } } }",
    most: AMPLE,
    sums: &[(NORMAL, 62, 10, 52, 0, 48)],
    shown: "d;w22;w32;none;gone;w1;w3;z;",
};

/// A key of two fields.
const KEYS: Row = Row {
    source: "\
definitions d { type row = record { k: string, b: boolean, n: integer }; type rows = table of row key (k, b); } \
process main(start: main_start) { var m: main_message, t: rows, r: row, n: integer, k: string, s: string; receive m \
from start; new t; new r; r.k := \"a\"; r.b := true; r.n := 1; insert r into t; new r; r.k := \"a\"; r.b := false; r.n \
:= 2; insert r into t; k := \"a\"; try { get r from t[k, false]; n := r.n; remove r from t[\"a\", true]; s := text(n) & \
text(r.n) & text(size(t)); send s to m.out; } on NotFound { } try { get r from t[\"b\", true]; } on NotFound { s := \
\"none\"; send s to m.out; } }",
    most: AMPLE,
    sums: &[(NORMAL, 21, 4, 17, 0, 19)],
    shown: "211;none;",
};

/// Two loops that an exception leaves: the rows that they have not visited are finalised. One over no rows is not entered.
const LEFT: Row = Row {
    source: "\
definitions d { type row = record { k: integer, w: string }; type rows = table of row key (k); } process main(start: \
main_start) { var m: main_message, t: rows, r: row, q: row, n: integer, s: string; receive m from start; new t; for \
r in t { n := 0; } n := 1; while n <= 3 { new r; r.k := n; r.w := \"w\"; insert r into t; n := n + 1; } try { for r in \
t { for q in t { if q.k = 2 { raise NotFound; } } } } on NotFound { s := text(r.k) & text(q.k); send s to m.out; \
receive m from start; } }",
    most: AMPLE,
    sums: &[(None, 31, 2, 33, 21, 15)],
    shown: "12;",
};

/// A table of 4,096 rows takes no more.
const FULL_TABLE: Row = Row {
    source: "\
definitions d { type row = record { k: integer, w: string }; type rows = table of row key (k); } \
process main(start: main_start) { var m: main_message, t: rows, r: row, n: integer, s: string; receive m from start; new t; \
n := 0; while n < 4096 { new r; r.k := n; r.w := \"\"; insert r into t; n := n + 1; } new r; r.k := n; r.w := \"\"; try { \
insert r into t; } on Depletion { s := text(size(t)); send s to m.out; } }",
    most: AMPLE,
    sums: &[(NORMAL, 24586, 3, 16390, 0, 16393)],
    shown: "4096;",
};

/// A process to which a table is to come.
const KEEPING: &str = "\
definitions d { type row = record { k: integer, w: string }; type rows = table of row key (k); \
type rows_in = inport of rows; } \
process keeper(start: rows_in) { var t: rows, r: row; receive t from start; new r; r.k := 2; r.w := \"n\"; insert r into t; \
get r from t[1]; get r from t[2]; } \
process main(start: main_start) { }";

/// The table comes in: a row more, and both are found by their first fields.
const KEEPS: Row = Row {
    source: KEEPING,
    most: AMPLE,
    sums: &[(NORMAL, 7, 2, 9, 0, 14)],
    shown: "",
};

/// A string comes in: it is put aside, and the process waits on.
const PUTS_ASIDE: Row = Row {
    source: KEEPING,
    most: AMPLE,
    sums: &[(None, 0, 1, 0, 1, 0)],
    shown: "",
};

/// Variants and polymorphs: of the other component, and of the other type.
const VARIANTS: Row = Row {
    source: "\
definitions d { type shape = variant { circle: integer, square: string }; } \
process main(start: main_start) { var m: main_message, v: shape, p: polymorph, n: integer, s: string; receive m from start; \
n := 5; unite v.circle from n; case v { when circle { s := text(v.circle); send s to m.out; } when square { } } try { \
reveal v.square; } on CaseError { s := \"no\"; send s to m.out; } reveal v.circle; dissolve v.circle into n; wrap n as p; \
try { unwrap p as string into s; } on PolymorphMismatch { unwrap p as integer into n; s := text(n); send s to m.out; } }",
    most: AMPLE,
    sums: &[(NORMAL, 16, 5, 6, 0, 7)],
    shown: "5;no;5;",
};

/// The other arm of a `case`, and a variant in place of one.
const SECOND_ARM: Row = Row {
    source: "\
definitions d { type shape = variant { circle: integer, square: string }; } process main(start: main_start) { var m: \
main_message, v: shape, n: integer, s: string; receive m from start; n := 5; unite v.circle from n; s := \"sq\"; unite \
v.square from s; case v { when circle { s := \"no\"; } when square { s := v.square & \"!\"; } } send s to m.out; try { \
reveal v.circle; } on CaseError { } reveal v.square; dissolve v.square into s; send s to m.out; }",
    most: AMPLE,
    sums: &[(NORMAL, 12, 4, 5, 0, 7)],
    shown: "sq!;sq;",
};

/// A polymorph of depth 16 is wrapped no more.
const DEEPEST: Row = Row {
    source: "\
process main(start: main_start) { var m: main_message, p: polymorph, q: polymorph, n: integer, k: integer, s: string; \
receive m from start; n := 1; wrap n as p; k := 1; while k < 16 { wrap p as q; move q to p; k := k + 1; } try { \
wrap p as q; } on Depletion { s := \"deep\"; send s to m.out; } }",
    most: AMPLE,
    sums: &[(NORMAL, 68, 3, 34, 0, 37)],
    shown: "deep;",
};

/// Ports: the first of two that has a message, and one that is closed.
const PORTS: Row = Row {
    source: "\
definitions d { type num_in = inport of integer; type num_out = outport of num_in; } \
process main(start: main_start) { var m: main_message, i: num_in, j: num_in, o: num_out, u: num_out, n: integer, s: string; \
receive m from start; new i; connect o to i; new j; connect u to j; n := 7; send n to u; select { when i receive n { \
s := \"i\"; } when j receive n { s := \"j\" & text(n); } } send s to m.out; discard i; n := 8; try { send n to o; } \
on Disconnected { s := text(n); send s to m.out; } }",
    most: AMPLE,
    sums: &[(NORMAL, 15, 11, 8, 0, 10)],
    shown: "j7;8;",
};

/// Two ports of which each has a message: that of the first arm comes first.
const FIRST_ARM: Row = Row {
    source: "\
definitions d { type num_in = inport of integer; type num_out = outport of num_in; } process main(start: main_start) \
{ var m: main_message, i: num_in, j: num_in, o: num_out, u: num_out, n: integer, s: string; receive m from start; \
new i; connect o to i; new j; connect u to j; n := 7; send n to u; n := 8; send n to o; select { when i receive n { \
s := \"i\" & text(n); } when j receive n { s := \"j\" & text(n); } } send s to m.out; select { when i receive n { s := \
\"i\" & text(n); } when j receive n { s := \"j\" & text(n); } } send s to m.out; }",
    most: AMPLE,
    sums: &[(NORMAL, 15, 12, 8, 0, 10)],
    shown: "i8;j7;",
};

/// A port in place of one, and a record with a port in place of one: the old ports are closed, with what waits there.
const REPLACED: Row = Row {
    source: "\
definitions d { type num_in = inport of integer; type num_out = outport of num_in; type holder = record { a: \
integer, p: num_in }; } process main(start: main_start) { var m: main_message, i: num_in, o: num_out, h: holder, n: \
integer, s: string; receive m from start; new i; connect o to i; n := 3; send n to o; new i; new h; h.a := 1; move i \
to h.p; new h; n := 4; try { send n to o; } on Disconnected { s := text(n); send s to m.out; } }",
    most: AMPLE,
    sums: &[(NORMAL, 14, 9, 9, 0, 12)],
    shown: "4;",
};

/// A message goes with its declared facts: what it holds beyond them is finalised, also where the port is closed.
const TRIMMED: Row = Row {
    source: "\
definitions d { type pair = record { a: integer, b: string }; type half_in = inport of pair { init(a) }; type \
half_out = outport of half_in; } process half(start: half_in) { var p: pair; receive p from start; p.b := text(p.a); \
} process main(start: main_start) { var m: main_message, o: half_out, i: half_in, u: half_out, p: pair; receive m \
from start; create o of half; new p; p.a := 1; p.b := \"b\"; send p to o; new i; connect u to i; new p; p.a := 2; p.b \
:= \"c\"; discard i; try { send p to u; } on Disconnected { receive m from start; } }",
    most: AMPLE,
    sums: &[(None, 13, 6, 10, 8, 3), (NORMAL, 2, 2, 1, 0, 4)],
    shown: "",
};

/// No more ports than the limit says.
const MOST_PORTS: Row = Row {
    source: "\
definitions d { type num_in = inport of integer; type num_out = outport of num_in; } \
process main(start: main_start) { var m: main_message, i: num_in, j: num_in, s: string; receive m from start; new i; try { \
new j; } on Depletion { s := \"full\"; send s to m.out; } }",
    most: Most {
        steps: 100_000,
        processes: 4,
        ports: 2,
    },
    sums: &[(NORMAL, 5, 6, 2, 0, 5)],
    shown: "full;",
};

/// A process is made, with its port.
const CHILD: Row = Row {
    source: "\
definitions d { type num_in = inport of integer; type num_out = outport of num_in; } \
process child(start: num_in) { var n: integer; receive n from start; n := n + 1; } \
process main(start: main_start) { var m: main_message, o: num_out, n: integer; receive m from start; create o of child; \
n := 4; send n to o; }",
    most: AMPLE,
    sums: &[(NORMAL, 4, 4, 3, 0, 5), (NORMAL, 2, 2, 1, 0, 3)],
    shown: "",
};

/// No more processes than the limit says.
const NO_PROCESS: Row = Row {
    source: "\
definitions d { type num_in = inport of integer; type num_out = outport of num_in; } process child(start: num_in) { \
} process main(start: main_start) { var m: main_message, o: num_out, s: string; receive m from start; try { create o \
of child; } on Depletion { s := \"full\"; send s to m.out; } }",
    most: Most {
        steps: 100_000,
        processes: 1,
        ports: 8,
    },
    sums: &[(NORMAL, 4, 4, 1, 0, 4)],
    shown: "full;",
};

/// A call that returns: the argument that goes and comes back, and the one that comes back.
const RETURNED: Row = Row {
    source: "\
definitions d { exception bad; type ask = callmessage (in q: integer, inout w: integer, out r: string) raises (bad { \
full(w) }); type ask_in = inport of ask; type ask_out = outport of ask_in; } \
process adder(start: ask_in) { var c: ask; receive c from start; c.w := c.w + c.q; c.r := \"sum\"; return c; } \
process main(start: main_start) { var m: main_message, o: ask_out, w: integer, r: string, s: string; receive m from start; \
create o of adder; w := 2; call o(3, w, r); s := r & text(w); send s to m.out; }",
    most: AMPLE,
    sums: &[(NORMAL, 6, 6, 6, 0, 7), (NORMAL, 4, 3, 2, 0, 4)],
    shown: "sum5;",
};

/// A call that is answered with an exception, which keeps one parameter: the other argument loses what it holds.
const RAISED: Row = Row {
    source: "\
definitions d { exception bad; type ask = callmessage (in q: integer, inout w: integer, out r: string) raises (bad { \
full(w) }); type ask_in = inport of ask; type ask_out = outport of ask_in; } \
process raiser(start: ask_in) { var c: ask; receive c from start; c.w := 9; c.r := \"lost\"; return c exception bad; } \
process main(start: main_start) { var m: main_message, o: ask_out, w: integer, r: string, s: string; receive m from start; \
create o of raiser; w := 2; r := \"old\"; try { call o(3, w, r); } on bad { s := text(w); send s to m.out; } }",
    most: AMPLE,
    sums: &[(NORMAL, 7, 6, 7, 0, 7), (NORMAL, 4, 3, 2, 0, 5)],
    shown: "9;",
};

/// A callmessage that is discarded is answered from the work list.
const DISCARDED: Row = Row {
    source: "\
definitions d { type ask = callmessage (in q: string, inout w: string); type ask_in = inport of ask; \
type ask_out = outport of ask_in; type cell = record { k: integer, c: ask }; type cells = table of cell key (k); } \
process drop(start: ask_in) { var c: ask; receive c from start; discard c; } \
process main(start: main_start) { var m: main_message, o: ask_out, q: string, w: string; receive m from start; \
create o of drop; q := \"q\"; w := \"w\"; try { call o(q, w); } on Disconnected { send q to m.out; } }",
    most: AMPLE,
    sums: &[(NORMAL, 6, 6, 6, 0, 5), (NORMAL, 2, 3, 0, 0, 4)],
    shown: "q;",
};

/// So is one in a row of a table.
const DISCARDED_IN_A_TABLE: Row = Row {
    source: "\
definitions d { type ask = callmessage (in q: string, inout w: string); type ask_in = inport of ask; \
type ask_out = outport of ask_in; type cell = record { k: integer, c: ask }; type cells = table of cell key (k); } \
process drop(start: ask_in) { var c: ask, x: cell, t: cells; receive c from start; new x; x.k := 1; move c to x.c; new t; \
insert x into t; discard t; } \
process main(start: main_start) { var m: main_message, o: ask_out, q: string, w: string; receive m from start; \
create o of drop; q := \"q\"; w := \"w\"; try { call o(q, w); } on Disconnected { send q to m.out; } }",
    most: AMPLE,
    sums: &[(NORMAL, 6, 6, 6, 0, 5), (NORMAL, 7, 3, 3, 0, 7)],
    shown: "q;",
};

/// A call to a closed port: its message comes back, and nothing is answered.
const SENT_BACK: Row = Row {
    source: "\
definitions d { exception bad; type ask = callmessage (in q: integer, inout w: integer, out r: string) raises (bad { \
full(w) }); type ask_in = inport of ask; type ask_out = outport of ask_in; } \
process main(start: main_start) { var m: main_message, i: ask_in, o: ask_out, w: integer, r: string, s: string; \
receive m from start; new i; connect o to i; discard i; w := 2; r := \"old\"; try { call o(3, w, r); } on Disconnected { \
s := \"off\"; send s to m.out; } }",
    most: AMPLE,
    sums: &[(NORMAL, 9, 6, 7, 0, 10)],
    shown: "off;",
};

/// An exception that nothing handles ends a process.
const RAISES: Row = Row {
    source: "\
process main(start: main_start) { var m: main_message, s: string; raise Overflow; }",
    most: AMPLE,
    sums: &[(Some(End::By(ExcNo(0))), 1, 1, 0, 0, 4)],
    shown: "",
};

/// A loop without end comes to its limit of steps.
const TURNS: Row = Row {
    source: "\
process main(start: main_start) { while true { } }",
    most: Most {
        steps: 50,
        processes: 4,
        ports: 8,
    },
    sums: &[(None, 50, 0, 0, 1, 0)],
    shown: "",
};

/// A limit of steps that is reached: what is held then stays.
const STOPPED: Row = Row {
    source: "\
process main(start: main_start) { var m: main_message, x: string; receive m from start; if m.arg = \"\" { x := \"a\"; } \
discard m; }",
    most: Most {
        steps: 3,
        processes: 4,
        ports: 8,
    },
    sums: &[(None, 3, 1, 1, 4, 1)],
    shown: "",
};

/// The same with ample steps.
const JOINED: Row = Row {
    source: "\
process main(start: main_start) { var m: main_message, x: string; receive m from start; if m.arg = \"\" { x := \"a\"; } \
discard m; }",
    most: AMPLE,
    sums: &[(NORMAL, 4, 2, 1, 0, 5)],
    shown: "",
};

/// A message that never comes: the process waits.
const NEVER: Row = Row {
    source: "\
definitions d { type num_in = inport of integer; type num_out = outport of num_in; } \
process main(start: main_start) { var m: main_message, i: num_in, n: integer; receive m from start; new i; \
receive n from i; }",
    most: AMPLE,
    sums: &[(None, 2, 2, 1, 5, 0)],
    shown: "",
};

const ROWS: [Row; 35] = [
    GREETING,
    EMPTY,
    QUOTIENTS,
    COMPARISONS,
    NAMES,
    OVERFLOWS,
    BOUNDS,
    BOTH,
    LONGEST,
    NEAREST,
    RECORDS,
    TABLES,
    KEYS,
    LEFT,
    FULL_TABLE,
    VARIANTS,
    SECOND_ARM,
    DEEPEST,
    PORTS,
    FIRST_ARM,
    REPLACED,
    TRIMMED,
    MOST_PORTS,
    CHILD,
    NO_PROCESS,
    RETURNED,
    RAISED,
    DISCARDED,
    DISCARDED_IN_A_TABLE,
    SENT_BACK,
    RAISES,
    TURNS,
    STOPPED,
    JOINED,
    NEVER,
];

/// The message that comes to the process that keeps a table.
#[derive(Clone, Copy)]
pub enum Arrival {
    /// A table whose key is another field than that of the type.
    Table,
    /// A string, of another type.
    Text,
}

/// What becomes of the process to which this message comes.
pub fn row_at(arrival: Arrival) -> Row {
    match arrival {
        Arrival::Table => KEEPS,
        Arrival::Text => PUTS_ASIDE,
    }
}

/// The row of a number, from 0 on; none behind the last.
pub fn row_of(number: usize) -> Option<Row> {
    ROWS.get(number).copied()
}
