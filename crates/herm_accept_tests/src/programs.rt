//! Whole programs: those that the rules are explained by, and refusals in several processes.
use crate::rows::programs_lack_what_is_due;
use std::test::Fail;

#[test]
fn one_process_and_its_callee(rt: HostRuntime) -> Result<(), Fail> {
    let rows = "\
process main(start: main_start) { var m: main_message, s: string; receive m from start; s := \"hi\"; send s to m.out; }
process main(start: main_start) { var m: main_message, s: string; receive m from start; @send s to m.out; } ! 2 needs init(s) by start 1:ok
process main(start: main_start) { var m: main_message, s: string; receive m from start; s := \"hi\"; send s to m.out; @send s to m.out; \
} ! 4 needs init(s) by start 1:ok 2:ok 3:ok
process main(start: main_start) { }
process main(start: main_start) { var m: main_message, x: string; receive m from start; if m.arg = \"\" { x := \"a\"; } @send x to m.out; \
} ! 4 needs init(x) by start 1:ok 2:false
process main(start: main_start) { var m: main_message, x: string; receive m from start; if m.arg = \"\" { x := \"a\"; } discard m; }
process main(start: main_start) { var m: main_message, x: string; receive m from start; x := \"a\"; while true { @send x to m.out; } \
} ! 4 needs init(x) by start 1:ok 2:ok 3:true 4:ok 3:true
definitions d { type row = record { k: integer }; type rows = table of row key (k); } \
process main(start: main_start) { var m: main_message, r: row, t: rows, s: string; receive m from start; new t; new r; r.k := 1; try { \
insert r into t; new r; r.k := 1; insert r into t; } on DuplicateKey { s := text(r.k); send s to m.out; } }
definitions d { type row = record { k: integer }; type rows = table of row key (k); } \
process main(start: main_start) { var m: main_message, r: row, t: rows, s: string; receive m from start; new t; new r; r.k := 1; try { \
insert r into t; @s := text(r.k); } on DuplicateKey { discard r; } \
} ! 7 needs init(r) by start 1:ok 2:ok 3:ok 4:ok 6:ok ! 7 needs init(r.k) by start 1:ok 2:ok 3:ok 4:ok 6:ok
definitions d { type row = record { k: integer }; type rows = table of row key (k); } \
process main(start: main_start) { var m: main_message, r: row, t: rows, s: string; receive m from start; new t; new r; r.k := 1; \
insert r into t; new r; r.k := 2; insert r into t; for r in t { s := text(r.k); send s to m.out; leave; } }
definitions d { type ask = callmessage (in q: string, inout w: string); type ask_in = inport of ask; type ask_out = outport of ask_in; } \
process drop(start: ask_in) { var c: ask; receive c from start; discard c; } \
process main(start: main_start) { var m: main_message, o: ask_out, q: string, w: string; receive m from start; create o of drop; q := \"q\"; \
w := \"w\"; try { call o(q, w); } on Disconnected { send q to m.out; } }
definitions d { type ask = callmessage (in q: string, inout w: string); type ask_in = inport of ask; type ask_out = outport of ask_in; } \
process drop(start: ask_in) { var c: ask; receive c from start; discard c; } \
process main(start: main_start) { var m: main_message, o: ask_out, q: string, w: string; receive m from start; create o of drop; q := \"q\"; \
w := \"w\"; try { call o(q, w); } on Disconnected { @send w to m.out; } } ! 1/7 needs init(w) by start 1:ok 2:ok 3:ok 4:ok 6:Disconnected
definitions d { type ask = callmessage (in q: string, inout w: string); type ask_in = inport of ask; type ask_out = outport of ask_in; } \
process drop(start: ask_in) { var c: ask; receive c from start; return c; } \
process main(start: main_start) { var m: main_message, o: ask_out, q: string, w: string; receive m from start; create o of drop; q := \"q\"; \
w := \"w\"; try { call o(q, w); send w to m.out; } on Disconnected { send q to m.out; } }
definitions d { type v = variant { a: integer, b: string }; } \
process main(start: main_start) { var x: v, z: v, y: integer; y := 7; unite x.a from y; move x to z; @dissolve z.a into y; \
} ! 4 needs case(z,a) by start 1:ok 2:ok 3:ok
definitions d { type v = variant { a: integer, b: string }; } \
process main(start: main_start) { var x: v, z: v, y: integer; y := 7; unite x.a from y; move x to z; reveal z.a; dissolve z.a into y; }
definitions d { type v = variant { a: integer, b: string }; } \
process main(start: main_start) { var m: main_message, x: v, y: integer, z: v; receive m from start; y := 1; unite x.a from y; move x to z; \
@dissolve z.a into y; } ! 5 needs case(z,a) by start 1:ok 2:ok 3:ok 4:ok
process main(start: main_start) { var m: main_message, p: polymorph, q: polymorph, n: integer, s: string; receive m from start; n := 0; wrap n as p; \
n := 1; try { while true { wrap p as q; move q to p; n := n + 1; } } on Depletion { s := text(n); send s to m.out; } }
";
    let count = programs_lack_what_is_due(&rt, rt.alloc(), rows)?;
    assert_eq!(rt; count, 17);
    Ok(())
}

#[test]
fn several_processes_in_order(rt: HostRuntime) -> Result<(), Fail> {
    let rows = "\
definitions d { type li = inport of integer; } \
process main(start: main_start) { var m: main_message, a: li, b: li, c: li, s: string; receive m from start; try { new a; new b; new c; \
} on Depletion { s := \"full\"; send s to m.out; } }
definitions d { type loop_in = inport of polymorph; type loop_out = outport of loop_in; } \
process main(start: main_start) { var i: loop_in, o: loop_out, p: polymorph; new i; connect o to i; wrap i as p; send p to o; }
definitions d { type li = inport of integer; type lo = outport of li; type pi = inport of polymorph; type po = outport of pi; } \
process main(start: main_start) { var a: pi, ao: po, b: li, bo: lo, n: integer, p: polymorph; new a; connect ao to a; new b; connect bo to b; \
n := 1; send n to bo; n := 2; send n to bo; n := 3; wrap n as p; send p to ao; wrap b as p; send p to ao; n := 4; wrap n as p; send p to ao; \
discard a; }
definitions d { type ask = callmessage (inout w: string); type ask_in = inport of ask; type ask_out = outport of ask_in; \
type boot = record { mine: ask_in, peer: ask_out }; type boot_in = inport of boot; type boot_out = outport of boot_in; } \
process peer(start: boot_in) { var b: boot, w: string; receive b from start; w := \"b\"; call b.peer(w); } \
process main(start: main_start) { var i: ask_in, b: boot, o: ask_out, p: boot_out, w: string; new b; new i; connect b.peer to i; new b.mine; \
connect o to b.mine; create p of peer; send b to p; w := \"a\"; call o(w); }
definitions d { type li = inport of integer; } \
process main(start: main_start) { var a: li, b: li, n: integer; new a; new b; select { when b receive n { } when a receive n { } } }
process main(start: main_start) { while true { } }
process main(start: main_start) { var n: integer; n := 9223372036854775807; n := n + 1; }
definitions d { type li = inport of integer; type lo = outport of li; } \
process idle(start: li) { } \
process main(start: main_start) { var m: main_message, o: lo; receive m from start; create o of idle; }
definitions d { exception Busy; type ask = callmessage (in q: string, inout w: string) raises (Busy {full(w)}); type ask_in = inport of ask; \
type ask_out = outport of ask_in; } \
process deny(start: ask_in) { var c: ask; receive c from start; return c exception Busy; } \
process main(start: main_start) { var m: main_message, o: ask_out, q: string, w: string; receive m from start; create o of deny; q := \"q\"; \
w := \"w\"; try { call o(q, w); } on Busy { send w to m.out; } on Disconnected { send q to m.out; } }
definitions d { exception Busy; type ask = callmessage (in q: string, inout w: string) raises (Busy); type ask_in = inport of ask; \
type ask_out = outport of ask_in; } \
process deny(start: ask_in) { var c: ask; receive c from start; return c exception Busy; } \
process main(start: main_start) { var m: main_message, o: ask_out, q: string, w: string; receive m from start; create o of deny; q := \"q\"; \
w := \"w\"; try { call o(q, w); } on Busy { @send w to m.out; } on Disconnected { send q to m.out; } \
} ! 1/7 needs init(w) by start 1:ok 2:ok 3:ok 4:ok 6:Busy
definitions d { exception Busy; type ask = callmessage (in q: string, inout w: string) raises (Busy {full(w)}); type ask_in = inport of ask; \
type ask_out = outport of ask_in; } \
process deny(start: ask_in) { var c: ask; receive c from start; discard c.w; @return c exception Busy; } \
process main(start: main_start) { var m: main_message, o: ask_out, q: string, w: string; receive m from start; create o of deny; q := \"q\"; \
w := \"w\"; try { call o(q, w); } on Busy { send w to m.out; } on Disconnected { @send w to m.out; } \
} ! 3 needs init(c.w) by start 1:ok 2:ok ! 1/8 needs init(w) by start 1:ok 2:ok 3:ok 4:ok 6:Disconnected
definitions d { type item = record { who: integer, n: integer }; type item_in = inport of item; type item_out = outport of item_in; \
type job = record { who: integer, dest: item_out }; type job_in = inport of job; type job_out = outport of job_in; } \
process sender(start: job_in) { var j: job, x: item, k: integer; receive j from start; k := 1; while k <= 100 { new x; x.who := j.who; x.n := k; \
send x to j.dest; k := k + 1; } } \
process main(start: main_start) { var m: main_message, i: item_in, o: item_out, p: job_out, j: job, \
x: item, a: integer, b: integer, k: integer, s: string; receive m from start; new i; connect o to i; create p of sender; \
new j; j.who := 1; j.dest := o; send j to p; create p of sender; new j; j.who := 2; j.dest := o; send j to p; a := 0; b := 0; k := 0; while k < 200 { \
receive x from i; if x.who = 1 { if x.n = a + 1 { a := x.n; } } else { if x.n = b + 1 { b := x.n; } } k := k + 1; } s := text(a) & \" \" & text(b); \
send s to m.out; }
definitions ring { type token_in = inport of integer; type token_out = outport of token_in; \
type node_message = record { inp: token_in, next: token_out, out: console_out }; type node_start = inport of node_message; \
type node_out = outport of node_start; } \
process node(start: node_start) { var m: node_message, n: integer, s: string; receive m from start; while true { receive n from m.inp; if n = 0 { \
s := \"token home\"; send s to m.out; } if n < 1 { try { n := n - 1; send n to m.next; } on Disconnected { } leave; } n := n - 1; send n to m.next; } \
} \
process main(start: main_start) { var m: main_message, first: token_in, head: token_out, next: token_out, \
i: token_in, o: token_out, c: node_message, p: node_out, k: integer; receive m from start; new first; connect head to first; next := head; k := 1; \
while k < 3 { new i; connect o to i; new c; move i to c.inp; c.next := next; c.out := m.out; create p of node; send c to p; next := o; k := k + 1; } \
new c; move first to c.inp; c.next := next; c.out := m.out; create p of node; send c to p; k := 300; send k to head; }
definitions d { type i = inport of integer; } \
process one(start: i) { var n: integer, j: integer; receive n from start; @j := j + n; } \
process main(start: main_start) { var x: string, m: main_message; @send x to m.out; } \
process two(start: i) { var n: integer; while true { @discard n; receive n from start; } @n := n; } ! 2 needs init(j) by start 1:ok \
! 1/1 needs init(x) by start ! 1/1 needs init(m) by start ! 1/1 needs init(m.out) by start \
! 2/2 needs init(n) by start 1:true ! 2/4 needs init(n) by start 1:false
definitions d { type i = inport of integer; } \
process zero(start: i) { var n: integer; @n := n; } \
process main(start: main_start) { var m: main_message; receive m from start; } \
process last(start: i) { var n: integer; receive n from start; n := n; discard n; @discard n; } \
! 1 needs init(n) by start ! 2/4 needs init(n) by start 1:ok 2:ok 3:ok
process main(start: main_start) { var x: string; try { try { @discard x; } on Overflow { } } on Overflow { } } \
! 3 needs init(x) by start
process main(start: main_start) { var m: main_message; @while m.arg = \"\" { receive m from start; } @discard m; } \
! 1 needs init(m) by start ! 1 needs init(m.arg) by start ! 3 needs init(m) by start 1:false
process main(start: main_start) { discard start; @discard start; } ! 2 needs init(start) by start 1:ok
definitions d { type i = inport of integer; type o = outport of i; } \
process main(start: main_start) { var i: i, o: o, x: integer; new i; connect o to i; while true { receive x from i; try { send x to o; leave; \
} on Disconnected { discard x; } connect o to i; } discard i; }
definitions d { type i = inport of integer; type o = outport of i; } \
process main(start: main_start) { var i: i, o: o, x: integer; while true { @receive x from i; try { @send x to o; leave; } on Disconnected { \
discard x; } @connect o to i; } @discard i; } ! 2 needs init(i) by start 1:true ! 4 needs init(o) by start 1:true 2:ok \
! 7 needs init(i) by start 1:true 2:ok 4:Disconnected 6:ok ! 8 needs init(i) by start 1:false
definitions d { type v = variant { out: integer, in: string }; } \
process main(start: main_start) { var v: v, w: v, n: integer; n := 1; unite v.out from n; move v to w; case w { when in { @n := w.out; } when out { } } } \
! 5 needs case(w,out) by start 1:ok 2:ok 3:ok 4:in
definitions d { type i = inport of integer; type b = record { mine: main_start, n: integer }; } \
process main(start: main_start) { var m: main_message, b: b; new b; move start to b.mine; receive m from b.mine; @receive m from start; } \
! 4 needs init(start) by start 1:ok 2:ok 3:ok
";
    let count = programs_lack_what_is_due(&rt, rt.alloc(), rows)?;
    assert_eq!(rt; count, 22);
    Ok(())
}
