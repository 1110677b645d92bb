//! Programs, file by file.

/// A string is sent to the console.
pub const GREETING: &[u8] =
    b"process main(start: main_start) { var m: main_message, s: string; receive m from start; \
s := \"hi\"; send s to m.out; }";

pub const EMPTY: &[u8] = b"process main(start: main_start) { }";

/// A variable that is set in one branch is finalised where the branches meet.
pub const BRANCH: &[u8] =
    b"process main(start: main_start) { var m: main_message, x: string; receive m from start; \
if m.arg = \"\" { x := \"a\"; } discard m; }";

pub const TABLES: &[u8] =
    b"definitions d { type row = record { k: integer }; type rows = table of row key (k); }";

/// A refused insert keeps its row.
pub const INSERTED_TWICE: &[u8] =
    b"process main(start: main_start) { var m: main_message, r: row, t: rows, s: string; \
receive m from start; new t; new r; r.k := 1; \
try { insert r into t; new r; r.k := 1; insert r into t; } \
on DuplicateKey { s := text(r.k); send s to m.out; } }";

/// A loop over two rows is left at the first.
pub const LEFT_EARLY: &[u8] =
    b"process main(start: main_start) { var m: main_message, r: row, t: rows, s: string; \
receive m from start; new t; new r; r.k := 1; insert r into t; new r; r.k := 2; insert r into t; \
for r in t { s := text(r.k); send s to m.out; leave; } }";

pub const TWO_RECEIVES: &[u8] = b"process main(start: main_start) { var m: main_message; \
receive m from start; receive m from start; }";

pub const ASKS: &[u8] = b"definitions d { type ask = callmessage (in q: string, inout w: string); \
type ask_in = inport of ask; type ask_out = outport of ask_in; }";

pub const DISCARDS: &[u8] =
    b"process drop(start: ask_in) { var c: ask; receive c from start; discard c; }";

pub const TAKES_NOTHING: &[u8] = b"process drop(start: ask_in) { }";

pub const RETURNS: &[u8] =
    b"process drop(start: ask_in) { var c: ask; receive c from start; return c; }";

/// Writes q where its call is not answered.
pub const CALLS: &[u8] =
    b"process main(start: main_start) { var m: main_message, o: ask_out, q: string, w: string; \
receive m from start; create o of drop; q := \"q\"; w := \"w\"; \
try { call o(q, w); } on Disconnected { send q to m.out; } }";

/// Writes w where its call is answered.
pub const CALLS_AND_WRITES: &[u8] =
    b"process main(start: main_start) { var m: main_message, o: ask_out, q: string, w: string; \
receive m from start; create o of drop; q := \"q\"; w := \"w\"; \
try { call o(q, w); send w to m.out; } on Disconnected { send q to m.out; } }";

/// Writes w where its call is not answered, which has no value then.
pub const CALLS_AND_WRITES_LOST: &[u8] =
    b"process main(start: main_start) { var m: main_message, o: ask_out, q: string, w: string; \
receive m from start; create o of drop; q := \"q\"; w := \"w\"; \
try { call o(q, w); } on Disconnected { send w to m.out; } }";

pub const ASKS_KEEPING: &[u8] = b"definitions d { exception Busy; \
type ask = callmessage (in q: string, inout w: string) raises (Busy {full(w)}); \
type ask_in = inport of ask; type ask_out = outport of ask_in; }";

pub const DENIES: &[u8] =
    b"process deny(start: ask_in) { var c: ask; receive c from start; return c exception Busy; }";

pub const DENIES_BY_DISCARD: &[u8] =
    b"process deny(start: ask_in) { var c: ask; receive c from start; discard c; }";

/// Writes w, which is kept, where its call is refused.
pub const CALLS_FOR_KEPT: &[u8] =
    b"process main(start: main_start) { var m: main_message, o: ask_out, q: string, w: string; \
receive m from start; create o of deny; q := \"q\"; w := \"w\"; \
try { call o(q, w); } on Busy { send w to m.out; } on Disconnected { send q to m.out; } }";

pub const VARIANTS: &[u8] = b"definitions d { type v = variant { a: integer, b: string }; }";

pub const DISSOLVES: &[u8] = b"process main(start: main_start) { var x: v, z: v, y: integer; \
y := 7; unite x.a from y; move x to z; dissolve z.a into y; }";

pub const REVEALS: &[u8] = b"process main(start: main_start) { var x: v, z: v, y: integer; \
y := 7; unite x.a from y; move x to z; reveal z.a; dissolve z.a into y; }";

/// Polymorphs are wrapped as deep as they can be.
pub const WRAPS: &[u8] =
    b"process main(start: main_start) { var m: main_message, p: polymorph, q: polymorph, n: integer, s: string; \
receive m from start; n := 0; wrap n as p; n := 1; \
try { while true { wrap p as q; move q to p; n := n + 1; } } \
on Depletion { s := text(n); send s to m.out; } }";

pub const INTEGER_PORTS: &[u8] = b"definitions d { type li = inport of integer; }";

pub const THREE_PORTS: &[u8] =
    b"process main(start: main_start) { var m: main_message, a: li, b: li, c: li, s: string; \
receive m from start; try { new a; new b; new c; } on Depletion { s := \"full\"; send s to m.out; } }";

/// Waits on two ports at which nothing comes.
pub const SELECTS: &[u8] = b"process main(start: main_start) { var a: li, b: li, n: integer; \
new a; new b; select { when b receive n { } when a receive n { } } }";

pub const POLYMORPH_PORTS: &[u8] =
    b"definitions d { type loop_in = inport of polymorph; type loop_out = outport of loop_in; }";

/// An input port is put into its own queue.
pub const SENT_TO_ITSELF: &[u8] =
    b"process main(start: main_start) { var i: loop_in, o: loop_out, p: polymorph; \
new i; connect o to i; wrap i as p; send p to o; }";

pub const BOTH_PORTS: &[u8] =
    b"definitions d { type li = inport of integer; type lo = outport of li; \
type pi = inport of polymorph; type po = outport of pi; }";

/// A port is closed in which one of three messages is a port with two.
pub const CLOSES_A_QUEUE: &[u8] =
    b"process main(start: main_start) { var a: pi, ao: po, b: li, bo: lo, n: integer, p: polymorph; \
new a; connect ao to a; new b; connect bo to b; n := 1; send n to bo; n := 2; send n to bo; \
n := 3; wrap n as p; send p to ao; wrap b as p; send p to ao; n := 4; wrap n as p; send p to ao; \
discard a; }";

pub const ITEMS: &[u8] = b"definitions d { type item = record { who: integer, n: integer }; \
type item_in = inport of item; type item_out = outport of item_in; \
type job = record { who: integer, dest: item_out }; type job_in = inport of job; type job_out = outport of job_in; }";

pub const SENDER: &[u8] =
    b"process sender(start: job_in) { var j: job, x: item, k: integer; receive j from start; k := 1; \
while k <= 100 { new x; x.who := j.who; x.n := k; send x to j.dest; k := k + 1; } }";

/// Has two senders, and receives what both send.
pub const RECEIVER: &[u8] =
    b"process main(start: main_start) { var m: main_message, i: item_in, o: item_out, p: job_out, j: job, \
x: item, a: integer, b: integer, k: integer, s: string; receive m from start; new i; connect o to i; \
create p of sender; new j; j.who := 1; j.dest := o; send j to p; \
create p of sender; new j; j.who := 2; j.dest := o; send j to p; \
a := 0; b := 0; k := 0; \
while k < 200 { receive x from i; \
if x.who = 1 { if x.n = a + 1 { a := x.n; } } else { if x.n = b + 1 { b := x.n; } } \
k := k + 1; } \
s := text(a) & \" \" & text(b); send s to m.out; }";

pub const RINGS: &[u8] =
    b"definitions ring { type token_in = inport of integer; type token_out = outport of token_in; \
type node_message = record { inp: token_in, next: token_out, out: console_out }; \
type node_start = inport of node_message; type node_out = outport of node_start; }";

pub const NODE: &[u8] =
    b"process node(start: node_start) { var m: node_message, n: integer, s: string; receive m from start; \
while true { receive n from m.inp; \
if n = 0 { s := \"token home\"; send s to m.out; } \
if n < 1 { try { n := n - 1; send n to m.next; } on Disconnected { } leave; } \
n := n - 1; send n to m.next; } }";

/// A ring of nodes, up to their number.
pub const RING: &[u8] =
    b"process main(start: main_start) { var m: main_message, first: token_in, head: token_out, next: token_out, \
i: token_in, o: token_out, c: node_message, p: node_out, k: integer; \
receive m from start; new first; connect head to first; next := head; k := 1; \
while k < ";

/// The rest of a ring of nodes, up to the number of hops of its token.
pub const RING_TOKEN: &[u8] =
    b" { new i; connect o to i; new c; move i to c.inp; c.next := next; c.out := m.out; \
create p of node; send c to p; next := o; k := k + 1; } \
new c; move first to c.inp; c.next := next; c.out := m.out; create p of node; send c to p; k := ";

pub const RING_END: &[u8] = b"; send k to head; }";

/// Calls its peer, which calls it.
pub const PEERS: &[u8] = b"definitions d { type ask = callmessage (inout w: string); \
type ask_in = inport of ask; type ask_out = outport of ask_in; \
type boot = record { mine: ask_in, peer: ask_out }; type boot_in = inport of boot; type boot_out = outport of boot_in; }";

pub const PEER: &[u8] =
    b"process peer(start: boot_in) { var b: boot, w: string; receive b from start; w := \"b\"; call b.peer(w); }";

pub const CALLS_ITS_PEER: &[u8] =
    b"process main(start: main_start) { var i: ask_in, b: boot, o: ask_out, p: boot_out, w: string; \
new b; new i; connect b.peer to i; new b.mine; connect o to b.mine; create p of peer; send b to p; \
w := \"a\"; call o(w); }";

pub const ENDLESS: &[u8] = b"process main(start: main_start) { while true { } }";

pub const OVERFLOWS: &[u8] =
    b"process main(start: main_start) { var n: integer; n := 9223372036854775807; n := n + 1; }";

pub const TOO_LONG: &[u8] =
    b"process main(start: main_start) { var n: integer; n := 9223372036854775808; n := n + 1; }";

pub const IDLE_PORTS: &[u8] =
    b"definitions d { type li = inport of integer; type lo = outport of li; }";

pub const IDLE: &[u8] = b"process idle(start: li) { }";

/// Creates a process that takes nothing.
pub const CREATES_IDLE: &[u8] =
    b"process main(start: main_start) { var m: main_message, o: lo; receive m from start; create o of idle; }";
