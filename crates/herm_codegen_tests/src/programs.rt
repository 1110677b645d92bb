//! The code of programs more, written by hand as that of the first five: a step and a front for each statement, and for each exit its drops with a jump or
//! an end, or nothing where a block goes on. Each form of statement is among all of them.
use crate::by_hand::Coded;

pub const PROGRAMS: [Coded; 23] = [
    Coded {
        source: "\
process main(start: main_start) { }",
        listing: "\
main
0 End
constants
",
    },
    Coded {
        source: "\
process main(start: main_start) { var m: main_message, x: string; receive m from start; if m.arg = \"\" { x := \"a\"; } discard m; }",
        listing: "\
main
0 Jump 1
1* Step
2 Receive 1 0
3 Step
4 Load 1.0
5 Const 0
6 Eq
7 JumpFalse 9
8 Jump 10
9* Jump 15
10* Step
11 Const 1
12 Store 2
13 Drop 2
14 Jump 15
15* Step
16 Discard 1
17 End
constants \"\" \"a\"
",
    },
    Coded {
        source: "\
definitions d { type row = record { k: integer }; type rows = table of row key (k); } process main(start: main_start) { var m: \
main_message, r: row, t: rows, s: string; receive m from start; new t; new r; r.k := 1; try { insert r into t; new r; r.k := 1; insert r \
into t; } on DuplicateKey { s := text(r.k); send s to m.out; } }",
        listing: "\
main
0 Jump 1
1* Step
2 Receive 1 0
3 Step
4 New 3 9
5 Step
6 New 2 8
7 Step
8 Const 0
9 Store 2.0
10 Step
11 Insert 2 3 !1>13 !4>14
12 Jump 15
13* EndBy 1
14* Jump 25
15* Step
16 New 2 8
17 Step
18 Const 0
19 Store 2.0
20 Step
21 Insert 2 3 !1>23 !4>24
22 End
23* EndBy 1
24* Jump 25
25* Step
26 Load 2.0
27 Text
28 Store 4
29 Step
30 Send 4 1.1[ ] !6>32
31 End
32* EndBy 6
constants 1
",
    },
    Coded {
        source: "\
definitions d { type ask = callmessage (in q: string, inout w: string); type ask_in = inport of ask; type ask_out = outport of ask_in; } \
process drop(start: ask_in) { var c: ask; receive c from start; discard c; } process main(start: main_start) { var m: main_message, o: \
ask_out, q: string, w: string; receive m from start; create o of drop; q := \"q\"; w := \"w\"; try { call o(q, w); } on Disconnected { \
send q to m.out; } }",
        listing: "\
drop
0 Jump 1
1* Step
2 Receive 1 0
3 Step
4 Discard 1
5 End
main
0 Jump 1
1* Step
2 Receive 1 0
3 Step
4 Create 2 0 !1>6
5 Jump 7
6* EndBy 1
7* Step
8 Const 0
9 Store 3
10 Step
11 Const 1
12 Store 4
13 Step
14 Load 3
15 Call 2 in inout 4 !6>17
16 End
17* Jump 18
18* Step
19 Send 3 1.1[ ] !6>21
20 End
21* EndBy 6
constants \"q\" \"w\"
",
    },
    Coded {
        source: "\
definitions d { type ask = callmessage (in q: string, inout w: string); type ask_in = inport of ask; type ask_out = outport of ask_in; } \
process drop(start: ask_in) { var c: ask; receive c from start; return c; } process main(start: main_start) { var m: main_message, o: \
ask_out, q: string, w: string; receive m from start; create o of drop; q := \"q\"; w := \"w\"; try { call o(q, w); send w to m.out; } on \
Disconnected { send q to m.out; } }",
        listing: "\
drop
0 Jump 1
1* Step
2 Receive 1 0
3 Step
4 Return 1
5 End
main
0 Jump 1
1* Step
2 Receive 1 0
3 Step
4 Create 2 0 !1>6
5 Jump 7
6* EndBy 1
7* Step
8 Const 0
9 Store 3
10 Step
11 Const 1
12 Store 4
13 Step
14 Load 3
15 Call 2 in inout 4 !6>17
16 Jump 18
17* Jump 23
18* Step
19 Send 4 1.1[ ] !6>21
20 End
21* Drop 4
22 Jump 23
23* Step
24 Send 3 1.1[ ] !6>26
25 End
26* EndBy 6
constants \"q\" \"w\"
",
    },
    Coded {
        source: "\
definitions d { type v = variant { a: integer, b: string }; } process main(start: main_start) { var x: v, z: v, y: integer; y := 7; unite \
x.a from y; move x to z; reveal z.a; dissolve z.a into y; }",
        listing: "\
main
0 Jump 1
1* Step
2 Const 0
3 Store 3
4 Step
5 Unite 1 0 3
6 Step
7 Move 1 2
8 Step
9 Reveal 2 0 !2>11
10 Jump 12
11* EndBy 2
12* Step
13 Dissolve 2 0 3
14 End
constants 7
",
    },
    Coded {
        source: "\
process main(start: main_start) { var m: main_message, p: polymorph, q: polymorph, n: integer, s: string; receive m from start; n := 0; \
wrap n as p; n := 1; try { while true { wrap p as q; move q to p; n := n + 1; } } on Depletion { s := text(n); send s to m.out; } }",
        listing: "\
main
0 Jump 1
1* Step
2 Receive 1 0
3 Step
4 Const 0
5 Store 4
6 Step
7 Wrap 4 1 2 !1>9
8 Jump 10
9* EndBy 1
10* Step
11 Const 1
12 Store 4
13* Step
14 Const 2
15 JumpFalse 17
16 Jump 18
17* End
18* Step
19 Wrap 2 3 3 !1>21
20 Jump 22
21* Jump 31
22* Step
23 Move 3 2
24 Step
25 Load 4
26 Const 1
27 Add !0>30
28 Store 4
29 Jump 13
30* EndBy 0
31* Step
32 Load 4
33 Text
34 Store 5
35 Step
36 Send 5 1.1[ ] !6>38
37 End
38* EndBy 6
constants 0 1 true
",
    },
    Coded {
        source: "\
definitions d { type li = inport of integer; } process main(start: main_start) { var m: main_message, a: li, b: li, c: li, s: string; \
receive m from start; try { new a; new b; new c; } on Depletion { s := \"full\"; send s to m.out; } }",
        listing: "\
main
0 Jump 1
1* Step
2 Receive 1 0
3 Step
4 New 2 8 !1>6
5 Jump 7
6* Jump 18
7* Step
8 New 3 8 !1>10
9 Jump 12
10* Drop 2
11 Jump 18
12* Step
13 New 4 8 !1>15
14 End
15* Drop 2
16 Drop 3
17 Jump 18
18* Step
19 Const 0
20 Store 5
21 Step
22 Send 5 1.1[ ] !6>24
23 End
24* EndBy 6
constants \"full\"
",
    },
    Coded {
        source: "\
definitions d { type loop_in = inport of polymorph; type loop_out = outport of loop_in; } process main(start: main_start) { var i: \
loop_in, o: loop_out, p: polymorph; new i; connect o to i; wrap i as p; send p to o; }",
        listing: "\
main
0 Jump 1
1* Step
2 New 1 8 !1>4
3 Jump 5
4* EndBy 1
5* Step
6 Connect 2 1
7 Step
8 Wrap 1 8 3 !1>10
9 Jump 11
10* EndBy 1
11* Step
12 Send 3 2[ ] !6>14
13 End
14* EndBy 6
constants
",
    },
    Coded {
        source: "\
definitions d { type li = inport of integer; } process main(start: main_start) { var a: li, b: li, n: integer; new a; new b; select { when \
b receive n { } when a receive n { } } }",
        listing: "\
main
0 Jump 1
1* Step
2 New 1 8 !1>4
3 Jump 5
4* EndBy 1
5* Step
6 New 2 8 !1>8
7 Jump 9
8* EndBy 1
9* Step
10 Select ( 2 3 11 ) ( 1 3 12 )
11* End
12* End
constants
",
    },
    Coded {
        source: "\
process main(start: main_start) { while true { } }",
        listing: "\
main
0 Jump 1
1* Step
2 Const 0
3 JumpFalse 5
4 Jump 1
5* End
constants true
",
    },
    Coded {
        source: "\
process main(start: main_start) { var n: integer; n := 9223372036854775807; n := n + 1; }",
        listing: "\
main
0 Jump 1
1* Step
2 Const 0
3 Store 1
4 Step
5 Load 1
6 Const 1
7 Add !0>10
8 Store 1
9 End
10* EndBy 0
constants 9223372036854775807 1
",
    },
    Coded {
        source: "\
definitions d { type li = inport of integer; type lo = outport of li; } process idle(start: li) { } process main(start: main_start) { var \
m: main_message, o: lo; receive m from start; create o of idle; }",
        listing: "\
idle
0 End
main
0 Jump 1
1* Step
2 Receive 1 0
3 Step
4 Create 2 0 !1>6
5 End
6* EndBy 1
constants
",
    },
    Coded {
        source: "\
definitions d { type li = inport of integer; type lo = outport of li; type pi = inport of polymorph; type po = outport of pi; } process \
main(start: main_start) { var a: pi, ao: po, b: li, bo: lo, n: integer, p: polymorph; new a; connect ao to a; new b; connect bo to b; n := \
1; send n to bo; n := 2; send n to bo; n := 3; wrap n as p; send p to ao; wrap b as p; send p to ao; n := 4; wrap n as p; send p to ao; \
discard a; }",
        listing: "\
main
0 Jump 1
1* Step
2 New 1 10 !1>4
3 Jump 5
4* EndBy 1
5* Step
6 Connect 2 1
7 Step
8 New 3 8 !1>10
9 Jump 11
10* EndBy 1
11* Step
12 Connect 4 3
13 Step
14 Const 0
15 Store 5
16 Step
17 Send 5 4[ ] !6>19
18 Jump 20
19* EndBy 6
20* Step
21 Const 1
22 Store 5
23 Step
24 Send 5 4[ ] !6>26
25 Jump 27
26* EndBy 6
27* Step
28 Const 2
29 Store 5
30 Step
31 Wrap 5 1 6 !1>33
32 Jump 34
33* EndBy 1
34* Step
35 Send 6 2[ ] !6>37
36 Jump 38
37* EndBy 6
38* Step
39 Wrap 3 8 6 !1>41
40 Jump 42
41* EndBy 1
42* Step
43 Send 6 2[ ] !6>45
44 Jump 46
45* EndBy 6
46* Step
47 Const 3
48 Store 5
49 Step
50 Wrap 5 1 6 !1>52
51 Jump 53
52* EndBy 1
53* Step
54 Send 6 2[ ] !6>56
55 Jump 57
56* EndBy 6
57* Step
58 Discard 1
59 End
constants 1 2 3 4
",
    },
    Coded {
        source: "\
definitions d { type ask = callmessage (inout w: string); type ask_in = inport of ask; type ask_out = outport of ask_in; type boot = \
record { mine: ask_in, peer: ask_out }; type boot_in = inport of boot; type boot_out = outport of boot_in; } process peer(start: boot_in) \
{ var b: boot, w: string; receive b from start; w := \"b\"; call b.peer(w); } process main(start: main_start) { var i: ask_in, b: boot, o: \
ask_out, p: boot_out, w: string; new b; new i; connect b.peer to i; new b.mine; connect o to b.mine; create p of peer; send b to p; w := \
\"a\"; call o(w); }",
        listing: "\
peer
0 Jump 1
1* Step
2 Receive 1 0
3 Step
4 Const 0
5 Store 2
6 Step
7 Call 1.1 inout 2 !6>9
8 End
9* EndBy 6
main
0 Jump 1
1* Step
2 New 2 11
3 Step
4 New 1 9 !1>6
5 Jump 7
6* EndBy 1
7* Step
8 Connect 2.1 1
9 Step
10 New 2.0 9 !1>12
11 Jump 13
12* EndBy 1
13* Step
14 Connect 3 2.0
15 Step
16 Create 4 0 !1>18
17 Jump 19
18* EndBy 1
19* Step
20 Send 2 4[ ] !6>22
21 Jump 23
22* EndBy 6
23* Step
24 Const 1
25 Store 5
26 Step
27 Call 3 inout 5 !6>29
28 End
29* EndBy 6
constants \"b\" \"a\"
",
    },
    Coded {
        source: "\
definitions d { type i = inport of integer; type o = outport of i; } process main(start: main_start) { var i: i, o: o, x: integer; new i; \
connect o to i; while true { receive x from i; try { send x to o; leave; } on Disconnected { discard x; } connect o to i; } discard i; }",
        listing: "\
main
0 Jump 1
1* Step
2 New 1 8 !1>4
3 Jump 5
4* EndBy 1
5* Step
6 Connect 2 1
7* Step
8 Const 0
9 JumpFalse 11
10 Jump 12
11* Jump 25
12* Step
13 Receive 3 1
14 Step
15 Send 3 2[ ] !6>17
16 Jump 18
17* Jump 20
18* Step
19 Jump 25
20* Step
21 Discard 3
22 Step
23 Connect 2 1
24 Jump 7
25* Step
26 Discard 1
27 End
constants true
",
    },
    Coded {
        source: "\
definitions d { type v = variant { out: integer, in: string }; } process main(start: main_start) { var v: v, w: v, n: integer; n := 1; \
unite v.out from n; move v to w; case w { when in { } when out { n := w.out; } } }",
        listing: "\
main
0 Jump 1
1* Step
2 Const 0
3 Store 3
4 Step
5 Unite 1 0 3
6 Step
7 Move 1 2
8 Step
9 CaseOf 2[ 11 10 ]
10* End
11* Jump 12
12* Step
13 Load 2.0
14 Store 3
15 End
constants 1
",
    },
    Coded {
        source: "\
definitions d { type b = record { mine: main_start, n: integer }; } process main(start: main_start) { var m: main_message, b: b; new b; \
move start to b.mine; receive m from b.mine; }",
        listing: "\
main
0 Jump 1
1* Step
2 New 2 8
3 Step
4 Move 0 2.0
5 Step
6 Receive 1 2.0
7 End
constants
",
    },
    Coded {
        source: "\
process main(start: main_start) { var x: string; x := \"a\"; try { try { raise Overflow; } on Overflow { discard x; } } on Overflow { } }",
        listing: "\
main
0 Jump 1
1* Step
2 Const 0
3 Store 1
4 Step
5 Raise 0 !0>6
6* Jump 7
7* Step
8 Discard 1
9 End
constants \"a\"
",
    },
    Coded {
        source: "\
definitions d { type row = record { k: integer }; type rows = table of row key (k); } process main(start: main_start) { var r: row, t: \
rows; new t; try { get r from t [1]; remove r from t [1]; } on NotFound { } }",
        listing: "\
main
0 Jump 1
1* Step
2 New 2 9
3 Step
4 Const 0
5 Get 1 2 1 !5>7
6 Jump 8
7* End
8* Step
9 Const 0
10 Remove 1 2 1 !5>12
11 End
12* End
constants 1
",
    },
    Coded {
        source: "\
process main(start: main_start) { var m: main_message, p: polymorph, n: integer, b: boolean, s: string; receive m from start; \
n := length(m.arg) * 2 div 3 mod 4 - -1; wrap n as p; unwrap p as integer into n; b := true; b := not b and n <> 2 or n >= 3; \
s := \"a\" & text(n); send s to m.out; }",
        listing: "\
main
0 Jump 1
1* Step
2 Receive 1 0
3 Step
4 Load 1.0
5 Length
6 Const 0
7 Mul !0>17
8 Const 1
9 Div !0>17
10 Const 2
11 Mod !0>17
12 Const 3
13 Neg !0>17
14 Sub !0>17
15 Store 3
16 Jump 18
17* EndBy 0
18* Step
19 Wrap 3 1 2 !1>21
20 Jump 22
21* EndBy 1
22* Step
23 Unwrap 2 1 3 !3>25
24 Jump 26
25* EndBy 3
26* Step
27 Const 4
28 Store 4
29 Step
30 Load 4
31 Not
32 Load 3
33 Const 0
34 Ne
35 And
36 Load 3
37 Const 1
38 Ge
39 Or
40 Store 4
41 Step
42 Const 5
43 Load 3
44 Text
45 Cat !1>48
46 Store 5
47 Jump 49
48* EndBy 1
49* Step
50 Send 5 1.1[ ] !6>52
51 End
52* EndBy 6
constants 2 3 4 1 true \"a\"
",
    },
    Coded {
        source: "\
definitions d { type pair = record { k: integer, v: integer }; type rows = table of pair key (k); type pair_in = inport of pair { init(k) }; \
type pair_out = outport of pair_in; } \
process main(start: main_start) { var i: pair_in, o: pair_out, r: pair, t: rows, u: pair; new i; connect o to i; new t; for r in t { for u in t { \
send u to o; leave; } } discard t; }",
        listing: "\
main
0 Jump 1
1* Step
2 New 1 10 !1>4
3 Jump 5
4* EndBy 1
5* Step
6 Connect 2 1
7 Step
8 New 4 9
9 Jump 10
10* Step
11 LoopStart 4 4
12 Jump 14
13* Step
14* LoopNext 3 4 16
15 Jump 18
16* LoopDrop 4
17 Jump 35
18* Step
19 LoopStart 4 5
20 Jump 22
21 Step
22* LoopNext 5 5 24
23 Jump 27
24* Drop 3
25 LoopDrop 5
26 Jump 13
27* Step
28 Send 5 2[ 5.1 ] !6>30
29 Jump 31
30* EndBy 6
31* Step
32 Drop 3
33 LoopDrop 5
34 Jump 13
35* Step
36 Discard 4
37 End
constants
",
    },
    Coded {
        source: "\
definitions d { type ask = callmessage (in n: integer, out s: string); type ask_in = inport of ask; type ask_out = outport of ask_in; } \
process serve(start: ask_in) { var c: ask; receive c from start; c.s := text(c.n); return c; } \
process main(start: main_start) { var m: main_message, o: ask_out, s: string; receive m from start; create o of serve; call o(7, s); \
send s to m.out; }",
        listing: "\
serve
0 Jump 1
1* Step
2 Receive 1 0
3 Step
4 Load 1.0
5 Text
6 Store 1.1
7 Step
8 Return 1
9 End
main
0 Jump 1
1* Step
2 Receive 1 0
3 Step
4 Create 2 0 !1>6
5 Jump 7
6* EndBy 1
7* Step
8 Const 0
9 Call 2 in out 3 !6>11
10 Jump 12
11* EndBy 6
12* Step
13 Send 3 1.1[ ] !6>15
14 End
15* EndBy 6
constants 7
",
    },
];
