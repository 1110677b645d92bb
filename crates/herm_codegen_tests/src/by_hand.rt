//! The code of five programs, written by hand from the code reference: blocks in the order of statements, an edge for each exit, and drops where control
//! paths join.

/// A source text, and the listing of its code.
#[derive(Drop)]
pub struct Coded {
    pub source: &'static str,
    pub listing: &'static str,
}

/// A greeting.
pub const GREETING: Coded = Coded {
    source: "\
process main(start: main_start) { var m: main_message, s: string; receive m from start; s := \"hi\"; send s to m.out; }",
    listing: "\
main
0 Jump 1
1* Step
2 Receive 1 0
3 Step
4 Const 0
5 Store 2
6 Step
7 Send 2 1.1[ ] !6>9
8 End
9* EndBy 6
constants \"hi\"
",
};

/// Two senders to one port.
pub const TWO_SENDERS: Coded = Coded {
    source: "\
definitions d { type item = record { who: integer, n: integer }; type item_in = inport of item; type item_out = outport of item_in; \
type job = record { who: integer, dest: item_out }; type job_in = inport of job; type job_out = outport of job_in; } \
process sender(start: job_in) { var j: job, x: item, k: integer; receive j from start; k := 1; while k <= 100 { new x; x.who := j.who; x.n := k; \
send x to j.dest; k := k + 1; } } \
process main(start: main_start) { var m: main_message, i: item_in, o: item_out, p: job_out, j: job, \
x: item, a: integer, b: integer, k: integer, s: string; receive m from start; new i; connect o to i; create p of sender; \
new j; j.who := 1; j.dest := o; send j to p; create p of sender; new j; j.who := 2; j.dest := o; send j to p; a := 0; b := 0; k := 0; while k < 200 { \
receive x from i; if x.who = 1 { if x.n = a + 1 { a := x.n; } } else { if x.n = b + 1 { b := x.n; } } k := k + 1; } s := text(a) & \" \" & text(b); \
send s to m.out; }",
    listing: "\
sender
0 Jump 1
1* Step
2 Receive 1 0
3 Step
4 Const 0
5 Store 3
6* Step
7 Load 3
8 Const 1
9 Le
10 JumpFalse 12
11 Jump 13
12* End
13* Step
14 New 2 8
15 Step
16 Load 1.0
17 Store 2.0
18 Step
19 Load 3
20 Store 2.1
21 Step
22 Send 2 1.1[ ] !6>24
23 Jump 25
24* EndBy 6
25* Step
26 Load 3
27 Const 0
28 Add !0>31
29 Store 3
30 Jump 6
31* EndBy 0
main
0 Jump 1
1* Step
2 Receive 1 0
3 Step
4 New 2 9 !1>6
5 Jump 7
6* EndBy 1
7* Step
8 Connect 3 2
9 Step
10 Create 4 0 !1>12
11 Jump 13
12* EndBy 1
13* Step
14 New 5 11
15 Step
16 Const 0
17 Store 5.0
18 Step
19 Load 3
20 Store 5.1
21 Step
22 Send 5 4[ ] !6>24
23 Jump 25
24* EndBy 6
25* Step
26 Create 4 0 !1>28
27 Jump 29
28* EndBy 1
29* Step
30 New 5 11
31 Step
32 Const 2
33 Store 5.0
34 Step
35 Load 3
36 Store 5.1
37 Step
38 Send 5 4[ ] !6>40
39 Jump 41
40* EndBy 6
41* Step
42 Const 3
43 Store 7
44 Step
45 Const 3
46 Store 8
47 Step
48 Const 3
49 Store 9
50* Step
51 Load 9
52 Const 4
53 Lt
54 JumpFalse 56
55 Jump 57
56* Jump 101
57* Step
58 Receive 6 2
59 Step
60 Load 6.0
61 Const 0
62 Eq
63 JumpFalse 65
64 Jump 66
65* Jump 80
66* Step
67 Load 6.1
68 Load 7
69 Const 0
70 Add !0>75
71 Eq
72 JumpFalse 74
73 Jump 76
74* Jump 93
75* EndBy 0
76* Step
77 Load 6.1
78 Store 7
79 Jump 93
80* Step
81 Load 6.1
82 Load 8
83 Const 0
84 Add !0>89
85 Eq
86 JumpFalse 88
87 Jump 90
88* Jump 93
89* EndBy 0
90* Step
91 Load 6.1
92 Store 8
93* Step
94 Load 9
95 Const 0
96 Add !0>100
97 Store 9
98 Drop 6
99 Jump 50
100* EndBy 0
101* Step
102 Load 7
103 Text
104 Const 5
105 Cat !1>111
106 Load 8
107 Text
108 Cat !1>111
109 Store 10
110 Jump 112
111* EndBy 1
112* Step
113 Send 10 1.1[ ] !6>115
114 End
115* EndBy 6
constants 1 100 2 0 200 \" \"
",
};

/// A ring of nodes that pass a token.
pub const RING: Coded = Coded {
    source: "\
definitions ring { type token_in = inport of integer; type token_out = outport of token_in; \
type node_message = record { inp: token_in, next: token_out, out: console_out }; type node_start = inport of node_message; \
type node_out = outport of node_start; } \
process node(start: node_start) { var m: node_message, n: integer, s: string; receive m from start; while true { receive n from m.inp; if n = 0 { \
s := \"token home\"; send s to m.out; } if n < 1 { try { n := n - 1; send n to m.next; } on Disconnected { } leave; } n := n - 1; send n to m.next; } } \
process main(start: main_start) { var m: main_message, first: token_in, head: token_out, next: token_out, \
i: token_in, o: token_out, c: node_message, p: node_out, k: integer; receive m from start; new first; connect head to first; next := head; k := 1; \
while k < 3 { new i; connect o to i; new c; move i to c.inp; c.next := next; c.out := m.out; create p of node; send c to p; next := o; k := k + 1; } \
new c; move first to c.inp; c.next := next; c.out := m.out; create p of node; send c to p; k := 300; send k to head; }",
    listing: "\
node
0 Jump 1
1* Step
2 Receive 1 0
3* Step
4 Const 0
5 JumpFalse 7
6 Jump 8
7* End
8* Step
9 Receive 2 1.0
10 Step
11 Load 2
12 Const 1
13 Eq
14 JumpFalse 16
15 Jump 17
16* Jump 24
17* Step
18 Const 2
19 Store 3
20 Step
21 Send 3 1.2[ ] !6>23
22 Jump 24
23* EndBy 6
24* Step
25 Load 2
26 Const 3
27 Lt
28 JumpFalse 30
29 Jump 31
30* Jump 45
31* Step
32 Load 2
33 Const 3
34 Sub !0>37
35 Store 2
36 Jump 38
37* EndBy 0
38* Step
39 Send 2 1.1[ ] !6>41
40 Jump 43
41* Drop 2
42 Jump 43
43* Step
44 End
45* Step
46 Load 2
47 Const 3
48 Sub !0>51
49 Store 2
50 Jump 52
51* EndBy 0
52* Step
53 Send 2 1.1[ ] !6>55
54 Jump 3
55* EndBy 6
main
0 Jump 1
1* Step
2 Receive 1 0
3 Step
4 New 2 8 !1>6
5 Jump 7
6* EndBy 1
7* Step
8 Connect 3 2
9 Step
10 Load 3
11 Store 4
12 Step
13 Const 3
14 Store 9
15* Step
16 Load 9
17 Const 4
18 Lt
19 JumpFalse 21
20 Jump 22
21* Jump 58
22* Step
23 New 5 8 !1>25
24 Jump 26
25* EndBy 1
26* Step
27 Connect 6 5
28 Step
29 New 7 10
30 Step
31 Move 5 7.0
32 Step
33 Load 4
34 Store 7.1
35 Step
36 Load 1.1
37 Store 7.2
38 Step
39 Create 8 0 !1>41
40 Jump 42
41* EndBy 1
42* Step
43 Send 7 8[ ] !6>45
44 Jump 46
45* EndBy 6
46* Step
47 Load 6
48 Store 4
49 Step
50 Load 9
51 Const 3
52 Add !0>57
53 Store 9
54 Drop 6
55 Drop 8
56 Jump 15
57* EndBy 0
58* Step
59 New 7 10
60 Step
61 Move 2 7.0
62 Step
63 Load 4
64 Store 7.1
65 Step
66 Load 1.1
67 Store 7.2
68 Step
69 Create 8 0 !1>71
70 Jump 72
71* EndBy 1
72* Step
73 Send 7 8[ ] !6>75
74 Jump 76
75* EndBy 6
76* Step
77 Const 5
78 Store 9
79 Step
80 Send 9 3[ ] !6>82
81 End
82* EndBy 6
constants true 0 \"token home\" 1 3 300
",
};

/// A loop over rows that is left early.
pub const LEFT_LOOP: Coded = Coded {
    source: "\
definitions d { type row = record { k: integer }; type rows = table of row key (k); } \
process main(start: main_start) { var m: main_message, r: row, t: rows, s: string; receive m from start; new t; new r; r.k := 1; \
insert r into t; new r; r.k := 2; insert r into t; for r in t { s := text(r.k); send s to m.out; leave; } }",
    listing: "\
main
0 Jump 1
1* Step
2 Receive 1 0
3 Step
4 New 3 9
5 Step
6 New 2 8
7 Step
8 Const 0
9 Store 2.0
10 Step
11 Insert 2 3 !1>13 !4>14
12 Jump 15
13* EndBy 1
14* EndBy 4
15* Step
16 New 2 8
17 Step
18 Const 1
19 Store 2.0
20 Step
21 Insert 2 3 !1>23 !4>24
22 Jump 25
23* EndBy 1
24* EndBy 4
25* Step
26 LoopStart 3 9
27 Jump 29
28 Step
29* LoopNext 2 9 31
30 Jump 32
31* End
32* Step
33 Load 2.0
34 Text
35 Store 4
36 Step
37 Send 4 1.1[ ] !6>39
38 Jump 40
39* EndBy 6
40* Step
41 End
constants 1 2
",
};

/// A call that is answered by an exception which keeps a parameter.
pub const KEPT: Coded = Coded {
    source: "\
definitions d { exception Busy; type ask = callmessage (in q: string, inout w: string) raises (Busy {full(w)}); type ask_in = inport of ask; \
type ask_out = outport of ask_in; } \
process deny(start: ask_in) { var c: ask; receive c from start; return c exception Busy; } \
process main(start: main_start) { var m: main_message, o: ask_out, q: string, w: string; receive m from start; create o of deny; q := \"q\"; \
w := \"w\"; try { call o(q, w); } on Busy { send w to m.out; } on Disconnected { send q to m.out; } }",
    listing: "\
deny
0 Jump 1
1* Step
2 Receive 1 0
3 Step
4 ReturnBy 1 7[ 1 ]
5 End
main
0 Jump 1
1* Step
2 Receive 1 0
3 Step
4 Create 2 0 !1>6
5 Jump 7
6* EndBy 1
7* Step
8 Const 0
9 Store 3
10 Step
11 Const 1
12 Store 4
13 Step
14 Load 3
15 Call 2 in inout 4 7[ 1 ] !6>17 !7>18
16 End
17* Jump 23
18* Jump 19
19* Step
20 Send 4 1.1[ ] !6>22
21 End
22* EndBy 6
23* Step
24 Send 3 1.1[ ] !6>26
25 End
26* EndBy 6
constants \"q\" \"w\"
",
};
