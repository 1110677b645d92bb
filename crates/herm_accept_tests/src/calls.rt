//! Calls, their answers and exceptions, and what returns need.
use crate::rows::statements_lack_what_is_due;
use std::test::Fail;

#[test]
fn calls_take_and_give_back(rt: HostRuntime) -> Result<(), Fail> {
    let rows = "\
@call ao(x, y, n); ! 2 needs init(ao) by start 1:ok ! 2 needs init(x) by start 1:ok ! 2 needs init(y) by start 1:ok
create ao of asked; x := \"a\"; y := \"b\"; call ao(x, y, n); j := n; send y to m.out; send x to m.out;
create ao of asked; y := \"b\"; @call ao(x, y, n); ! 4 needs init(x) by start 1:ok 2:ok 3:ok
create ao of asked; @call ao(\"a\", y, n); ! 3 needs init(y) by start 1:ok 2:ok
x := \"a\"; y := \"b\"; @call ao(x, y, n); ! 4 needs init(ao) by start 1:ok 2:ok 3:ok
create ao of asked; y := \"b\"; @call ao(\"a\", y, r.k); ! 4 needs init(r) by start 1:ok 2:ok 3:ok
@call ao(x, r.s, w.b); ! 2 needs init(r) by start 1:ok ! 2 needs init(w) by start 1:ok ! 2 needs init(ao) by start 1:ok \
! 2 needs init(x) by start 1:ok ! 2 needs init(r.s) by start 1:ok
create bo of bigger; new r; r.k := 1; @call bo(1, r, q); ! 5 needs init(r.s) by start 1:ok 2:ok 3:ok 4:ok
create bo of bigger; new r; r.k := 1; r.s := \"a\"; call bo(r.k, r, q); n := q.k; x := r.s;
create ao of asked; new r; r.s := \"a\"; call ao(\"b\", r.s, r.k); n := r.k; x := r.s;
create ao of asked; y := \"b\"; n := 1; try { call ao(\"a\", y, n); } on Disconnected { @j := n; } ! 7 needs init(n) by start 1:ok 2:ok 3:ok 4:ok 6:Disconnected
create ao of asked; x := \"a\"; y := \"b\"; try { call ao(x, y, n); } on Disconnected { send x to m.out; @send y to m.out; } \
! 8 needs init(y) by start 1:ok 2:ok 3:ok 4:ok 6:Disconnected 7:ok
create ao of asked; y := \"b\"; try { call ao(\"a\", y, n); } on busy { send y to m.out; @j := n; } ! 7 needs init(n) by start 1:ok 2:ok 3:ok 5:busy 6:ok
create ao of asked; y := \"b\"; try { call ao(\"a\", y, n); } on late { @send y to m.out; } ! 6 needs init(y) by start 1:ok 2:ok 3:ok 5:late
create bo of bigger; new r; r.k := 1; r.s := \"a\"; try { call bo(1, r, q); } on busy { n := q.k; @n := r.k; } \
! 9 needs init(r) by start 1:ok 2:ok 3:ok 4:ok 5:ok 7:busy 8:ok ! 9 needs init(r.k) by start 1:ok 2:ok 3:ok 4:ok 5:ok 7:busy 8:ok
create bo of bigger; new r; r.k := 1; r.s := \"a\"; try { call bo(1, r, q); } on late { n := q.k; x := r.s; }
create ao of asked; y := \"b\"; try { call ao(\"a\", y, n); } on busy { } send y to m.out; @j := n; ! 7 needs init(n) by start 1:ok 2:ok 3:ok 5:busy 6:ok
create ao of asked; new r; r.k := 1; r.s := \"a\"; try { call ao(\"b\", r.s, r.k); } on Disconnected { } @q := r; \
! 8 needs init(r.k) by start 1:ok 2:ok 3:ok 4:ok 5:ok 7:Disconnected ! 8 needs init(r.s) by start 1:ok 2:ok 3:ok 4:ok 5:ok 7:Disconnected
create bo of bigger; new w; new w.a; w.a.k := 1; w.a.s := \"a\"; w.b := 2; try { call bo(w.b, w.a, q); } on Disconnected { n := w.b; @n := w.a.k; } \
! 11 needs init(w.a) by start 1:ok 2:ok 3:ok 4:ok 5:ok 6:ok 7:ok 9:Disconnected 10:ok ! 11 needs init(w.a.k) by start 1:ok 2:ok 3:ok 4:ok 5:ok 6:ok 7:ok 9:Disconnected 10:ok
create ao of asked; y := \"b\"; while true { @call ao(\"a\", y, n); discard y; } ! 5 needs init(y) by start 1:ok 2:ok 3:ok 4:true 5:ok 6:ok 4:true
try { @call ao(\"a\", y, n); } on busy { send y to m.out; } on late { @send y to m.out; } ! 3 needs init(ao) by start 1:ok ! 3 needs init(y) by start 1:ok \
! 5 needs init(y) by start 1:ok 3:late
";
    let count = statements_lack_what_is_due(&rt, rt.alloc(), rows)?;
    assert_eq!(rt; count, 21);
    Ok(())
}

#[test]
fn returns_need_what_they_give_back(rt: HostRuntime) -> Result<(), Fail> {
    let rows = "\
@return c; ! 2 needs init(c) by start 1:ok ! 2 needs init(c.w) by start 1:ok ! 2 needs init(c.r) by start 1:ok
new ai; receive c from ai; @return c; ! 4 needs init(c.r) by start 1:ok 2:ok 3:ok
new ai; receive c from ai; c.r := 1; return c; @discard c; ! 6 needs init(c) by start 1:ok 2:ok 3:ok 4:ok 5:ok
new ai; receive c from ai; c.r := 1; move c.w to x; @return c; ! 6 needs init(c.w) by start 1:ok 2:ok 3:ok 4:ok 5:ok
new ai; receive c from ai; c.r := 1; discard c.q; return c;
new ai; receive c from ai; x := c.q; x := c.w; @n := c.r; ! 6 needs init(c.r) by start 1:ok 2:ok 3:ok 4:ok 5:ok
new bi; receive g from bi; new g.b; g.b.k := 1; @return g; ! 6 needs init(g.b.s) by start 1:ok 2:ok 3:ok 4:ok 5:ok
@return g; ! 2 needs init(g) by start 1:ok ! 2 needs init(g.a) by start 1:ok ! 2 needs init(g.a.k) by start 1:ok ! 2 needs init(g.a.s) by start 1:ok \
! 2 needs init(g.b) by start 1:ok ! 2 needs init(g.b.k) by start 1:ok ! 2 needs init(g.b.s) by start 1:ok
new ai; receive c from ai; return c exception busy;
new ai; receive c from ai; discard c.w; @return c exception busy; ! 5 needs init(c.w) by start 1:ok 2:ok 3:ok 4:ok
new ai; receive c from ai; discard c.w; return c exception late; @discard c; ! 6 needs init(c) by start 1:ok 2:ok 3:ok 4:ok 5:ok
@return c exception late; ! 2 needs init(c) by start 1:ok
@return c exception busy; ! 2 needs init(c) by start 1:ok ! 2 needs init(c.w) by start 1:ok
@return g exception late; ! 2 needs init(g) by start 1:ok ! 2 needs init(g.a) by start 1:ok ! 2 needs init(g.a.k) by start 1:ok \
! 2 needs init(g.a.s) by start 1:ok ! 2 needs init(g.b) by start 1:ok ! 2 needs init(g.b.k) by start 1:ok ! 2 needs init(g.b.s) by start 1:ok
@return g exception busy; ! 2 needs init(g) by start 1:ok ! 2 needs init(g.b) by start 1:ok ! 2 needs init(g.b.k) by start 1:ok ! 2 needs init(g.b.s) by start 1:ok
new bi; receive g from bi; new g.b; @return g exception busy; ! 5 needs init(g.b.k) by start 1:ok 2:ok 3:ok 4:ok ! 5 needs init(g.b.s) by start 1:ok 2:ok 3:ok 4:ok
new ai; connect ao to ai; receive c from ai; send c to ao;
new ai; connect ao to ai; receive c from ai; discard c.q; @send c to ao; ! 6 needs init(c.q) by start 1:ok 2:ok 3:ok 4:ok 5:ok
new ai; connect ao to ai; receive c from ai; c.r := 1; try { send c to ao; } on Disconnected { @return c; } \
! 8 needs init(c.r) by start 1:ok 2:ok 3:ok 4:ok 5:ok 7:Disconnected
new ai; while true { receive c from ai; try { create lo of worker; c.r := 1; return c; } on Depletion { return c exception busy; } }
new ai; receive c from ai; try { c.r := 1 + 1; return c; } on Overflow { @return c; } ! 7 needs init(c.r) by start 1:ok 2:ok 3:ok 5:Overflow
";
    let count = statements_lack_what_is_due(&rt, rt.alloc(), rows)?;
    assert_eq!(rt; count, 21);
    Ok(())
}
