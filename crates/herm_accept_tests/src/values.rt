//! Assignments, moves, new and discarded values.
use crate::rows::statements_lack_what_is_due;
use std::test::Fail;

#[test]
fn assignments_read_what_is_full(rt: HostRuntime) -> Result<(), Fail> {
    let rows = "\
y := \"a\"; x := y; send x to m.out; send y to m.out;
x := m.arg; send x to m.out;
@x := y; ! 2 needs init(y) by start 1:ok
@r.k := 1; ! 2 needs init(r) by start 1:ok
@r.k := n; ! 2 needs init(r) by start 1:ok ! 2 needs init(n) by start 1:ok
@w.a.k := 1; ! 2 needs init(w) by start 1:ok ! 2 needs init(w.a) by start 1:ok
new w; @w.a.k := 1; ! 3 needs init(w.a) by start 1:ok 2:ok
new w; new w.a; w.a.k := 1; n := w.a.k;
@n := r.k; ! 2 needs init(r) by start 1:ok ! 2 needs init(r.k) by start 1:ok
new r; r.k := 1; @q := r; ! 4 needs init(r.s) by start 1:ok 2:ok 3:ok
@q := r; ! 2 needs init(r) by start 1:ok ! 2 needs init(r.k) by start 1:ok ! 2 needs init(r.s) by start 1:ok
new r; r.s := \"a\"; @r.k := r.k + n; ! 4 needs init(r.k) by start 1:ok 2:ok 3:ok ! 4 needs init(n) by start 1:ok 2:ok 3:ok
new w; new w.a; w.a.s := \"a\"; @n := w.a.k + w.b; ! 5 needs init(w.a.k) by start 1:ok 2:ok 3:ok 4:ok ! 5 needs init(w.b) by start 1:ok 2:ok 3:ok 4:ok
@n := n * j - n; ! 2 needs init(n) by start 1:ok ! 2 needs init(j) by start 1:ok
@b := x = y or not b; ! 2 needs init(x) by start 1:ok ! 2 needs init(y) by start 1:ok ! 2 needs init(b) by start 1:ok
@n := size(t) + length(x); ! 2 needs init(t) by start 1:ok ! 2 needs init(x) by start 1:ok
@x := text(n) & y; ! 2 needs init(n) by start 1:ok ! 2 needs init(y) by start 1:ok
j := 1; try { n := j + 1; } on Overflow { } @j := n; ! 5 needs init(n) by start 1:ok 2:ok 4:Overflow
j := 1; n := 2; try { n := -j; } on Overflow { } j := n;
x := \"a\"; try { y := x & x; } on Depletion { @send y to m.out; } ! 5 needs init(y) by start 1:ok 2:ok 4:Depletion
new r; r.k := 1; r.s := \"a\"; q := r; r := q; new q; @r := q; \
! 8 needs init(q.k) by start 1:ok 2:ok 3:ok 4:ok 5:ok 6:ok 7:ok ! 8 needs init(q.s) by start 1:ok 2:ok 3:ok 4:ok 5:ok 6:ok 7:ok
n := 1; unite v.i from n; z := v; n := v.i; @n := z.i; ! 6 needs case(z,i) by start 1:ok 2:ok 3:ok 4:ok 5:ok
n := 1; unite v.i from n; z := v; v := z; @n := v.i; ! 6 needs case(v,i) by start 1:ok 2:ok 3:ok 4:ok 5:ok
@r.k := 1; n := r.k; ! 2 needs init(r) by start 1:ok
@w.a.k := 1; n := w.a.k; @n := w.b; \
! 2 needs init(w) by start 1:ok ! 2 needs init(w.a) by start 1:ok ! 4 needs init(w.b) by start 1:ok 2:ok 3:ok
";
    let count = statements_lack_what_is_due(&rt, rt.alloc(), rows)?;
    assert_eq!(rt; count, 25);
    Ok(())
}

#[test]
fn moves_take_the_whole_value(rt: HostRuntime) -> Result<(), Fail> {
    let rows = "\
x := \"a\"; move x to y; send y to m.out;
@move x to y; ! 2 needs init(x) by start 1:ok
x := \"a\"; move x to y; @send x to m.out; ! 4 needs init(x) by start 1:ok 2:ok 3:ok
n := 1; @move n to r.k; ! 3 needs init(r) by start 1:ok 2:ok
@move n to r.k; ! 2 needs init(r) by start 1:ok ! 2 needs init(n) by start 1:ok
new r; r.k := 1; @move r to q; ! 4 needs init(r.s) by start 1:ok 2:ok 3:ok
new r; r.k := 1; r.s := \"a\"; move r.k to n; @q := r; ! 6 needs init(r.k) by start 1:ok 2:ok 3:ok 4:ok 5:ok
new r; r.k := 1; r.s := \"a\"; move r to q; n := q.k; x := q.s; @n := r.k; \
! 8 needs init(r) by start 1:ok 2:ok 3:ok 4:ok 5:ok 6:ok 7:ok ! 8 needs init(r.k) by start 1:ok 2:ok 3:ok 4:ok 5:ok 6:ok 7:ok
new ai; receive c from ai; c.r := 1; move c to a; @return a; ! 6 needs init(a.r) by start 1:ok 2:ok 3:ok 4:ok 5:ok
new r; r.k := 1; r.s := \"a\"; new w; move r to w.a; n := w.a.k; @n := w.b; ! 8 needs init(w.b) by start 1:ok 2:ok 3:ok 4:ok 5:ok 6:ok 7:ok
n := 1; unite v.i from n; move v to z; @n := z.i; ! 5 needs case(z,i) by start 1:ok 2:ok 3:ok 4:ok
new h; h.n := 2; n := 1; unite h.v.i from n; move h to k; n := k.n; @n := k.v.i; ! 8 needs case(k.v,i) by start 1:ok 2:ok 3:ok 4:ok 5:ok 6:ok 7:ok
";
    let count = statements_lack_what_is_due(&rt, rt.alloc(), rows)?;
    assert_eq!(rt; count, 12);
    Ok(())
}

#[test]
fn new_values_are_empty_and_discarded_ones_gone(rt: HostRuntime) -> Result<(), Fail> {
    let rows = "\
new r; discard r;
new r; @n := r.k; ! 3 needs init(r.k) by start 1:ok 2:ok
@new w.a; ! 2 needs init(w) by start 1:ok
new r; r.k := 1; new r; @n := r.k; ! 5 needs init(r.k) by start 1:ok 2:ok 3:ok 4:ok
new w; new w.a; w.a.k := 1; new w; @n := w.a.k; \
! 6 needs init(w.a) by start 1:ok 2:ok 3:ok 4:ok 5:ok ! 6 needs init(w.a.k) by start 1:ok 2:ok 3:ok 4:ok 5:ok
try { new li; } on Depletion { @discard li; } ! 4 needs init(li) by start 1:ok 3:Depletion
new li; try { new li; } on Depletion { discard li; }
try { new li; } on Depletion { } @discard li; ! 4 needs init(li) by start 1:ok 3:Depletion
try { new t; } on Depletion { } discard t;
new t; n := size(t);
try { @new e.i; } on Depletion { @discard e; } ! 3 needs init(e) by start 1:ok ! 4 needs init(e) by start 1:ok 3:Depletion
@discard x; ! 2 needs init(x) by start 1:ok
x := \"a\"; discard x; @discard x; ! 4 needs init(x) by start 1:ok 2:ok 3:ok
new w; new w.a; w.a.k := 1; discard w.a; n := 1; @n := w.a.k; \
! 7 needs init(w.a) by start 1:ok 2:ok 3:ok 4:ok 5:ok 6:ok ! 7 needs init(w.a.k) by start 1:ok 2:ok 3:ok 4:ok 5:ok 6:ok
new r; r.s := \"a\"; discard r.s; discard r;
@discard w.a.k; ! 2 needs init(w) by start 1:ok ! 2 needs init(w.a) by start 1:ok ! 2 needs init(w.a.k) by start 1:ok
discard m; @x := m.arg; ! 3 needs init(m) by start 1:ok 2:ok ! 3 needs init(m.arg) by start 1:ok 2:ok
x := \"a\"; discard m.arg; send x to m.out; @x := m.arg; ! 5 needs init(m.arg) by start 1:ok 2:ok 3:ok 4:ok
discard start; @receive m from start; ! 3 needs init(start) by start 1:ok 2:ok
";
    let count = statements_lack_what_is_due(&rt, rt.alloc(), rows)?;
    assert_eq!(rt; count, 19);
    Ok(())
}
