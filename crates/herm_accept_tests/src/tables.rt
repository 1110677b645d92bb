//! Tables, their rows and keys.
use crate::rows::statements_lack_what_is_due;
use std::test::Fail;

#[test]
fn rows_are_inserted_and_found(rt: HostRuntime) -> Result<(), Fail> {
    let rows = "\
new t; @insert r into t; ! 3 needs init(r) by start 1:ok 2:ok ! 3 needs init(r.k) by start 1:ok 2:ok ! 3 needs init(r.s) by start 1:ok 2:ok
new r; r.k := 1; r.s := \"a\"; @insert r into t; ! 5 needs init(t) by start 1:ok 2:ok 3:ok 4:ok
@insert r into t; ! 2 needs init(r) by start 1:ok ! 2 needs init(r.k) by start 1:ok ! 2 needs init(r.s) by start 1:ok ! 2 needs init(t) by start 1:ok
new t; new r; r.k := 1; @insert r into t; ! 5 needs init(r.s) by start 1:ok 2:ok 3:ok 4:ok
new t; new r; r.k := 1; r.s := \"a\"; insert r into t; n := size(t); @n := r.k; \
! 8 needs init(r) by start 1:ok 2:ok 3:ok 4:ok 5:ok 6:ok 7:ok ! 8 needs init(r.k) by start 1:ok 2:ok 3:ok 4:ok 5:ok 6:ok 7:ok
new t; new r; r.k := 1; r.s := \"a\"; try { insert r into t; } on DuplicateKey { n := r.k; } on Depletion { x := r.s; }
new t; new r; r.k := 1; r.s := \"a\"; try { insert r into t; } on DuplicateKey { } @n := r.k; \
! 8 needs init(r) by start 1:ok 2:ok 3:ok 4:ok 5:ok 7:ok ! 8 needs init(r.k) by start 1:ok 2:ok 3:ok 4:ok 5:ok 7:ok
@remove r from t[1]; ! 2 needs init(t) by start 1:ok
new t; @remove r from t[n]; ! 3 needs init(n) by start 1:ok 2:ok
new t; @remove w.a from t[1]; ! 3 needs init(w) by start 1:ok 2:ok
@remove w.a from tt[n, x]; ! 2 needs init(w) by start 1:ok ! 2 needs init(tt) by start 1:ok ! 2 needs init(n) by start 1:ok ! 2 needs init(x) by start 1:ok
new t; remove r from t[1]; n := r.k; x := r.s;
new t; try { remove r from t[1]; } on NotFound { @n := r.k; } ! 5 needs init(r) by start 1:ok 2:ok 4:NotFound ! 5 needs init(r.k) by start 1:ok 2:ok 4:NotFound
new t; new r; r.k := 1; try { remove r from t[1]; } on NotFound { n := r.k; @x := r.s; } ! 8 needs init(r.s) by start 1:ok 2:ok 3:ok 4:ok 6:NotFound 7:ok
@get r from t[1]; ! 2 needs init(t) by start 1:ok
new t; @get w.a from t[1]; ! 3 needs init(w) by start 1:ok 2:ok
@get w.a from tt[n, x]; ! 2 needs init(w) by start 1:ok ! 2 needs init(tt) by start 1:ok ! 2 needs init(n) by start 1:ok ! 2 needs init(x) by start 1:ok
new t; get r from t[1]; n := r.k; x := r.s; get q from t[n];
new t; try { get r from t[1]; } on NotFound { } @n := r.k; ! 5 needs init(r) by start 1:ok 2:ok 4:NotFound ! 5 needs init(r.k) by start 1:ok 2:ok 4:NotFound
new t; new r; r.k := 1; remove r from t[r.k]; x := r.s;
new t; @remove r from t[r.k]; ! 3 needs init(r) by start 1:ok 2:ok ! 3 needs init(r.k) by start 1:ok 2:ok
new tt; @get r from tt[n, x]; ! 3 needs init(n) by start 1:ok 2:ok ! 3 needs init(x) by start 1:ok 2:ok
";
    let count = statements_lack_what_is_due(&rt, rt.alloc(), rows)?;
    assert_eq!(rt; count, 22);
    Ok(())
}

#[test]
fn turns_set_the_row(rt: HostRuntime) -> Result<(), Fail> {
    let rows = "\
@for r in t { } ! 2 needs init(t) by start 1:ok
new t; for r in t { n := r.k; x := r.s; }
new t; for r in t { } @n := r.k; ! 4 needs init(r) by start 1:ok 2:ok 3:done ! 4 needs init(r.k) by start 1:ok 2:ok 3:done
new t; @for w.a in t { } ! 3 needs init(w) by start 1:ok 2:ok
@for w.a in t { } ! 2 needs init(w) by start 1:ok ! 2 needs init(t) by start 1:ok
new t; x := \"a\"; for r in t { @send x to m.out; } ! 5 needs init(x) by start 1:ok 2:ok 3:ok 4:turn 5:ok 4:turn
new t; @for r in t { @discard t; } ! 3 needs init(t) by start 1:ok 2:ok 3:turn 4:ok ! 4 needs init(t) by start 1:ok 2:ok 3:turn 4:ok 3:turn
new t; new r; r.k := 1; r.s := \"a\"; for r in t { discard r; } @n := r.k; \
! 8 needs init(r) by start 1:ok 2:ok 3:ok 4:ok 5:ok 6:turn 7:ok 6:done ! 8 needs init(r.k) by start 1:ok 2:ok 3:ok 4:ok 5:ok 6:turn 7:ok 6:done
new t; new r; r.k := 1; r.s := \"a\"; for r in t { } n := r.k;
new t; for r in t { insert r into t; }
new t; for r in t { for q in t { n := r.k + q.k; } @n := q.k; } ! 6 needs init(q) by start 1:ok 2:ok 3:turn 4:done ! 6 needs init(q.k) by start 1:ok 2:ok 3:turn 4:done
new t; for r in t { for q in t { @discard r; } } ! 5 needs init(r) by start 1:ok 2:ok 3:turn 4:turn 5:ok 4:turn
new t; for r in t { leave; } @n := r.k; ! 5 needs init(r) by start 1:ok 2:ok 3:done ! 5 needs init(r.k) by start 1:ok 2:ok 3:done
new t; new r; r.k := 1; r.s := \"a\"; for q in t { discard r; leave; } @n := r.k; \
! 9 needs init(r) by start 1:ok 2:ok 3:ok 4:ok 5:ok 6:turn 7:ok 8:ok ! 9 needs init(r.k) by start 1:ok 2:ok 3:ok 4:ok 5:ok 6:turn 7:ok 8:ok
new w; new t; for w.a in t { n := w.a.k; } @n := w.a.k; ! 6 needs init(w.a) by start 1:ok 2:ok 3:ok 4:done ! 6 needs init(w.a.k) by start 1:ok 2:ok 3:ok 4:done
";
    let count = statements_lack_what_is_due(&rt, rt.alloc(), rows)?;
    assert_eq!(rt; count, 15);
    Ok(())
}
