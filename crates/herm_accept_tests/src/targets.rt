//! What is set loses its facts first, and nothing beside it; and needs of which one alone is missing.
use crate::rows::statements_lack_what_is_due;
use std::test::Fail;

#[test]
fn targets_lose_their_facts_first(rt: HostRuntime) -> Result<(), Fail> {
    let rows = "\
n := 1; unite v.i from n; move v to z; wrap z as p; n := 2; unite v.i from n; unwrap p as choice into v; @n := v.i; ! 9 needs case(v,i) by start 1:ok 2:ok 3:ok 4:ok 5:ok 6:ok 7:ok 8:ok
n := 1; unite v.i from n; unite u.c from v; n := 2; unite v.i from n; dissolve u.c into v; @n := v.i; ! 8 needs case(v,i) by start 1:ok 2:ok 3:ok 4:ok 5:ok 6:ok 7:ok
new h; n := 1; unite h.v.i from n; new h; @n := h.v.i; ! 6 needs init(h.v) by start 1:ok 2:ok 3:ok 4:ok 5:ok ! 6 needs case(h.v,i) by start 1:ok 2:ok 3:ok 4:ok 5:ok
new h; h.n := 1; n := 1; unite h.v.i from n; new hs; remove h from hs[1]; n := h.n; @n := h.v.i; ! 9 needs case(h.v,i) by start 1:ok 2:ok 3:ok 4:ok 5:ok 6:ok 7:ok 8:ok
new h; h.n := 1; n := 1; unite h.v.i from n; new hs; get h from hs[1]; n := h.n; @n := h.v.i; ! 9 needs case(h.v,i) by start 1:ok 2:ok 3:ok 4:ok 5:ok 6:ok 7:ok 8:ok
new h; h.n := 1; n := 1; unite h.v.i from n; new hs; try { remove h from hs[1]; } on NotFound { n := h.v.i; }
new h; h.n := 1; n := 1; unite h.v.i from n; new hs; for h in hs { @n := h.v.i; } @n := h.v.i; \
! 8 needs case(h.v,i) by start 1:ok 2:ok 3:ok 4:ok 5:ok 6:ok 7:turn ! 9 needs case(h.v,i) by start 1:ok 2:ok 3:ok 4:ok 5:ok 6:ok 7:turn 8:ok 7:done
new ci; n := 1; unite v.i from n; receive v from ci; @n := v.i; ! 6 needs case(v,i) by start 1:ok 2:ok 3:ok 4:ok 5:ok
new ci; n := 1; unite v.i from n; select { when ci receive v { @n := v.i; } } ! 6 needs case(v,i) by start 1:ok 2:ok 3:ok 4:ok 5:1
new ci; new li; n := 1; unite v.i from n; select { when ci receive v { } when li receive n { n := v.i; } }
create so of swapper; n := 1; unite v.i from n; call so(v, z); @n := v.i; ! 6 needs case(v,i) by start 1:ok 2:ok 3:ok 4:ok 5:ok
create so of swapper; n := 1; unite v.i from n; n := 2; unite z.i from n; call so(v, z); @n := z.i; ! 8 needs case(z,i) by start 1:ok 2:ok 3:ok 4:ok 5:ok 6:ok 7:ok
create so of swapper; n := 1; unite v.i from n; try { call so(v, z); } on Disconnected { @n := v.i; } \
! 7 needs init(v) by start 1:ok 2:ok 3:ok 4:ok 6:Disconnected ! 7 needs case(v,i) by start 1:ok 2:ok 3:ok 4:ok 6:Disconnected
create so of swapper; n := 1; unite v.i from n; try { call so(v, z); } on busy { reveal z.i; n := z.i; @reveal v.i; } ! 9 needs init(v) by start 1:ok 2:ok 3:ok 4:ok 6:busy 7:ok 8:ok
new r; r.k := 1; r.s := \"a\"; move r.k to n; x := r.s;
new w; new w.a; w.a.k := 1; w.b := 2; discard w.a; n := w.b;
new r; n := 1; unite v.i from n; dissolve v.i into r.k; n := r.k; @x := r.s; ! 7 needs init(r.s) by start 1:ok 2:ok 3:ok 4:ok 5:ok 6:ok
x := \"a\"; discard m.out; @send x to m.out; ! 4 needs init(m.out) by start 1:ok 2:ok 3:ok
create ao of asked; @call ao(x, x, n); ! 3 needs init(x) by start 1:ok 2:ok
new li; unite f.l from li; new li; select { when li receive n { } when f.l receive n { } } j := n;
new t; unite f.t from t; @for r in f.t { @discard f; } ! 4 needs init(f) by start 1:ok 2:ok 3:ok 4:turn 5:ok \
! 4 needs case(f,t) by start 1:ok 2:ok 3:ok 4:turn 5:ok ! 5 needs init(f) by start 1:ok 2:ok 3:ok 4:turn 5:ok 4:turn
new t; x := \"a\"; while true { for r in t { try { leave; } on busy { } } discard x; leave; } @send x to m.out; ! 10 needs init(x) by start 1:ok 2:ok 3:ok 4:true 5:done 8:ok 9:ok
n := 1; @while n < 3 { @move n to j; if j = 2 { n := j; } } ! 3 needs init(n) by start 1:ok 2:ok 3:true 4:ok 5:false ! 4 needs init(n) by start 1:ok 2:ok 3:true 4:ok 5:false 3:true
x := \"a\"; @wrap x as d.p; ! 3 needs init(d) by start 1:ok 2:ok
new d; @wrap x as d.p; ! 3 needs init(x) by start 1:ok 2:ok
x := \"a\"; wrap x as p; @unwrap p as integer into r.k; ! 4 needs init(r) by start 1:ok 2:ok 3:ok
new r; @unwrap p as integer into r.k; ! 3 needs init(p) by start 1:ok 2:ok
new h; @unite h.v.i from n; ! 3 needs init(n) by start 1:ok 2:ok
new r; @dissolve v.i into r.k; ! 3 needs init(v) by start 1:ok 2:ok ! 3 needs case(v,i) by start 1:ok 2:ok
new e; @connect e.o to li; ! 3 needs init(li) by start 1:ok 2:ok
new r; @receive r.k from li; ! 3 needs init(li) by start 1:ok 2:ok
new w; @for w.a in t { } ! 3 needs init(t) by start 1:ok 2:ok
new w; @get w.a from t[1]; ! 3 needs init(t) by start 1:ok 2:ok
";
    let count = statements_lack_what_is_due(&rt, rt.alloc(), rows)?;
    assert_eq!(rt; count, 33);
    Ok(())
}
