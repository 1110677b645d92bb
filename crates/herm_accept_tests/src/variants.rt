//! Variants, polymorphs, and paths through components.
use crate::rows::statements_lack_what_is_due;
use std::test::Fail;

#[test]
fn cases_are_made_and_lost(rt: HostRuntime) -> Result<(), Fail> {
    let rows = "\
@unite v.i from n; ! 2 needs init(n) by start 1:ok
n := 1; unite v.i from n; j := v.i; @n := n + 1; ! 5 needs init(n) by start 1:ok 2:ok 3:ok 4:ok
n := 1; @unite h.v.i from n; ! 3 needs init(h) by start 1:ok 2:ok
@unite h.v.i from n; ! 2 needs init(h) by start 1:ok ! 2 needs init(n) by start 1:ok
new h; n := 1; unite h.v.i from n; n := h.v.i;
new r; r.k := 1; @unite v.r from r; ! 4 needs init(r.s) by start 1:ok 2:ok 3:ok
new r; r.k := 1; r.s := \"a\"; unite v.r from r; x := v.r.s; @x := r.s; \
! 7 needs init(r) by start 1:ok 2:ok 3:ok 4:ok 5:ok 6:ok ! 7 needs init(r.s) by start 1:ok 2:ok 3:ok 4:ok 5:ok 6:ok
n := 1; j := 2; unite v.i from n; unite v.i from j; n := v.i;
n := 1; unite v.i from n; new r; r.k := 1; r.s := \"a\"; unite v.r from r; x := v.r.s; @n := v.i; \
! 9 needs case(v,i) by start 1:ok 2:ok 3:ok 4:ok 5:ok 6:ok 7:ok 8:ok
n := 1; unite v.i from n; unite u.c from v; reveal u.c.i; n := u.c.i; @n := v.i; \
! 7 needs init(v) by start 1:ok 2:ok 3:ok 4:ok 5:ok 6:ok ! 7 needs case(v,i) by start 1:ok 2:ok 3:ok 4:ok 5:ok 6:ok
n := 1; unite v.i from n; unite u.c from v; @n := u.c.i; ! 5 needs case(u.c,i) by start 1:ok 2:ok 3:ok 4:ok
@dissolve v.i into n; ! 2 needs init(v) by start 1:ok ! 2 needs case(v,i) by start 1:ok
n := 1; unite v.i from n; dissolve v.i into j; n := j; @discard v; ! 6 needs init(v) by start 1:ok 2:ok 3:ok 4:ok 5:ok
n := 1; unite v.i from n; @dissolve v.i into r.k; ! 4 needs init(r) by start 1:ok 2:ok 3:ok
@dissolve v.i into r.k; ! 2 needs init(r) by start 1:ok ! 2 needs init(v) by start 1:ok ! 2 needs case(v,i) by start 1:ok
n := 1; unite v.i from n; @dissolve v.r into r; ! 4 needs case(v,r) by start 1:ok 2:ok 3:ok
n := 1; unite v.i from n; reveal v.r; dissolve v.r into r; n := r.k; x := r.s; @n := v.i; \
! 8 needs init(v) by start 1:ok 2:ok 3:ok 4:ok 5:ok 6:ok 7:ok ! 8 needs case(v,i) by start 1:ok 2:ok 3:ok 4:ok 5:ok 6:ok 7:ok
n := 1; unite v.i from n; unite u.c from v; dissolve u.c into z; @dissolve z.i into n; ! 6 needs case(z,i) by start 1:ok 2:ok 3:ok 4:ok 5:ok
new h; n := 1; unite h.v.i from n; dissolve h.v.i into n; @reveal h.v.i; ! 6 needs init(h.v) by start 1:ok 2:ok 3:ok 4:ok 5:ok
@reveal v.i; ! 2 needs init(v) by start 1:ok
n := 1; unite v.i from n; move v to z; reveal z.i; n := z.i;
n := 1; unite v.i from n; move v to z; try { reveal z.i; } on CaseError { @n := z.i; } ! 7 needs case(z,i) by start 1:ok 2:ok 3:ok 4:ok 6:CaseError
n := 1; unite v.i from n; move v to z; try { reveal z.i; } on CaseError { } @n := z.i; ! 7 needs case(z,i) by start 1:ok 2:ok 3:ok 4:ok 6:CaseError
n := 1; unite v.i from n; try { reveal v.r; } on CaseError { n := v.i; }
n := 1; unite v.i from n; reveal v.r; n := v.i; x := v.r.s;
@reveal u.c.i; ! 2 needs init(u) by start 1:ok ! 2 needs case(u,c) by start 1:ok
n := 1; unite v.i from n; discard v; @n := v.i; ! 5 needs init(v) by start 1:ok 2:ok 3:ok 4:ok ! 5 needs case(v,i) by start 1:ok 2:ok 3:ok 4:ok
";
    let count = statements_lack_what_is_due(&rt, rt.alloc(), rows)?;
    assert_eq!(rt; count, 27);
    Ok(())
}

#[test]
fn arms_know_their_case(rt: HostRuntime) -> Result<(), Fail> {
    let rows = "\
@case v { when i { } when r { } } ! 2 needs init(v) by start 1:ok
@case u.c { when i { } when r { } } ! 2 needs init(u) by start 1:ok ! 2 needs case(u,c) by start 1:ok
n := 1; unite v.i from n; move v to z; case z { when i { n := z.i; } when r { x := z.r.s; } }
n := 1; unite v.i from n; move v to z; case z { when i { @x := z.r.s; } when r { } } ! 6 needs case(z,r) by start 1:ok 2:ok 3:ok 4:ok 5:i
n := 1; unite v.i from n; move v to z; case z { when i { } when r { @n := z.i; } } ! 6 needs case(z,i) by start 1:ok 2:ok 3:ok 4:ok 5:r
n := 1; unite v.i from n; move v to z; case z { when r { @n := z.i; } when i { n := z.i; } } ! 6 needs case(z,i) by start 1:ok 2:ok 3:ok 4:ok 5:r
n := 1; unite v.i from n; move v to z; case z { when i { } when r { } } @n := z.i; ! 6 needs case(z,i) by start 1:ok 2:ok 3:ok 4:ok 5:r
n := 1; unite v.i from n; case v { when i { } when r { x := v.r.s; } } n := v.i;
n := 1; unite v.i from n; move v to z; case z { when i { dissolve z.i into n; j := n; } when r { dissolve z.r into r; } } @discard z; \
! 9 needs init(z) by start 1:ok 2:ok 3:ok 4:ok 5:r 8:ok
n := 1; unite v.i from n; unite u.c from v; case u.c { when i { n := u.c.i; } when r { @n := u.c.i; } } \
! 7 needs case(u.c,i) by start 1:ok 2:ok 3:ok 4:ok 5:r
n := 1; unite v.i from n; unite u.c from v; case u.c { when i { discard u; } when r { discard u; n := 1; } } @reveal u.c.i; \
! 9 needs init(u) by start 1:ok 2:ok 3:ok 4:ok 5:i 6:ok ! 9 needs case(u,c) by start 1:ok 2:ok 3:ok 4:ok 5:i 6:ok
";
    let count = statements_lack_what_is_due(&rt, rt.alloc(), rows)?;
    assert_eq!(rt; count, 11);
    Ok(())
}

#[test]
fn polymorphs_are_wrapped_and_unwrapped(rt: HostRuntime) -> Result<(), Fail> {
    let rows = "\
@wrap x as p; ! 2 needs init(x) by start 1:ok
@wrap x as d.p; ! 2 needs init(d) by start 1:ok ! 2 needs init(x) by start 1:ok
new r; r.s := \"a\"; @wrap r as p; ! 4 needs init(r.k) by start 1:ok 2:ok 3:ok
x := \"a\"; wrap x as p; discard p; @send x to m.out; ! 5 needs init(x) by start 1:ok 2:ok 3:ok 4:ok
x := \"a\"; try { wrap x as p; } on Depletion { send x to m.out; @discard p; } ! 6 needs init(p) by start 1:ok 2:ok 4:Depletion 5:ok
new d; x := \"a\"; wrap x as d.p; @n := d.n; ! 5 needs init(d.n) by start 1:ok 2:ok 3:ok 4:ok
@unwrap p as string into x; ! 2 needs init(p) by start 1:ok
x := \"a\"; wrap x as p; unwrap p as string into x; send x to m.out; @discard p; ! 6 needs init(p) by start 1:ok 2:ok 3:ok 4:ok 5:ok
@unwrap p as integer into r.k; ! 2 needs init(r) by start 1:ok ! 2 needs init(p) by start 1:ok
x := \"a\"; wrap x as p; try { unwrap p as string into y; } on PolymorphMismatch { discard p; @send y to m.out; } \
! 7 needs init(y) by start 1:ok 2:ok 3:ok 5:PolymorphMismatch 6:ok
x := \"a\"; wrap x as p; unwrap p as rec into r; n := r.k; x := r.s;
x := \"a\"; wrap x as p; unwrap p as choice into v; @n := v.i; ! 5 needs case(v,i) by start 1:ok 2:ok 3:ok 4:ok
x := \"a\"; wrap x as p; y := \"b\"; try { unwrap p as string into y; } on PolymorphMismatch { } send y to m.out;
x := \"a\"; wrap x as p; try { unwrap p as string into y; } on PolymorphMismatch { } @discard p; ! 6 needs init(p) by start 1:ok 2:ok 3:ok 5:ok
";
    let count = statements_lack_what_is_due(&rt, rt.alloc(), rows)?;
    assert_eq!(rt; count, 14);
    Ok(())
}

#[test]
fn paths_through_components_need_the_last_case(rt: HostRuntime) -> Result<(), Fail> {
    let rows = "\
@n := u.c.r.k; ! 2 needs init(u) by start 1:ok ! 2 needs case(u,c) by start 1:ok ! 2 needs case(u.c,r) by start 1:ok
@receive n from f.l; ! 2 needs init(f) by start 1:ok ! 2 needs case(f,l) by start 1:ok
new li; unite f.l from li; receive n from f.l; connect lo to f.l; send n to lo;
n := 1; @send n to f.o; ! 3 needs init(f) by start 1:ok 2:ok ! 3 needs case(f,o) by start 1:ok 2:ok
new li; connect lo to li; unite f.o from lo; n := 1; send n to f.o;
new t; unite f.t from t; new r; r.k := 1; r.s := \"a\"; insert r into f.t; for r in f.t { } n := size(f.t); remove r from f.t[1]; get r from f.t[1];
@n := size(f.t); ! 2 needs init(f) by start 1:ok ! 2 needs case(f,t) by start 1:ok
@insert r into f.t; ! 2 needs init(r) by start 1:ok ! 2 needs init(r.k) by start 1:ok ! 2 needs init(r.s) by start 1:ok \
! 2 needs init(f) by start 1:ok ! 2 needs case(f,t) by start 1:ok
@for r in f.t { } ! 2 needs init(f) by start 1:ok ! 2 needs case(f,t) by start 1:ok
@get r from f.t[1]; ! 2 needs init(f) by start 1:ok ! 2 needs case(f,t) by start 1:ok
@remove r from f.t[1]; ! 2 needs init(f) by start 1:ok ! 2 needs case(f,t) by start 1:ok
@connect lo to f.l; ! 2 needs init(f) by start 1:ok ! 2 needs case(f,l) by start 1:ok
@select { when f.l receive n { } } ! 2 needs init(f) by start 1:ok ! 2 needs case(f,l) by start 1:ok
@call f.a(x, y, n); ! 2 needs init(f) by start 1:ok ! 2 needs case(f,a) by start 1:ok ! 2 needs init(x) by start 1:ok ! 2 needs init(y) by start 1:ok
@x := f.k.q; ! 2 needs init(f) by start 1:ok ! 2 needs case(f,k) by start 1:ok
new ai; receive c from ai; unite f.k from c; x := f.k.q; x := f.k.w; @discard c; ! 7 needs init(c) by start 1:ok 2:ok 3:ok 4:ok 5:ok 6:ok
new li; unite f.l from li; discard f; @receive n from f.l; ! 5 needs init(f) by start 1:ok 2:ok 3:ok 4:ok ! 5 needs case(f,l) by start 1:ok 2:ok 3:ok 4:ok
n := 1; unite v.i from n; while true { @n := v.i; move v to z; move z to v; } ! 5 needs case(v,i) by start 1:ok 2:ok 3:ok 4:true 5:ok 6:ok 7:ok 4:true
new t; @get r from t[v.i]; ! 3 needs init(v) by start 1:ok 2:ok ! 3 needs case(v,i) by start 1:ok 2:ok
create ao of asked; y := \"b\"; @call ao(v.r.s, y, n); ! 4 needs init(v) by start 1:ok 2:ok 3:ok ! 4 needs case(v,r) by start 1:ok 2:ok 3:ok
@if v.i = 1 { } ! 2 needs init(v) by start 1:ok ! 2 needs case(v,i) by start 1:ok
new h; n := 1; unite h.v.i from n; discard h.v; @n := h.v.i; \
! 6 needs init(h.v) by start 1:ok 2:ok 3:ok 4:ok 5:ok ! 6 needs case(h.v,i) by start 1:ok 2:ok 3:ok 4:ok 5:ok
";
    let count = statements_lack_what_is_due(&rt, rt.alloc(), rows)?;
    assert_eq!(rt; count, 22);
    Ok(())
}
