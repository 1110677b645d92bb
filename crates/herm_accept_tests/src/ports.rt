//! Ports: connected, sent to, received from, selected and created.
use crate::rows::statements_lack_what_is_due;
use std::test::Fail;

#[test]
fn messages_travel_at_their_declared_facts(rt: HostRuntime) -> Result<(), Fail> {
    let rows = "\
@connect lo to li; ! 2 needs init(li) by start 1:ok
new li; @connect e.o to li; ! 3 needs init(e) by start 1:ok 2:ok
@connect e.o to li; ! 2 needs init(e) by start 1:ok ! 2 needs init(li) by start 1:ok
new li; connect lo to li; receive n from li; send n to lo;
new e; new e.i; connect e.o to e.i; receive n from e.i; send n to e.o;
new li; connect lo to li; @send n to lo; ! 4 needs init(n) by start 1:ok 2:ok 3:ok
n := 1; @send n to lo; ! 3 needs init(lo) by start 1:ok 2:ok
@send n to lo; ! 2 needs init(n) by start 1:ok ! 2 needs init(lo) by start 1:ok
new ri; connect ro to ri; new r; r.k := 1; send r to ro; @n := r.k; \
! 7 needs init(r) by start 1:ok 2:ok 3:ok 4:ok 5:ok 6:ok ! 7 needs init(r.k) by start 1:ok 2:ok 3:ok 4:ok 5:ok 6:ok
new ri; connect ro to ri; new r; r.s := \"a\"; @send r to ro; ! 6 needs init(r.k) by start 1:ok 2:ok 3:ok 4:ok 5:ok
new fi; connect fo to fi; new r; r.k := 1; @send r to fo; ! 6 needs init(r.s) by start 1:ok 2:ok 3:ok 4:ok 5:ok
@send r to fo; ! 2 needs init(r) by start 1:ok ! 2 needs init(r.k) by start 1:ok ! 2 needs init(r.s) by start 1:ok ! 2 needs init(fo) by start 1:ok
@send r to ro; ! 2 needs init(r) by start 1:ok ! 2 needs init(r.k) by start 1:ok ! 2 needs init(ro) by start 1:ok
new ri; connect ro to ri; new r; r.k := 1; r.s := \"a\"; try { send r to ro; } on Disconnected { n := r.k; @x := r.s; } \
! 10 needs init(r.s) by start 1:ok 2:ok 3:ok 4:ok 5:ok 6:ok 8:Disconnected 9:ok
new fi; connect fo to fi; new r; r.k := 1; r.s := \"a\"; try { send r to fo; } on Disconnected { n := r.k; x := r.s; }
new li; connect lo to li; try { @send n to lo; } on Disconnected { j := n; } ! 5 needs init(n) by start 1:ok 2:ok 3:ok
new hi; connect ho to hi; new h; n := 1; unite h.v.i from n; send h to ho;
new hi; connect ho to hi; new h; new r; r.k := 1; r.s := \"a\"; unite h.v.r from r; @send h to ho; \
! 9 needs case(h.v,i) by start 1:ok 2:ok 3:ok 4:ok 5:ok 6:ok 7:ok 8:ok
@send h to ho; ! 2 needs init(h) by start 1:ok ! 2 needs init(h.v) by start 1:ok ! 2 needs case(h.v,i) by start 1:ok ! 2 needs init(ho) by start 1:ok
new hi; connect ho to hi; new h; h.n := 2; n := 1; unite h.v.i from n; try { send h to ho; } on Disconnected { n := h.v.i; @n := h.n; } \
! 11 needs init(h.n) by start 1:ok 2:ok 3:ok 4:ok 5:ok 6:ok 7:ok 9:Disconnected 10:ok
new wi; connect wo to wi; new w; new w.a; w.a.k := 1; @send w to wo; ! 7 needs init(w.a.s) by start 1:ok 2:ok 3:ok 4:ok 5:ok 6:ok
new wi; connect wo to wi; new w; new w.a; w.a.k := 1; w.a.s := \"a\"; send w to wo;
@receive n from li; ! 2 needs init(li) by start 1:ok
new li; @receive r.k from li; ! 3 needs init(r) by start 1:ok 2:ok
@receive r.k from li; ! 2 needs init(r) by start 1:ok ! 2 needs init(li) by start 1:ok
new ri; receive r from ri; n := r.k; @x := r.s; ! 5 needs init(r.s) by start 1:ok 2:ok 3:ok 4:ok
new r; r.s := \"a\"; new ri; receive r from ri; @x := r.s; ! 6 needs init(r.s) by start 1:ok 2:ok 3:ok 4:ok 5:ok
new fi; receive r from fi; n := r.k; x := r.s;
new hi; receive h from hi; n := h.v.i; @n := h.n; ! 5 needs init(h.n) by start 1:ok 2:ok 3:ok 4:ok
new hi; new h; new r; r.k := 1; r.s := \"a\"; unite h.v.r from r; receive h from hi; n := h.v.i; @x := h.v.r.s; \
! 10 needs case(h.v,r) by start 1:ok 2:ok 3:ok 4:ok 5:ok 6:ok 7:ok 8:ok 9:ok
new wi; receive w from wi; q := w.a; @n := w.b; ! 5 needs init(w.b) by start 1:ok 2:ok 3:ok 4:ok
discard m.arg; receive m from start; x := m.arg;
";
    let count = statements_lack_what_is_due(&rt, rt.alloc(), rows)?;
    assert_eq!(rt; count, 32);
    Ok(())
}

#[test]
fn arms_set_their_message(rt: HostRuntime) -> Result<(), Fail> {
    let rows = "\
@select { when li receive n { } } ! 2 needs init(li) by start 1:ok
@select { when li receive r.k { } when ri receive w.a { } } \
! 2 needs init(r) by start 1:ok ! 2 needs init(w) by start 1:ok ! 2 needs init(li) by start 1:ok ! 2 needs init(ri) by start 1:ok
new li; new ri; select { when li receive n { j := n; } when ri receive r { j := r.k; } } n := j;
new li; new ri; select { when li receive n { } when ri receive r { } } @j := n; ! 5 needs init(n) by start 1:ok 2:ok 3:ok 4:2
new li; new ri; select { when li receive n { @j := r.k; } when ri receive r { } } \
! 5 needs init(r) by start 1:ok 2:ok 3:ok 4:1 ! 5 needs init(r.k) by start 1:ok 2:ok 3:ok 4:1
new li; new ri; select { when li receive n { } when ri receive r { @x := r.s; } } ! 5 needs init(r.s) by start 1:ok 2:ok 3:ok 4:2
new li; @select { when li receive n { } when ri receive r { } } ! 3 needs init(ri) by start 1:ok 2:ok
new ri; @select { when li receive n { } when ri receive r { } } ! 3 needs init(li) by start 1:ok 2:ok
new li; new ri; @select { when li receive n { } when ri receive w.a { } } ! 4 needs init(w) by start 1:ok 2:ok 3:ok
n := 1; new r; r.k := 1; r.s := \"a\"; new li; new ri; select { when li receive n { x := r.s; } when ri receive r { j := n; @x := r.s; } } \
! 11 needs init(r.s) by start 1:ok 2:ok 3:ok 4:ok 5:ok 6:ok 7:ok 8:2 10:ok
new li; new ri; while true { @select { when li receive n { @discard li; } when ri receive r { } } } \
! 5 needs init(li) by start 1:ok 2:ok 3:ok 4:true 5:1 6:ok 4:true ! 6 needs init(li) by start 1:ok 2:ok 3:ok 4:true 5:1 6:ok 4:true 5:1
create lo of worker; n := 1; send n to lo;
@create e.o of worker; ! 2 needs init(e) by start 1:ok
try { create lo of worker; } on Depletion { @discard lo; } ! 4 needs init(lo) by start 1:ok 3:Depletion
try { create lo of worker; } on Depletion { } @discard lo; ! 4 needs init(lo) by start 1:ok 3:Depletion
new li; connect lo to li; try { create lo of worker; } on Depletion { discard lo; }
";
    let count = statements_lack_what_is_due(&rt, rt.alloc(), rows)?;
    assert_eq!(rt; count, 16);
    Ok(())
}
