//! Statements of each form, with what they need and what each of their outcomes makes and takes away, by hand from the statement table.
use crate::rows::{has_no_effects, statements_have_their_effects};
use herm_typed::TypedForm;
use std::test::Fail;

#[test]
fn values_are_set_and_moved(rt: HostRuntime) -> Result<(), Fail> {
    let rows = "\
i := 1;| | ok: i / i
i := n.k + n.k;| n n.0 | ok: i / i
r.n.k := i + n.k;| r r.0 i n n.0 | ok: r r.0 r.0.0 / r.0.0
i := v.a;| v v=0 | ok: i / i
s := u.c.v.b.s & s;| u u=0 u.0.0=1 s | ok: s / s
i := size(z.t);| z z.1 | ok: i / i
b := not (i < 1 or text(n.k) = s) and length(r.s) >= -i;| i n n.0 s r r.1 | ok: b / b
r.n := n;| r n n.0 n.1 | ok: r r.0 r.0.0 r.0.1 / r.0
move r to k;| r r.0 r.0.0 r.0.1 r.1 | ok: k k.0 k.0.0 k.0.1 k.1 / r k
move r.n to z.r.n;| z z.3 r r.0 r.0.0 r.0.1 | ok: z z.3 z.3.0 z.3.0.0 z.3.0.1 / r.0 z.3.0
move q to z.q;| z q q.0 q.1 q.1.0 q.1.1 | ok: z z.5 z.5.0 z.5.1 z.5.1.0 z.5.1.1 / q z.5
new r;| | ok: r / r
new z.r;| z | ok: z z.3 / z.3
new z.r.n;| z z.3 | ok: z z.3 z.3.0 / z.3.0
discard r.n;| r r.0 | ok: / r.0
discard q;| q | ok: / q
";
    let count = statements_have_their_effects(&rt, rt.alloc(), rows)?;
    assert_eq!(rt; count, 16);
    Ok(())
}

#[test]
fn variants_polymorphs_and_tables(rt: HostRuntime) -> Result<(), Fail> {
    let rows = "\
unite v.b from r;| r r.0 r.0.0 r.0.1 r.1 | ok: v v=1 / r v
unite z.v.a from i;| z i | ok: z z.2 z.2=0 / i z.2
dissolve v.b into r;| v v=1 | ok: r r.0 r.0.0 r.0.1 r.1 / v r
dissolve x.v.a into n.k;| n x x.0 x.0=0 | ok: n n.0 / x.0 n.0
reveal v.b;| v | ok: v v=1 /
reveal u.c.v.a;| u u=0 | ok: u u=0 u.0.0=0 /
case x.v { when a { } when b { } }| x x.0 | component 0: x x.0 x.0=0 / | component 1: x x.0 x.0=1 /
case u.c.v { when b { } when a { } }| u u=0 | component 0: u u=0 u.0.0=0 / | component 1: u u=0 u.0.0=1 /
wrap r.n as p;| r r.0 r.0.0 r.0.1 | ok: p / r.0 p
wrap i as z.p;| z i | ok: z z.0 / i z.0
unwrap z.p as rec into r;| z z.0 | ok: r r.0 r.0.0 r.0.1 r.1 / z.0 r
unwrap p as integer into n.k;| n p | ok: n n.0 / p n.0
insert n into z.t;| n n.0 n.1 z z.1 | ok: / n
remove n from t[i];| t i | ok: n n.0 n.1 / n
remove r.n from z.t[n.k];| r z z.1 n n.0 | ok: r r.0 r.0.0 r.0.1 / r.0
get n from t[1];| t | ok: n n.0 n.1 / n
get n from t[v.a];| t v v=0 | ok: n n.0 n.1 / n
for n in z.t { }| z z.1 | turn: n n.0 n.1 / n
for r.n in t { }| r t | turn: r r.0 r.0.0 r.0.1 / r.0
";
    let count = statements_have_their_effects(&rt, rt.alloc(), rows)?;
    assert_eq!(rt; count, 19);
    Ok(())
}

#[test]
fn ports_and_messages(rt: HostRuntime) -> Result<(), Fail> {
    let rows = "\
connect z.lo to li;| z li | ok: z z.4 / z.4
connect lo to z.li;| z z.6 | ok: lo / lo
send r to lo;| r r.1 r.0 r.0.0 r.0.1 lo | ok: / r | raised 6: r r.1 r.0 r.0.0 r.0.1 / r | raised 7: r r.1 r.0 r.0.0 r.0.1 / r | raised 8: r r.1 r.0 r.0.0 r.0.1 / r
send z.r to z.lo;| z z.3 z.3.1 z.3.0 z.3.0.0 z.3.0.1 z.4 | ok: / z.3 | raised 6: z z.3 z.3.1 z.3.0 z.3.0.0 z.3.0.1 / z.3 | raised 7: z z.3 z.3.1 z.3.0 z.3.0.0 z.3.0.1 / z.3 | raised 8: z z.3 z.3.1 z.3.0 z.3.0.0 z.3.0.1 / z.3
send x to co;| x x.0 x.0=1 co | ok: / x | raised 6: x x.0 x.0=1 / x | raised 7: x x.0 x.0=1 / x | raised 8: x x.0 x.0=1 / x
send r.s to so;| r r.1 so | ok: / r.1 | raised 6: r r.1 / r.1 | raised 7: r r.1 / r.1 | raised 8: r r.1 / r.1
receive k from li;| li | ok: k k.1 k.0 k.0.0 k.0.1 / k
receive z.r from z.li;| z z.6 | ok: z z.3 z.3.1 z.3.0 z.3.0.0 z.3.0.1 / z.3
receive x from ci;| ci | ok: x x.0 x.0=1 / x
select { when li receive z.r { } when ci receive x { } }| z li ci | arm 0: z z.3 z.3.1 z.3.0 z.3.0.0 z.3.0.1 / z.3 | arm 1: x x.0 x.0=1 / x
create lo of worker;| | ok: lo / lo
create z.lo of worker;| z | ok: z z.4 / z.4
";
    let count = statements_have_their_effects(&rt, rt.alloc(), rows)?;
    assert_eq!(rt; count, 12);
    Ok(())
}

#[test]
fn calls_and_their_answers(rt: HostRuntime) -> Result<(), Fail> {
    let rows = "\
call ao(s, n, i);| ao s n n.0 n.1 | ok: n n.0 n.1 i / n i | raised 6: / n i | raised 7: n n.0 n.1 / n i | raised 8: / n i
call ao(\"a\", r.n, z.r.n.k);| r z z.3 z.3.0 ao r.0 r.0.0 r.0.1 | ok: r r.0 r.0.0 r.0.1 z z.3 z.3.0 z.3.0.0 / r.0 z.3.0.0 | raised 6: / r.0 z.3.0.0 | raised 7: r r.0 r.0.0 r.0.1 / r.0 z.3.0.0 | raised 8: / r.0 z.3.0.0
call ao(v.b.s, n, i);| ao v v=1 n n.0 n.1 | ok: n n.0 n.1 i / n i | raised 6: / n i | raised 7: n n.0 n.1 / n i | raised 8: / n i
call bo(s, r, \"x\", i);| bo r r.0 r.0.0 r.0.1 r.1 | ok: s r r.0 r.0.0 r.0.1 r.1 i / s r i | raised 6: / s r i | raised 7: s i / s r i | raised 8: / s r i
return q;| q q.1 q.1.0 q.1.1 q.2 | ok: / q
return z.q;| z z.5 z.5.1 z.5.1.0 z.5.1.1 z.5.2 | ok: / z.5
return q exception e;| q q.1 q.1.0 q.1.1 | ok: / q
return z.q exception e;| z z.5 z.5.1 z.5.1.0 z.5.1.1 | ok: / z.5
return q exception f;| q | ok: / q
";
    let count = statements_have_their_effects(&rt, rt.alloc(), rows)?;
    assert_eq!(rt; count, 9);
    Ok(())
}

#[test]
fn tests_and_jumps(rt: HostRuntime) -> Result<(), Fail> {
    let rows = "\
if b { }| b
if v.a = 1 { } else { i := 1; }| v v=0
while i > n.k { }| i n n.0
while b { leave; }| b
raise e;|
try { raise e; } on e { i := 1; }|
";
    let count = statements_have_their_effects(&rt, rt.alloc(), rows)?;
    assert_eq!(rt; count, 6);
    has_no_effects(&rt, rt.alloc(), &TypedForm::Leave)?;
    Ok(())
}
