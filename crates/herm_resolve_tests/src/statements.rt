//! Statements of each form, right ones and wrong ones.
use crate::rows::statements_have_their_faults;
use std::test::Fail;

#[test]
fn each_form_is_right(rt: HostRuntime) -> Result<(), Fail> {
    let rows = "\
move r to k;
new r;
new x;
new li;
discard p;
unite v.a from i;
dissolve v.a into i;
reveal v.b;
wrap i as p;
unwrap p as rec into r;
insert r into x;
remove r from x[i, s];
remove r from x[1, \"a\"];
get r from x[i, s];
for r in x { }
connect lo to li;
send i to lo;
receive i from li;
receive q from ai;
select { when li receive i { } when ai receive q { } }
call ao(s, t, i);
call ao(\"a\", s, r.n);
return q;
return q exception e;
create lo of worker;
if b { i := 1; } else { i := 2; }
while b { leave; }
raise e;
raise Overflow;
try { i := i + 1; } on Overflow { i := 1; }
case v { when a { } when b { } }
case v { when b { } when a { } }
call ao(s, t, q.r);
reveal vr.v.a;
unite vr.v.a from i;
case vr.v { when a { i := vr.v.a; } when b { } }
";
    let count = statements_have_their_faults(&rt, rt.alloc(), rows)?;
    assert_eq!(rt; count, 36);
    Ok(())
}

#[test]
fn unknown_names_are_refused(rt: HostRuntime) -> Result<(), Fail> {
    let rows = "\
@14unite v.z from i;
@14dissolve v.z into i;
@14reveal r.z;
@14unwrap p as nope into r;
@14raise f;
@14return q exception f;
@14create lo of nobody;
@14leave;
@14case v { when a { } when z { } }
@14try { i := i + 1; } on f { }
@14if z { }
@14while z { }
@14for z in x { }
@14remove r from x[z, s];
@14call ao(s, z, i);
@14select { when li receive z { } }
@14case i { when a { } }
@14new z;
@14discard z;
@14move z to r;
@14wrap z as p;
@14unwrap p as rec into z;
@14insert z into x;
@14insert r into z;
@14remove r from z[i, s];
@14get z from x[i, s];
@14for r in z { }
@14connect z to li;
@14connect lo to z;
@14send z to lo;
@14send i to z;
@14receive i from z;
@14select { when z receive i { } }
@14call z(s, t, i);
@14return z;
@14create z of worker;
@14unite z.a from i;
@14dissolve z.a into i;
@14reveal z.a;
@14case z { when a { } }
@14return r exception f;
@14case q { when a { } }
@14unite v.a from j.n;
@14unite v.b.z from i;
@14case v.a { when x { } }
@14unwrap i as nope into r;
@14case v { when z { } when z { } }
";
    let count = statements_have_their_faults(&rt, rt.alloc(), rows)?;
    assert_eq!(rt; count, 47);
    Ok(())
}

#[test]
fn wrong_types_and_repetitions_are_refused(rt: HostRuntime) -> Result<(), Fail> {
    let rows = "\
@16move r to r;
@16move r to r.n;
@16move v.a to i;
@16move i to v.a;
@16move i to s;
@16new i;
@16new s;
@16new v.a;
@16discard v.a;
@16unite v.a from s;
@16unite r.n from i;
@16unite v.b from v.b;
@16dissolve v.b into r.n;
@16dissolve v.a into v;
@16reveal r.n;
@16reveal q.r;
@16case r { when n { } when s { } }
@16case v { when a { } }
@15case v { when a { } when a { } when b { } }
@16wrap i as s;
@16wrap p as p;
@16wrap pr.p as pr.p;
@16wrap v.a as p;
@16unwrap i as rec into r;
@16unwrap p as rec into i;
@16unwrap p as polymorph into p;
@16unwrap pr.p as pr into pr;
@16insert i into x;
@16insert r into r;
@16insert v.b into x;
@16remove i from x[i, s];
@16remove r from x[i];
@16remove r from x[i, s, s];
@16remove r from x[s, i];
@16get v.b from x[i, s];
@17get pr from pt[i];
@16for i in x { }
@17for pr in pt { }
@16for r in r { }
@16connect li to lo;
@16connect lo to ai;
@16send s to lo;
@16send v.a to lo;
@16send i to li;
@16receive s from li;
@16receive v.a from li;
@16receive i from lo;
@15select { when li receive i { } when li receive j { } }
@16select { when li receive i { } when ai receive i { } }
@16call lo(i);
@16call ao(s, t);
@16call ao(s, t, i, i);
@16call ao(i, t, i);
@16call ao(s, \"a\", i);
@16call ao(s, t, v.a);
@16call ao(s, r.s, r);
@16return r;
@16return q exception Overflow;
@16create lo of main;
@16if i { }
@16call ao(s, t, t);
@16call ao(s, i, i);
@16call ao();
@16call ao(s, t, 1);
@16get r from x[i];
@16get r from x[i, s, s];
@16get r from x[s, i];
@16remove v.b from x[i, s];
@16for v.b in x { }
@16unwrap p as rec into v.b;
@16dissolve v.a into v.a;
@16unite w.b from v.b;
@16connect r to li;
@16connect lo to r;
@16create r of worker;
@16send i to r;
@16receive i from r;
@16return v;
@16return s exception e;
@16while s { }
@16select { when li receive s { } }
@16select { when r receive i { } }
@16select { when li receive v.a { } }
@16return cv.c;
@16wrap cv.c as p;
call ao(cv.c.q, t, i);
@16call ao(cv.c.q, t, cv.c.r);
@16unite v.b.n from i;
@16dissolve cv.c.q into s;
@16case q { when q { } when w { } when r { } }
remove r from x[r.n, r.s];
remove r from x[v.a, v.b.s];
@16get i from pt[i];
@15case v { when a { } when a { } }
@15case v { when b { } when a { } when b { } }
@15select { when ai receive q { } when li receive i { } when ai receive q { } }
call po(r, s, t, k);
call po(r, s, s, k);
call po(r, s, r.s, k);
@16call po(r, s, t, r);
@16call po(r, r.s, t, k);
@16call po(r, k.s, t, k);
@16call po(r, s, t, v.b);
@16call po(v.b, s, t, k);
";
    let count = statements_have_their_faults(&rt, rt.alloc(), rows)?;
    assert_eq!(rt; count, 104);
    Ok(())
}

#[test]
fn the_first_fault_of_a_statement_stands(rt: HostRuntime) -> Result<(), Fail> {
    let rows = "\
@14z := p;
@14i := z + s;
@14z := p + 1;
@16i := o;
@14s := i + z.n;
@14call ao(i, t, z);
@14remove p from x[z];
@16get i from pt[j];
@17get pr from pt[j];
@14case v { when a { } when a { } when z { } }
@15case v { when a { } when a { } }
@15select { when li receive s { } when li receive i { } }
@14select { when li receive s { } when li receive z { } }
@15try { i := i + 1; } on Overflow { } on Overflow { } on Depletion { }
@14try { i := i + 1; } on Overflow { } on Overflow { } on f { }
@14if z { @16i := s; }
@16while i { @17p := o; leave; }
@14for z in x { @16i := s; }
@14move z to z;
@14unwrap s as nope into z;
@14create z of nobody;
@14return r exception f;
@16return r exception e;
";
    let count = statements_have_their_faults(&rt, rt.alloc(), rows)?;
    assert_eq!(rt; count, 23);
    Ok(())
}
