//! Assignments and expressions, each with its code.
use crate::rows::statements_have_their_faults;
use std::test::Fail;

#[test]
fn values_have_their_types(rt: HostRuntime) -> Result<(), Fail> {
    let rows = "\
i := 1;
i := i + j * 2 - (i div j) mod 3;
s := s & t & \"x\";
b := i < j and not b or s >= t;
b := c = color#red;
i := -size(x);
s := text(i); i := length(s);
i := r.n;
i := v.b.n;
r := k;
v := w;
x := x;
lo := lo;
@14z := 1;
@14i := z;
@14i := r.z;
@14c := shade#red;
@14c := color#blue;
@14c.red := 1;
@14i := i.n;
@16i := \"a\";
@16i := s + 1;
@16i := i + s;
@16b := r = k;
@16b := c < c;
@16b := i = s;
@16c := rec#n;
@16v.a := 1;
@16i := size(r);
@17p := o;
@17q := q;
@14z := p;
@16i := p;
@16b := not p;
@14i := text(z);
@16r := color#red;
@14s := z & 1;
@16s := s & 1;
@17o := p;
@17pr.p := p;
@16v.b.n := 1;
@16b := x = x;
@16i := b + 1;
b := s < t;
b := b = true;
@16b := b < b;
@16b := i or b;
@16b := p = p;
@16i := -s;
@16b := not i;
@16i := length(i);
@16s := text(s);
@16b := boolean#true;
@16c := li#red;
@14i := start.x;
@14i := x.n;
i := q.r;
@16i := cv.c.r;
s := cv.c.q;
@16discard cv.c;
";
    let count = statements_have_their_faults(&rt, rt.alloc(), rows)?;
    assert_eq!(rt; count, 60);
    Ok(())
}

#[test]
fn outputs_behind_components_are_refused(rt: HostRuntime) -> Result<(), Fail> {
    let rows = "\
s := cv.c.q;
@16i := cv.c.r;
s := cv.c.w;
@16cv.c.r := 1;
@16discard cv.c.r;
@16call ao(cv.c.q, cv.c.w, i);
@16i := i + cv.c.r;
@16if cv.c.r = 1 { }
@16get r from x[cv.c.r, s];
get r from x[i, cv.c.q];
";
    let count = statements_have_their_faults(&rt, rt.alloc(), rows)?;
    assert_eq!(rt; count, 10);
    Ok(())
}
