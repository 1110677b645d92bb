//! Branches, loops, exceptions and their handlers, and which path is shown.
use crate::rows::statements_lack_what_is_due;
use std::test::Fail;

#[test]
fn ways_meet_and_come_again(rt: HostRuntime) -> Result<(), Fail> {
    let rows = "\
@if b { } ! 2 needs init(b) by start 1:ok
@if n < j { } ! 2 needs init(n) by start 1:ok ! 2 needs init(j) by start 1:ok
@while x = y { } ! 2 needs init(x) by start 1:ok ! 2 needs init(y) by start 1:ok
if m.arg = \"\" { x := \"a\"; } @send x to m.out; ! 4 needs init(x) by start 1:ok 2:false
if m.arg = \"\" { x := \"a\"; } else { x := \"b\"; } send x to m.out;
if m.arg = \"\" { } else { x := \"b\"; } @send x to m.out; ! 4 needs init(x) by start 1:ok 2:true
x := \"a\"; if m.arg = \"\" { discard x; } @send x to m.out; ! 5 needs init(x) by start 1:ok 2:ok 3:true 4:ok
n := 1; try { if n + 1 = 2 { x := \"a\"; } else { x := \"b\"; } } on Overflow { @send x to m.out; } ! 7 needs init(x) by start 1:ok 2:ok 4:Overflow
x := \"a\"; try { while x & x = \"b\" { discard m; raise late; } } on Depletion { send x to m.out; } on late { @send x to m.out; } \
! 8 needs init(m) by start 1:ok 2:ok 4:true 5:ok 6:late ! 8 needs init(m.out) by start 1:ok 2:ok 4:true 5:ok 6:late
if true { x := \"a\"; } else { y := \"b\"; } @x := x & y; ! 5 needs init(x) by start 1:ok 2:false 4:ok ! 5 needs init(y) by start 1:ok 2:true 3:ok
x := \"a\"; while true { @send x to m.out; } ! 4 needs init(x) by start 1:ok 2:ok 3:true 4:ok 3:true
while true { x := \"a\"; } @send x to m.out; ! 4 needs init(x) by start 1:ok 2:false
while true { x := \"a\"; leave; } @send x to m.out; ! 5 needs init(x) by start 1:ok 2:false
b := true; @while b { @discard b; } ! 3 needs init(b) by start 1:ok 2:ok 3:true 4:ok ! 4 needs init(b) by start 1:ok 2:ok 3:true 4:ok 3:true
x := \"a\"; while true { if m.arg = \"\" { @send x to m.out; } } ! 5 needs init(x) by start 1:ok 2:ok 3:true 4:true 5:ok 3:true 4:true
x := \"a\"; while true { send x to m.out; x := \"b\"; }
x := \"a\"; while true { @send x to m.out; if true { x := \"b\"; } } ! 4 needs init(x) by start 1:ok 2:ok 3:true 4:ok 5:false 3:true
x := \"a\"; y := \"b\"; while true { send y to m.out; @move x to y; } ! 6 needs init(x) by start 1:ok 2:ok 3:ok 4:true 5:ok 6:ok 4:true 5:ok
x := \"a\"; while true { while true { send x to m.out; leave; } x := \"b\"; }
x := \"a\"; while true { while true { @send x to m.out; } x := \"b\"; } ! 5 needs init(x) by start 1:ok 2:ok 3:true 4:true 5:ok 4:true
x := \"a\"; while true { while true { discard x; leave; } leave; } @send x to m.out; ! 8 needs init(x) by start 1:ok 2:ok 3:true 4:true 5:ok 6:ok 7:ok
x := \"a\"; while true { while true { discard x; leave; } x := \"b\"; leave; } send x to m.out;
x := \"a\"; while true { if true { discard x; leave; } } @send x to m.out; ! 7 needs init(x) by start 1:ok 2:ok 3:true 4:true 5:ok 6:ok
if true { n := 1; j := 2; } else { n := 1; } @discard x; ! 6 needs init(x) by start 1:ok 2:false 5:ok
x := \"a\"; if true { n := 1; j := 2; discard x; } else { discard x; } @send x to m.out; ! 8 needs init(x) by start 1:ok 2:ok 3:false 7:ok
x := \"a\"; if true { n := 1; j := 2; discard x; } @send x to m.out; ! 7 needs init(x) by start 1:ok 2:ok 3:true 4:ok 5:ok 6:ok
while true { x := \"a\"; while true { n := 1; leave; } leave; } @send x to m.out; ! 8 needs init(x) by start 1:ok 2:false
x := \"a\"; if true { if true { if true { discard x; } } } @send x to m.out; ! 7 needs init(x) by start 1:ok 2:ok 3:true 4:true 5:true 6:ok
";
    let count = statements_lack_what_is_due(&rt, rt.alloc(), rows)?;
    assert_eq!(rt; count, 28);
    Ok(())
}

#[test]
fn exceptions_go_to_the_nearest_handler(rt: HostRuntime) -> Result<(), Fail> {
    let rows = "\
raise busy;
try { raise busy; } on busy { @discard x; } ! 4 needs init(x) by start 1:ok 3:busy
try { x := \"a\"; raise busy; } on busy { send x to m.out; }
try { try { raise busy; } on late { } } on busy { @discard x; } ! 5 needs init(x) by start 1:ok 4:busy
try { try { raise busy; } on busy { x := \"a\"; raise busy; } } on busy { send x to m.out; }
try { try { raise busy; } on busy { raise late; } on late { } } on late { @discard x; } ! 6 needs init(x) by start 1:ok 4:busy 5:late
try { raise busy; } on busy { raise late; } on late { }
try { raise busy; } on busy { try { raise late; } on late { @discard x; } } ! 6 needs init(x) by start 1:ok 3:busy 5:late
x := \"a\"; y := \"b\"; try { try { y := x & y; } on Depletion { discard x; raise late; } on Overflow { } } on late { @send x to m.out; } \
! 9 needs init(x) by start 1:ok 2:ok 3:ok 6:Depletion 7:ok 8:late
try { x := \"a\"; create lo of worker; n := 1; create lo of worker; } on Depletion { send x to m.out; @n := n + 1; } \
! 8 needs init(n) by start 1:ok 3:ok 4:Depletion 7:ok
n := 1; x := \"a\"; try { n := n + 1; x := x & x; y := \"b\"; } on Overflow { y := \"o\"; } on Depletion { } @send y to m.out; \
! 9 needs init(y) by start 1:ok 2:ok 3:ok 5:ok 6:Depletion
n := 1; unite v.i from n; try { case v { when i { raise busy; } when r { } } } on busy { n := v.i; } @n := v.r.k; \
! 8 needs case(v,r) by start 1:ok 2:ok 3:ok 5:i 6:busy 7:ok
try { } on busy { } @discard x; ! 3 needs init(x) by start 1:ok
new t; x := \"a\"; try { for r in t { discard x; raise busy; } } on busy { @send x to m.out; } ! 8 needs init(x) by start 1:ok 2:ok 3:ok 5:turn 6:ok 7:busy
x := \"a\"; while true { try { @send x to m.out; raise busy; } on busy { } } ! 5 needs init(x) by start 1:ok 2:ok 3:true 5:ok 6:busy 3:true
x := \"a\"; while true { try { send x to m.out; leave; } on Disconnected { } } @send x to m.out; ! 7 needs init(x) by start 1:ok 2:ok 3:true 5:ok 6:ok
x := \"a\"; while true { try { send x to m.out; } on Disconnected { leave; } x := \"b\"; } send x to m.out;
x := \"a\"; while true { try { raise busy; } on busy { discard x; leave; } } @send x to m.out; ! 8 needs init(x) by start 1:ok 2:ok 3:true 5:busy 6:ok 7:ok
x := \"a\"; try { send x to m.out; x := \"b\"; } on Disconnected { } send x to m.out;
try { x := \"a\"; send x to m.out; } on Disconnected { send x to m.out; raise busy; } @send x to m.out; ! 7 needs init(x) by start 1:ok 3:ok 4:ok
new t; try { remove r from t[1]; try { insert r into t; } on DuplicateKey { n := r.k; raise NotFound; } } on NotFound { @n := r.k; } \
! 9 needs init(r) by start 1:ok 2:ok 4:NotFound ! 9 needs init(r.k) by start 1:ok 2:ok 4:NotFound
n := 1; try { n := n + 1; } on Overflow { n := 2; raise busy; } j := n;
";
    let count = statements_lack_what_is_due(&rt, rt.alloc(), rows)?;
    assert_eq!(rt; count, 22);
    Ok(())
}
