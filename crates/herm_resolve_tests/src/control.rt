//! Blocks, and the statements that control does not reach.
use crate::rows::statements_have_their_faults;
use std::test::Fail;

#[test]
fn blocks_have_their_faults(rt: HostRuntime) -> Result<(), Fail> {
    let rows = "\
@16while i { leave; }
if b { @14z := 1; } else { @16i := \"a\"; }
while b { if b { leave; } else { @14z := 1; } leave; }
@16if i { @14z := 1; }
try { i := i + 1; } on Overflow { @14leave; }
@15try { i := i + 1; } on Overflow { } on Overflow { }
@15try { i := i + 1; } on Overflow { @14z := 1; } on Overflow { }
raise e; @18i := 1;
raise e; @18if b { @18i := 1; }
while b { leave; @18i := 1; } i := 1;
while true { } i := 1;
if b { raise e; } else { raise e; } @18i := 1;
if b { raise e; } i := 1;
case v { when a { raise e; } when b { raise e; } } @18i := 1;
case v { when a { raise e; } when b { } } i := 1;
select { when li receive i { raise e; } } @18i := 1;
try { i := i + 1; } on e { @18i := 1; }
try { i := i + 1; } on Overflow { i := 1; } on e { @18i := 1; @18i := 2; }
try { i := 1; } on Overflow { @18i := 1; }
try { s := s & t; } on Depletion { i := 1; }
try { raise e; } on e { i := 1; } i := 2;
try { try { raise e; } on e { } } on e { @18i := 1; }
try { try { raise e; } on e { raise e; } } on e { i := 1; }
try { try { raise e; } on Overflow { @18i := 2; } } on e { i := 1; }
raise e; try { @18i := i + 1; } on Overflow { @18i := 1; }
try { call ao(s, t, i); } on Disconnected { i := 1; } on e { i := 2; } on Overflow { @18i := 3; }
try { new li; } on Depletion { i := 1; }
try { new r; } on Depletion { @18i := 1; }
while b { try { leave; } on e { @18i := 1; } } i := 2;
raise e; @18while b { @18leave; }
";
    let count = statements_have_their_faults(&rt, rt.alloc(), rows)?;
    assert_eq!(rt; count, 30);
    Ok(())
}

#[test]
fn control_goes_where_statements_lead(rt: HostRuntime) -> Result<(), Fail> {
    let rows = "\
while b { try { raise e; } on e { leave; } @18i := 1; }
try { raise Overflow; } on Overflow { raise Overflow; } @18i := 1;
try { try { raise e; } on e { raise e; } on Overflow { @18i := 1; } } on e { i := 2; }
try { i := i + 1; } on Overflow { raise e; } on e { @18i := 1; }
try { } on e { @18raise e; } i := 1;
try { raise e; } on Overflow { @18i := 2; } @18i := 1;
try { reveal v.a; } on CaseError { i := 1; }
try { insert r into x; } on DuplicateKey { i := 1; } on Depletion { i := 2; }
try { wrap i as p; } on Depletion { i := 1; }
try { unwrap p as rec into r; } on PolymorphMismatch { i := 1; }
try { remove r from x[i, s]; } on NotFound { i := 1; }
try { get r from x[i, s]; } on NotFound { i := 1; }
try { send i to lo; } on Disconnected { i := 1; }
try { create lo of worker; } on Depletion { i := 1; }
try { while i + 1 = 2 { } } on Overflow { i := 1; }
try { if s & t = s { } } on Depletion { i := 1; }
try { i := -i; } on Overflow { i := 1; }
try { i := i div j; } on Overflow { i := 1; }
try { b := i = j; } on Overflow { @18i := 1; }
try { connect lo to li; } on Disconnected { @18i := 1; }
try { receive i from li; } on Disconnected { @18i := 1; }
try { move r to k; } on Overflow { @18i := 1; }
try { return q; } on Disconnected { @18i := 1; }
try { return q exception e; } on e { @18i := 1; }
try { dissolve v.a into i; } on CaseError { @18i := 1; }
try { call po(r, s, t, k); } on e { @18i := 1; }
try { for r in x { i := i + 1; } } on Overflow { i := 1; }
for r in x { leave; @18i := 1; } i := 2;
while true { while true { leave; } } i := 1;
select { when li receive i { raise e; } when ai receive q { } } i := 1;
while b { if b { leave; } else { raise e; } @18i := 1; } i := 2;
while b { case v { when a { leave; } when b { raise e; } } @18i := 1; } i := 2;
while b { select { when li receive i { leave; } when ai receive q { leave; } } @18i := 1; } i := 2;
for r in x { for k in x { leave; } leave; @18i := 1; }
while b { try { leave; } on e { @18i := 1; } @18i := 2; }
while true { i := 1; } i := 2; raise e; @18i := 3;
while true { leave; @18i := 1; } i := 2;
if true { raise e; } i := 1;
if b { if b { raise e; } else { raise Overflow; } } else { raise e; } @18i := 1;
if b { raise e; @18i := 1; } i := 2;
try { raise e; @18i := 1; } on e { raise e; @18i := 2; } @18i := 3;
try { while true { } } on e { @18raise e; @18i := 1; } i := 2;
raise e; try { @18new li; @18i := 1; } on Depletion { @18i := 2; } @18i := 3;
raise e; @18case v { when a { @18i := 1; } when b { } }
raise e; @18select { when li receive i { @18i := 1; } }
raise e; try { } on e { } try { try { } on e { } } on e { @18i := 1; }
raise e; @14z := 1; i := 2;
";
    let count = statements_have_their_faults(&rt, rt.alloc(), rows)?;
    assert_eq!(rt; count, 47);
    Ok(())
}
