//! What the edges of an accepted process finalise: a path, and the hop behind which it is finalised.
use crate::dropped::drops_for;
use crate::rows::{Row, program_row, statement_row};
use std::alloc::Global;
use std::process::Abort;
use std::test::Fail;

fn drops_what_is_due(rt: &impl Abort, alloc: Global, row: &Row, line: &str) -> Result<(), Fail> {
    let found = drops_for(alloc, row.source.as_str())?;
    assert_eq!(rt; found.as_str(), row.lines.as_str(), "{line}");
    Ok(())
}

#[test]
fn edges_finalise_what_is_not_held_behind_them(rt: HostRuntime) -> Result<(), Fail> {
    let rows = "\
if m.arg = \"\" { x := \"a\"; } discard m; ! x by start 3:ok ! start by start 4:ok
x := \"a\"; send x to m.out; ! start by start 3:ok ! m by start 3:ok ! start by start 3:Disconnected ! m by start 3:Disconnected ! x by start 3:Disconnected
new r; r.k := 1; if true { r.s := \"a\"; } discard r; ! r.s by start 5:ok ! start by start 6:ok ! m by start 6:ok
new w; if true { new w.a; w.a.k := 1; w.b := 2; } discard w; ! w.a by start 6:ok ! w.b by start 6:ok ! start by start 7:ok ! m by start 7:ok
while true { x := \"a\"; } discard m; ! x by start 3:ok ! start by start 4:ok
new t; for r in t { n := r.k; } discard t; ! n by start 4:ok ! r by start 4:ok ! start by start 5:ok ! m by start 5:ok
new t; for r in t { x := \"a\"; leave; } discard t; ! x by start 5:ok ! r by start 5:ok ! start by start 6:ok ! m by start 6:ok
j := 1; try { n := j + 1; } on Overflow { } discard j; ! n by start 4:ok ! start by start 5:ok ! m by start 5:ok
x := \"a\"; try { send x to m.out; } on Disconnected { } discard m; ! x by start 4:Disconnected ! start by start 5:ok
create ao of asked; y := \"b\"; try { call ao(\"a\", y, n); } on busy { } on Disconnected { } discard ao; \
! start by start 2:Depletion ! m by start 2:Depletion ! y by start 5:ok ! n by start 5:ok ! y by start 5:busy \
! start by start 5:late ! m by start 5:late ! ao by start 5:late ! start by start 6:ok ! m by start 6:ok
n := 1; unite v.i from n; move v to z; case z { when i { dissolve z.i into n; } when r { dissolve z.r into r; } } discard m; \
! n by start 6:ok ! r by start 7:ok ! start by start 8:ok
new li; new ri; select { when li receive n { } when ri receive r { } } discard li; ! start by start 2:Depletion ! m by start 2:Depletion \
! start by start 3:Depletion ! m by start 3:Depletion ! li by start 3:Depletion ! n by start 4:1 ! r by start 4:2 \
! start by start 5:ok ! m by start 5:ok ! ri by start 5:ok
raise busy; ! start by start 2:busy ! m by start 2:busy
new ri; receive r from ri; discard m; if true { x := \"a\"; new ri; } discard r; ! start by start 2:Depletion ! m by start 2:Depletion \
! x by start 7:ok ! start by start 7:Depletion ! x by start 7:Depletion ! r by start 7:Depletion ! ri by start 7:Depletion ! start by start 8:ok ! ri by start 8:ok
";
    let mut count: u32 = 0;
    for line in rows.lines() {
        let row = statement_row(rt.alloc(), line)?;
        drops_what_is_due(&rt, rt.alloc(), &row, line)?;
        count = count.saturating_add(1);
    }
    assert_eq!(rt; count, 14);
    Ok(())
}

#[test]
fn a_process_begins_with_its_port_where_it_is_held(rt: HostRuntime) -> Result<(), Fail> {
    let rows = "\
process main(start: main_start) { } ! start by start
process main(start: main_start) { discard start; }
process main(start: main_start) { var x: string; x := \"a\"; } ! start by start 1:ok ! x by start 1:ok
process main(start: main_start) { try { } on Overflow { } } ! start by start
definitions d { type a = callmessage (out p: main_start); type ai = inport of a; type ao = outport of ai; } \
process main(start: main_start) { var o: ao; while true { create o of q; try { call o(start); } on Disconnected { } } } process q(start: ai) { } \
! start by start ! start by start 4:ok ! o by start 4:ok ! o by start 4:Disconnected
";
    let mut count: u32 = 0;
    for line in rows.lines() {
        let row = program_row(rt.alloc(), line)?;
        drops_what_is_due(&rt, rt.alloc(), &row, line)?;
        count = count.saturating_add(1);
    }
    assert_eq!(rt; count, 5);
    Ok(())
}
