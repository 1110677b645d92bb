//! The code of programs against code written by hand.
use crate::by_hand::{Coded, GREETING, KEPT, LEFT_LOOP, RING, TWO_SENDERS};
use crate::compiled::{lengths_for, listing_for};
use crate::programs::PROGRAMS;
use std::alloc::Global;
use std::process::Abort;
use std::test::Fail;

/// The listing of a program's code is the one written by hand.
fn is_as_by_hand(rt: &impl Abort, alloc: Global, coded: &Coded) -> Result<(), Fail> {
    let found = listing_for(alloc, coded.source)?;
    assert_eq!(rt; found.as_str(), coded.listing);
    Ok(())
}

#[test]
fn code_is_as_by_hand(rt: HostRuntime) -> Result<(), Fail> {
    let alloc = rt.alloc();
    is_as_by_hand(&rt, alloc, &GREETING)?;
    is_as_by_hand(&rt, alloc, &TWO_SENDERS)?;
    is_as_by_hand(&rt, alloc, &RING)?;
    is_as_by_hand(&rt, alloc, &LEFT_LOOP)?;
    is_as_by_hand(&rt, alloc, &KEPT)?;
    Ok(())
}

#[test]
fn code_of_further_programs_is_as_by_hand(rt: HostRuntime) -> Result<(), Fail> {
    let alloc = rt.alloc();
    for coded in &PROGRAMS {
        is_as_by_hand(&rt, alloc, coded)?;
    }
    Ok(())
}

/// The ring has a step for each of its statements but `try`, and at most four instructions for each of them.
#[test]
fn ring_is_short(rt: HostRuntime) -> Result<(), Fail> {
    let (length, steps) = lengths_for(rt.alloc(), RING.source)?;
    assert_eq!(rt; length, 139);
    assert_eq!(rt; steps, 36);
    assert!(rt; length <= steps.saturating_mul(4));
    Ok(())
}
