use super::*;
use std::collections::{BTreeMap, HashMap};
use std::test::Fail;

#[test]
fn decimal_texts_are_exact(rt: HostRuntime) -> Result<(), Fail> {
    let mut out = Vec::new(rt.alloc());
    decimal(&mut out, 0)?;
    decimal(&mut out, 10)?;
    decimal(&mut out, u64::MAX)?;
    assert_eq!(rt; out.as_slice(), b"01018446744073709551615".as_slice());
    out.clear();
    signed(&mut out, 7)?;
    signed(&mut out, -1)?;
    signed(&mut out, i64::MIN)?;
    assert_eq!(rt; out.as_slice(), b"7-1-9223372036854775808".as_slice());
    Ok(())
}

#[test]
fn words_hold_their_bytes(rt: HostRuntime) -> Result<(), Fail> {
    let word = Word::of(rt.alloc(), b"port")?;
    assert_eq!(rt; word.bytes(), b"port".as_slice());
    let copy = word.clone()?;
    let other = Word::from_vec(Vec::from_slice(rt.alloc(), b"posts")?);
    assert!(rt; copy == word && word != other && word < other);
    let mut ordered = BTreeMap::new(rt.alloc());
    ordered.insert(other, 1)?;
    ordered.insert(copy, 2)?;
    assert_eq!(rt; ordered.get(&word).copied(), Some(2));
    let mut hashed = HashMap::new(rt.alloc());
    let span = Span { start: 3, end: 7 };
    let name = Name { text: word, span };
    hashed.insert(name.text.clone()?, name.span)?;
    assert_eq!(rt; hashed.get(&name.text).copied(), Some(span));
    assert!(rt; name.clone()? == name);
    Ok(())
}

#[test]
fn limits_name_the_first_fault(rt: HostRuntime) {
    let low = |limit| Err(LimitFault::Low(limit, 0));
    for (numbers, want) in [
        ((1, 1, 1, 1), Ok((1, 1, 1, 1))),
        (
            (1024, 16384, 1_000_000, 16),
            Ok((1024, 16384, 1_000_000, 16)),
        ),
        ((0, 0, 1, 1), low(LimitName::Processes)),
        (
            (1025, 0, 1, 1),
            Err(LimitFault::High(LimitName::Processes, 1025)),
        ),
        (
            (1, 16385, 0, 1),
            Err(LimitFault::High(LimitName::Ports, 16385)),
        ),
        (
            (1, 1, 1_000_001, 0),
            Err(LimitFault::High(LimitName::Steps, 1_000_001)),
        ),
        ((1, 1, 1, 0), low(LimitName::Workers)),
        ((1, 1, 1, 17), Err(LimitFault::High(LimitName::Workers, 17))),
    ] {
        let (processes, ports, steps, workers) = numbers;
        let limits = Limits::new(processes, ports, steps, workers);
        let found = limits.map(|l| (l.processes(), l.ports(), l.steps(), l.workers()));
        assert!(rt; found == want, "at {processes} {ports} {steps} {workers}");
    }
}

#[test]
fn numbers_keep_their_ranges(rt: HostRuntime) {
    assert_eq!(rt; ProcNo::new(1024).map(|p| p.get()), Some(1024));
    assert_eq!(rt; ProcNo::new(1025), None);
    assert_eq!(rt; PortNo::new(16384).map(|p| p.get()), Some(16384));
    assert_eq!(rt; PortNo::new(16385), None);
    assert!(rt;
        StmtNo(1) < StmtNo(2)
            && TypeNo(1) != TypeNo(2)
            && VarNo(0) == VarNo(0)
            && ExcNo(3) > ExcNo(2)
    );
}
