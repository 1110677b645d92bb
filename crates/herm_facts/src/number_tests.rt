//! Rows by hand: facts in the order in which they are added, then a path, and the numbers that each fact gets and that are below the path. A fact is a word of
//! digits, as `0` for `init` of variable 0, `10` for its part 0, `1=2` for a component.
use super::FactNumbers;
use herm_base::VarNo;
use herm_types::{Fact, Path};
use std::alloc::{AllocError, Global};
use std::test::Fail;

/// Facts, a path, the facts' numbers, and the numbers at the path and below.
const ROWS: [(&str, &str, &str, &str); 6] = [
    ("0", "0", "0", "0"),
    ("0 0 1 0", "1", "0010", "1"),
    ("1=2 1 1=3 1=2", "1", "0120", "102"),
    ("1 10 100 11 2", "10", "01234", "12"),
    ("12 1 12=5 13", "12", "0123", "02"),
    ("3 30", "4", "01", ""),
];

fn digit(byte: u8) -> u32 {
    u32::from(byte.saturating_sub(b'0'))
}

fn path_of(alloc: Global, word: &[u8]) -> Result<Path, AllocError> {
    let mut parts = Vec::new(alloc);
    let mut var = 0;
    for (i, byte) in word.iter().enumerate() {
        if i == 0 {
            var = digit(*byte);
        } else {
            parts.push(digit(*byte))?;
        }
    }
    Ok(Path {
        var: VarNo(var),
        parts,
    })
}

fn fact_of(alloc: Global, word: &[u8]) -> Result<Fact, AllocError> {
    match word {
        [path @ .., b'=', component] => {
            let path = path_of(alloc, path)?;
            Ok(Fact::Case(path, digit(*component)))
        }
        _ => {
            let path = path_of(alloc, word)?;
            Ok(Fact::Init(path))
        }
    }
}

fn push_number(text: &mut String, number: usize) -> Result<(), AllocError> {
    match u8::try_from(number) {
        Ok(low) => text.push(char::from(low.saturating_add(b'0'))),
        Err(_) => text.push('?'),
    }
}

#[test]
fn facts_get_numbers(rt: HostRuntime) -> Result<(), Fail> {
    let alloc = rt.alloc();
    for (words, path, want, want_below) in ROWS {
        let mut numbers = FactNumbers::none(alloc);
        let mut given = String::new(alloc);
        for word in words.split(' ') {
            let fact = fact_of(alloc, word.as_bytes())?;
            let number = numbers.add(alloc, &fact)?;
            assert!(rt; numbers.number_of(&fact) == Some(number), "{word}");
            push_number(&mut given, number)?;
        }
        assert_eq!(rt; given.as_str(), want, "{words}");
        let mut below = Vec::new(alloc);
        let path = path_of(alloc, path.as_bytes())?;
        numbers.below(&path, &mut below)?;
        let mut said = String::new(alloc);
        for number in below {
            push_number(&mut said, number)?;
        }
        assert_eq!(rt; said.as_str(), want_below, "{words}");
    }
    Ok(())
}
