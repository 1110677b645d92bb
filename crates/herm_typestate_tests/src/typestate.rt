//! Rows by hand. A fact is a word of digits: `0` is `init` of variable 0, `012` of its part 1's part 2, and `01=3` says that
//! part 1 of variable 0 has the component 3. A set is its words with a space between two.
use herm_base::VarNo;
use herm_types::{Fact, Path};
use herm_typestate::State;
use std::alloc::{AllocError, Global};
use std::test::Fail;

fn digit(byte: u8) -> u32 {
    u32::from(byte.saturating_sub(b'0'))
}

fn path_of(alloc: Global, word: &[u8]) -> Result<Path, AllocError> {
    let mut parts = Vec::new(alloc);
    let mut var = 0;
    for (i, byte) in word.iter().enumerate() {
        if i == 0 {
            var = digit(*byte);
        } else {
            parts.push(digit(*byte))?;
        }
    }
    Ok(Path {
        var: VarNo(var),
        parts,
    })
}

fn fact_of(alloc: Global, word: &[u8]) -> Result<Fact, AllocError> {
    match word {
        [path @ .., b'=', component] => {
            let path = path_of(alloc, path)?;
            Ok(Fact::Case(path, digit(*component)))
        }
        _ => {
            let path = path_of(alloc, word)?;
            Ok(Fact::Init(path))
        }
    }
}

fn state_of(alloc: Global, text: &str) -> Result<State, AllocError> {
    let mut state = State::empty(alloc, 2)?;
    for word in text.split_whitespace() {
        let fact = fact_of(alloc, word.as_bytes())?;
        state.make(alloc, &fact)?;
    }
    Ok(state)
}

fn is_same(state: &State, other: &State) -> bool {
    state.is_below(other) && other.is_below(state)
}

fn holds_all(alloc: Global, state: &State, text: &str) -> Result<bool, AllocError> {
    for word in text.split_whitespace() {
        let fact = fact_of(alloc, word.as_bytes())?;
        if !state.holds(&fact) {
            return Ok(false);
        }
    }
    Ok(true)
}

/// The set, the path, and what is left of the set.
const KILLS: [(&str, &str, &str); 11] = [
    ("", "0", ""),
    ("0", "0", ""),
    ("0", "1", "0"),
    ("0 1", "0", "1"),
    ("0 00 01", "00", "0 01"),
    ("0 00 000 01", "00", "0 01"),
    ("0 0=2", "0", ""),
    ("0 01=2 01=3", "01", "0"),
    ("00", "0", ""),
    ("0 00", "001", "0 00"),
    ("9 93", "91", "9 93"),
];

/// Two sets, and their meet.
const MEETS: [(&str, &str, &str); 10] = [
    ("", "0", ""),
    ("0", "0", "0"),
    ("0", "1", ""),
    ("0 00 01", "0 01 02", "0 01"),
    ("0 0=1", "0 0=2", "0"),
    ("0 0=1 0=2", "0 0=2 0=3", "0 0=2"),
    ("0 00", "0", "0"),
    ("0", "0 00 1 19", "0"),
    ("0 00=1", "0 00 00=1", "0 00=1"),
    ("00 01", "0 01", "01"),
];

/// Two sets, and whether the first is below the second.
const BELOW: [(&str, &str, bool); 12] = [
    ("", "", true),
    ("", "0", true),
    ("0", "", false),
    ("0", "0 1", true),
    ("0 1", "0", false),
    ("0 00", "0 01", false),
    ("0 01", "0 00 01", true),
    ("0 0=1", "0", false),
    ("0 0=1", "0 0=2 0=1", true),
    ("0 0=3", "0 0=2 0=1", false),
    ("013", "0 01", false),
    ("0 01 013=4", "0 01 013=4", true),
];

/// Two sets, and the topmost paths of the first that the second lacks.
const EXCESS: [(&str, &str, &str); 10] = [
    ("", "0", ""),
    ("0", "0", ""),
    ("0", "", "0"),
    ("0 00 01", "", "0"),
    ("0 00 01", "0", "00 01"),
    ("1 0", "", "0 1"),
    ("0 00 000 001 02 1", "0 00 001", "000 02 1"),
    ("0 0=1", "0", ""),
    ("00 010", "", "00 010"),
    ("0 09 03 039", "0 03 1", "039 09"),
];

#[test]
fn kills_take_what_is_below(rt: HostRuntime) -> Result<(), Fail> {
    let alloc = rt.alloc();
    for (set, word, want) in KILLS {
        let mut state = state_of(alloc, set)?;
        let path = path_of(alloc, word.as_bytes())?;
        state.kill(&path);
        let left = state_of(alloc, want)?;
        assert!(rt; is_same(&state, &left), "{set} without {word}");
        assert!(rt; holds_all(alloc, &state, want)?, "{set} without {word}");
    }
    Ok(())
}

#[test]
fn meets_keep_what_both_have(rt: HostRuntime) -> Result<(), Fail> {
    let alloc = rt.alloc();
    for (set, other, want) in MEETS {
        let mut state = state_of(alloc, set)?;
        let other_state = state_of(alloc, other)?;
        state.meet(&other_state);
        let left = state_of(alloc, want)?;
        assert!(rt; is_same(&state, &left), "{set} and {other}");
        assert!(rt; holds_all(alloc, &state, want)?, "{set} and {other}");
    }
    Ok(())
}

#[test]
fn sets_are_compared(rt: HostRuntime) -> Result<(), Fail> {
    let alloc = rt.alloc();
    for (set, other, want) in BELOW {
        let state = state_of(alloc, set)?.copy(alloc)?;
        let other_state = state_of(alloc, other)?;
        assert_eq!(rt; state.is_below(&other_state), want, "{set} below {other}");
        assert_eq!(rt;
            holds_all(alloc, &other_state, set)?,
            want,
            "{set} below {other}"
        );
    }
    Ok(())
}

fn digits_of(alloc: Global, paths: &[Path]) -> Result<String, AllocError> {
    let mut text = String::new(alloc);
    for (i, path) in paths.iter().enumerate() {
        if i != 0 {
            text.push(' ')?;
        }
        let var = format!(in alloc; "{}", path.var.0)?;
        text.push_str(var.as_str())?;
        for part in &path.parts {
            let step = format!(in alloc; "{part}")?;
            text.push_str(step.as_str())?;
        }
    }
    Ok(text)
}

#[test]
fn the_excess_is_topmost(rt: HostRuntime) -> Result<(), Fail> {
    let alloc = rt.alloc();
    for (set, low, want) in EXCESS {
        let state = state_of(alloc, set)?;
        let low_state = state_of(alloc, low)?;
        let paths = state.excess(alloc, &low_state)?;
        let text = digits_of(alloc, paths.as_slice())?;
        assert_eq!(rt; text.as_str(), want, "{set} beyond {low}");
    }
    Ok(())
}
