//! Rows by hand. A set is its numbers with a space between two.
use super::{NumberSet, SparseSet};
use std::alloc::{AllocError, Global};
use std::test::Fail;

fn number_of(word: &str) -> usize {
    let mut number = 0usize;
    for byte in word.as_bytes() {
        let digit = usize::from((*byte).saturating_sub(b'0'));
        number = number.saturating_mul(10).saturating_add(digit);
    }
    number
}

fn set_of(alloc: Global, text: &str) -> Result<NumberSet, AllocError> {
    let mut set = NumberSet::none(alloc);
    for word in text.split_whitespace() {
        set.insert(number_of(word))?;
    }
    Ok(set)
}

fn sparse_of(alloc: Global, text: &str) -> Result<SparseSet, AllocError> {
    let set = set_of(alloc, text)?;
    let sparse = set.sparse(alloc)?;
    Ok(sparse)
}

/// The numbers below 300 that the set holds.
fn text_of(alloc: Global, set: &NumberSet) -> Result<String, AllocError> {
    let mut text = String::new(alloc);
    for number in 0usize..300 {
        if set.holds(number) {
            if !text.is_empty() {
                text.push_str(" ")?;
            }
            text.push_str(format!(in alloc; "{number}")?.as_str())?;
        }
    }
    Ok(text)
}

/// Two sets, the numbers of both, and whether the first is below the second.
const PAIRS: [(&str, &str, &str, bool); 8] = [
    ("", "", "", true),
    ("", "7", "", true),
    ("7", "", "", false),
    ("0 63 64", "63 64 65", "63 64", false),
    ("3", "3 200", "3", true),
    ("3 200", "3", "3", false),
    ("127 255", "128 256", "", false),
    ("0 64 128 299", "0 1 64 128 299", "0 64 128 299", true),
];

#[test]
fn pairs_intersect(rt: HostRuntime) -> Result<(), Fail> {
    let alloc = rt.alloc();
    for (one, other, both, _) in PAIRS {
        let others = set_of(alloc, other)?;
        let mut common = set_of(alloc, one)?;
        common.intersect(&others);
        let said = text_of(alloc, &common)?;
        assert_eq!(rt; said.as_str(), both, "{one} and {other}");
    }
    Ok(())
}

#[test]
fn pairs_are_compared(rt: HostRuntime) -> Result<(), Fail> {
    let alloc = rt.alloc();
    for (one, other, _, below) in PAIRS {
        let set = set_of(alloc, one)?;
        let others = set_of(alloc, other)?;
        assert_eq!(rt; set.is_below(&others), below, "{one} below {other}");
    }
    Ok(())
}

#[test]
fn copies_are_the_same(rt: HostRuntime) -> Result<(), Fail> {
    let alloc = rt.alloc();
    for (text, _, _, _) in PAIRS {
        let copy = set_of(alloc, text)?.copy(alloc)?;
        let said = text_of(alloc, &copy)?;
        assert_eq!(rt; said.as_str(), text, "{text} copied");
    }
    Ok(())
}

/// Two sets, the numbers of one of them, and those of the first alone.
const SPARSE: [(&str, &str, &str, &str); 5] = [
    ("", "", "", ""),
    ("", "7 200", "7 200", ""),
    ("7 200", "", "7 200", "7 200"),
    ("0 63 64", "64 1 128 65", "0 1 63 64 65 128", "0 63"),
    ("5 69 133", "133 5 69", "5 69 133", ""),
];

#[test]
fn sparse_sets_are_added(rt: HostRuntime) -> Result<(), Fail> {
    let alloc = rt.alloc();
    for (one, other, either, _) in SPARSE {
        let more = sparse_of(alloc, other)?;
        let mut set = set_of(alloc, one)?;
        set.union(&more)?;
        let said = text_of(alloc, &set)?;
        assert_eq!(rt; said.as_str(), either, "{one} and {other}");
    }
    Ok(())
}

#[test]
fn sparse_sets_are_taken_out(rt: HostRuntime) -> Result<(), Fail> {
    let alloc = rt.alloc();
    for (one, other, _, rest) in SPARSE {
        let less = sparse_of(alloc, other)?;
        let mut set = set_of(alloc, one)?;
        set.subtract(&less);
        let said = text_of(alloc, &set)?;
        assert_eq!(rt; said.as_str(), rest, "{one} less {other}");
    }
    Ok(())
}

#[test]
fn words_have_64_numbers(rt: HostRuntime) -> Result<(), Fail> {
    let set = sparse_of(rt.alloc(), "130 2 131")?;
    assert!(rt; set.word(0).holds(2));
    assert!(rt; set.word(1).is_empty());
    assert!(rt; set.word(2).holds(2));
    assert!(rt; set.word(2).holds(3));
    assert!(rt; set.word(3).is_empty());
    Ok(())
}
