//! Operators on the top of a stack, by tables.
use herm_base::{ExcNo, Word};
use herm_stack::{Binary, Completion, Stack, Unary};
use herm_values::Value;
use std::alloc::{AllocError, Global};
use std::test::Fail;

const LEAST: i64 = i64::MIN;

const GREATEST: i64 = i64::MAX;

/// Whether the stack has this integer and nothing else.
fn has_integer(mut stack: Stack, n: i64) -> bool {
    match stack.pop() {
        Some(Value::Int(m)) => m == n && stack.pop().is_none(),
        _ => false,
    }
}

/// Whether the stack has this truth value and nothing else.
fn has_boolean(mut stack: Stack, b: bool) -> bool {
    match stack.pop() {
        Some(Value::Bool(a)) => a == b && stack.pop().is_none(),
        _ => false,
    }
}

/// Whether the stack has a string of these bytes and nothing else.
fn has_text(mut stack: Stack, bytes: &[u8]) -> bool {
    match stack.pop() {
        Some(Value::Text(text)) => text.bytes() == bytes && stack.pop().is_none(),
        _ => false,
    }
}

/// The stack of two integers.
fn integers(alloc: Global, y: i64, z: i64) -> Result<Stack, AllocError> {
    let mut stack = Stack::new(alloc);
    stack.push(Value::Int(y))?;
    stack.push(Value::Int(z))?;
    Ok(stack)
}

/// The stack of two strings.
fn texts(alloc: Global, s: &[u8], t: &[u8]) -> Result<Stack, AllocError> {
    let mut stack = Stack::new(alloc);
    let s = Word::of(alloc, s)?;
    let t = Word::of(alloc, t)?;
    stack.push(Value::Text(s))?;
    stack.push(Value::Text(t))?;
    Ok(stack)
}

/// Whether an operator gives this integer of two, or Overflow where it is none.
fn gives_integer(alloc: Global, row: (Binary, i64, i64, Option<i64>)) -> Result<bool, AllocError> {
    let (o, y, z, expected) = row;
    let mut stack = integers(alloc, y, z)?;
    let done = stack.combine(o);
    match expected {
        Some(n) => Ok(done == Completion::Next && has_integer(stack, n)),
        None => Ok(done == Completion::Raised(ExcNo(0)) && stack.pop().is_none()),
    }
}

#[test]
fn integers_are_combined(rt: HostRuntime) -> Result<(), Fail> {
    let rows = [
        (Binary::Plus, 2, 3, Some(5)),
        (Binary::Plus, GREATEST, 1, None),
        (Binary::Plus, LEAST, -1, None),
        (Binary::Minus, 2, 3, Some(-1)),
        (Binary::Minus, LEAST, 1, None),
        (Binary::Minus, -1, LEAST, Some(GREATEST)),
        (Binary::Times, -4, 5, Some(-20)),
        (Binary::Times, LEAST, -1, None),
        (Binary::Times, 4294967296, 2147483648, None),
        (Binary::Divided, 7, 2, Some(3)),
        (Binary::Divided, -7, 2, Some(-3)),
        (Binary::Divided, 7, -2, Some(-3)),
        (Binary::Divided, -7, -2, Some(3)),
        (Binary::Divided, 1, 0, None),
        (Binary::Divided, LEAST, -1, None),
        (Binary::Modulo, 7, 2, Some(1)),
        (Binary::Modulo, -7, 2, Some(-1)),
        (Binary::Modulo, 7, -2, Some(1)),
        (Binary::Modulo, -7, -2, Some(-1)),
        (Binary::Modulo, 1, 0, None),
        (Binary::Modulo, LEAST, -1, Some(0)),
        (Binary::Modulo, LEAST, GREATEST, Some(-1)),
    ];
    for row in rows {
        let given = gives_integer(rt.alloc(), row)?;
        assert!(rt; given);
    }
    Ok(())
}

/// Whether a comparison of two integers gives this.
fn compares(alloc: Global, row: (Binary, i64, i64, bool)) -> Result<bool, AllocError> {
    let (o, y, z, expected) = row;
    let mut stack = integers(alloc, y, z)?;
    let done = stack.combine(o);
    Ok(done == Completion::Next && has_boolean(stack, expected))
}

#[test]
fn integers_are_compared(rt: HostRuntime) -> Result<(), Fail> {
    let rows = [
        (Binary::Less, LEAST, GREATEST, true),
        (Binary::Less, -1, -1, false),
        (Binary::AtMost, -1, -1, true),
        (Binary::AtMost, 1, -2, false),
        (Binary::Greater, 2, -3, true),
        (Binary::Greater, 5, 5, false),
        (Binary::AtLeast, 5, 5, true),
        (Binary::AtLeast, LEAST, 0, false),
        (Binary::Equal, 7, 7, true),
        (Binary::Equal, 7, -7, false),
        (Binary::Unequal, 7, 7, false),
        (Binary::Unequal, 7, -7, true),
    ];
    for row in rows {
        let compared = compares(rt.alloc(), row)?;
        assert!(rt; compared);
    }
    Ok(())
}

/// Whether a comparison of two strings gives this.
fn compares_texts(alloc: Global, row: (Binary, &[u8], &[u8], bool)) -> Result<bool, AllocError> {
    let (o, s, t, expected) = row;
    let mut stack = texts(alloc, s, t)?;
    let done = stack.combine(o);
    Ok(done == Completion::Next && has_boolean(stack, expected))
}

#[test]
fn strings_are_compared_byte_by_byte(rt: HostRuntime) -> Result<(), Fail> {
    let rows: [(Binary, &[u8], &[u8], bool); 8] = [
        (Binary::Less, b"", b"a", true),
        (Binary::Less, b"ab", b"b", true),
        (Binary::Less, b"ab", b"a", false),
        (Binary::AtMost, b"ab", b"ab", true),
        (Binary::Greater, b"ab", b"B", true),
        (Binary::AtLeast, b"a", b"ab", false),
        (Binary::Equal, b"a", b"a", true),
        (Binary::Unequal, b"a", b"A", true),
    ];
    for row in rows {
        let compared = compares_texts(rt.alloc(), row)?;
        assert!(rt; compared);
    }
    Ok(())
}

/// The stack of two strings of so many bytes.
fn long_texts(alloc: Global, m: usize, n: usize) -> Result<Stack, AllocError> {
    let s = vec![in alloc; b'a'; m]?;
    let t = vec![in alloc; b'b'; n]?;
    let mut stack = Stack::new(alloc);
    stack.push(Value::Text(Word::from_vec(s)))?;
    stack.push(Value::Text(Word::from_vec(t)))?;
    Ok(stack)
}

/// Whether strings of so many bytes are joined; else the exception is Depletion.
fn joins(alloc: Global, m: usize, n: usize) -> Result<bool, AllocError> {
    let mut stack = long_texts(alloc, m, n)?;
    match stack.concatenate(alloc)? {
        Completion::Next => match stack.pop() {
            Some(Value::Text(text)) => Ok(text.bytes().len() == m.wrapping_add(n)),
            _ => Ok(false),
        },
        done => Ok(done != Completion::Raised(ExcNo(1))),
    }
}

#[test]
fn strings_are_joined_up_to_their_limit(rt: HostRuntime) -> Result<(), Fail> {
    let mut stack = texts(rt.alloc(), b"ab", b"c")?;
    let done = stack.concatenate(rt.alloc())?;
    assert!(rt; done == Completion::Next && has_text(stack, b"abc"));
    let at_limit = joins(rt.alloc(), 4000, 96)?;
    let beyond = joins(rt.alloc(), 4000, 97)?;
    assert!(rt; at_limit && !beyond);
    Ok(())
}

/// Whether the decimal text of an integer is this.
fn reads_as(alloc: Global, z: i64, bytes: &[u8]) -> Result<bool, AllocError> {
    let mut stack = Stack::new(alloc);
    stack.push(Value::Int(z))?;
    let done = stack.text(alloc)?;
    Ok(done == Completion::Next && has_text(stack, bytes))
}

#[test]
fn integers_have_texts(rt: HostRuntime) -> Result<(), Fail> {
    let least = reads_as(rt.alloc(), LEAST, b"-9223372036854775808")?;
    let zero = reads_as(rt.alloc(), 0, b"0")?;
    assert!(rt; least && zero);
    Ok(())
}

/// What an operator gives of one integer.
fn applied_to(alloc: Global, o: Unary, z: i64) -> Result<(Completion, Stack), AllocError> {
    let mut stack = Stack::new(alloc);
    stack.push(Value::Int(z))?;
    let done = stack.apply(o);
    Ok((done, stack))
}

#[test]
fn operands_are_negated_and_measured(rt: HostRuntime) -> Result<(), Fail> {
    let (done, stack) = applied_to(rt.alloc(), Unary::Negative, 5)?;
    assert!(rt; done == Completion::Next && has_integer(stack, -5));
    let (done, _) = applied_to(rt.alloc(), Unary::Negative, LEAST)?;
    assert!(rt; done == Completion::Raised(ExcNo(0)));
    let (done, _) = applied_to(rt.alloc(), Unary::Complement, 5)?;
    assert!(rt; done == Completion::Stuck);
    let mut stack = texts(rt.alloc(), b"x", b"four")?;
    let done = stack.apply(Unary::TextLength);
    assert!(rt; done == Completion::Next);
    assert!(rt; matches!(stack.pop(), Some(Value::Int(4))));
    Ok(())
}
