//! What evaluations come to.
use herm_base::{ExcNo, Word};

/// What an operator that takes no memory gives of its operands: a truth value, an integer, an exception, or nothing where an
/// operand is not there or not of its type.
#[derive(Clone, Copy, Debug, PartialEq, Eq)]
pub enum Evaluation {
    Boolean(bool),
    Integer(i64),
    Raises(ExcNo),
    Stuck,
}

/// What an operator that makes a string gives of its operands: the string, an exception, or nothing where an operand is not of
/// its type.
#[derive(Drop)]
pub enum Written {
    Gives(Word),
    Raises(ExcNo),
    Stuck,
}

/// What an instruction comes to: it goes on, with an exception or without, or it is stuck, where an operand is not
/// there or not of its type.
#[derive(Clone, Copy, Debug, PartialEq, Eq)]
pub enum Completion {
    Next,
    Raised(ExcNo),
    Stuck,
}
