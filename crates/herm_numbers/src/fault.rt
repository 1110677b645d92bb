//! Why names and types are refused.
ghost use Rattle.std.specs.Prelude.{◌≡◌};
ghost use Rattle.herm_numbers.specs.declared.fault.ResolveFault.TheVariants.{Memory};

use herm_base::Span;
use std::alloc::{AllocError, AllocFailed};

/// What is wrong with a name or a type.
#[derive(Clone, Copy, Debug, PartialEq, Eq)]
pub enum NameCode {
    /// A variable, part, type, value of an enumeration, exception or process that is not there, or `leave` outside a loop.
    Unknown,
    /// A variable or process declared before, or a repeated handler, arm or port.
    Twice,
    /// Types that do not fit.
    WrongType,
    /// A copy of what may not be copied.
    NotCopyable,
    /// A statement to which no control path leads.
    Unreachable,
    /// No process `main` has a port of the type main_start.
    NoMain,
    /// A process with too many statements or too many paths of variables.
    TooMany,
}

/// A code at a place of a module. Modules count from 0.
#[derive(Clone, Copy, Debug, PartialEq, Eq)]
pub struct NameFault {
    pub code: NameCode,
    pub module: u32,
    pub span: Span,
}

/// What is found at a statement, which stands there.
#[derive(Clone, Copy)]
pub struct Judged {
    pub span: Span,
    pub code: Option<NameCode>,
}

/// Why no program is made: each fault of names and types, in order, or want of memory.
#[derive(Debug, Drop)]
pub enum ResolveFault {
    Refused(Vec<NameFault>),
    Memory,
}

impl From<AllocError> for ResolveFault {
    ghost from_gives = { λ _ e. e ≡ Memory };

    fn from(_e: AllocError) -> ResolveFault {
        ResolveFault::Memory
    }
}

impl<T: Drop> From<AllocFailed<T>> for ResolveFault {
    ghost from_gives = { λ _ e. e ≡ Memory };

    fn from(_e: AllocFailed<T>) -> ResolveFault {
        ResolveFault::Memory
    }
}
