//! Why definitions are refused.
use herm_base::Span;

/// What is wrong at a name, in the order in which one comes before another.
#[derive(Clone, Copy, Debug, PartialEq, Eq)]
pub enum DefCode {
    /// A name that must be a type or an exception, and is none.
    Unknown = 1,
    /// A name that was defined before, or a part that is repeated.
    Twice = 2,
    /// A type that reaches itself.
    Cycle = 3,
    /// A type that is too deep, or has too many paths.
    Deep = 4,
    /// A row that is no record, or a key part that is no scalar field.
    BadKey = 5,
    /// An outport of no inport, an input that is not copyable, a fact that cannot be declared, a parameter that cannot be kept.
    BadState = 6,
}

/// A code at a name. Modules count from 0.
#[derive(Clone, Copy, Debug, PartialEq, Eq)]
pub struct DefFault {
    pub code: DefCode,
    pub module: u32,
    pub span: Span,
}
