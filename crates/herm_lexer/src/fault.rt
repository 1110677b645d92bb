//! The faults of a source file's bytes.
use thiserror::Error;

/// The first fault of a source file, with its place in bytes, or want of memory.
#[derive(Clone, Copy, Debug, PartialEq, Eq, Drop, Error)]
pub enum LexFault {
    /// A byte that no source file has.
    #[error("byte at {0}")]
    Byte(u32),
    /// What is no token.
    #[error("token at {0}")]
    Token(u32),
    /// A token or a file beyond its limit.
    #[error("too long at {0}")]
    TooLong(u32),
    /// Want of memory.
    #[error("out of memory")]
    Memory,
}
