//! The faults of a source file's tokens.
use thiserror::Error;

/// Why tokens have no tree, with the place of the fault in bytes, or want of memory.
#[derive(Clone, Copy, Debug, PartialEq, Eq, Drop, Error)]
pub enum ParseFault {
    /// A token with which no file goes on, or the end of the last token where the file goes on behind it.
    #[error("syntax at {0}")]
    Syntax(u32),
    /// The first bracket that is open too many.
    #[error("nesting at {0}")]
    Nesting(u32),
    /// Want of memory.
    #[error("out of memory")]
    Memory,
}
