//! One refusal.
use herm_words::Reason;

/// One line of a refusal. Files count from 0, lines and columns from 1; a fault of no file has line 0. The reason is the text behind the code, and for
/// code 13 the fact that is missing.
#[derive(Drop)]
pub struct Fault {
    pub file: u32,
    pub line: u32,
    pub column: u32,
    pub code: u8,
    pub reason: Reason,
}
