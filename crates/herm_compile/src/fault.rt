//! Why a file is refused.
use herm_refusals::Fault;

/// Why a program is not compiled.
#[derive(Drop)]
pub enum CompileFault {
    /// The faults of the files, in their order. There is one at least.
    Refused(Vec<Fault>),
    /// No memory was left.
    Memory,
}
