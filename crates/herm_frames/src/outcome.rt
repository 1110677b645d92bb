//! What instructions come to.
use herm_base::ExcNo;

/// What an instruction comes to: it goes on, in one of the ways that its form has, or it is stuck, where something that it
/// takes is not there.
#[derive(Clone, Copy, Debug, PartialEq, Eq)]
pub enum Outcome {
    Next,
    True,
    False,
    /// A loop takes another turn, or is done.
    Turn,
    Done,
    /// The component that a variant has.
    Component(u32),
    Raised(ExcNo),
    Stuck,
}
