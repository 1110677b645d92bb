//! How a process came to be.
use herm_base::ProcNo;
use herm_events::Stamp;

/// The process that made a process, and the stamp of the entry in which it did; both are 0 for process 1.
#[derive(Clone, Copy, Debug, PartialEq, Eq)]
pub struct Birth {
    pub maker: ProcNo,
    pub stamp: Stamp,
}
