//! The report of a run.
ghost use Rattle.std.specs.Prelude.{◌≡◌};

use crate::journal::Journal;
use herm_base::{ExcNo, PortNo};
use herm_events::{Trace, Traces};

/// How a process ended.
#[derive(Clone, Copy, Debug, PartialEq, Eq)]
pub enum End {
    /// By reaching the end of its body.
    Normal,
    /// By an exception that no handler took.
    By(ExcNo),
}

/// The limit that stopped a process.
#[derive(Clone, Copy, Debug, PartialEq, Eq)]
pub enum Spent {
    /// It made so many steps.
    Steps(u32),
    /// It made so many actions.
    Actions(u32),
}

/// In which state a run left a process.
#[derive(Drop)]
pub enum ProcEnd {
    /// It ended.
    Ended(End),
    /// It waits on these ports in written order, or with none for a reply.
    Waiting(Vec<PortNo>),
    /// It was stopped by a limit.
    Stopped(Spent),
}

/// The numbers of a run's summary. Numbers of cells above 2^63 are told as 2^63.
#[derive(Clone, Copy, Debug, PartialEq, Eq)]
pub struct Counts {
    pub processes: u64,
    pub ended: u64,
    pub waiting: u64,
    pub stopped: u64,
    pub ports: u64,
    pub unclosed: u64,
    pub steps: u64,
    pub actions: u64,
    pub made: u64,
    pub held: u64,
    pub queued: u64,
    pub finalised: u64,
}

/// What is reported of a run that reached its final state.
#[derive(Drop)]
pub struct Report {
    pub journal: Journal,
    /// One for each process from 1 on, by number.
    pub ends: Vec<ProcEnd>,
    /// For each port made, by number, the texts of its queue in order: none for an empty or a closed one.
    pub queued: Vec<(PortNo, Traces)>,
    pub counts: Counts,
}

impl Report {
    ghost use Rattle.herm_report.specs.View.{numbered_queues, queue_at};

    /// The texts queued at the port with this number, in order: none where there is no such port.
    pub fn queue_of(&self, port: u32) -> &[Trace]
        ensures texts { result.now ≡ queue_at port (numbered_queues self.now.queued.items) }
    {
        for (number, texts) in &self.queued {
            if number.get() == port {
                return texts.as_slice();
            }
        }
        &[]
    }
}
