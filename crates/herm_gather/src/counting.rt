//! The numbers of a run.
ghost use Rattle.std.specs.Prelude.{◌≡◌, ◌≤◌, length};
ghost use Rattle.herm_report.specs.View.{proc_ends_view, counts_view};
ghost use Rattle.herm_gather.specs.Gathered.{gathered};

use crate::ending::{ended, stopped, waiting};
use crate::sums::{finalised, held, made, queued, steps_and_actions, unclosed};
use herm_report::{Counts, ProcEnd};

/// What a process counts: its steps and its actions, and the cells that it has made, that it holds and that it has finalised, each of
/// which is cut at 2^63.
#[derive(Clone, Copy, Debug, PartialEq, Eq)]
pub struct ProcCounts {
    pub steps: u32,
    pub actions: u32,
    pub made: u64,
    pub held: u64,
    pub finalised: u64,
}

/// Whether a port is open, and how many cells its messages have, cut at 2^63.
#[derive(Clone, Copy, Debug, PartialEq, Eq)]
pub struct PortCounts {
    pub is_open: bool,
    pub cells: u64,
}

/// The numbers of a run, from what became of each process and what each process, each port and each reply cell counts.
pub fn counts_of(
    ends: &[ProcEnd],
    processes: &[ProcCounts],
    ports: &[PortCounts],
    replies: &[u64],
) -> Counts
    requires few { length processes.now ≤ 1024 }
    ensures counts { counts_view result ≡ gathered (proc_ends_view ends.now) processes.now ports.now replies.now }
{
    let (steps, actions) = steps_and_actions(processes);
    Counts {
        processes: processes.len() as u64,
        ended: ended(ends),
        waiting: waiting(ends),
        stopped: stopped(ends),
        ports: ports.len() as u64,
        unclosed: unclosed(ports),
        steps,
        actions,
        made: made(processes),
        held: held(processes),
        queued: queued(ports, replies),
        finalised: finalised(processes),
    }
}
