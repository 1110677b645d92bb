//! What processes and places count.
ghost use Rattle.std.specs.Prelude.{◌≡◌, ◌≤◌, None, All, IfOk, length, map};
ghost use Rattle.herm_report.specs.View.{proc_ends_view, numbered_queues};
ghost use Rattle.herm_world.specs.Reported.{AreCountsOf, HasCounts, left_queue, port_counts, reply_cells};
ghost use Rattle.herm_world.specs.Worlds.{AreAlike};

use crate::counted_port::CountedPort;
use crate::counted_replies::CountedReplies;
use herm_base::PortNo;
use herm_events::Traces;
use herm_gather::{PortCounts, ProcCounts, counts_of};
use herm_process::Process;
use herm_report::{Counts, ProcEnd};
use std::alloc::{AllocError, Global};

/// What a process counts, of which no order is out.
fn process_counts(process: &Process) -> ProcCounts
    requires free { process.now.ordered ≡ None }
    ensures counts { AreCountsOf process.now result }
{
    let (steps, actions) = process.counts();
    let (made, held, finalised) = process.cells();
    ProcCounts {
        steps,
        actions,
        made,
        held,
        finalised,
    }
}

/// What each process counts.
fn all_counts(alloc: Global, processes: &[Process]) -> Result<Vec<ProcCounts>, AllocError>
    requires free { All (λ p. p.ordered ≡ None) processes.now }
    ensures counts { IfOk result (λ v. AreAlike AreCountsOf processes.now v.items) }
{
    let mut counts = Vec::new(alloc);
    for process in processes {
        counts.push(process_counts(process))?;
    }
    Ok(counts)
}

/// How many cells wait in a reply cell.
fn cells_in(replies: &CountedReplies) -> u64
    ensures cells { result ≡ reply_cells replies.now }
{
    let cells = replies.cells();
    cells
}

/// How many cells wait in each reply cell.
fn cells_of(alloc: Global, replies: &[CountedReplies]) -> Result<Vec<u64>, AllocError>
    ensures cells { IfOk result (λ v. v.items ≡ map reply_cells replies.now) }
{
    let mut cells = Vec::new(alloc);
    for reply in replies {
        cells.push(cells_in(reply))?;
    }
    Ok(cells)
}

/// The texts that are queued at each port, and what each counts.
#[derive(Drop)]
pub struct LeftAtPorts {
    pub queued: Vec<(PortNo, Traces)>,
    pub counts: Vec<PortCounts>,
}

/// What is left at each port.
pub fn left_at(alloc: Global, ports: Vec<CountedPort>) -> Result<LeftAtPorts, AllocError>
    ensures queued { IfOk result (λ l. numbered_queues l.queued.items ≡ map left_queue ports.items) }
    ensures counts { IfOk result (λ l. l.counts.items ≡ map port_counts ports.items) }
{
    let mut queued = Vec::new(alloc);
    let mut counts = Vec::new(alloc);
    for port in ports {
        let left = port.into_left();
        counts.push(PortCounts {
            is_open: left.is_open,
            cells: left.cells,
        })?;
        queued.push((left.port, left.texts))?;
    }
    Ok(LeftAtPorts { queued, counts })
}

/// The numbers of a run.
pub fn numbers_of(
    alloc: Global,
    ends: &[ProcEnd],
    processes: &[Process],
    ports: &[PortCounts],
    replies: &[CountedReplies],
) -> Result<Counts, AllocError>
    requires free { All (λ p. p.ordered ≡ None) processes.now }
    requires few { length processes.now ≤ 1024 }
    ensures counts { IfOk result (λ c. HasCounts processes.now (proc_ends_view ends.now) ports.now (map reply_cells replies.now) c) }
{
    let counts = all_counts(alloc, processes)?;
    let cells = cells_of(alloc, replies)?;
    Ok(counts_of(ends, counts.as_slice(), ports, cells.as_slice()))
}
