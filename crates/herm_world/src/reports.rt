//! The report of the processes and the places of a world.
ghost use Rattle.std.specs.Prelude.{◌≡◌, ◌≤◌, ℕ, None, All, IfOk, length};
ghost use Rattle.herm_journal.specs.Journals.{IsRising, part_of_process};
ghost use Rattle.herm_gather.specs.Diaries.{diaries_view};
ghost use Rattle.herm_world.specs.Reported.{IsAtRest, IsReported, all_entries};

use crate::ends::ends_of;
use crate::numbers::{left_at, numbers_of};
use crate::parts::Parts;
use crate::places::Places;
use herm_events::Entry;
use herm_gather::journal_of;
use herm_process::Process;
use herm_report::{Journal, Report};
use std::alloc::{AllocError, Global};

/// The diaries of processes, in their order.
fn diaries_of(alloc: Global, processes: Vec<Process>) -> Result<Vec<Vec<Entry>>, AllocError>
    ensures entries { IfOk result (λ v. diaries_view v.items ≡ all_entries processes.entry.items) }
{
    let mut diaries = Vec::with_capacity(alloc, processes.len())?;
    for process in processes {
        diaries.push(process.into_diary().into_entries())?;
    }
    Ok(diaries)
}

/// The journal of these processes.
fn journal_from(alloc: Global, processes: Vec<Process>) -> Result<Journal, AllocError>
    requires rise { (p : ℕ) → IsRising (part_of_process p (all_entries processes.items)) }
    ensures rises { IfOk result (λ j. IsRising j) }
    ensures parts { IfOk result (λ j. (p : ℕ) → part_of_process p j ≡ part_of_process p (all_entries processes.entry.items)) }
{
    let diaries = diaries_of(alloc, processes)?;
    let journal = journal_of(alloc, diaries)?;
    Ok(journal)
}

/// The report of processes that cannot step, with their places.
fn reported(alloc: Global, processes: Vec<Process>, places: Places) -> Result<Report, AllocError>
    requires rest { All IsAtRest processes.items }
    requires free { All (λ p. p.ordered ≡ None) processes.items }
    requires few { length processes.items ≤ 1024 }
    requires rise { (p : ℕ) → IsRising (part_of_process p (all_entries processes.items)) }
    ensures reported { IfOk result (λ r. IsReported processes.entry.items places.ports.items places.replies.items r) }
{
    let ends = ends_of(alloc, processes.as_slice())?;
    let left = left_at(alloc, places.ports)?;
    let counts = numbers_of(
        alloc,
        ends.as_slice(),
        processes.as_slice(),
        left.counts.as_slice(),
        places.replies.as_slice(),
    )?;
    let journal = journal_from(alloc, processes)?;
    Ok(Report {
        journal,
        ends,
        queued: left.queued,
        counts,
    })
}

/// The report of the parts of a world whose processes cannot step.
pub fn report_of(alloc: Global, parts: Parts) -> Result<Report, AllocError>
    requires rest { All IsAtRest parts.processes.items }
    requires free { All (λ p. p.ordered ≡ None) parts.processes.items }
    requires few { length parts.processes.items ≤ 1024 }
    requires rise { (p : ℕ) → IsRising (part_of_process p (all_entries parts.processes.items)) }
    ensures reported { IfOk result (λ r. IsReported parts.entry.processes.items parts.entry.places.ports.items parts.entry.places.replies.items r) }
{
    let report = reported(alloc, parts.processes, parts.places)?;
    Ok(report)
}
