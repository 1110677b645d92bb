//! The status of a run, and its line.
ghost use Rattle.std.specs.Prelude.{◌≡◌, ◌++◌, ◌∷◌, [], OnOk, List, Some, cond, codes, flat_map, map};
ghost use Rattle.herm_model.specs.Lists.{any_pass, numbered};
ghost use Rattle.herm_journal.specs.Entries.{Text};
ghost use Rattle.herm_journal.specs.Ports.{first_of};
ghost use Rattle.herm_journal.specs.EntryTexts.{and_number, name_in};
ghost use Rattle.herm_system.specs.ProcessFates.{is_stopped};
ghost use Rattle.herm_system.specs.Statuses.{status_by, status_line_by, spent_line, waiting_line};
ghost use Rattle.herm_system.specs.TextLines.{line, first_line};
ghost use Rattle.herm_report.specs.View.{proc_end_view, proc_ends_view};
ghost use Rattle.herm_text.specs.ReportTexts.{ends_of, lines_of_spent};

use crate::numbers::{push_name, push_named, push_number};
use herm_base::{ExcNo, PortNo, Word};
use herm_report::{End, ProcEnd, Report, Spent};
use std::alloc::AllocError;

/// Whether a limit stopped some process.
fn is_one_stopped(ends: &[ProcEnd]) -> bool
    ensures some { result ≡ any_pass is_stopped (proc_ends_view ends.now) }
{
    for end in ends {
        if let ProcEnd::Stopped(_) = end {
            return true;
        }
    }
    false
}

/// The status of a run whose first process has not ended.
fn unended(ends: &[ProcEnd]) -> u8
    ensures status { result ≡ cond (any_pass is_stopped (proc_ends_view ends.now)) 8 7 }
{
    if is_one_stopped(ends) { 8 } else { 7 }
}

/// The status of a run: 0 where process 1 ended normally, 6 where an exception ended it; else 8 where a limit stopped some process, and
/// 7 where none did.
pub fn status(report: &Report) -> u8
    ensures status { result ≡ status_by (first_of (ends_of report.now)) (ends_of report.now) }
{
    match report.ends.as_slice() {
        [ProcEnd::Ended(End::Normal), ..] => 0,
        [ProcEnd::Ended(End::By(_)), ..] => 6,
        ends => unended(ends),
    }
}

/// The stopped process of least number, with the limit that stopped it.
#[tactic(auto, using(crate::proofs::Spent::spent_first, crate::proofs::Spent::none_spent))]
fn first_spent(ends: &[ProcEnd]) -> Option<(u64, Spent)>
    ensures first { (rest : List Text) → first_line (flat_map spent_line (numbered 1 (proc_ends_view ends.now)) ++ rest) ≡ first_line (lines_of_spent result ++ rest) }
{
    let mut process = 0;
    for end in ends {
        process += 1;
        if let ProcEnd::Stopped(spent) = end {
            return Some((process, *spent));
        }
    }
    None
}

/// Appends the line on a stopped process, which has spent so many of these.
fn push_spent_on(out: &mut Vec<u8>, process: u64, limit: u32, what: &[u8]) -> Result<(), AllocError>
    ensures { OnOk result (out.new.items ≡ out.old.items ++ line (codes "hermes: process" ++ and_number process ++ codes " spent" ++ and_number limit ++ what.now)) }
{
    push_named(out, b"hermes: process", process)?;
    push_named(out, b" spent", limit as u64)?;
    out.extend_from_slice(what)?;
    out.push(b'\n')?;
    Ok(())
}

/// Appends the line on a stopped process.
fn push_spent(out: &mut Vec<u8>, process: u64, spent: Spent) -> Result<(), AllocError>
    ensures { OnOk result (out.new.items ≡ out.old.items ++ first_line (lines_of_spent (Some (process, spent)))) }
{
    match spent {
        Spent::Steps(limit) => {
            push_spent_on(out, process, limit, b" steps")?;
            Ok(())
        }
        Spent::Actions(limit) => {
            push_spent_on(out, process, limit, b" actions")?;
            Ok(())
        }
    }
}

/// Appends each number of a port behind a space.
fn push_ports(out: &mut Vec<u8>, ports: &[PortNo]) -> Result<(), AllocError>
    ensures { OnOk result (out.new.items ≡ out.old.items ++ flat_map and_number (map (λ p. p.number) ports.now)) }
{
    for port in ports {
        push_number(out, port.get() as u64)?;
    }
    Ok(())
}

/// Appends the line on a process 1 that waits on some ports.
fn push_waiting_on(out: &mut Vec<u8>, ports: &[PortNo]) -> Result<(), AllocError>
    ensures { OnOk result (out.new.items ≡ out.old.items ++ line (codes "hermes: process 1 waits on port" ++ flat_map and_number (map (λ p. p.number) ports.now))) }
{
    out.extend_from_slice(b"hermes: process 1 waits on port")?;
    push_ports(out, ports)?;
    out.push(b'\n')?;
    Ok(())
}

/// Appends the line on a waiting process 1.
fn push_waiting(out: &mut Vec<u8>, ports: &[PortNo]) -> Result<(), AllocError>
    ensures { OnOk result (out.new.items ≡ out.old.items ++ line (waiting_line (map (λ p. p.number) ports.now))) }
{
    match ports {
        [] => {
            out.extend_from_slice(b"hermes: process 1 waits for a reply\n")?;
            Ok(())
        }
        [_, ..] => {
            push_waiting_on(out, ports)?;
            Ok(())
        }
    }
}

/// Appends the line on the exception that ended process 1.
fn push_ended_by(out: &mut Vec<u8>, names: &[Word], exception: ExcNo) -> Result<(), AllocError>
    ensures { OnOk result (out.new.items ≡ out.old.items ++ line (codes "hermes: main ended by " ++ name_in names.now exception.0)) }
{
    out.extend_from_slice(b"hermes: main ended by ")?;
    push_name(out, names, exception)?;
    out.push(b'\n')?;
    Ok(())
}

/// Appends the line on process 1, which waits on these ports, or on the stopped process of least number, if there is one.
fn push_spent_or_waiting(
    out: &mut Vec<u8>,
    ends: &[ProcEnd],
    ports: &[PortNo],
) -> Result<(), AllocError>
    ensures { OnOk result (out.new.items ≡ out.old.items ++ first_line (flat_map spent_line (numbered 1 (proc_ends_view ends.now)) ++ waiting_line (map (λ p. p.number) ports.now) ∷ [])) }
{
    match first_spent(ends) {
        Some((process, spent)) => {
            push_spent(out, process, spent)?;
            Ok(())
        }
        None => {
            push_waiting(out, ports)?;
            Ok(())
        }
    }
}

/// Appends the line on the stopped process of least number, if there is one.
fn push_first_spent(out: &mut Vec<u8>, ends: &[ProcEnd]) -> Result<(), AllocError>
    ensures { OnOk result (out.new.items ≡ out.old.items ++ first_line (flat_map spent_line (numbered 1 (proc_ends_view ends.now)) ++ [])) }
{
    if let Some((process, spent)) = first_spent(ends) {
        push_spent(out, process, spent)?;
    }
    Ok(())
}

/// Appends the line on the status, if there is one, by what became of process 1 first.
fn push_line_by(
    out: &mut Vec<u8>,
    first: &ProcEnd,
    ends: &[ProcEnd],
    names: &[Word],
) -> Result<(), AllocError>
    ensures { OnOk result (out.new.items ≡ out.old.items ++ status_line_by names.now (Some (proc_end_view first.now)) (proc_ends_view ends.now)) }
{
    match first {
        ProcEnd::Ended(End::Normal) => Ok(()),
        ProcEnd::Ended(End::By(exception)) => {
            push_ended_by(out, names, *exception)?;
            Ok(())
        }
        ProcEnd::Waiting(ports) => {
            push_spent_or_waiting(out, ends, ports.as_slice())?;
            Ok(())
        }
        ProcEnd::Stopped(Spent::Steps(_)) => {
            push_first_spent(out, ends)?;
            Ok(())
        }
        ProcEnd::Stopped(Spent::Actions(_)) => {
            push_first_spent(out, ends)?;
            Ok(())
        }
    }
}

/// Appends the line on the status, if there is one.
#[tactic(auto, using(crate::proofs::Firsts::first_view))]
pub fn push_status_line(
    out: &mut Vec<u8>,
    ends: &[ProcEnd],
    names: &[Word],
) -> Result<(), AllocError>
    ensures { OnOk result (out.new.items ≡ out.old.items ++ status_line_by names.now (first_of (proc_ends_view ends.now)) (proc_ends_view ends.now)) }
{
    match ends {
        [] => Ok(()),
        [first, ..] => {
            push_line_by(out, first, ends, names)?;
            Ok(())
        }
    }
}
