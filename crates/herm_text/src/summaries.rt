//! The lines of the summary.
ghost use Rattle.std.specs.Prelude.{◌≡◌, ◌++◌, OnOk, codes};
ghost use Rattle.herm_journal.specs.EntryTexts.{and_number};
ghost use Rattle.herm_system.specs.Summary.{summary};
ghost use Rattle.herm_system.specs.TextLines.{line};
ghost use Rattle.herm_report.specs.View.{counts_view};

use crate::numbers::push_named;
use herm_report::Counts;
use std::alloc::AllocError;

/// Appends the line on processes.
fn push_processes(out: &mut Vec<u8>, counts: &Counts) -> Result<(), AllocError>
    ensures { OnOk result (out.new.items ≡ out.old.items ++ line (codes "summary: processes" ++ and_number counts.now.processes ++ codes " ended" ++ and_number counts.now.ended ++ codes " waiting" ++ and_number counts.now.waiting ++ codes " stopped" ++ and_number counts.now.stopped)) }
{
    push_named(out, b"summary: processes", counts.processes)?;
    push_named(out, b" ended", counts.ended)?;
    push_named(out, b" waiting", counts.waiting)?;
    push_named(out, b" stopped", counts.stopped)?;
    out.push(b'\n')?;
    Ok(())
}

/// Appends the line on ports.
fn push_ports(out: &mut Vec<u8>, counts: &Counts) -> Result<(), AllocError>
    ensures { OnOk result (out.new.items ≡ out.old.items ++ line (codes "summary: ports" ++ and_number counts.now.ports ++ codes " open" ++ and_number counts.now.unclosed)) }
{
    push_named(out, b"summary: ports", counts.ports)?;
    push_named(out, b" open", counts.unclosed)?;
    out.push(b'\n')?;
    Ok(())
}

/// Appends the line on steps and actions.
fn push_steps(out: &mut Vec<u8>, counts: &Counts) -> Result<(), AllocError>
    ensures { OnOk result (out.new.items ≡ out.old.items ++ line (codes "summary: steps" ++ and_number counts.now.steps ++ codes " actions" ++ and_number counts.now.actions)) }
{
    push_named(out, b"summary: steps", counts.steps)?;
    push_named(out, b" actions", counts.actions)?;
    out.push(b'\n')?;
    Ok(())
}

/// Appends the line on cells.
fn push_cells(out: &mut Vec<u8>, counts: &Counts) -> Result<(), AllocError>
    ensures { OnOk result (out.new.items ≡ out.old.items ++ line (codes "summary: cells made" ++ and_number counts.now.made ++ codes " held" ++ and_number counts.now.held ++ codes " queued" ++ and_number counts.now.queued ++ codes " finalised" ++ and_number counts.now.finalised)) }
{
    push_named(out, b"summary: cells made", counts.made)?;
    push_named(out, b" held", counts.held)?;
    push_named(out, b" queued", counts.queued)?;
    push_named(out, b" finalised", counts.finalised)?;
    out.push(b'\n')?;
    Ok(())
}

/// Appends the four lines of the summary.
pub fn push_summary(out: &mut Vec<u8>, counts: &Counts) -> Result<(), AllocError>
    ensures { OnOk result (out.new.items ≡ out.old.items ++ summary (counts_view counts.now)) }
{
    push_processes(out, counts)?;
    push_ports(out, counts)?;
    push_steps(out, counts)?;
    push_cells(out, counts)?;
    Ok(())
}
