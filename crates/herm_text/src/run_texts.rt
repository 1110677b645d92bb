//! The text of a run.
ghost use Rattle.std.specs.Prelude.{◌≡◌, ◌++◌, IfOk, OnOk};
ghost use Rattle.herm_text.specs.ReportTexts.{console_of, report_text, status_line_of};
ghost use Rattle.herm_text.specs.AskedView.{asked_view};

use crate::console::push_console;
use crate::journals::push_journal;
use crate::statuses::push_status_line;
use crate::summaries::push_summary;
use herm_base::Word;
use herm_report::Report;
use std::alloc::{AllocError, Global};

/// What is asked for besides: nothing, the summary, or the journal in place of all else.
#[derive(Clone, Copy, Debug, PartialEq, Eq)]
pub enum Asked {
    Plain,
    WithSummary,
    Journal,
}

/// Appends the console's lines and the line on the status.
fn push_ending(out: &mut Vec<u8>, report: &Report, names: &[Word]) -> Result<(), AllocError>
    ensures { OnOk result (out.new.items ≡ out.old.items ++ (console_of report.now ++ status_line_of names.now report.now)) }
{
    push_console(out, report.queue_of(0))?;
    push_status_line(out, report.ends.as_slice(), names)?;
    Ok(())
}

/// The text that a run writes: the console's lines, the line on the status and, where it is asked for, the summary; or the lines of its
/// journal. `names` are the exceptions' names by number; one that is not there is told as no name.
pub fn run_text(
    alloc: Global,
    report: &Report,
    names: &[Word],
    asked: Asked,
) -> Result<Vec<u8>, AllocError>
    ensures text { IfOk result (λ v. v.items ≡ report_text names.now (asked_view asked) report.now) }
{
    let mut out = Vec::new(alloc);
    match asked {
        Asked::Plain => {
            push_ending(&mut out, report, names)?;
            Ok(out)
        }
        Asked::WithSummary => {
            push_ending(&mut out, report, names)?;
            push_summary(&mut out, &report.counts)?;
            Ok(out)
        }
        Asked::Journal => {
            let entries = report.journal.entries()?;
            push_journal(&mut out, entries.as_slice(), names)?;
            Ok(out)
        }
    }
}
