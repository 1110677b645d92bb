//! The line on files that are accepted and not run.
ghost use Rattle.std.specs.Prelude.{◌≡◌, IfOk, map};
ghost use Rattle.herm_typed.specs.View.{typed_process_view};
ghost use Rattle.herm_sizes.specs.AcceptedLines.{accepted_text};

use crate::counts::count_processes;
use herm_base::decimal;
use herm_typed::TypedProcess;
use std::alloc::{AllocError, Global};

/// The line on files that are accepted: how many processes and statements they have, those inside statements too.
/// Want of memory also where there are 2^64 statements or more, which no memory holds.
pub fn accepted_line(alloc: Global, processes: &[TypedProcess]) -> Result<Vec<u8>, AllocError>
    ensures text { IfOk result (λ v. v.items ≡ accepted_text (map typed_process_view processes.now)) }
{
    let statements = count_processes(processes)?;
    let mut line = Vec::new(alloc);
    line.extend_from_slice(b"accepted: processes ")?;
    decimal(&mut line, processes.len() as u64)?;
    line.extend_from_slice(b" statements ")?;
    decimal(&mut line, statements)?;
    line.push(b'\n')?;
    Ok(line)
}
