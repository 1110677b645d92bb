//! The texts that the program writes.
ghost use Rattle.std.specs.Prelude.{◌≡◌, IfOk, map};
ghost use Rattle.herm_refusals.specs.RefusalLines.{refusals_text};
ghost use Rattle.herm_driver.specs.Texts.{usage_text, file_text, text_view};

use crate::outcome::Text;
use herm_base::Word;
use herm_refusals::Fault;
use std::alloc::{AllocError, Global};

/// How many bytes of lines are put together before they are written: a text of a MiB or less is one write, as a run's text is.
const ROOM: usize = 1_048_576;

/// The line that says which words the program takes.
pub fn usage(alloc: Global) -> Result<Vec<u8>, AllocError>
    ensures { IfOk result (λ v. v.items ≡ usage_text) }
{
    let mut out = Vec::new(alloc);
    out.extend_from_slice(
        b"usage: hermes check FILE.. | hermes run OPTIONS FILE.. | hermes make N\n",
    )?;
    Ok(out)
}

/// A line of the program about a file, which ends with its newline.
pub fn file_line(alloc: Global, name: &[u8], what: &[u8]) -> Result<Vec<u8>, AllocError>
    ensures { IfOk result (λ v. v.items ≡ file_text name.now what.now) }
{
    let mut out = Vec::new(alloc);
    out.extend_from_slice(b"hermes: ")?;
    out.extend_from_slice(name)?;
    out.extend_from_slice(what)?;
    Ok(out)
}

/// The names of files.
fn names_of(alloc: Global, files: &[(Word, Vec<u8>)]) -> Result<Vec<Word>, AllocError>
    ensures { IfOk result (λ names. names.items ≡ map (λ file. file.0) files.now) }
{
    let mut names = Vec::new(alloc);
    for file in files {
        names.push(file.0.clone()?)?;
    }
    Ok(names)
}

/// The lines of refusals, in order.
pub fn refusals(
    alloc: Global,
    files: &[(Word, Vec<u8>)],
    faults: Vec<Fault>,
) -> Result<Text, AllocError>
    ensures { IfOk result (λ text. text_view text ≡ refusals_text (map (λ file. file.0) files.now) faults.items) }
{
    let names = names_of(alloc, files)?;
    let room = vec![in alloc; 0; ROOM]?;
    Ok(Text::Lines {
        names,
        faults,
        room,
    })
}
