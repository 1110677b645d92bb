//! What is answered for a source text becomes lines of text.
use crate::meant::{acceptance_of, meaning_of};
use herm_accept::{AcceptFault, Lack};
use std::alloc::{AllocError, Global};

type Put = Result<(), AllocError>;

/// A line for each lack, and the place of each statement that lacks something.
#[derive(Drop)]
pub struct Answer {
    pub lines: String,
    pub places: String,
}

pub fn put_bytes(out: &mut String, bytes: &[u8]) -> Put {
    for byte in bytes {
        out.push(*byte as char)?;
    }
    Ok(())
}

/// Appends the place of a statement.
pub fn put_place(alloc: Global, out: &mut String, place: usize) -> Put {
    let text = format!(in alloc; "@{place} ")?;
    out.push_str(text.as_str())?;
    Ok(())
}

/// Appends a lack as a line: the process with `/` where it is not the first, the statement, the words.
fn put_line(alloc: Global, out: &mut String, lack: &Lack) -> Put {
    let number = lack.missing.stmt.0;
    out.push_str("\n ")?;
    if lack.process > 0 {
        let process = lack.process;
        let text = format!(in alloc; "{process}/")?;
        out.push_str(text.as_str())?;
    }
    let text = format!(in alloc; "{number} ")?;
    out.push_str(text.as_str())?;
    put_bytes(out, lack.missing.words(alloc)?.bytes())
}

fn answer_of(alloc: Global, lacks: &[Lack]) -> Result<Answer, AllocError> {
    let mut answer = Answer {
        lines: String::new(alloc),
        places: String::new(alloc),
    };
    let mut place = usize::MAX;
    for lack in lacks {
        put_line(alloc, &mut answer.lines, lack)?;
        let start = lack.start as usize;
        if start != place {
            put_place(alloc, &mut answer.places, start)?;
        }
        place = start;
    }
    Ok(answer)
}

fn unmeant(alloc: Global) -> Result<Answer, AllocError> {
    Ok(Answer {
        lines: String::from_str(alloc, "no program")?,
        places: String::new(alloc),
    })
}

/// What `accept` answers for a source text: its lacks, or nothing where it is accepted.
pub fn answer_for(alloc: Global, source: &str) -> Result<Answer, AllocError> {
    let Some(meant) = meaning_of(alloc, source)? else {
        return unmeant(alloc);
    };
    let found = acceptance_of(alloc, &meant);
    match &found {
        Ok(_) => answer_of(alloc, &[]),
        Err(AcceptFault::Missing(lacks)) => answer_of(alloc, lacks.as_slice()),
        Err(AcceptFault::Memory) => Err(AllocError),
    }
}
