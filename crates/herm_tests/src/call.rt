//! A call of the program over memory.
use herm_driver::{Outcome, hermes};
use herm_edge::{FreeGate, MemShelf, MemSink};
use std::alloc::{AllocError, Global};

/// The outside of a call: files by name, the numbers of the loads that fail, how much a write takes at most, and the
/// numbers of the writes that fail.
#[derive(Clone, Copy)]
pub struct Outside<'a> {
    pub files: &'a [(&'a str, &'a [u8])],
    pub failing_loads: &'a [u64],
    pub piece: usize,
    pub failing_writes: &'a [u64],
}

/// Files in memory, with no fault.
pub fn plain<'a>(files: &'a [(&'a str, &'a [u8])]) -> Outside<'a> {
    Outside {
        files,
        failing_loads: &[],
        piece: 1 << 20,
        failing_writes: &[],
    }
}

fn shelf_of(alloc: Global, outside: &Outside<'_>) -> Result<MemShelf, AllocError> {
    let mut files = Vec::new(alloc);
    for (name, bytes) in outside.files {
        let file = (String::from_str(alloc, name)?, bytes.to_vec(alloc)?);
        files.push(file)?;
    }
    Ok(MemShelf::new(files, outside.failing_loads.to_vec(alloc)?))
}

/// The words of a call.
pub fn strings_of(alloc: Global, words: &[&str]) -> Result<Vec<String>, AllocError> {
    let mut strings = Vec::new(alloc);
    for word in words {
        strings.push(String::from_str(alloc, word)?)?;
    }
    Ok(strings)
}

/// Calls the program, and gives the outcome and the bytes written.
pub fn call(
    alloc: Global,
    words: &[&str],
    outside: &Outside<'_>,
) -> Result<(Outcome, Vec<u8>), AllocError> {
    let words = strings_of(alloc, words)?;
    let mut shelf = shelf_of(alloc, outside)?;
    let failing = outside.failing_writes.to_vec(alloc)?;
    let mut sink = MemSink::new(alloc, outside.piece.max(1), failing)?;
    let outcome = hermes(alloc, &words, &mut shelf, &mut sink, &FreeGate);
    let written = sink.written().to_vec(alloc)?;
    Ok((outcome, written))
}
