//! A call of the program over memory.
use herm_driver::hermes;
use herm_edge::{FreeGate, MemShelf, MemSink};
use std::alloc::{AllocError, Global};

/// Calls the program with these words over these files, and gives the status and the bytes written.
pub fn told(
    alloc: Global,
    files: &[(&str, &str)],
    words: &[&str],
) -> Result<(u8, Vec<u8>), AllocError> {
    let mut held = Vec::new(alloc);
    for (name, text) in files {
        held.push((
            String::from_str(alloc, name)?,
            text.as_bytes().to_vec(alloc)?,
        ))?;
    }
    let mut strings = Vec::new(alloc);
    for word in words {
        strings.push(String::from_str(alloc, word)?)?;
    }
    let mut shelf = MemShelf::new(held, Vec::new(alloc));
    let mut sink = MemSink::new(alloc, 1 << 20, Vec::new(alloc))?;
    let outcome = hermes(alloc, &strings, &mut shelf, &mut sink, &FreeGate);
    let written = sink.written().to_vec(alloc)?;
    Ok((outcome.status, written))
}
