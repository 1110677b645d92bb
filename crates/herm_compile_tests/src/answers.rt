//! What is said of files, as text.
use herm_base::Word;
use herm_compile::{Checked, CompileFault, Compiled, check, compile};
use herm_refusals::Fault;
use herm_typed::Outcome;
use herm_types::Fact;
use herm_words::{MissingFact, Reason};
use std::alloc::{AllocError, Global};

type Files = Vec<(Word, Vec<u8>)>;

fn files_of(alloc: Global, contents: &[&[u8]]) -> Result<Files, AllocError> {
    let mut files = Vec::new(alloc);
    for bytes in contents {
        let file = (Word::of(alloc, b"a.hm")?, bytes.to_vec(alloc)?);
        files.push(file)?;
    }
    Ok(files)
}

/// What is said of a file.
pub fn image_answer(alloc: Global, bytes: &[u8]) -> Result<String, AllocError> {
    image_answer_to(alloc, &[bytes])
}

/// What is said of files: their refusal, or each module of the image with the number of its instructions.
pub fn image_answer_to(alloc: Global, contents: &[&[u8]]) -> Result<String, AllocError> {
    let files = files_of(alloc, contents)?;
    match compile(alloc, files.as_slice()) {
        Ok(compiled) => module_counts(alloc, &compiled),
        Err(fault) => refusal(alloc, &fault),
    }
}

/// What a check says of files: their refusal, or the number of main and the name of each process.
pub fn check_answer_to(alloc: Global, contents: &[&[u8]]) -> Result<String, AllocError> {
    let files = files_of(alloc, contents)?;
    match check(alloc, files.as_slice()) {
        Ok(checked) => process_names(alloc, &checked),
        Err(fault) => refusal(alloc, &fault),
    }
}

fn process_names(alloc: Global, checked: &Checked) -> Result<String, AllocError> {
    let main = checked.program.main;
    let mut text = format!(in alloc; "main {main}|")?;
    for process in checked.program.processes.as_slice() {
        for byte in process.name.text.bytes() {
            text.push(*byte as char)?;
        }
        text.push('|')?;
    }
    Ok(text)
}

fn module_counts(alloc: Global, compiled: &Compiled) -> Result<String, AllocError> {
    let mut text = String::new(alloc);
    for module in compiled.image.modules() {
        for byte in module.name.bytes() {
            text.push(*byte as char)?;
        }
        let count = module.code.len();
        let counted = format!(in alloc; " {count}|")?;
        text.push_str(counted.as_str())?;
    }
    Ok(text)
}

/// The lines of a refusal.
fn refusal(alloc: Global, fault: &CompileFault) -> Result<String, AllocError> {
    match fault {
        CompileFault::Refused(faults) => {
            let mut text = String::new(alloc);
            for fault in faults.as_slice() {
                write_fault(alloc, &mut text, fault)?;
            }
            Ok(text)
        }
        CompileFault::Memory => Err(AllocError),
    }
}

/// The file's number, the place, the code, the words, and the missing fact.
fn write_fault(alloc: Global, text: &mut String, fault: &Fault) -> Result<(), AllocError> {
    let file = fault.file;
    let line = fault.line;
    let column = fault.column;
    let code = fault.code;
    let place = format!(in alloc; "{file}/{line}:{column}: F{code} ")?;
    text.push_str(place.as_str())?;
    for byte in fault.reason.words(alloc)?.bytes() {
        text.push(*byte as char)?;
    }
    match &fault.reason {
        Reason::Missing(missing) => write_missing(alloc, text, missing)?,
        Reason::Said(_) => {}
    }
    text.push('|')
}

/// The statement, the kind of fact, its variable, how many parts it goes down, and the numbers on the path to it.
fn write_missing(
    alloc: Global,
    text: &mut String,
    missing: &MissingFact,
) -> Result<(), AllocError> {
    let at = missing.stmt.0;
    let (kind, path) = match missing.fact() {
        Fact::Init(path) => ("init", path),
        Fact::Case(path, _) => ("case", path),
    };
    let variable = path.var.0;
    let down = path.parts.len();
    let fact = format!(in alloc; " ({at} {kind} {variable} {down}:")?;
    text.push_str(fact.as_str())?;
    for hop in missing.path(alloc)? {
        let number = hop.stmt.0;
        let how = if hop.outcome == Outcome::Ok { "" } else { "?" };
        let step = format!(in alloc; " {number}{how}")?;
        text.push_str(step.as_str())?;
    }
    text.push(')')
}
