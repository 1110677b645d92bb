//! Rows of modules with marks `@NN` where a fault of this code must come. Between two modules of a file stands `|`, between two
//! files `~`. Each module is one of definitions, but where it begins with `process`.
use crate::answer::{answer, append_modules, put_fault};
use crate::examples::{BEFORE, BEHIND, DEFINITIONS};
use herm_syntax::Module;
use std::alloc::{AllocError, Global};
use std::process::Abort;
use std::test::Fail;

type Put = Result<(), AllocError>;

/// The code that no place has: there is no `main`.
const NO_MAIN: u32 = 19;

/// A source text, and the faults that its marks say.
#[derive(Drop)]
struct Unmarked {
    source: String,
    due: String,
    module: u32,
}

fn put_bytes(out: &mut String, bytes: &[u8]) -> Put {
    for byte in bytes {
        out.push(*byte as char)?;
    }
    Ok(())
}

fn put_due(alloc: Global, file: &mut Unmarked, code: u32) -> Put {
    if code == NO_MAIN {
        return put_fault(alloc, &mut file.due, 0, code, 0);
    }
    let place = file.source.len();
    put_fault(alloc, &mut file.due, file.module, code, place)
}

/// Appends what stands behind a mark's sign: two digits, and then text.
fn put_marked(alloc: Global, file: &mut Unmarked, piece: &[u8]) -> Put {
    if let [tens, ones, rest @ ..] = piece {
        let code = (*tens % 16) as u32 * 10 + (*ones % 16) as u32;
        put_due(alloc, file, code)?;
        put_bytes(&mut file.source, rest)?;
    }
    Ok(())
}

fn put_pieces(alloc: Global, file: &mut Unmarked, text: &[u8]) -> Put {
    let mut is_first = true;
    for piece in text.split(|byte| *byte == b'@') {
        if is_first {
            put_bytes(&mut file.source, piece)?;
        } else {
            put_marked(alloc, file, piece)?;
        }
        is_first = false;
    }
    Ok(())
}

/// Appends one module.
fn put_module(alloc: Global, file: &mut Unmarked, text: &[u8]) -> Put {
    if text.starts_with(b"process") {
        put_pieces(alloc, file, text)?;
    } else {
        file.source.push_str("definitions d { ")?;
        put_pieces(alloc, file, text)?;
        file.source.push_str(" }")?;
    }
    file.source.push('\n')?;
    file.module = file.module.saturating_add(1);
    Ok(())
}

/// The modules of the example and of a row, and the faults that are due, `no tree` where one of its files has none.
pub fn modules_of(alloc: Global, row: &str) -> Result<(Vec<Module>, String), AllocError> {
    let mut modules = Vec::new(alloc);
    let mut file = Unmarked {
        source: String::new(alloc),
        due: String::new(alloc),
        module: 1,
    };
    append_modules(alloc, &mut modules, DEFINITIONS)?;
    for text in row.as_bytes().split(|byte| *byte == b'~') {
        file.source = String::new(alloc);
        for module in text.split(|byte| *byte == b'|') {
            put_module(alloc, &mut file, module)?;
        }
        if !append_modules(alloc, &mut modules, file.source.as_str())? {
            file.due.push_str("no tree")?;
        }
    }
    let due = std::mem::replace(&mut file.due, String::new(alloc));
    Ok((modules, due))
}

/// A row of modules has the faults of its marks.
pub fn has_its_faults(rt: &impl Abort, alloc: Global, row: &str) -> Result<(), Fail> {
    let (modules, due) = modules_of(alloc, row)?;
    let found = answer(alloc, modules.as_slice())?;
    assert_eq!(rt; found.as_str(), due.as_str(), "{row}");
    Ok(())
}

/// A row of statements, as those of a process.
fn process_of(alloc: Global, row: &str) -> Result<String, AllocError> {
    let mut text = String::new(alloc);
    text.push_str(BEFORE)?;
    text.push_str(row)?;
    text.push_str(BEHIND)?;
    Ok(text)
}

/// Each line of modules has the faults of its marks. Gives the number of lines.
pub fn programs_have_their_faults(
    rt: &impl Abort,
    alloc: Global,
    table: &str,
) -> Result<u32, Fail> {
    let mut count: u32 = 0;
    for row in table.lines() {
        has_its_faults(rt, alloc, row)?;
        count = count.saturating_add(1);
    }
    Ok(count)
}

/// Each line of statements has the faults of its marks. Gives the number of lines.
pub fn statements_have_their_faults(
    rt: &impl Abort,
    alloc: Global,
    table: &str,
) -> Result<u32, Fail> {
    let mut count: u32 = 0;
    for row in table.lines() {
        let text = process_of(alloc, row)?;
        has_its_faults(rt, alloc, text.as_str())?;
        count = count.saturating_add(1);
    }
    Ok(count)
}
