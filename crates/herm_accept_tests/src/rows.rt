//! A row is a text with a mark `@` before each statement that lacks something, and then the lines that are due, each behind `!`.
use crate::answer::{answer_for, put_bytes, put_place};
use crate::examples::{BEFORE, BEHIND, DEFINITIONS};
use std::alloc::{AllocError, Global};
use std::process::Abort;
use std::test::Fail;

type Put = Result<(), AllocError>;

/// A source text, the lines that are due, and the places of its marks.
#[derive(Drop)]
pub struct Row {
    pub source: String,
    pub lines: String,
    places: String,
}

/// Appends a word of the text without its marks.
fn put_marked(alloc: Global, row: &mut Row, word: &str) -> Put {
    let mut is_first = true;
    for piece in word.as_bytes().split(|byte| *byte == b'@') {
        if !is_first {
            let place = row.source.len();
            put_place(alloc, &mut row.places, place)?;
        }
        put_bytes(&mut row.source, piece)?;
        is_first = false;
    }
    row.source.push(' ')?;
    Ok(())
}

fn put_due(row: &mut Row, word: &str) -> Put {
    row.lines.push(' ')?;
    row.lines.push_str(word)?;
    Ok(())
}

/// Appends what a line says.
fn put_row(alloc: Global, row: &mut Row, line: &str) -> Put {
    let mut is_due = false;
    for word in line.split_whitespace() {
        if word == "!" {
            is_due = true;
            row.lines.push('\n')?;
        } else if is_due {
            put_due(row, word)?;
        } else {
            put_marked(alloc, row, word)?;
        }
    }
    Ok(())
}

fn empty(alloc: Global) -> Row {
    Row {
        source: String::new(alloc),
        lines: String::new(alloc),
        places: String::new(alloc),
    }
}

/// A line of a whole program.
pub fn program_row(alloc: Global, line: &str) -> Result<Row, AllocError> {
    let mut row = empty(alloc);
    put_row(alloc, &mut row, line)?;
    Ok(row)
}

/// A line of statements, which stand in `main` behind its first one.
pub fn statement_row(alloc: Global, line: &str) -> Result<Row, AllocError> {
    let mut row = empty(alloc);
    row.source.push_str(DEFINITIONS)?;
    row.source.push_str(BEFORE)?;
    put_row(alloc, &mut row, line)?;
    row.source.push_str(BEHIND)?;
    Ok(row)
}

/// The text of a row lacks exactly what is due.
fn lacks_what_is_due(rt: &impl Abort, alloc: Global, row: &Row, line: &str) -> Result<(), Fail> {
    let found = answer_for(alloc, row.source.as_str())?;
    assert_eq!(rt; found.lines.as_str(), row.lines.as_str(), "{line}");
    assert_eq!(rt; found.places.as_str(), row.places.as_str(), "{line}");
    Ok(())
}

/// Each line of statements lacks exactly what is due. Gives the number of lines.
pub fn statements_lack_what_is_due(
    rt: &impl Abort,
    alloc: Global,
    table: &str,
) -> Result<u32, Fail> {
    let mut count: u32 = 0;
    for line in table.lines() {
        let row = statement_row(alloc, line)?;
        lacks_what_is_due(rt, alloc, &row, line)?;
        count = count.saturating_add(1);
    }
    Ok(count)
}

/// Each line of a program lacks exactly what is due. Gives the number of lines.
pub fn programs_lack_what_is_due(rt: &impl Abort, alloc: Global, table: &str) -> Result<u32, Fail> {
    let mut count: u32 = 0;
    for line in table.lines() {
        let row = program_row(alloc, line)?;
        lacks_what_is_due(rt, alloc, &row, line)?;
        count = count.saturating_add(1);
    }
    Ok(count)
}
