//! Rows of a statement and, behind the first `|`, its effects.
use crate::examples::{BEFORE, BEHIND};
use crate::shown::effects_text;
use herm_defs::{DefsFault, define};
use herm_lexer::{LexFault, lex};
use herm_parser::{ParseFault, parse};
use herm_resolve::{ResolveFault, resolve};
use herm_syntax::Module;
use herm_typed::{TypedForm, TypedProcess};
use herm_types::TypeTable;
use std::alloc::{AllocError, Global};
use std::process::Abort;
use std::test::Fail;

/// The modules of a source text, none where it has no tree.
fn modules_of(alloc: Global, source: &str) -> Result<Vec<Module>, AllocError> {
    let tokens = match lex(alloc, source.as_bytes()) {
        Ok(tokens) => tokens,
        Err(LexFault::Memory) => return Err(AllocError),
        Err(_) => return Ok(Vec::new(alloc)),
    };
    match parse(alloc, tokens.as_slice()) {
        Ok(modules) => Ok(modules),
        Err(ParseFault::Memory) => Err(AllocError),
        Err(_) => Ok(Vec::new(alloc)),
    }
}

/// The effects of the first statement of a process.
fn first_effects(
    alloc: Global,
    types: &TypeTable,
    process: &TypedProcess,
) -> Result<String, AllocError> {
    match process.body.first() {
        None => String::from_str(alloc, "no statement"),
        Some(statement) => { effects_text(alloc, types, process.vars.as_slice(), &statement.form) }
    }
}

/// The effects of the first statement of the first process of a source text.
fn effects_in(alloc: Global, source: &str) -> Result<String, AllocError> {
    let modules = modules_of(alloc, source)?;
    let types = match define(alloc, modules.as_slice()) {
        Ok(types) => types,
        Err(DefsFault::Memory) => return Err(AllocError),
        Err(DefsFault::Refused(_)) => return String::from_str(alloc, "no types"),
    };
    let program = match resolve(alloc, modules.as_slice(), &types) {
        Ok(program) => program,
        Err(ResolveFault::Memory) => return Err(AllocError),
        Err(ResolveFault::Refused(_)) => return String::from_str(alloc, "no program"),
    };
    match program.processes.first() {
        None => String::from_str(alloc, "no process"),
        Some(process) => first_effects(alloc, &types, process),
    }
}

/// The effects of a statement among the variables of the example.
fn effects_of(alloc: Global, statement: &str) -> Result<String, AllocError> {
    let mut source = String::new(alloc);
    source.push_str(BEFORE)?;
    source.push_str(statement)?;
    source.push_str(BEHIND)?;
    effects_in(alloc, source.as_str())
}

/// The statement of each line has the effects behind the first `|`. Gives the number of lines.
pub fn statements_have_their_effects(
    rt: &impl Abort,
    alloc: Global,
    table: &str,
) -> Result<u32, Fail> {
    let mut count: u32 = 0;
    for row in table.lines() {
        if let Some((statement, due)) = row.split_once('|') {
            let found = effects_of(alloc, statement)?;
            assert_eq!(rt; found.as_str(), due, "{statement}");
            count = count.saturating_add(1);
        }
    }
    Ok(count)
}

/// A form without parts needs nothing, and no outcome changes anything.
pub fn has_no_effects(rt: &impl Abort, alloc: Global, form: &TypedForm) -> Result<(), Fail> {
    let modules = modules_of(alloc, "")?;
    if let Ok(types) = define(alloc, modules.as_slice()) {
        let found = effects_text(alloc, &types, &[], form)?;
        assert_eq!(rt; found.as_str(), "");
        return Ok(());
    }
    assert!(rt; false, "no types");
    Ok(())
}
