//! Source texts become modules, and what is answered for these becomes a line of text.
use crate::shown::table_text;
use herm_defs::{DefCode, DefFault, DefsFault, define, definition_faults};
use herm_lexer::{LexFault, lex};
use herm_parser::{ParseFault, parse};
use herm_syntax::Module;
use std::alloc::{AllocError, Global};

/// Appends the modules of a source text. Whether it has a tree.
pub fn append_modules(
    alloc: Global,
    modules: &mut Vec<Module>,
    source: &str,
) -> Result<bool, AllocError> {
    let tokens = match lex(alloc, source.as_bytes()) {
        Ok(tokens) => tokens,
        Err(LexFault::Memory) => return Err(AllocError),
        Err(_) => return Ok(false),
    };
    match parse(alloc, tokens.as_slice()) {
        Ok(found) => {
            for module in found {
                modules.push(module)?;
            }
            Ok(true)
        }
        Err(ParseFault::Memory) => Err(AllocError),
        Err(_) => Ok(false),
    }
}

fn number_of(code: DefCode) -> u32 {
    match code {
        DefCode::Unknown => 6,
        DefCode::Twice => 7,
        DefCode::Cycle => 8,
        DefCode::Deep => 9,
        DefCode::BadKey => 10,
        DefCode::BadState => 11,
    }
}

/// Appends a fault as `module:F6@place` and a blank.
pub fn put_fault(
    alloc: Global,
    out: &mut String,
    module: u32,
    code: u32,
    place: usize,
) -> Result<(), AllocError> {
    let line = format!(in alloc; "{module}:F{code}@{place} ")?;
    out.push_str(line.as_str())?;
    Ok(())
}

fn faults_text(alloc: Global, faults: &[DefFault]) -> Result<String, AllocError> {
    let mut text = String::new(alloc);
    for fault in faults {
        let code = number_of(fault.code);
        let place = fault.span.start as usize;
        put_fault(alloc, &mut text, fault.module, code, place)?;
    }
    Ok(text)
}

/// The faults of modules, each with a blank behind it.
pub fn faults_alone(alloc: Global, modules: &[Module]) -> Result<String, AllocError> {
    let faults = definition_faults(alloc, modules)?;
    let text = faults_text(alloc, faults.as_slice())?;
    Ok(text)
}

/// What `define` answers: the faults, or the table behind `table`.
pub fn answer(alloc: Global, modules: &[Module]) -> Result<String, AllocError> {
    match define(alloc, modules) {
        Ok(table) => {
            let text = table_text(alloc, &table)?;
            Ok(text)
        }
        Err(DefsFault::Refused(faults)) => {
            let text = faults_text(alloc, faults.as_slice())?;
            Ok(text)
        }
        Err(DefsFault::Memory) => Err(AllocError),
    }
}
