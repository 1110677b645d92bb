//! Source texts become modules, and what is answered for these becomes a line of text.
use herm_defs::{DefsFault, define};
use herm_lexer::{LexFault, lex};
use herm_parser::{ParseFault, parse};
use herm_resolve::{NameCode, NameFault, ResolveFault, resolve};
use herm_syntax::Module;
use std::alloc::{AllocError, Global};

/// Appends the modules of a source text. Whether it has a tree.
pub fn append_modules(
    alloc: Global,
    modules: &mut Vec<Module>,
    source: &str,
) -> Result<bool, AllocError> {
    let tokens = match lex(alloc, source.as_bytes()) {
        Ok(tokens) => tokens,
        Err(LexFault::Memory) => return Err(AllocError),
        Err(_) => return Ok(false),
    };
    match parse(alloc, tokens.as_slice()) {
        Ok(found) => {
            for module in found {
                modules.push(module)?;
            }
            Ok(true)
        }
        Err(ParseFault::Memory) => Err(AllocError),
        Err(_) => Ok(false),
    }
}

fn number_of(code: NameCode) -> u32 {
    match code {
        NameCode::Unknown => 14,
        NameCode::Twice => 15,
        NameCode::WrongType => 16,
        NameCode::NotCopyable => 17,
        NameCode::Unreachable => 18,
        NameCode::NoMain => 19,
        NameCode::TooMany => 20,
    }
}

/// Appends a fault as `module:F14@place` and a blank.
pub fn put_fault(
    alloc: Global,
    out: &mut String,
    module: u32,
    code: u32,
    place: usize,
) -> Result<(), AllocError> {
    let line = format!(in alloc; "{module}:F{code}@{place} ")?;
    out.push_str(line.as_str())?;
    Ok(())
}

fn faults_text(alloc: Global, faults: &[NameFault]) -> Result<String, AllocError> {
    let mut text = String::new(alloc);
    for fault in faults {
        let code = number_of(fault.code);
        let place = fault.span.start as usize;
        put_fault(alloc, &mut text, fault.module, code, place)?;
    }
    Ok(text)
}

/// What `resolve` answers for modules over the types that they define: its faults, or nothing for a program.
pub fn answer(alloc: Global, modules: &[Module]) -> Result<String, AllocError> {
    let types = match define(alloc, modules) {
        Ok(types) => types,
        Err(DefsFault::Memory) => return Err(AllocError),
        Err(DefsFault::Refused(_)) => return String::from_str(alloc, "no types"),
    };
    match resolve(alloc, modules, &types) {
        Ok(_) => Ok(String::new(alloc)),
        Err(ResolveFault::Refused(faults)) => {
            let text = faults_text(alloc, faults.as_slice())?;
            Ok(text)
        }
        Err(ResolveFault::Memory) => Err(AllocError),
    }
}

/// Whether the modules have types, and a program or faults of names and types: memory is wanting nowhere.
pub fn is_judged(alloc: Global, modules: &[Module]) -> bool {
    match define(alloc, modules) {
        Ok(types) => !matches!(resolve(alloc, modules, &types), Err(ResolveFault::Memory)),
        Err(_) => false,
    }
}
